/// A note that sounds: an On that has no Off after it.
#[derive(Clone, Copy, Debug, PartialEq, Eq)]
pub struct Voice {
    /// The MIDI channel, 0 to 15.
    pub channel: u8,
    /// The MIDI key, 0 to 127.
    pub key: u8,
    /// The velocity, 0 to 127.
    pub velocity: u8,
    /// The number of its first sample, counted from the start of the run.
    pub first: u32,
}
