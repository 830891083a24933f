/// A MIDI message of three bytes, and the tick at which it is sent.
#[derive(Clone, Copy, Debug, PartialEq, Eq)]
pub struct Timed {
    /// The tick, in units of delta time from the beginning.
    pub tick: u32,
    /// The status byte and two data bytes.
    pub bytes: [u8; 3],
}
