/// A note that sounds.
#[derive(Clone, Copy, Debug, PartialEq, Eq)]
pub struct Note {
    /// The MIDI channel, 0 to 15.
    pub channel: u8,
    /// The MIDI key, 0 to 127.
    pub key: u8,
    /// The tick at which it ends. A tick and a length always fit.
    pub due: u64,
}
