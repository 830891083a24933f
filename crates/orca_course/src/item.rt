use crate::Ending;

/// What the calls so far came to.
#[derive(Clone, Copy, Debug, PartialEq, Eq)]
pub struct Losses {
    /// The last attach of the MIDI port has failed, or its last send.
    pub midi: bool,
    /// So of the UDP port.
    pub udp: bool,
    /// So of the OSC port.
    pub osc: bool,
    /// A begin or an append of a file has failed.
    pub journal: bool,
    /// The last save has failed.
    pub unsaved: bool,
    /// A call of the files has failed: a load, a save, a begin, an append, a claim or a removal.
    pub unstored: bool,
}

/// What a performer is given, one after another. Moments are in microseconds.
#[derive(Clone, Copy, Debug, PartialEq, Eq)]
pub enum Item {
    /// The performance begins: what is kept of it begins.
    Start,
    /// The performance has begun: what the calls so far came to.
    Open(Losses),
    /// A byte of a hand, which came at a moment.
    Byte { hand: u8, at: u64, byte: u8 },
    /// A moment is due, and nothing came before it.
    Due { at: u64 },
    /// All that an answer brought was given: what is kept of it is written.
    Settle,
    /// The answer is over: what the calls so far came to.
    Over(Losses),
    /// The performance has ended so: what comes last.
    Ended(Ending),
}
