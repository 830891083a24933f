use crate::{Glyph, Short};

/// What is handed out: an event's message, or the end of a note.
#[derive(Clone, Copy, Debug, PartialEq, Eq)]
pub enum Message {
    /// A note starts.
    On {
        /// The MIDI channel, 0 to 15.
        channel: u8,
        /// The MIDI key, 0 to 127.
        key: u8,
        /// The velocity, 7 to 127.
        velocity: u8,
    },
    /// A note ends.
    Off {
        /// The MIDI channel, 0 to 15.
        channel: u8,
        /// The MIDI key, 0 to 127.
        key: u8,
    },
    /// A control change.
    Control {
        /// The MIDI channel, 0 to 15.
        channel: u8,
        /// The number of the controller, 0 to 127.
        control: u8,
        /// The value, 0 to 127.
        value: u8,
    },
    /// A pitch bend.
    Bend {
        /// The MIDI channel, 0 to 15.
        channel: u8,
        /// The low seven bits.
        lsb: u8,
        /// The high seven bits.
        msb: u8,
    },
    /// A datagram of plain text.
    Udp {
        /// The bytes of the text.
        text: Short,
    },
    /// An OSC message.
    Osc {
        /// The letter or digit of the address.
        path: Glyph,
        /// The values, at most 35.
        values: Short,
    },
}
