use crate::{Glyph, Short};

/// What an operator sends.
#[derive(Clone, Copy, Debug, PartialEq, Eq)]
pub enum Event {
    /// A note.
    Note {
        /// The MIDI channel, 0 to 15.
        channel: u8,
        /// The MIDI key, 0 to 127.
        key: u8,
        /// The velocity, 7 to 127.
        velocity: u8,
        /// How many frames the note sounds, 1 to 35.
        length: u8,
        /// Whether it first ends every note of its channel.
        mono: bool,
    },
    /// A control change.
    Control {
        /// The MIDI channel, 0 to 15.
        channel: u8,
        /// The number of the controller, 0 to 35.
        control: u8,
        /// The value, 0 to 127.
        value: u8,
    },
    /// A pitch bend.
    Bend {
        /// The MIDI channel, 0 to 15.
        channel: u8,
        /// The low seven bits.
        lsb: u8,
        /// The high seven bits.
        msb: u8,
    },
    /// A datagram of plain text.
    Udp {
        /// The bytes of the text, 1 to 16.
        text: Short,
    },
    /// An OSC message.
    Osc {
        /// The letter or digit of the address.
        path: Glyph,
        /// The values, at most 35.
        values: Short,
    },
}
