//! How many clocks of MIDI a beat and a frame have.

/// How many clocks a beat has (MIDI 1.0, timing clock).
pub const BEAT_CLOCKS: u8 = 24;

/// How many clocks a frame has.
pub const FRAME_CLOCKS: u8 = 6;
