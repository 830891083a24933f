//! The messages of a clock (MIDI 1.0, system real time messages). Each is one byte.

/// Timing Clock.
pub const TIMING_CLOCK: u8 = 0xF8;

/// Start: play from the beginning.
pub const START: u8 = 0xFA;

/// Continue: go on from where it was stopped.
pub const CONTINUE: u8 = 0xFB;

/// Stop.
pub const STOP: u8 = 0xFC;
