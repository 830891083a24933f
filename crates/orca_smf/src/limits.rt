//! The limits of a song.

/// The most bytes of a track that is written.
pub const MAX_TRACK_BYTES: usize = 16_777_216;

/// The greatest delta time: it has four bytes of seven bits (Standard MIDI Files 1.0, delta times).
pub const MAX_DELTA: u32 = 268_435_455;
