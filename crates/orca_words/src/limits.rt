//! The limits of the words that no other crate names.

/// The rows of a screen that is given none.
pub const DEFAULT_SCREEN_ROWS: u16 = 24;

/// The columns of a screen that is given none.
pub const DEFAULT_SCREEN_COLUMNS: u16 = 80;

/// The most frames of a generated run.
pub const MAX_MADE_FRAMES: u32 = 100_000;

/// The least tempo of a song, in beats a minute. A MIDI file keeps the microseconds of a beat in
/// three bytes (Standard MIDI Files 1.0, Set Tempo), so they are at most 16,777,215. At 3 beats a
/// minute they would be 20,000,000.
pub const MIN_SONG_BPM: u16 = 4;
