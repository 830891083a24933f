//! The limits of what browsers and their players send. Code and definitions name them.

/// The most bytes of the head of a request, with its empty line.
pub const MAX_HEAD_BYTES: usize = 8_192;

/// The most header fields of a head.
pub const MAX_FIELDS: usize = 64;

/// The fewest letters of a key. Of 64 letters each, 12 are 72 bits.
pub const MIN_KEY_LETTERS: usize = 12;

/// The most letters of a key.
pub const MAX_KEY_LETTERS: usize = 64;

/// The most bytes of a message of keys.
pub const MAX_MESSAGE_BYTES: usize = 1_024;

/// The most bytes of a frame that comes: a message, and the longest header that a frame has (RFC
/// 6455, section 5.2).
pub const FRAME_BYTES: usize = MAX_MESSAGE_BYTES + 14;

/// The most bytes of a control frame that is sent: 125 (RFC 6455, section 5.5) and the longest
/// header.
pub const REST_BYTES: usize = 139;

/// How many bytes of the rest of a message that was given up are written at once.
pub const FILL_BYTES: usize = 512;

/// How many frames are looked at in one read, so that no hand holds the others up.
pub const FRAMES_A_READ: u8 = 16;

/// The most bytes of MIDI in a message: their digits are twice as many.
pub const SOUND_BYTES: usize = 256;
