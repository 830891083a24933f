//! The limits of a screen's bytes, how many keys come at once, and how far some keys reach.

use orca_base::limits::{MAX_DIGITS, MAX_HANDS, MAX_SCREEN_COLUMNS, RULE_NAME_BYTES, SHORT_BYTES};

/// The most bytes of the name of an operator.
pub const NAME_BYTES: usize = 14;

/// The most bytes of the warnings: `no midi`, `no udp`, `no osc`, `no journal`, and how many hands are away,
/// with a space after each.
pub const WARNING_BYTES: usize = 8 + 7 + 7 + 11 + MAX_DIGITS + 6;

/// The most bytes of the status line before the warnings: eight numbers, the five letters of a pause, the
/// beat, the six letters of typing that goes on, the five letters of a text that is pasted, and the bytes
/// between them.
pub const FRONT_BYTES: usize = 8 * MAX_DIGITS + 5 + 1 + 6 + 5 + 14;

/// The most cells of the status line: those, the warnings, the name of a rule, and a glyph with its name and
/// the spaces between them.
pub const STATUS_CELLS: usize = FRONT_BYTES + WARNING_BYTES + RULE_NAME_BYTES + NAME_BYTES + 3;

/// How many messages are kept of what a frame sent: each takes a cell of a row at least.
pub const TOLD_MESSAGES: usize = MAX_SCREEN_COLUMNS as usize;

/// The most bytes of the words of a message: a sign, and the bytes that it carries.
pub const MESSAGE_BYTES: usize = 2 + SHORT_BYTES;

/// The most bytes of what was sent, in words: those of a row, and a message that goes over its end.
pub const SENT_BYTES: usize = MAX_SCREEN_COLUMNS as usize + 1 + MESSAGE_BYTES;

/// The fewest rows of a screen that tells what was sent.
pub const TRAFFIC_ROWS: u16 = 3;

/// The pages of help.
pub const HELP_PAGES: u8 = 2;

/// The most digits of a number in a form that a terminal reads.
pub const FORM_DIGITS: usize = 3;

/// The most bytes before the cells of a painted row: `ESC [ row ; 1 H` and `ESC [ 0 m`.
pub const ROW_BYTES: usize = 2 + FORM_DIGITS + 3 + 4;

/// The most bytes of a painted cell: `ESC [ 0 m`, `ESC [ style m` and the byte.
pub const CELL_BYTES: usize = 4 + 3 + FORM_DIGITS + 1;

/// The greatest style of a form that a terminal reads.
pub const MAX_STYLE: u8 = u8::MAX;

/// The most keys that a byte gives: Escape, `O`, and its own one.
pub const MAX_STROKES: usize = 3;

/// The most cursors of other hands.
pub const MAX_CURSORS: usize = MAX_HANDS as usize - 1;

/// How many places lie between two marks of the ruler. Keys that leap go as far.
pub const RULER_PLACES: u16 = 8;

/// By how many beats a minute the keys of a great change of tempo change it.
pub const FAR_BEATS: u16 = 10;
