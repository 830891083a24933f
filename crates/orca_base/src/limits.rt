//! The limits of this profile. Code and definitions name them, so that each can change in one line.

/// The most rows of a grid.
pub const MAX_ROWS: u16 = 1_024;

/// The most columns of a grid.
pub const MAX_COLUMNS: u16 = 1_024;

/// The most cells of a grid.
pub const MAX_CELLS: usize = MAX_ROWS as usize * MAX_COLUMNS as usize;

/// How many columns one word of live bits stands for: one for each bit.
pub const WORD_COLUMNS: u16 = 64;

/// The words of a row of the largest grid.
pub const ROW_WORDS: usize = MAX_COLUMNS as usize / WORD_COLUMNS as usize;

/// The words of all rows of the largest grid.
pub const LIVE_WORDS: usize = MAX_ROWS as usize * ROW_WORDS;

/// The number of values of a base-36 glyph, and of the variables of a frame.
pub const BASE: u8 = 36;

/// The most bytes of a [`Wire`](crate::Wire).
pub const WIRE_BYTES: usize = 192;

/// The greatest MIDI channel, counted from 0 (MIDI 1.0, channel voice messages).
pub const MAX_CHANNEL: u8 = 15;

/// The greatest value of a MIDI data byte, which has seven bits (MIDI 1.0, data bytes).
pub const MAX_DATA: u8 = 127;

/// The most values of an OSC message: the greatest base-36 value.
pub const MAX_VALUES: usize = BASE as usize - 1;

/// The most bytes of a [`Short`](crate::Short): a comma and the tag of each value of an OSC message.
pub const SHORT_BYTES: usize = 1 + MAX_VALUES;

/// The greatest octave of a note, from 0.
pub const MAX_OCTAVE: u8 = 9;

/// The most bytes of a datagram of plain text.
pub const MAX_TEXT: u8 = 16;

/// The most bytes of an OSC message: 4 of the address, those of the type tags, a comma and a letter for
/// each value with up to 4 zero bytes, and 4 for each value.
pub const MAX_OSC_BYTES: usize = 4 + ((1 + MAX_VALUES) / 4 + 1) * 4 + 4 * MAX_VALUES;

/// How far one deed may reach from its operator, in rows or columns.
pub const MAX_REACH: i32 = 65_536;

/// How far a comment locks, in columns.
pub const COMMENT_REACH: u16 = 255;

/// How far a jumper looks for the end of its chain, in rows or columns.
pub const JUMP_REACH: u16 = 256;

/// The most bytes of a file that is loaded.
pub const MAX_FILE_BYTES: usize = 16_777_216;

/// The most bytes of a room, and the most that is loaded of one.
pub const MAX_ROOM_BYTES: usize = 268_435_456;

/// The most decimal digits of a number, in words and in scripts.
pub const MAX_DIGITS: usize = 10;

/// The least velocity of a note that starts. A velocity of 0 would end it (MIDI 1.0, note on).
pub const MIN_VELOCITY: u8 = 7;

/// The velocity of a note that is given none: the loudest.
pub const DEFAULT_VELOCITY: u8 = MAX_DATA;

/// The most deeds of one visit.
pub const MAX_DEEDS: usize = 512;

/// The most steps of one operator's deeds, besides the looks that decide whether it works.
pub const MAX_STEPS: u64 = 560;

/// The most notes that sound at once: one for each channel and key.
pub const MAX_NOTES: usize = (MAX_CHANNEL as usize + 1) * (MAX_DATA as usize + 1);

/// The most events of a frame: one for each cell.
pub const MAX_EVENTS: usize = MAX_CELLS;

/// The most messages of a frame: the end of each note, and two for each event.
pub const MAX_MESSAGES: usize = MAX_NOTES + 2 * MAX_EVENTS;

/// The seed of a run that is given none.
pub const DEFAULT_SEED: u32 = 1;

/// The most steps of one visit: its looks, and those of its operator's deeds.
pub const MAX_VISIT_STEPS: u64 = 600;

/// The most entries of a history.
pub const MAX_HISTORY: u32 = 4_000_000;

/// The most entries of the history of a session that is given no limit.
pub const DEFAULT_HISTORY: u32 = 1_000_000;

/// How many of the newest entries of a history keep a patch, by which they can be undone.
pub const KEPT_PATCHES: u32 = 1_024;

/// Among how many of the last entries of a history a hand looks for an edit to take back.
pub const RETRACTED_ENTRIES: u32 = 4_096;

/// The most cells that one entry of a history touches: those of two grids.
pub const MAX_TOUCHED: u32 = 2 * MAX_CELLS as u32;

/// The most cells that the entries with patches may have touched together.
pub const KEPT_TOUCHED: u64 = 67_108_864;

/// The most checkpoints of a history.
pub const MAX_CHECKPOINTS: u32 = 65;

/// How many entries lie between two checkpoints, until there are too many of them.
pub const FIRST_SPACING: u32 = 256;

/// What each command costs at most, in steps, besides what it does to the grid.
pub const COMMAND_PRICE: u64 = 8;

/// What each operator costs a frame at most, in steps.
pub const OPERATOR_PRICE: u64 = 1_200;

/// What each touched cell costs an edit at most, in steps.
pub const TOUCH_PRICE: u64 = 4;

/// How many changes a patch keeps without memory of its own.
pub const INLINE_CHANGES: usize = 8;

/// The most players at once.
pub const MAX_HANDS: u8 = 8;

/// The most bytes of one arrival.
pub const ARRIVAL_BYTES: usize = 64;

/// The most bytes that a sequence of a key may hold between its beginning and its end.
pub const SEQUENCE_BYTES: u8 = 12;

/// How many moments the key of going back takes.
pub const BACK_MOMENTS: u32 = 16;

/// The fewest rows of a screen: one of the grid, and the status line.
pub const MIN_SCREEN_ROWS: u16 = 2;

/// The most rows of a screen.
pub const MAX_SCREEN_ROWS: u16 = 100;

/// The fewest columns of a screen.
pub const MIN_SCREEN_COLUMNS: u16 = 8;

/// The most columns of a screen.
pub const MAX_SCREEN_COLUMNS: u16 = 256;

/// The greatest tempo, in beats a minute.
pub const MAX_BPM: u16 = 999;

/// The tempo of a performance that is given none, in beats a minute.
pub const DEFAULT_BPM: u16 = 120;

/// How many frames a beat has.
pub const BEAT_FRAMES: u64 = 4;

/// The microseconds of a minute.
pub const MINUTE_MICROSECONDS: u64 = 60_000_000;

/// The most polls of one performance.
pub const MAX_POLLS: u64 = 1 << 40;

/// The most bytes of the name of a rule that refuses a command.
pub const RULE_NAME_BYTES: usize = 13;
