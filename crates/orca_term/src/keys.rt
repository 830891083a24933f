//! The keys of a terminal, by the bytes that it sends.

ghost use Rattle.std.specs.Prelude.{◌≡◌, ◌+◌, ◌≤◌, ◌∷◌, ◌++◌, false, true, Bool, List, length};
ghost use Rattle.orca_term.specs.Keys.{Extends, Item, Byte, Due, turn, turn_outside, turn_alone, turn_after_escape, turn_after_o, turn_at_end, turn_in_console, turn_inside, opens_console as opens, pending_with, after, awaits, ends_as, key_at_end as key_of_end, keys_from};

use crate::Strokes;
use crate::limits::MAX_STROKES;
use crate::tables::{console_key, key_of, key_of_sequence, single_key};
use orca_base::limits::SEQUENCE_BYTES;
use orca_base::{Glyph, Inline};
use std::marker::Model;

/// ESC, which begins a sequence.
const ESCAPE: u8 = 0x1B;

/// The most bytes that are collected of a sequence.
const ROOM: usize = SEQUENCE_BYTES as usize;

/// What an arrow does.
#[derive(Clone, Copy, Debug, PartialEq, Eq)]
pub enum Deed {
    /// Moves the cursor.
    Move,
    /// Stretches the selection.
    Stretch,
    /// Slides the selected block.
    Slide,
    /// Makes the grid larger or smaller.
    Grow,
}

/// The side to which an arrow points.
#[derive(Clone, Copy, Debug, PartialEq, Eq)]
pub enum Side {
    /// To the first row.
    Up,
    /// To the last row.
    Down,
    /// To the first column.
    Left,
    /// To the last column.
    Right,
}

/// A key of the terminal.
#[derive(Clone, Copy, Debug, PartialEq, Eq)]
pub enum Key {
    /// A glyph.
    Glyph(Glyph),
    /// An arrow, by itself or with Shift, Alt and Control; and Home, End, PageUp, PageDown and the wheel of
    /// the mouse, which are arrows that reach further.
    Arrow {
        /// What it does.
        deed: Deed,
        /// The side to which it points.
        side: Side,
        /// How far it reaches, in places.
        by: u16,
    },
    /// Backspace, and the byte that Delete was once.
    Rub,
    /// The space bar.
    Pause,
    /// Control and C.
    Copy,
    /// Control and X.
    Cut,
    /// Control and V.
    Paste,
    /// Control and Z.
    Undo,
    /// Control and Y.
    Redo,
    /// Control and U: takes back the hand's own last edit.
    Retract,
    /// Control and B.
    Back,
    /// Control and R.
    Reset,
    /// Control and E: ends all notes.
    Hush,
    /// Control and F.
    Step,
    /// Control and S.
    Save,
    /// Control and Q.
    Quit,
    /// The escape key.
    Escape,
    /// Control and A: selects the whole grid.
    All,
    /// Control and G: what the picture shows beyond the grid and the status line.
    Guide,
    /// Tab and Insert: whether the cursor goes on after a glyph that is typed.
    Append,
    /// Delete.
    Erase,
    /// Control and K: fills the selection with the glyph at the cursor.
    Fill,
    /// F1, and Control and P: the next page of help, or none.
    Help,
    /// F2, and Control and T: whether the picture tells what is sent.
    Traffic,
    /// Control and L: paints all rows.
    Redraw,
    /// So many beats a minute less.
    Slower(u16),
    /// So many beats a minute more.
    Faster(u16),
    /// The first button of the mouse is pressed on a cell of the screen.
    Press {
        /// The row, counted from 0.
        row: u16,
        /// The column, counted from 0.
        column: u16,
    },
    /// The mouse is moved to a cell of the screen while its first button is held.
    Drag {
        /// The row, counted from 0.
        row: u16,
        /// The column, counted from 0.
        column: u16,
    },
    /// The terminal tells its size.
    Screen {
        /// The number of its rows.
        rows: u16,
        /// The number of its columns.
        columns: u16,
    },
    /// A text that is pasted begins.
    PasteBegin,
    /// The text ends. Outside of one this key and the two below do nothing.
    PasteEnd,
    /// A line feed, which ends a row of the text.
    Line,
    /// A carriage return, which does too.
    Return,
}

/// What the bytes so far have begun.
#[derive(Clone, Copy, Debug, PartialEq, Eq)]
pub enum Pending {
    /// Nothing.
    Nothing,
    /// An ESC that nothing follows so far.
    Lone,
    /// ESC and `O`, which wait for a letter.
    Single,
    /// A sequence, with the bytes that were collected after `ESC [`.
    Sequence(Inline<ROOM>),
    /// A sequence with more bytes than are collected.
    Overlong,
    /// ESC and two brackets, which wait for a letter of the Linux console.
    Console,
}

/// What a byte gives.
#[derive(Debug, Drop)]
pub(crate) struct Turn {
    /// The keys that it ends.
    keys: Strokes,
    /// What is pending after it.
    pending: Pending,
}

/// The reader of keys. A contract sees what is pending.
#[derive(Clone, Copy, Debug, PartialEq, Eq)]
pub struct Keys {
    pending: Pending,
}

impl Model for Keys {
    ghost use Rattle.orca_term.specs.declared.keys.Pending.{Pending};

    ghost Value = { Pending };

    ghost view = { λ keys. keys.pending };

    ghost inverse = { λ p. record { pending = p } };
}

impl Keys {
    /// Nothing is pending. What is read from here on gives full keys that extend the plain ones.
    #[tactic(auto, using(crate::proofs::Extension::keys_extend))]
    pub fn start() -> Keys
        ensures pending { result ≡ Pending.Nothing }
        ensures extends { (items : List Item)
            → Extends items (keys_from false result items) (keys_from true result items) }
    {
        Keys {
            pending: Pending::Nothing,
        }
    }

    /// Reads a byte, and gives the plain keys that it ends.
    #[tactic(auto, unfolding(crate::specs::Keys::keys_from))]
    pub fn feed(&mut self, byte: u8) -> Strokes
        ensures keys { result ≡ (turn false self.old (Byte byte)).keys }
        ensures pending { self.new ≡ (turn false self.old (Byte byte)).pending }
        ensures all { (items : List Item) → keys_from false self.old (Byte byte ∷ items)
            ≡ result ++ keys_from false self.new items }
    {
        let full = false;
        self.follow(full, byte)
    }

    /// Reads a byte, and gives the full keys that it ends.
    #[tactic(auto, unfolding(crate::specs::Keys::keys_from))]
    pub fn feed_full(&mut self, byte: u8) -> Strokes
        ensures keys { result ≡ (turn true self.old (Byte byte)).keys }
        ensures pending { self.new ≡ (turn true self.old (Byte byte)).pending }
        ensures all { (items : List Item) → keys_from true self.old (Byte byte ∷ items)
            ≡ result ++ keys_from true self.new items }
    {
        let full = true;
        self.follow(full, byte)
    }

    /// Nothing came for a while: an ESC that stands alone is the escape key, and ESC and `O` are both keys. A
    /// sequence that has begun stays, but for one of the console. Plain keys and full ones are the same here,
    /// but that the plain ones never wait after an `O` or a second bracket.
    #[tactic(auto, unfolding(crate::specs::Keys::turn, crate::specs::Keys::keys_from))]
    pub fn due(&mut self) -> Strokes
        ensures keys { (full : Bool) → result ≡ (turn full self.old Due).keys }
        ensures pending { (full : Bool) → self.new ≡ (turn full self.old Due).pending }
        ensures all { (full : Bool) (items : List Item) → keys_from full self.old (Due ∷ items)
            ≡ result ++ keys_from full self.new items }
    {
        match self.pending {
            Pending::Lone => {
                self.pending = Pending::Nothing;
                Strokes::of(Some(Key::Escape))
            }
            Pending::Single => {
                self.pending = Pending::Nothing;
                Strokes::escape_and_o()
            }
            Pending::Console => {
                self.pending = Pending::Nothing;
                Strokes::none()
            }
            _ => Strokes::none(),
        }
    }

    /// Reads a byte, with full keys or with plain ones.
    #[tactic(auto, unfolding(crate::specs::Keys::turn))]
    fn follow(&mut self, full: bool, byte: u8) -> Strokes
        ensures keys { result ≡ (turn full self.old (Byte byte)).keys }
        ensures pending { self.new ≡ (turn full self.old (Byte byte)).pending }
    {
        let turn = match self.pending {
            Pending::Nothing => read_outside(full, byte),
            Pending::Lone => read_after_escape(full, byte),
            Pending::Single => read_after_o(full, byte),
            Pending::Console => read_in_console(full, byte),
            pending => read_inside(full, pending, byte),
        };
        self.pending = turn.pending;
        turn.keys
    }
}

/// A byte where nothing is pending.
fn read_outside(full: bool, byte: u8) -> Turn
    ensures turn { result ≡ turn_outside full byte }
    ensures few { length result.keys ≤ 1 }
{
    if byte == ESCAPE {
        return awaits(Pending::Lone);
    }
    ends_as(key_of(full, byte))
}

/// A byte after a lone ESC.
fn read_after_escape(full: bool, byte: u8) -> Turn
    ensures { result ≡ turn_after_escape full byte }
{
    match byte {
        b'[' => awaits(Pending::Sequence(Inline::empty())),
        ESCAPE => Turn {
            keys: Strokes::of(Some(Key::Escape)),
            pending: Pending::Lone,
        },
        _ => read_alone(full, byte),
    }
}

/// A byte after a lone ESC that begins no sequence of it, and is no ESC.
fn read_alone(full: bool, byte: u8) -> Turn
    ensures { result ≡ turn_alone full byte }
{
    if !full {
        return read_outside(full, byte);
    }
    if byte == b'O' {
        return awaits(Pending::Single);
    }
    after(Strokes::of(Some(Key::Escape)), read_outside(full, byte))
}

/// A byte after ESC and `O`.
fn read_after_o(full: bool, byte: u8) -> Turn
    ensures { result ≡ turn_after_o full byte }
{
    match single_key(byte) {
        Some(key) => ends_as(key),
        None => after(Strokes::escape_and_o(), read_outside(full, byte)),
    }
}

/// A byte of a sequence.
fn read_inside(full: bool, pending: Pending, byte: u8) -> Turn
    ensures { result ≡ turn_inside full pending byte }
{
    match byte {
        0x20..=0x3F => awaits(collect(pending, byte)),
        0x40..=0x7E => read_at_end(full, pending, byte),
        _ => read_outside(full, byte),
    }
}

/// The end of a sequence. After a second bracket a letter of the console is waited for.
fn read_at_end(full: bool, pending: Pending, byte: u8) -> Turn
    ensures { result ≡ turn_at_end full pending byte }
{
    if opens_console(full, &pending, byte) {
        return awaits(Pending::Console);
    }
    ends_as(key_at_end(full, pending, byte))
}

/// Whether a byte is a second bracket right after the first one, with full keys.
fn opens_console(full: bool, pending: &Pending, byte: u8) -> bool
    ensures { result ≡ opens full pending.now byte }
{
    match *pending {
        Pending::Sequence(bytes) => full && bytes.as_slice().is_empty() && byte == b'[',
        _ => false,
    }
}

/// A byte after ESC and two brackets.
fn read_in_console(full: bool, byte: u8) -> Turn
    ensures { result ≡ turn_in_console full byte }
{
    match console_key(byte) {
        Some(key) => ends_as(key),
        None => read_outside(full, byte),
    }
}

/// No key, and what is pending.
fn awaits(pending: Pending) -> Turn
    ensures { result ≡ awaits pending }
{
    Turn {
        keys: Strokes::none(),
        pending,
    }
}

/// A key, if any, and nothing is pending.
fn ends_as(key: Option<Key>) -> Turn
    ensures { result ≡ ends_as key }
{
    Turn {
        keys: Strokes::of(key),
        pending: Pending::Nothing,
    }
}

/// Keys, and then those of a turn, where they fit.
fn after(keys: Strokes, turn: Turn) -> Turn
    requires { length keys + length turn.keys ≤ MAX_STROKES }
    ensures { result ≡ after keys turn }
{
    let mut keys = keys;
    keys.extend(turn.keys.as_slice());
    Turn {
        keys,
        pending: turn.pending,
    }
}

/// A byte more of a sequence.
fn collect(pending: Pending, byte: u8) -> Pending
    ensures { result ≡ pending_with pending byte }
{
    match pending {
        Pending::Sequence(mut bytes) => {
            if bytes.as_slice().len() >= ROOM {
                return Pending::Overlong;
            }
            bytes.push(byte);
            Pending::Sequence(bytes)
        }
        pending => pending,
    }
}

/// The key of a sequence that ends in this byte.
fn key_at_end(full: bool, pending: Pending, last: u8) -> Option<Key>
    ensures { result ≡ key_of_end full pending last }
{
    match pending {
        Pending::Sequence(bytes) => key_of_sequence(full, bytes.as_slice(), last),
        _ => None,
    }
}
