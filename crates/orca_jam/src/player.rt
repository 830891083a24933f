//! What a hand has.

ghost use Rattle.std.specs.Prelude.{◌≡◌};
ghost use Rattle.orca_base.specs.Areas.{IsArea};
ghost use Rattle.orca_jam.specs.Crews.{cursor_of, fitted_player, left_player, new_player, struck_player, turned_player};
ghost use Rattle.orca_term.specs.Editing.{area_of, wish_of};
ghost use Rattle.orca_term.specs.Keys.{Byte, turn};

use orca_base::{Dims, Place};
use orca_term::{Around, Editor, Key, Keys, Strokes, Wish};

/// What a hand has: its reader of keys, and its editor.
#[derive(Clone, Copy)]
pub struct Player {
    /// The reader of its keys.
    pub keys: Keys,
    /// Its cursor, its selection, and what it has switched on.
    pub editor: Editor,
    /// Whether it is away.
    pub away: bool,
}

impl Player {
    /// A player of the full keys, or of the plain ones: nothing was read, and the guide shows with full
    /// keys.
    pub fn start(full: bool) -> Player
        ensures { result ≡ new_player full }
    {
        Player {
            keys: Keys::start(),
            editor: Editor {
                guide: full,
                ..Editor::start()
            },
            away: false,
        }
    }

    /// Reads a byte, and gives the keys that it ends: of the full keys, or of the plain ones.
    pub fn feed(&mut self, full: bool, byte: u8) -> Strokes
        ensures keys { result ≡ (turn full self.old.keys (Byte byte)).keys }
        ensures player { self.new ≡ turned_player full (Byte byte) self.old }
    {
        if full {
            self.keys.feed_full(byte)
        } else {
            self.keys.feed(byte)
        }
    }

    /// The place of its cursor.
    pub fn cursor(&self) -> Place
        ensures { result ≡ cursor_of self.now }
    {
        Place {
            y: self.editor.y,
            x: self.editor.x,
        }
    }

    /// What a key asks for that does not say that the hand is away, with what it makes of the hand.
    pub fn strike(&mut self, key: Key, around: &Around) -> Wish
        requires inside { IsArea around.now.dims (area_of self.old.editor) }
        ensures wish { result ≡ wish_of key around.now self.old.editor }
        ensures player { self.new ≡ struck_player key around.now self.old }
        ensures inside { IsArea around.now.dims (area_of self.new.editor) }
    {
        if let Key::Screen { .. } = key {
            self.away = false;
        }
        self.editor.key(key, around)
    }

    /// The hand goes away: its text ends, and all else stays.
    pub fn leave(&mut self)
        ensures player { self.new ≡ left_player self.old }
        ensures area { area_of self.new.editor ≡ area_of self.old.editor }
    {
        self.editor.flow = None;
        self.away = true;
    }

    /// Brings the cursor and the selection into a grid of this size.
    pub fn fit(&mut self, dims: Dims)
        ensures player { self.new ≡ fitted_player dims self.old }
        ensures inside { IsArea dims (area_of self.new.editor) }
    {
        self.editor.fit(dims);
    }
}
