//! The keys that come at once.

ghost use Rattle.std.specs.Prelude.{◌≡◌, ◌+◌, ◌<◌, ◌≤◌, [], ◌∷◌, ◌++◌, length};
ghost use Rattle.std.specs.Option.{option_to_list};
ghost use Rattle.orca_term.specs.Keys.{escape_and_o};

use crate::Key;
use crate::limits::MAX_STROKES;
use orca_base::Glyph;
use std::marker::Model;

/// The keys that a byte gives, or a while without one, in their order. A contract sees the list of them.
#[derive(Debug, Drop)]
pub struct Strokes {
    keys: [Key; MAX_STROKES],
    len: usize,
}

impl Model for Strokes {
    ghost use Rattle.std.specs.Prelude.{◌≤◌, List, take};
    ghost use Rattle.orca_term.specs.declared.keys.Key.{Key};
    ghost use Rattle.orca_term.specs.declared.limits.TheConstants.{MAX_STROKES};

    ghost Value = { List Key };

    ghost view = { λ s. take s.len s.keys };

    ghost invariant = { λ s. s.len ≤ MAX_STROKES };
}

impl Strokes {
    /// No keys.
    pub(crate) fn none() -> Strokes
        ensures { result ≡ [] }
    {
        Strokes {
            keys: [Key::Escape; MAX_STROKES],
            len: 0,
        }
    }

    /// A key, if there is one.
    pub(crate) fn of(key: Option<Key>) -> Strokes
        ensures { result ≡ option_to_list key }
    {
        let mut strokes = Strokes::none();
        if let Some(key) = key {
            strokes.push(key);
        }
        strokes
    }

    /// The keys of ESC and `O`.
    pub(crate) fn escape_and_o() -> Strokes
        ensures { result ≡ escape_and_o }
    {
        let mut strokes = Strokes::of(Some(Key::Escape));
        if let Some(glyph) = Glyph::of(b'O') {
            strokes.push(Key::Glyph(glyph));
        }
        strokes
    }

    /// Adds a key at the end, where one more fits.
    fn push(&mut self, key: Key)
        requires { length self.old < MAX_STROKES }
        ensures { self.new ≡ self.old ++ key ∷ [] }
    {
        self.keys[self.len] = key;
        self.len += 1;
    }

    /// Adds keys at the end, where they fit.
    pub(crate) fn extend(&mut self, keys: &[Key])
        requires { length self.old + length keys.now ≤ MAX_STROKES }
        ensures { self.new ≡ self.old ++ keys.now }
    {
        for key in keys {
            self.push(*key);
        }
    }

    /// The keys.
    pub fn as_slice(&self) -> &[Key]
        ensures { result.now ≡ self.now }
    {
        &self.keys[..self.len]
    }
}
