ghost use Rattle.std.specs.Prelude.{◌≡◌, ◌<◌, ◌≤◌, ◌↔◌, ℕ, IsNone, IfSome, IsTrue, length, slice_set};
ghost use Rattle.orca_base.specs.Glyphs.{IsGlyph, empty, bang, value, from_value, cased, is_operator, needs_bang, note_number, natural_note, is_upper};

use crate::limits::BASE;
use std::marker::Model;

/// The value of each byte below 128 as a glyph.
static VALUES: [u8; 128] = [
    // Controls and the space.
    0, 0, 0, 0, 0, 0, 0, 0, 0, 0, 0, 0, 0, 0, 0, 0, 0, 0, 0, 0, 0, 0, 0, 0, 0, 0, 0, 0, 0, 0, 0, 0,
    0,
    // `!` to `/`.
    0, 0, 0, 0, 0, 0, 0, 0, 0, 0, 0, 0, 0, 0, 0,
    // `0` to `9`.
    0, 1, 2, 3, 4, 5, 6, 7, 8, 9,
    // `:` to `@`.
    0, 0, 0, 0, 0, 0, 0,
    // `A` to `Z`.
    10, 11, 12, 13, 14, 15, 16, 17, 18, 19, 20, 21, 22, 23, 24, 25, 26, 27, 28, 29, 30, 31, 32, 33,
    34, 35,
    // `[` to the backquote.
    0, 0, 0, 0, 0, 0,
    // `a` to `z`.
    10, 11, 12, 13, 14, 15, 16, 17, 18, 19, 20, 21, 22, 23, 24, 25, 26, 27, 28, 29, 30, 31, 32, 33,
    34, 35,
    // `{` to the last control.
    0, 0, 0, 0, 0,
];

/// Which bytes below 128 are operators.
static OPERATORS: [u8; 128] = [
    // Controls and the space.
    0, 0, 0, 0, 0, 0, 0, 0, 0, 0, 0, 0, 0, 0, 0, 0, 0, 0, 0, 0, 0, 0, 0, 0, 0, 0, 0, 0, 0, 0, 0, 0,
    0,
    // `!` to `/`.
    1, 0, 1, 0, 1, 0, 0, 0, 0, 1, 0, 0, 0, 0, 0,
    // `0` to `9`.
    0, 0, 0, 0, 0, 0, 0, 0, 0, 0,
    // `:` to `@`.
    1, 1, 0, 1, 0, 1, 0,
    // `A` to `Z`.
    1, 1, 1, 1, 1, 1, 1, 1, 1, 1, 1, 1, 1, 1, 1, 1, 1, 1, 1, 1, 1, 1, 1, 1, 1, 1,
    // `[` to the backquote.
    0, 0, 0, 0, 0, 0,
    // `a` to `z`.
    1, 1, 1, 1, 1, 1, 1, 1, 1, 1, 1, 1, 1, 1, 1, 1, 1, 1, 1, 1, 1, 1, 1, 1, 1, 1,
    // `{` to the last control.
    0, 0, 0, 0, 0,
];

/// The digits and lower-case letters, by their values.
static LOWER: [u8; 36] = *b"0123456789abcdefghijklmnopqrstuvwxyz";

/// The digits and upper-case letters, by their values.
static UPPER: [u8; 36] = *b"0123456789ABCDEFGHIJKLMNOPQRSTUVWXYZ";

/// A glyph of the grid: a printable byte of ASCII, 33 (`!`) to 126 (`~`).
#[derive(Clone, Copy, Debug, PartialEq, Eq)]
pub struct Glyph {
    byte: u8,
}

impl Model for Glyph {
    ghost use Rattle.std.specs.Prelude.{ℕ, ◌≤◌};
    ghost use Rattle.orca_base.specs.Glyphs.{IsGlyph};

    ghost Value = { ℕ };

    ghost view = { λ g. g.byte };

    ghost invariant = { λ g. IsGlyph g.byte };

    ghost inverse = { λ n. record { byte = n } };
}

impl Default for Glyph {
    /// `.`
    fn default() -> Glyph {
        Glyph::EMPTY
    }
}

impl Glyph {
    /// `.`, the glyph of an empty cell.
    pub const EMPTY: Glyph = Glyph { byte: b'.' };

    /// `*`, the bang.
    pub const BANG: Glyph = Glyph { byte: b'*' };

    /// The glyph of a byte; none exactly where the byte is outside 33 to 126.
    pub fn of(byte: u8) -> Option<Glyph>
        ensures some { IfSome result (λ g. g ≡ byte) }
        ensures none { IsNone result ↔ (IsGlyph byte → ⊥) }
    {
        if byte < 33 || byte > 126 {
            return None;
        }
        Some(Glyph { byte })
    }

    /// The byte, 33 to 126.
    pub fn byte(self) -> u8
        ensures byte { result ≡ self }
        ensures range { IsGlyph result }
    {
        self.byte
    }

    /// Puts the glyph into a list of glyphs.
    pub fn put(self, into: &mut [Glyph], index: usize)
        requires { index < length into.old }
        ensures put { into.new ≡ slice_set into.old index self }
        ensures glyph { IsGlyph self }
    {
        into[index] = Glyph { byte: self.byte };
    }

    /// The value in base 36: 0 to 9 of a digit, 10 to 35 of a letter in either case, 0 of any other
    /// glyph.
    #[tactic(auto, using(crate::proofs::GlyphLemmas::glyph_values))]
    pub fn value(self) -> u8
        ensures value { result ≡ value self }
        ensures range { result < BASE }
    {
        VALUES[usize::from(self.byte)]
    }

    /// The digit or the lower-case letter of a value below the base.
    #[tactic(auto, using(crate::proofs::GlyphLemmas::lower_glyphs))]
    pub fn from_value(n: u8) -> Glyph
        requires { n < BASE }
        ensures { result ≡ from_value n }
    {
        Glyph {
            byte: LOWER[usize::from(n)],
        }
    }

    /// The glyph of a value below the base. A letter is in upper case exactly where `by` is one of `A`
    /// to `Z`; a digit has no case.
    #[tactic(auto, using(crate::proofs::GlyphLemmas::cased_glyphs), unfolding(crate::specs::Glyphs::cased))]
    pub fn cased(n: u8, by: Glyph) -> Glyph
        requires { n < BASE }
        ensures { result ≡ cased n by }
    {
        let digits = if by.byte.is_ascii_uppercase() {
            &UPPER
        } else {
            &LOWER
        };
        Glyph {
            byte: digits[usize::from(n)],
        }
    }

    /// Whether the glyph is an operator: a letter, or one of `* # : % ! ? ; =`.
    #[tactic(auto, using(crate::proofs::GlyphLemmas::operator_table))]
    pub fn is_operator(self) -> bool
        ensures { result ≡ is_operator self }
    {
        OPERATORS[usize::from(self.byte)] != 0
    }

    /// Whether the glyph works only beside a bang: a lower-case letter.
    #[tactic(auto, unfolding(crate::specs::Glyphs::needs_bang))]
    pub fn needs_bang(self) -> bool
        ensures { result ≡ needs_bang self }
    {
        matches!(self.byte, b'a'..=b'z')
    }

    /// The note number of a letter, 0 to 40 for `C` to `Z`, a lower-case letter being a semitone higher;
    /// none exactly where the glyph is no letter.
    #[tactic(auto, unfolding(crate::specs::Glyphs::note_number))]
    pub fn note_number(self) -> Option<u8>
        ensures { result ≡ note_number self }
    {
        match self.byte {
            b'A'..=b'Z' => Some(natural_note(self.byte)),
            b'a'..=b'z' => Some(natural_note(self.byte - b'a' + b'A') + 1),
            _ => None,
        }
    }
}

/// The note number of an upper-case letter.
fn natural_note(letter: u8) -> u8
    requires { IsTrue (is_upper letter) }
    ensures note { result ≡ natural_note letter }
    ensures range { result ≤ 40 }
{
    let degree = if letter < b'C' {
        letter - 60
    } else {
        letter - b'C'
    };
    let semitones = match degree % 7 {
        0 => 0,
        1 => 2,
        2 => 4,
        3 => 5,
        4 => 7,
        5 => 9,
        _ => 11,
    };
    12 * (degree / 7) + semitones
}
