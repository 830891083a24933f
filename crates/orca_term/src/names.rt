//! The names of the operators.

ghost use Rattle.std.specs.Prelude.{◌≡◌, ◌≤◌, length, All, IfSome};
ghost use Rattle.std.specs.Option.{option_copied};
ghost use Rattle.orca_base.specs.Glyphs.{upper};
ghost use Rattle.orca_term.specs.Keys.{found_in};
ghost use Rattle.orca_term.specs.Picture.{IsPrintableByte};
ghost use Rattle.orca_term.specs.Words.{letter_names, sign_names, operator_names};

use crate::limits::NAME_BYTES;
use orca_base::Glyph;

/// The name of an operator, a lower-case letter being the operator of the upper-case one; none of other
/// glyphs.
#[tactic(auto, using(crate::proofs::NameTables::found_in_either))]
pub(crate) fn operator_name(glyph: Glyph) -> Option<&'static str>
    ensures name { option_copied result ≡ found_in operator_names (upper glyph) }
    ensures printable { IfSome result (λ name. All IsPrintableByte name.now) }
    ensures short { IfSome result (λ name. length name.now ≤ NAME_BYTES) }
{
    let byte = upper(glyph.byte());
    letter_name(byte).or(sign_name(byte))
}

/// A letter in upper case, and any other byte as it is.
fn upper(byte: u8) -> u8
    ensures { result ≡ upper byte }
{
    byte.to_ascii_uppercase()
}

/// The name of an upper-case letter.
fn letter_name(letter: u8) -> Option<&'static str>
    ensures name { option_copied result ≡ found_in letter_names letter }
    ensures printable { IfSome result (λ name. All IsPrintableByte name.now) }
    ensures short { IfSome result (λ name. length name.now ≤ NAME_BYTES) }
{
    match letter {
        b'A' => Some("add"),
        b'B' => Some("subtract"),
        b'C' => Some("clock"),
        b'D' => Some("delay"),
        b'E' => Some("east"),
        b'F' => Some("if"),
        b'G' => Some("generator"),
        b'H' => Some("halt"),
        b'I' => Some("increment"),
        b'J' => Some("jumper"),
        b'K' => Some("konkat"),
        b'L' => Some("lesser"),
        b'M' => Some("multiply"),
        b'N' => Some("north"),
        b'O' => Some("read"),
        b'P' => Some("push"),
        b'Q' => Some("query"),
        b'R' => Some("random"),
        b'S' => Some("south"),
        b'T' => Some("track"),
        b'U' => Some("uclid"),
        b'V' => Some("variable"),
        b'W' => Some("west"),
        b'X' => Some("write"),
        b'Y' => Some("jymper"),
        b'Z' => Some("lerp"),
        _ => None,
    }
}

/// The name of a sign.
fn sign_name(sign: u8) -> Option<&'static str>
    ensures name { option_copied result ≡ found_in sign_names sign }
    ensures printable { IfSome result (λ name. All IsPrintableByte name.now) }
    ensures short { IfSome result (λ name. length name.now ≤ NAME_BYTES) }
{
    match sign {
        b'*' => Some("bang"),
        b'#' => Some("comment"),
        b':' => Some("midi"),
        b'%' => Some("mono"),
        b'!' => Some("control change"),
        b'?' => Some("pitch bend"),
        b';' => Some("udp"),
        b'=' => Some("osc"),
        _ => None,
    }
}
