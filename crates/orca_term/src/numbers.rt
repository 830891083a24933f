//! The numbers of a sequence.

ghost use Rattle.std.specs.Prelude.{◌≡◌, ◌==◌, ◌<◌, ◌≤◌, ◌&&◌, [], ◌∷◌, ◌++◌, length, nat_le};
ghost use Rattle.orca_base.specs.declared.limits.TheConstants.{SEQUENCE_BYTES};
ghost use Rattle.orca_term.specs.Codes.{semicolon};
ghost use Rattle.orca_term.specs.Forms.{continues};
ghost use Rattle.orca_term.specs.Keys.{numbers_in};

use crate::forms::{NO_DIGITS, Number, more};
use crate::limits::FORM_DIGITS;
use orca_base::limits::SEQUENCE_BYTES;
use std::marker::Model;

/// The most numbers: each has a byte.
const ROOM: usize = SEQUENCE_BYTES as usize;

/// The numbers of a sequence. A contract sees the list of them.
#[derive(Debug, Drop)]
pub(crate) struct Numbers {
    values: [u16; ROOM],
    len: usize,
}

impl Model for Numbers {
    ghost use Rattle.std.specs.Prelude.{◌≤◌, ℕ, List, take};
    ghost use Rattle.orca_base.specs.declared.limits.TheConstants.{SEQUENCE_BYTES};

    ghost Value = { List ℕ };

    ghost view = { λ n. take n.len n.values };

    ghost invariant = { λ n. n.len ≤ SEQUENCE_BYTES };
}

impl Numbers {
    /// No numbers.
    fn empty() -> Numbers
        ensures { result ≡ [] }
    {
        Numbers {
            values: [0; ROOM],
            len: 0,
        }
    }

    /// Adds a number at the end, where one more fits.
    fn push(&mut self, n: u16)
        requires { length self.old < SEQUENCE_BYTES }
        ensures { self.new ≡ self.old ++ n ∷ [] }
    {
        self.values[self.len] = n;
        self.len += 1;
    }

    /// The numbers.
    pub(crate) fn as_slice(&self) -> &[u16]
        ensures { result.now ≡ self.now }
    {
        &self.values[..self.len]
    }
}

/// The numbers of a sequence that collected these bytes; none where they are no numbers with a semicolon
/// between two of them.
pub(crate) fn numbers_in(bytes: &[u8]) -> Option<Numbers>
    requires { length bytes.now ≤ SEQUENCE_BYTES }
    ensures { result ≡ numbers_in bytes.now }
{
    let mut numbers = Numbers::empty();
    if bytes.is_empty() {
        return Some(numbers);
    }
    let mut number = NO_DIGITS;
    for byte in bytes {
        if continues(number, *byte) {
            number = more(number, *byte);
        } else if ends(number, *byte) {
            numbers.push(number.value);
            number = NO_DIGITS;
        } else {
            return None;
        }
    }
    if number.digits == 0 {
        return None;
    }
    numbers.push(number.value);
    Some(numbers)
}

/// Whether a byte is a digit more of a number.
fn continues(number: Number, byte: u8) -> bool
    ensures { result ≡ continues number byte }
{
    byte.is_ascii_digit() && usize::from(number.digits) < FORM_DIGITS
}

/// Whether a byte ends a number that another one follows.
fn ends(number: Number, byte: u8) -> bool
    ensures { result ≡ (byte == semicolon && nat_le 1 number.digits) }
{
    byte == b';' && number.digits >= 1
}
