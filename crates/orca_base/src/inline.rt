ghost use Rattle.std.specs.Prelude.{◌≡◌, ◌+◌, ◌<◌, ◌≤◌, [], ◌∷◌, ◌++◌, length};

use crate::limits::{SHORT_BYTES, WIRE_BYTES};
use std::marker::Model;

/// Up to `ROOM` bytes, kept inline. A contract sees the list of the bytes.
#[derive(Clone, Copy, Debug, PartialEq, Eq)]
pub struct Inline<const ROOM: usize> {
    bytes: [u8; ROOM],
    len: usize,
}

/// Up to [`SHORT_BYTES`] bytes: a text or values that an event carries.
pub type Short = Inline<SHORT_BYTES>;

/// Up to [`WIRE_BYTES`] bytes: the bytes of one message.
pub type Wire = Inline<WIRE_BYTES>;

impl<const ROOM: usize> Model for Inline<ROOM> {
    ghost use Rattle.std.specs.Prelude.{ℕ, List, length, take};
    ghost use Rattle.std.proofs.Common.{ap};
    ghost use Rattle.orca_base.specs.Inline.{IsInline, filled, both-inline};

    ghost Value = { List ℕ };

    ghost view = { λ s. take s.len s.bytes };

    ghost invariant = { λ s. IsInline ROOM s.bytes s.len };

    ghost inverse = { λ s. record { bytes = filled ROOM s; len = length s } };

    ghost inverse_ok = { λ s h. ap (λ (p : List ℕ × ℕ). record { bytes = p.0; len = p.1 })
        (both-inline ROOM s.bytes s.len h) };
}

impl<const ROOM: usize> Inline<ROOM> {
    /// No bytes.
    pub fn empty() -> Self
        ensures { result ≡ [] }
    {
        Inline {
            bytes: [0; ROOM],
            len: 0,
        }
    }

    /// Adds a byte at the end, where one more fits.
    pub fn push(&mut self, byte: u8)
        requires { length self.old < ROOM }
        ensures { self.new ≡ self.old ++ byte ∷ [] }
    {
        self.bytes[self.len] = byte;
        self.len += 1;
    }

    /// Adds bytes at the end, where they fit.
    pub fn extend(&mut self, bytes: &[u8])
        requires { length self.old + length bytes.now ≤ ROOM }
        ensures { self.new ≡ self.old ++ bytes.now }
    {
        for byte in bytes {
            self.push(*byte);
        }
    }

    /// The bytes.
    pub fn as_slice(&self) -> &[u8]
        ensures bytes { result.now ≡ self.now }
        ensures short { length result.now ≤ ROOM }
    {
        &self.bytes[..self.len]
    }
}
