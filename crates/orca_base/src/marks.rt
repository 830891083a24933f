ghost use Rattle.std.specs.Prelude.{◌≡◌, ◌<◌, not};
ghost use Rattle.orca_base.specs.MarkSet.{no_marks, with_mark, has_mark, all_marks, is_marked};
ghost use Rattle.orca_base.specs.MarkBits.{bit_of};

use std::marker::Model;

/// What an operator says of a place for the rest of the frame.
#[derive(Clone, Copy, Debug, PartialEq, Eq)]
pub enum Mark {
    /// The place is not evaluated in this frame.
    Lock,
    /// An operator reads the place.
    Input,
    /// An operator reads the place as a parameter.
    Param,
    /// An operator writes the place, or sends from it.
    Output,
    /// The place is not evaluated before the next frame: it was written from afar, or lies within a chain
    /// of jumpers.
    Sleep,
}

/// A set of marks, each a bit of one byte.
#[derive(Clone, Copy, Debug, PartialEq, Eq)]
pub struct Marks {
    bits: u8,
}

impl Model for Marks {
    ghost use Rattle.std.specs.Prelude.{◌<◌};
    ghost use Rattle.std.proofs.Common.{ap};
    ghost use Rattle.orca_base.specs.MarkSet.{MarkSet};
    ghost use Rattle.orca_base.specs.MarkBits.{marks_of, bits_of, bits-back};

    ghost Value = { MarkSet };

    ghost view = { λ m. marks_of m.bits };

    ghost invariant = { λ m. m.bits < 32 };

    ghost inverse = { λ s. record { bits = bits_of s } };

    ghost inverse_ok = { λ m h. ap (λ n. record { bits = n }) (bits-back m.bits h) };
}

/// The bit of a mark.
fn bit_of(mark: Mark) -> u8
    ensures bit { result ≡ bit_of mark }
    ensures range { result < 32 }
{
    match mark {
        Mark::Lock => 1,
        Mark::Input => 2,
        Mark::Param => 4,
        Mark::Output => 8,
        Mark::Sleep => 16,
    }
}

impl Marks {
    /// The empty set.
    pub fn none() -> Marks
        ensures { result ≡ no_marks }
    {
        Marks { bits: 0 }
    }

    /// The set with one mark more.
    #[tactic(auto, using(crate::proofs::MarkLemmas::marks_with))]
    pub fn with(self, mark: Mark) -> Marks
        ensures { result ≡ with_mark self mark }
    {
        Marks {
            bits: self.bits | bit_of(mark),
        }
    }

    /// Whether the mark is in the set.
    #[tactic(auto, using(crate::proofs::MarkLemmas::marks_has))]
    pub fn has(self, mark: Mark) -> bool
        ensures { result ≡ has_mark self mark }
    {
        self.bits & bit_of(mark) != 0
    }

    /// Whether no mark is in the set.
    #[tactic(auto, using(crate::proofs::MarkLemmas::marks_empty))]
    pub fn is_empty(self) -> bool
        ensures { result ≡ not (is_marked self) }
    {
        self.bits == 0
    }

    /// The marks of both sets.
    #[tactic(auto, using(crate::proofs::MarkLemmas::marks_or))]
    pub fn union(self, other: Marks) -> Marks
        ensures { result ≡ all_marks self other }
    {
        Marks {
            bits: self.bits | other.bits,
        }
    }
}
