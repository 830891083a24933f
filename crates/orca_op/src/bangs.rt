ghost use Rattle.std.specs.Prelude.{◌≡◌, ◌+◌};
ghost use Rattle.orca_op.specs.State.{has_bang};

use crate::Bench;
use orca_base::{Glyph, Place, Steps};
use std::sync::ledger::Ledger;

/// Whether a bang stands next to a place: above it, below it, at its left or at its right.
#[tactic(auto, unfolding(crate::specs::State::has_bang))]
pub fn has_bang<B: Bench, L: Ledger>(bench: &B, at: Place, steps: &mut Steps<L>) -> bool
    ensures bang { result ≡ has_bang (B.slate bench.now).scan at }
    ensures steps { steps.new ≡ steps.old + 4 }
{
    let above = bench.peek(at.above(), steps);
    let left = bench.peek(at.left(1), steps);
    let right = bench.peek(at.right(1), steps);
    let below = bench.peek(at.below(), steps);
    above == Glyph::BANG || left == Glyph::BANG || right == Glyph::BANG || below == Glyph::BANG
}
