ghost use Rattle.std.specs.Prelude.{◌≡◌, ◌+◌, ◌≤◌};
ghost use Rattle.orca_op.specs.Slate.{slate_after_all};
ghost use Rattle.orca_op.specs.MotionRules.{move_to};

use orca_base::{Glyph, Place, Spot, Steps};
use orca_op::Bench;
use std::sync::ledger::Ledger;

/// Moves a glyph from a place to an empty target of the grid, where it sleeps; otherwise leaves a bang.
#[tactic(auto, unfolding(orca_op::specs::MotionRules::move_to, orca_op::specs::State::holds))]
pub(crate) fn move_to<B: Bench, L: Ledger>(
    bench: &mut B,
    at: Place,
    glyph: Glyph,
    target: Spot,
    steps: &mut Steps<L>,
)
    ensures deeds { B.slate bench.new ≡ slate_after_all (B.slate bench.old)
        (move_to glyph (B.slate bench.old).scan at target) }
    ensures steps { steps.new ≤ steps.old + 4 }
    ensures later { steps.old ≤ steps.new }
{
    let ahead = bench.peek(target, steps);
    if bench.dims().holds(target).is_some() && ahead == Glyph::EMPTY {
        bench.sleep(target, steps);
        bench.write(target, glyph, steps);
        bench.write(at.here(), Glyph::EMPTY, steps);
    } else {
        bench.write(at.here(), Glyph::BANG, steps);
    }
}
