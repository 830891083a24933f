ghost use Rattle.std.specs.Prelude.{◌≡◌, ◌+◌, ◌*◌, ◌<◌, ◌≤◌, ◌||◌, ◌&&◌, not, false, IsTrue, if◌then◌else◌};
ghost use Rattle.orca_base.specs.declared.limits.TheConstants.{MAX_STEPS};
ghost use Rattle.orca_base.specs.Glyphs.{is_operator, needs_bang};
ghost use Rattle.orca_base.specs.Grids.{IsInside};
ghost use Rattle.orca_frame.specs.Frames.{looks};
ghost use Rattle.orca_op.specs.Slate.{HasEventRoom, slate_after_all};
ghost use Rattle.orca_op.specs.Rules.{rule};
ghost use Rattle.orca_op.specs.Scan.{visit_deeds};
ghost use Rattle.orca_op.specs.State.{has_bang, state_glyph, marks_at};

use crate::act::act;
use orca_base::{Glyph, Mark, Now, Place, Steps};
use orca_op::{Bench, has_bang};
use std::sync::ledger::Ledger;

/// Visits a place: does nothing where it is idle, and else the deeds of its operator.
#[tactic(auto, using(orca_op::proofs::HereFacts::peek_here), unfolding(orca_op::specs::Scan::visit_deeds, orca_op::specs::Scan::is_idle))]
pub(crate) fn visit<B: Bench, L: Ledger>(bench: &mut B, at: Place, now: Now, steps: &mut Steps<L>)
    requires inside { IsInside (B.slate bench.old).scan.dims at }
    requires room { HasEventRoom (B.slate bench.old) }
    ensures deeds { B.slate bench.new
        ≡ slate_after_all (B.slate bench.old) (visit_deeds rule (B.slate bench.old).scan at now) }
    ensures steps { steps.new ≤ steps.old + looks
        + MAX_STEPS * (if is_operator (state_glyph (B.slate bench.old).scan at) then 1 else 0) }
    ensures later { steps.old + 1 ≤ steps.new }
{
    let glyph = bench.peek(at.here(), steps);
    if !glyph.is_operator() || is_still(bench, at, steps) || waits(bench, at, glyph, steps) {
        return;
    }
    act(bench, at, glyph, now, steps);
}

/// Visits a place that holds an operator which is neither locked nor asleep.
#[tactic(auto, using(orca_op::proofs::HereFacts::peek_here), unfolding(orca_op::specs::Scan::visit_deeds, orca_op::specs::Scan::is_idle))]
pub(crate) fn visit_awake<B: Bench, L: Ledger>(
    bench: &mut B,
    at: Place,
    now: Now,
    steps: &mut Steps<L>,
)
    requires inside { IsInside (B.slate bench.old).scan.dims at }
    requires operator { IsTrue (is_operator (state_glyph (B.slate bench.old).scan at)) }
    requires awake { let marks = marks_at (B.slate bench.old).scan at in
        (marks.lock || marks.sleep) ≡ false }
    requires room { HasEventRoom (B.slate bench.old) }
    ensures deeds { B.slate bench.new
        ≡ slate_after_all (B.slate bench.old) (visit_deeds rule (B.slate bench.old).scan at now) }
    ensures steps { steps.new + 1 ≤ steps.old + looks + MAX_STEPS }
    ensures later { steps.old ≤ steps.new }
{
    let glyph = bench.peek_here(at, steps);
    if glyph.needs_bang() && !bench.beside_bang(at, steps) {
        return;
    }
    act(bench, at, glyph, now, steps);
}

/// Whether a place is locked or asleep.
#[tactic(auto, using(orca_op::proofs::HereFacts::marked_here))]
pub(crate) fn is_still<B: Bench, L: Ledger>(bench: &B, at: Place, steps: &mut Steps<L>) -> bool
    requires { IsInside (B.slate bench.now).scan.dims at }
    ensures still { result ≡ ((marks_at (B.slate bench.now).scan at).lock
        || (marks_at (B.slate bench.now).scan at).sleep) }
    ensures steps { steps.new ≡ steps.old + 1 }
{
    let marks = bench.marked_here(at, steps);
    marks.has(Mark::Lock) || marks.has(Mark::Sleep)
}

/// Whether a glyph waits for a bang.
fn waits<B: Bench, L: Ledger>(bench: &B, at: Place, glyph: Glyph, steps: &mut Steps<L>) -> bool
    ensures waits { result ≡ (needs_bang glyph && not (has_bang (B.slate bench.now).scan at)) }
    ensures steps { steps.new ≤ steps.old + 4 }
    ensures later { steps.old ≤ steps.new }
{
    glyph.needs_bang() && !has_bang(bench, at, steps)
}
