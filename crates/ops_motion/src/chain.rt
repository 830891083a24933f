ghost use Rattle.std.specs.Prelude.{◌≡◌, ◌+◌, ◌*◌, ◌≤◌, IfSome};
ghost use Rattle.orca_op.specs.Slate.{slate_after_all};
ghost use Rattle.orca_op.specs.MotionRules.{chain_end, jump, sleep_deeds};
ghost use Rattle.ops_motion.specs.Ways.{source_on, beyond_on};

use crate::way::Way;
use orca_base::limits::JUMP_REACH;
use orca_base::{Glyph, Place, Steps};
use orca_op::Bench;
use std::sync::ledger::Ledger;

/// Does the deeds of a jumper: the first of a chain hands the glyph of its source on to the place beyond the
/// chain's end.
#[tactic(auto, unfolding(orca_op::specs::MotionRules::jump))]
pub(crate) fn jump<B: Bench, L: Ledger>(
    bench: &mut B,
    at: Place,
    glyph: Glyph,
    way: Way,
    steps: &mut Steps<L>,
)
    ensures deeds { B.slate bench.new ≡ slate_after_all (B.slate bench.old)
        (jump glyph (B.slate bench.old).scan (source_on way at) (beyond_on way at)) }
    ensures steps { steps.new ≤ steps.old + (2 * JUMP_REACH + 3) }
    ensures later { steps.old ≤ steps.new }
{
    let carried = bench.peek(way.source(at), steps);
    if carried == glyph {
        return;
    }
    let end = chain_end(bench, at, glyph, way, steps);
    bench.input(way.source(at), steps);
    if let Some(places) = end {
        sleep_chain(bench, at, way, places - 1, steps);
        bench.output(way.beyond(at, places), steps);
        bench.write(way.beyond(at, places), carried, steps);
    }
}

/// How many places beyond a jumper the first place is that doesn't hold its glyph.
fn chain_end<B: Bench, L: Ledger>(
    bench: &B,
    at: Place,
    glyph: Glyph,
    way: Way,
    steps: &mut Steps<L>,
) -> Option<u16>
    ensures end { result ≡ chain_end glyph (B.slate bench.now).scan (beyond_on way at) }
    ensures range { IfSome result (λ places. (1 ≤ places) × (places ≤ JUMP_REACH)) }
    ensures steps { steps.new ≤ steps.old + JUMP_REACH }
    ensures later { steps.old ≤ steps.new }
{
    for places in 1..JUMP_REACH + 1 {
        if bench.peek(way.beyond(at, places), steps) != glyph {
            return Some(places);
        }
    }
    None
}

/// Puts the first `places` places beyond a jumper to sleep.
fn sleep_chain<B: Bench, L: Ledger>(
    bench: &mut B,
    at: Place,
    way: Way,
    places: u16,
    steps: &mut Steps<L>,
)
    ensures deeds { B.slate bench.new ≡ slate_after_all (B.slate bench.old)
        (sleep_deeds (beyond_on way at) places) }
    ensures steps { steps.new ≡ steps.old + places }
{
    for passed in 0..places {
        bench.sleep(way.beyond(at, passed + 1), steps);
    }
}
