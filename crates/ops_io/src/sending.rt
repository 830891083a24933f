ghost use Rattle.std.specs.Prelude.{◌≡◌, ◌+◌, ◌≤◌};
ghost use Rattle.orca_op.specs.EventRules.{send_deeds};
ghost use Rattle.orca_op.specs.Slate.{HasEventRoom, slate_after_all};

use orca_base::{Event, Place, Steps};
use orca_op::Bench;
use std::sync::ledger::Ledger;

/// Shows that the place sends, and sends the event; does nothing where there is none.
#[tactic(auto, unfolding(orca_op::specs::Deeds::after))]
pub(crate) fn send<B: Bench, L: Ledger>(
    bench: &mut B,
    at: Place,
    event: Option<Event>,
    steps: &mut Steps<L>,
)
    requires { HasEventRoom (B.slate bench.old) }
    ensures deeds { B.slate bench.new ≡ slate_after_all (B.slate bench.old) (send_deeds at event) }
    ensures steps { steps.new ≤ steps.old + 2 }
    ensures later { steps.old ≤ steps.new }
{
    if let Some(event) = event {
        bench.show(at.here(), steps);
        bench.emit(event, steps);
    }
}
