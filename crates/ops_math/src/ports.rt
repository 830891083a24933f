ghost use Rattle.std.specs.Prelude.{◌≡◌, ◌+◌};
ghost use Rattle.orca_base.specs.Grids.{off};
ghost use Rattle.orca_base.specs.Grids.{below, left, right};
ghost use Rattle.orca_op.specs.Slate.{slate_after_all};
ghost use Rattle.orca_op.specs.ValueRules.{value_ports};

use orca_base::{Place, Steps};
use orca_op::Bench;
use std::sync::ledger::Ledger;

/// Marks the ports of a value operator.
pub(crate) fn mark<B: Bench, L: Ledger>(bench: &mut B, at: Place, steps: &mut Steps<L>)
    ensures deeds { B.slate bench.new ≡ slate_after_all (B.slate bench.old) (value_ports at) }
    ensures steps { steps.new ≡ steps.old + 3 }
{
    bench.param(at.left(1), steps);
    bench.input(at.right(1), steps);
    bench.output(at.below(), steps);
}
