ghost use Rattle.std.specs.Prelude.{◌≡◌, ◌+◌};
ghost use Rattle.orca_op.specs.EventRules.{inputs};
ghost use Rattle.orca_op.specs.MotionRules.{lock_deeds};
ghost use Rattle.orca_op.specs.Slate.{HasEventRoom, slate_after_all};

use orca_base::{Place, Steps};
use orca_op::{Bench, Span};
use std::sync::ledger::Ledger;

/// Marks `length` ports as inputs, the first being `from`.
pub(crate) fn inputs<B: Bench, L: Ledger>(
    bench: &mut B,
    at: Place,
    from: u8,
    length: u8,
    steps: &mut Steps<L>,
)
    ensures deeds { B.slate bench.new ≡ slate_after_all (B.slate bench.old) (inputs at from length) }
    ensures room { HasEventRoom (B.slate bench.old) → HasEventRoom (B.slate bench.new) }
    ensures steps { steps.new ≡ steps.old + length }
{
    let ports = Span {
        y: 0,
        x: from,
        length,
    };
    bench.input_span(at, ports, steps);
}

/// Locks the first `length` ports.
pub(crate) fn lock<B: Bench, L: Ledger>(bench: &mut B, at: Place, length: u8, steps: &mut Steps<L>)
    ensures deeds { B.slate bench.new ≡ slate_after_all (B.slate bench.old) (lock_deeds at length) }
    ensures room { HasEventRoom (B.slate bench.old) → HasEventRoom (B.slate bench.new) }
    ensures steps { steps.new ≡ steps.old + length }
{
    let ports = Span { y: 0, x: 1, length };
    bench.lock_span(at, ports, steps);
}
