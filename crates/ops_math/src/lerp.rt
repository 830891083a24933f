ghost use Rattle.orca_op.specs.declared.kind.Kind.TheVariants.{Lerp as lerp_kind};
ghost use Rattle.std.specs.Prelude.{◌≡◌, ◌<◌};
ghost use Rattle.orca_op.specs.ValueRules.{lerped};
ghost use Rattle.ops_math.specs.ValueLaws.{lawful-lerp};

use crate::ports;
use orca_base::limits::BASE;
use orca_base::{Glyph, Now, Place, Steps};
use orca_op::{Bench, Operator, rate_of};
use std::sync::ledger::Ledger;

/// `Z`: moves what stands below by the rate towards the target.
///
/// The ports are `rate` at its left (1 where it is `.` or `*`) and `target` at its right. The place below is
/// read too, and brought up or down, but not beyond the target:
///
/// ```text
/// 2Z5.2Z1    2Z5.2Z1
/// .....8.    .2...6.
/// ```
pub struct Lerp;

impl Operator for Lerp {
    ghost kind = { lerp_kind };

    ghost laws = { lawful-lerp };

    fn act<B: Bench, L: Ledger>(
        &self,
        bench: &mut B,
        at: Place,
        _glyph: Glyph,
        _now: Now,
        steps: &mut Steps<L>,
    ) {
        let rate = bench.peek(at.left(1), steps);
        let target = bench.peek(at.right(1), steps);
        let current = bench.peek(at.below(), steps);
        let value = lerped(current.value(), rate_of(rate), target.value());
        ports::mark(bench, at, steps);
        bench.input(at.below(), steps);
        bench.write(at.below(), Glyph::cased(value, target), steps);
    }
}

/// The value one step of the rate nearer to the target.
#[tactic(auto, unfolding(orca_op::specs::ValueRules::lerped))]
fn lerped(from: u8, rate: u8, target: u8) -> u8
    requires { (from < BASE) × (rate < BASE) × (target < BASE) }
    ensures value { result ≡ lerped from rate target }
    ensures range { result < BASE }
{
    if from < target {
        (from + rate).min(target)
    } else if from > target {
        from.saturating_sub(rate).max(target)
    } else {
        target
    }
}
