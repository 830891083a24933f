ghost use Rattle.orca_op.specs.declared.kind.Kind.TheVariants.{Increment as increment_kind};
ghost use Rattle.ops_math.specs.ValueLaws.{lawful-increment};

use crate::ports;
use orca_base::limits::BASE;
use orca_base::{Glyph, Now, Place, Steps};
use orca_op::{Bench, Operator, rate_of, value_or};
use std::sync::ledger::Ledger;

/// `I`: increments what stands below by the step, modulo the modulus.
///
/// The ports are `step` at its left (1 where it is `.` or `*`) and `modulus` at its right (36 where its value
/// is 0). The place below is read too:
///
/// ```text
/// .I3    .I3
/// .1.    .2.
/// ```
pub struct Increment;

impl Operator for Increment {
    ghost kind = { increment_kind };

    ghost laws = { lawful-increment };

    fn act<B: Bench, L: Ledger>(
        &self,
        bench: &mut B,
        at: Place,
        _glyph: Glyph,
        _now: Now,
        steps: &mut Steps<L>,
    ) {
        let step = bench.peek(at.left(1), steps);
        let modulus = bench.peek(at.right(1), steps);
        let current = bench.peek(at.below(), steps);
        let value = (current.value() + rate_of(step)) % value_or(modulus, BASE);
        ports::mark(bench, at, steps);
        bench.input(at.below(), steps);
        bench.write(at.below(), Glyph::cased(value, modulus), steps);
    }
}
