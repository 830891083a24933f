ghost use Rattle.orca_op.specs.declared.kind.Kind.TheVariants.{Clock as clock_kind};
ghost use Rattle.ops_math.specs.ValueLaws.{lawful-clock};

use crate::ports;
use orca_base::{Glyph, Now, Place, Steps};
use orca_op::{Bench, Operator, value_or};
use std::sync::ledger::Ledger;

/// `C`: outputs the frame's number divided by the rate, modulo the modulus.
///
/// The ports are `rate` at its left (1 where its value is 0) and `modulus` at its right (8 where its value
/// is 0). The division rounds down. In frame 5:
///
/// ```text
/// 2C4    2C4
/// ...    .2.
/// ```
pub struct Clock;

impl Operator for Clock {
    ghost kind = { clock_kind };

    ghost laws = { lawful-clock };

    fn act<B: Bench, L: Ledger>(
        &self,
        bench: &mut B,
        at: Place,
        _glyph: Glyph,
        now: Now,
        steps: &mut Steps<L>,
    ) {
        let rate = bench.peek(at.left(1), steps);
        let modulus = bench.peek(at.right(1), steps);
        let value = now.tick / u32::from(value_or(rate, 1)) % u32::from(value_or(modulus, 8));
        ports::mark(bench, at, steps);
        bench.write(at.below(), Glyph::cased(value as u8, modulus), steps);
    }
}
