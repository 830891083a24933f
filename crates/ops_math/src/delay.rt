ghost use Rattle.orca_op.specs.declared.kind.Kind.TheVariants.{Delay as delay_kind};
ghost use Rattle.ops_math.specs.ValueLaws.{lawful-delay};

use crate::ports;
use orca_base::{Glyph, Now, Place, Steps};
use orca_op::{Bench, Operator, value_or};
use std::sync::ledger::Ledger;

/// `D`: bangs on the modulo of the frame's number.
///
/// The ports are `rate` at its left (1 where its value is 0) and `modulus` at its right (8 where its value
/// is 0). It bangs in each frame whose number is a multiple of the rate times the modulus, so in frame 0 but
/// not in frame 1:
///
/// ```text
/// 2D3    2D3    2D3
/// ...    .*.    ...
/// ```
pub struct Delay;

impl Operator for Delay {
    ghost kind = { delay_kind };

    ghost laws = { lawful-delay };

    fn act<B: Bench, L: Ledger>(
        &self,
        bench: &mut B,
        at: Place,
        _glyph: Glyph,
        now: Now,
        steps: &mut Steps<L>,
    ) {
        let rate = bench.peek(at.left(1), steps);
        let modulus = bench.peek(at.right(1), steps);
        let period = u32::from(value_or(rate, 1)) * u32::from(value_or(modulus, 8));
        let output = if now.tick % period == 0 {
            Glyph::BANG
        } else {
            Glyph::EMPTY
        };
        ports::mark(bench, at, steps);
        bench.write(at.below(), output, steps);
    }
}
