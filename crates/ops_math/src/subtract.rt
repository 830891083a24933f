ghost use Rattle.orca_op.specs.declared.kind.Kind.TheVariants.{Subtract as subtract_kind};
ghost use Rattle.ops_math.specs.ValueLaws.{lawful-subtract};

use crate::ports;
use orca_base::{Glyph, Now, Place, Steps};
use orca_op::{Bench, Operator};
use std::sync::ledger::Ledger;

/// `B`: outputs the distance of its inputs.
///
/// The ports are `a` at its left and `b` at its right, and their order does not matter:
///
/// ```text
/// 7B2.2BF    7B2.2BF
/// .......    .5...D.
/// ```
pub struct Subtract;

impl Operator for Subtract {
    ghost kind = { subtract_kind };

    ghost laws = { lawful-subtract };

    fn act<B: Bench, L: Ledger>(
        &self,
        bench: &mut B,
        at: Place,
        _glyph: Glyph,
        _now: Now,
        steps: &mut Steps<L>,
    ) {
        let a = bench.peek(at.left(1), steps);
        let b = bench.peek(at.right(1), steps);
        let distance = a.value().abs_diff(b.value());
        ports::mark(bench, at, steps);
        bench.write(at.below(), Glyph::cased(distance, b), steps);
    }
}
