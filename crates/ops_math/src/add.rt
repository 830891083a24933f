ghost use Rattle.orca_op.specs.declared.kind.Kind.TheVariants.{Add as add_kind};
ghost use Rattle.ops_math.specs.ValueLaws.{lawful-add};

use crate::ports;
use orca_base::limits::BASE;
use orca_base::{Glyph, Now, Place, Steps};
use orca_op::{Bench, Operator};
use std::sync::ledger::Ledger;

/// `A`: outputs the sum of its inputs.
///
/// The ports are `a` at its left and `b` at its right. A sum of 36 or more begins again at 0:
///
/// ```text
/// 3A4.aAB    3A4.aAB
/// .......    .7...L.
/// ```
pub struct Add;

impl Operator for Add {
    ghost kind = { add_kind };

    ghost laws = { lawful-add };

    fn act<B: Bench, L: Ledger>(
        &self,
        bench: &mut B,
        at: Place,
        _glyph: Glyph,
        _now: Now,
        steps: &mut Steps<L>,
    ) {
        let a = bench.peek(at.left(1), steps);
        let b = bench.peek(at.right(1), steps);
        let sum = (a.value() + b.value()) % BASE;
        ports::mark(bench, at, steps);
        bench.write(at.below(), Glyph::cased(sum, b), steps);
    }
}
