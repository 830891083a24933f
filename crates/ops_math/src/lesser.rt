ghost use Rattle.orca_op.specs.declared.kind.Kind.TheVariants.{Lesser as lesser_kind};
ghost use Rattle.ops_math.specs.ValueLaws.{lawful-lesser};

use crate::ports;
use orca_base::{Glyph, Now, Place, Steps};
use orca_op::{Bench, Operator};
use std::sync::ledger::Ledger;

/// `L`: outputs the smaller of its inputs.
///
/// The ports are `a` at its left and `b` at its right. The place below is emptied where one of them is `.`:
///
/// ```text
/// 4L7.cLB..L5    4L7.cLB..L5
/// .........8.    .4...B.....
/// ```
pub struct Lesser;

impl Operator for Lesser {
    ghost kind = { lesser_kind };

    ghost laws = { lawful-lesser };

    fn act<B: Bench, L: Ledger>(
        &self,
        bench: &mut B,
        at: Place,
        _glyph: Glyph,
        _now: Now,
        steps: &mut Steps<L>,
    ) {
        let a = bench.peek(at.left(1), steps);
        let b = bench.peek(at.right(1), steps);
        let output = if a == Glyph::EMPTY || b == Glyph::EMPTY {
            Glyph::EMPTY
        } else {
            Glyph::cased(a.value().min(b.value()), b)
        };
        ports::mark(bench, at, steps);
        bench.write(at.below(), output, steps);
    }
}
