ghost use Rattle.orca_op.specs.declared.kind.Kind.TheVariants.{ReadAt as read_at_kind};
ghost use Rattle.ops_grid.specs.GridLaws.{lawful-read_at};

use orca_base::{Glyph, Now, Place, Steps};
use orca_op::{Bench, Operator};
use std::sync::ledger::Ledger;

/// `O`: reads an operand with an offset.
///
/// The ports at its left are `x` and `y`. The glyph that stands `x + 1` columns to the right and `y` rows
/// below is written below:
///
/// ```text
/// 10O.7/    10O.7
/// .....     ..7..
/// ```
pub struct ReadAt;

impl Operator for ReadAt {
    ghost kind = { read_at_kind };

    ghost laws = { lawful-read_at };

    fn act<B: Bench, L: Ledger>(
        &self,
        bench: &mut B,
        at: Place,
        _glyph: Glyph,
        _now: Now,
        steps: &mut Steps<L>,
    ) {
        let x = i32::from(bench.peek(at.left(2), steps).value());
        let y = i32::from(bench.peek(at.left(1), steps).value());
        let source = at.off(y, x + 1);
        let operand = bench.peek(source, steps);
        bench.param(at.left(2), steps);
        bench.param(at.left(1), steps);
        bench.input(source, steps);
        bench.output(at.below(), steps);
        bench.write(at.below(), operand, steps);
    }
}
