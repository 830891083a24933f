ghost use Rattle.orca_op.specs.declared.kind.Kind.TheVariants.{WriteAt as write_at_kind};
ghost use Rattle.ops_grid.specs.GridLaws.{lawful-write_at};

use orca_base::{Glyph, Now, Place, Steps};
use orca_op::{Bench, Operator};
use std::sync::ledger::Ledger;

/// `X`: writes an operand with an offset.
///
/// The ports at its left are `x` and `y`, and the operand is at its right. The glyph is written `x`
/// columns to the right and `y + 1` rows below, and sleeps there until the next frame:
///
/// ```text
/// 00XE    00XE
/// ....    ..E.
/// ```
pub struct WriteAt;

impl Operator for WriteAt {
    ghost kind = { write_at_kind };

    ghost laws = { lawful-write_at };

    fn act<B: Bench, L: Ledger>(
        &self,
        bench: &mut B,
        at: Place,
        _glyph: Glyph,
        _now: Now,
        steps: &mut Steps<L>,
    ) {
        let x = i32::from(bench.peek(at.left(2), steps).value());
        let y = i32::from(bench.peek(at.left(1), steps).value());
        let operand = bench.peek(at.right(1), steps);
        let target = at.off(y + 1, x);
        bench.param(at.left(2), steps);
        bench.param(at.left(1), steps);
        bench.input(at.right(1), steps);
        bench.far(target, steps);
        bench.write(target, operand, steps);
    }
}
