ghost use Rattle.orca_op.specs.declared.kind.Kind.TheVariants.{Push as push_kind};
ghost use Rattle.ops_grid.specs.GridLaws.{lawful-push};

use orca_base::{Glyph, Now, Place, Steps};
use orca_op::{Bench, Operator, Span, value_or};
use std::sync::ledger::Ledger;

/// `P`: writes an eastward operand.
///
/// The ports at its left are `key` and `length`, which is 1 at least, and the operand is at its right. Of
/// `length` places in the row below, the first being straight below the operator, the one that the key
/// chooses, modulo the length, gets the operand:
///
/// ```text
/// 12P7    12P7
/// ....    ...7
/// ```
pub struct Push;

impl Operator for Push {
    ghost kind = { push_kind };

    ghost laws = { lawful-push };

    fn act<B: Bench, L: Ledger>(
        &self,
        bench: &mut B,
        at: Place,
        _glyph: Glyph,
        _now: Now,
        steps: &mut Steps<L>,
    ) {
        let key = bench.peek(at.left(2), steps).value();
        let length = value_or(bench.peek(at.left(1), steps), 1);
        let operand = bench.peek(at.right(1), steps);
        let chosen = at.off(1, i32::from(key % length));
        bench.param(at.left(2), steps);
        bench.param(at.left(1), steps);
        bench.lock_span(at, Span { y: 1, x: 0, length }, steps);
        bench.input(at.right(1), steps);
        bench.output(chosen, steps);
        bench.write(chosen, operand, steps);
    }
}
