ghost use Rattle.orca_op.specs.declared.kind.Kind.TheVariants.{Track as track_kind};
ghost use Rattle.ops_grid.specs.GridLaws.{lawful-track};

use orca_base::{Glyph, Now, Place, Steps};
use orca_op::{Bench, Operator, Span, value_or};
use std::sync::ledger::Ledger;

/// `T`: reads an eastward operand.
///
/// The ports at its left are `key` and `length`, which is 1 at least. Of the `length` glyphs at its
/// right, the one that the key chooses, modulo the length, is written below:
///
/// ```text
/// 13Tabc    13Tabc
/// ......    ..b...
/// ```
pub struct Track;

impl Operator for Track {
    ghost kind = { track_kind };

    ghost laws = { lawful-track };

    fn act<B: Bench, L: Ledger>(
        &self,
        bench: &mut B,
        at: Place,
        _glyph: Glyph,
        _now: Now,
        steps: &mut Steps<L>,
    ) {
        let key = bench.peek(at.left(2), steps).value();
        let length = value_or(bench.peek(at.left(1), steps), 1);
        let chosen = at.right(u16::from(key % length) + 1);
        let operand = bench.peek(chosen, steps);
        bench.param(at.left(2), steps);
        bench.param(at.left(1), steps);
        bench.lock_span(at, Span { y: 0, x: 1, length }, steps);
        bench.input(chosen, steps);
        bench.output(at.below(), steps);
        bench.write(at.below(), operand, steps);
    }
}
