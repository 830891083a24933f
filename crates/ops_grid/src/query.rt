ghost use Rattle.std.specs.Prelude.{◌≡◌, ◌+◌, ◌*◌, ◌<◌, slice_index};
ghost use Rattle.orca_base.specs.declared.limits.TheConstants.{BASE};
ghost use Rattle.orca_op.specs.declared.kind.Kind.TheVariants.{Query as query_kind};
ghost use Rattle.orca_op.specs.Deeds.{each_below};
ghost use Rattle.orca_op.specs.Slate.{slate_after_all};
ghost use Rattle.ops_grid.specs.Each.{gather_one};
ghost use Rattle.ops_grid.specs.GridLaws.{lawful-query};

use crate::span::{self, ROOM};
use orca_base::{Glyph, Now, Place, Steps};
use orca_op::{Bench, Operator, Span};
use std::sync::ledger::Ledger;

/// `Q`: reads operands with an offset.
///
/// The ports at its left are `x`, `y` and `length`. Of a row, `length` glyphs are read, the first of them
/// `x + 1` columns to the right and `y` rows below. They are written in the row below, the last one straight
/// below the operator:
///
/// ```text
/// 002Q78    002Q78
/// ......    ..78..
/// ```
pub struct Query;

impl Operator for Query {
    ghost kind = { query_kind };

    ghost laws = { lawful-query };

    fn act<B: Bench, L: Ledger>(
        &self,
        bench: &mut B,
        at: Place,
        _glyph: Glyph,
        _now: Now,
        steps: &mut Steps<L>,
    ) {
        let x = bench.peek(at.left(3), steps).value();
        let y = bench.peek(at.left(2), steps).value();
        let length = bench.peek(at.left(1), steps).value();
        let sources = Span {
            y,
            x: x + 1,
            length,
        };
        let operands = span::read(bench, at, sources, steps);
        bench.param(at.left(3), steps);
        bench.param(at.left(2), steps);
        bench.param(at.left(1), steps);
        // The operands were read, so all sources are marked before the first is written.
        bench.input_span(at, sources, steps);
        gather(bench, at, length, &operands, steps);
    }
}

/// Writes the first `length` operands below, and marks no source.
fn gather<B: Bench, L: Ledger>(
    bench: &mut B,
    at: Place,
    length: u8,
    operands: &[Glyph; ROOM],
    steps: &mut Steps<L>,
)
    requires { length < BASE }
    ensures deeds { B.slate bench.new ≡ slate_after_all (B.slate bench.old)
        (each_below length (λ i. gather_one at length i (slice_index operands.now i))) }
    ensures steps { steps.new ≡ steps.old + 2 * length }
{
    for i in 0..length {
        let column = i32::from(i) + 1 - i32::from(length);
        bench.output(at.off(1, column), steps);
        bench.write(at.off(1, column), operands[usize::from(i)], steps);
    }
}
