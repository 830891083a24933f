ghost use Rattle.std.specs.Prelude.{◌≡◌, ◌+◌, ◌*◌, ◌<◌};
ghost use Rattle.orca_base.specs.declared.limits.TheConstants.{BASE};
ghost use Rattle.orca_op.specs.declared.kind.Kind.TheVariants.{Generator as generator_kind};
ghost use Rattle.orca_op.specs.Deeds.{each_below};
ghost use Rattle.orca_op.specs.Slate.{slate_after_all};
ghost use Rattle.ops_grid.specs.Each.{copy_at, generate_at};
ghost use Rattle.ops_grid.specs.GridLaws.{lawful-generator};

use orca_base::{Glyph, Now, Place, Steps};
use orca_op::{Bench, Operator, Span};
use std::sync::ledger::Ledger;

/// `G`: writes operands with an offset.
///
/// The ports at its left are `x`, `y` and `length`. The `length` glyphs at its right are written in a row,
/// the first one `x` columns to the right and `y + 1` rows below, and sleep there until the next frame:
///
/// ```text
/// 002Gab..    002Gab..
/// ........    ...ab...
/// ```
pub struct Generator;

impl Operator for Generator {
    ghost kind = { generator_kind };

    ghost laws = { lawful-generator };

    fn act<B: Bench, L: Ledger>(
        &self,
        bench: &mut B,
        at: Place,
        _glyph: Glyph,
        _now: Now,
        steps: &mut Steps<L>,
    ) {
        let x = bench.peek(at.left(3), steps).value();
        let y = bench.peek(at.left(2), steps).value();
        let length = bench.peek(at.left(1), steps).value();
        bench.param(at.left(3), steps);
        bench.param(at.left(2), steps);
        bench.param(at.left(1), steps);
        generate(bench, at, y, x, length, steps);
    }
}

/// Writes the first `length` operands at the target. The operands stand in a row above it, so each is read
/// as it was before the first was written.
fn generate<B: Bench, L: Ledger>(
    bench: &mut B,
    at: Place,
    y: u8,
    x: u8,
    length: u8,
    steps: &mut Steps<L>,
)
    requires { (y < BASE) × (x < BASE) × (length < BASE) }
    ensures deeds { let old = B.slate bench.old in
        B.slate bench.new ≡ slate_after_all old (each_below length (generate_at old.scan at y x)) }
    ensures steps { steps.new ≡ steps.old + 4 * length }
{
    // A mark leaves the operands as they are, so all places are marked before the first is written.
    bench.input_span(at, Span { y: 0, x: 1, length }, steps);
    let targets = Span {
        y: y + 1,
        x,
        length,
    };
    bench.far_span(at, targets, steps);
    copy(bench, at, y, x, length, steps);
}

/// Writes the first `length` operands at the target, and marks nothing.
fn copy<B: Bench, L: Ledger>(
    bench: &mut B,
    at: Place,
    y: u8,
    x: u8,
    length: u8,
    steps: &mut Steps<L>,
)
    requires { (y < BASE) × (x < BASE) × (length < BASE) }
    ensures deeds { let old = B.slate bench.old in
        B.slate bench.new ≡ slate_after_all old (each_below length (copy_at old.scan at y x)) }
    ensures steps { steps.new ≡ steps.old + 2 * length }
{
    for i in 0..length {
        let target = at.off(i32::from(y) + 1, i32::from(x) + i32::from(i));
        let operand = bench.peek(at.right(u16::from(i) + 1), steps);
        bench.write(target, operand, steps);
    }
}
