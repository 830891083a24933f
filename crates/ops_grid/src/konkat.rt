ghost use Rattle.std.specs.Prelude.{◌≡◌, ◌+◌, ◌*◌, ◌<◌, ◌≤◌};
ghost use Rattle.orca_base.specs.declared.limits.TheConstants.{BASE};
ghost use Rattle.orca_op.specs.declared.kind.Kind.TheVariants.{Konkat as konkat_kind};
ghost use Rattle.orca_op.specs.Deeds.{each_below};
ghost use Rattle.orca_op.specs.Slate.{slate_after_all};
ghost use Rattle.ops_grid.specs.Each.{konkat_at, store_at};
ghost use Rattle.ops_grid.specs.GridLaws.{lawful-konkat};

use orca_base::{Glyph, Now, Place, Steps};
use orca_op::{Bench, Operator, Span, value_or};
use std::sync::ledger::Ledger;

/// `K`: reads multiple variables.
///
/// The port at its left is the `length`, which is 1 at least. Below each of the `length` names at
/// its right its variable is written, and nothing below a place without a name:
///
/// ```text
/// aV5.1Ka    aV5.1Ka
/// .......    ......5
/// ```
pub struct Konkat;

impl Operator for Konkat {
    ghost kind = { konkat_kind };

    ghost laws = { lawful-konkat };

    fn act<B: Bench, L: Ledger>(
        &self,
        bench: &mut B,
        at: Place,
        _glyph: Glyph,
        _now: Now,
        steps: &mut Steps<L>,
    ) {
        let length = value_or(bench.peek(at.left(1), steps), 1);
        bench.param(at.left(1), steps);
        concatenate(bench, at, length, steps);
    }
}

/// Writes the variables of the first `length` names below them. The names stand in a row of their own, so
/// each is read as it was before the first was written.
fn concatenate<B: Bench, L: Ledger>(bench: &mut B, at: Place, length: u8, steps: &mut Steps<L>)
    requires { length < BASE }
    ensures deeds { B.slate bench.new
        ≡ slate_after_all (B.slate bench.old) (each_below length (konkat_at (B.slate bench.old).scan at)) }
    ensures steps { steps.new ≤ steps.old + 5 * length }
    ensures later { steps.old ≤ steps.new }
{
    // A mark leaves the names and the variables as they are, so all names are marked at once.
    let names = Span { y: 0, x: 1, length };
    bench.input_span(at, names, steps);
    store(bench, at, length, steps);
}

/// Writes the variables of the first `length` names below them, and marks no name.
fn store<B: Bench, L: Ledger>(bench: &mut B, at: Place, length: u8, steps: &mut Steps<L>)
    requires { length < BASE }
    ensures deeds { let old = B.slate bench.old in
        B.slate bench.new ≡ slate_after_all old (each_below length (store_at old.scan at)) }
    ensures steps { steps.new ≤ steps.old + 4 * length }
    ensures later { steps.old ≤ steps.new }
{
    for i in 0..length {
        write_below(bench, at, i, steps);
    }
}

/// Reads the name in a column, and writes its variable below; nothing is written where the name is missing.
#[tactic(auto, unfolding(orca_op::specs::GridRules::store_deeds, orca_op::specs::Deeds::after, orca_op::specs::State::var_at))]
fn write_below<B: Bench, L: Ledger>(bench: &mut B, at: Place, i: u8, steps: &mut Steps<L>)
    ensures deeds { B.slate bench.new
        ≡ slate_after_all (B.slate bench.old) (store_at (B.slate bench.old).scan at i) }
    ensures steps { steps.new ≤ steps.old + 4 }
    ensures later { steps.old ≤ steps.new }
{
    let column = u16::from(i) + 1;
    let below = at.off(1, i32::from(column));
    let name = bench.peek(at.right(column), steps);
    if name != Glyph::EMPTY {
        let stored = bench.var(name.value(), steps);
        bench.output(below, steps);
        bench.write(below, stored, steps);
    }
}
