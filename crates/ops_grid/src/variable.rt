ghost use Rattle.orca_op.specs.declared.kind.Kind.TheVariants.{Variable as variable_kind};
ghost use Rattle.ops_grid.specs.GridLaws.{lawful-variable};

use orca_base::{Glyph, Now, Place, Steps};
use orca_op::{Bench, Operator};
use std::sync::ledger::Ledger;

/// `V`: reads and writes a variable.
///
/// The port at its left is the name to `write`, and the one at its right what is written. Where there is no
/// name to `write`, the one at its right is the name to `read`. A variable is set for the rest of the frame;
/// a variable that is read is written below:
///
/// ```text
/// aV5.Va    aV5.Va
/// ......    ....5.
/// ```
pub struct Variable;

impl Operator for Variable {
    ghost kind = { variable_kind };

    ghost laws = { lawful-variable };

    fn act<B: Bench, L: Ledger>(
        &self,
        bench: &mut B,
        at: Place,
        _glyph: Glyph,
        _now: Now,
        steps: &mut Steps<L>,
    ) {
        let write = bench.peek(at.left(1), steps);
        let read = bench.peek(at.right(1), steps);
        let stored = bench.var(read.value(), steps);
        bench.param(at.left(1), steps);
        bench.input(at.right(1), steps);
        if write != Glyph::EMPTY {
            bench.set_var(write.value(), read, steps);
        } else if read != Glyph::EMPTY {
            bench.output(at.below(), steps);
            bench.write(at.below(), stored, steps);
        }
    }
}
