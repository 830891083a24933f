ghost use Rattle.orca_op.specs.declared.kind.Kind.TheVariants.{Halt as halt_kind};
ghost use Rattle.ops_motion.specs.MotionLaws.{lawful-halt};

use orca_base::{Glyph, Now, Place, Steps};
use orca_op::{Bench, Operator};
use std::sync::ledger::Ledger;

/// `H`: halts the southward operand.
///
/// What stands below it is not evaluated.
///
/// ```text
/// H.   H.
/// E.   E.
/// ```
pub struct Halt;

impl Operator for Halt {
    ghost kind = { halt_kind };

    ghost laws = { lawful-halt };

    fn act<B: Bench, L: Ledger>(
        &self,
        bench: &mut B,
        at: Place,
        _glyph: Glyph,
        _now: Now,
        steps: &mut Steps<L>,
    ) {
        bench.param(at.below(), steps);
    }
}
