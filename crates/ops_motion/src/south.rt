ghost use Rattle.orca_op.specs.declared.kind.Kind.TheVariants.{South as south_kind};
ghost use Rattle.ops_motion.specs.MotionLaws.{lawful-south};

use crate::mover::move_to;
use orca_base::{Glyph, Now, Place, Steps};
use orca_op::{Bench, Operator};
use std::sync::ledger::Ledger;

/// `S`: moves southward, or bangs.
///
/// It goes one place on where that place is an empty one of the grid, and becomes a bang otherwise.
///
/// ```text
/// S   .   S   *
/// .   S   1   1
/// ```
pub struct South;

impl Operator for South {
    ghost kind = { south_kind };

    ghost laws = { lawful-south };

    fn act<B: Bench, L: Ledger>(
        &self,
        bench: &mut B,
        at: Place,
        glyph: Glyph,
        _now: Now,
        steps: &mut Steps<L>,
    ) {
        move_to(bench, at, glyph, at.below(), steps);
    }
}
