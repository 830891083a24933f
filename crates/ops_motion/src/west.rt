ghost use Rattle.orca_op.specs.declared.kind.Kind.TheVariants.{West as west_kind};
ghost use Rattle.ops_motion.specs.MotionLaws.{lawful-west};

use crate::mover::move_to;
use orca_base::{Glyph, Now, Place, Steps};
use orca_op::{Bench, Operator};
use std::sync::ledger::Ledger;

/// `W`: moves westward, or bangs.
///
/// It goes one place on where that place is an empty one of the grid, and becomes a bang otherwise.
///
/// ```text
/// ..W   .W.
///
/// .1W   .1*
/// ```
pub struct West;

impl Operator for West {
    ghost kind = { west_kind };

    ghost laws = { lawful-west };

    fn act<B: Bench, L: Ledger>(
        &self,
        bench: &mut B,
        at: Place,
        glyph: Glyph,
        _now: Now,
        steps: &mut Steps<L>,
    ) {
        move_to(bench, at, glyph, at.left(1), steps);
    }
}
