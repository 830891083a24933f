ghost use Rattle.orca_op.specs.declared.kind.Kind.TheVariants.{North as north_kind};
ghost use Rattle.ops_motion.specs.MotionLaws.{lawful-north};

use crate::mover::move_to;
use orca_base::{Glyph, Now, Place, Steps};
use orca_op::{Bench, Operator};
use std::sync::ledger::Ledger;

/// `N`: moves northward, or bangs.
///
/// It goes one place on where that place is an empty one of the grid, and becomes a bang otherwise.
///
/// ```text
/// .   N   1   1
/// N   .   N   *
/// ```
pub struct North;

impl Operator for North {
    ghost kind = { north_kind };

    ghost laws = { lawful-north };

    fn act<B: Bench, L: Ledger>(
        &self,
        bench: &mut B,
        at: Place,
        glyph: Glyph,
        _now: Now,
        steps: &mut Steps<L>,
    ) {
        move_to(bench, at, glyph, at.above(), steps);
    }
}
