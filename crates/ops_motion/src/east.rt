ghost use Rattle.orca_op.specs.declared.kind.Kind.TheVariants.{East as east_kind};
ghost use Rattle.ops_motion.specs.MotionLaws.{lawful-east};

use crate::mover::move_to;
use orca_base::{Glyph, Now, Place, Steps};
use orca_op::{Bench, Operator};
use std::sync::ledger::Ledger;

/// `E`: moves eastward, or bangs.
///
/// It goes one place on where that place is an empty one of the grid, and becomes a bang otherwise.
///
/// ```text
/// E..   .E.
///
/// E1.   *1.
/// ```
pub struct East;

impl Operator for East {
    ghost kind = { east_kind };

    ghost laws = { lawful-east };

    fn act<B: Bench, L: Ledger>(
        &self,
        bench: &mut B,
        at: Place,
        glyph: Glyph,
        _now: Now,
        steps: &mut Steps<L>,
    ) {
        move_to(bench, at, glyph, at.right(1), steps);
    }
}
