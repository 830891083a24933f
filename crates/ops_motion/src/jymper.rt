ghost use Rattle.orca_op.specs.declared.kind.Kind.TheVariants.{Jymper as jymper_kind};
ghost use Rattle.ops_motion.specs.MotionLaws.{lawful-jymper};

use crate::chain::jump;
use crate::way::Way;
use orca_base::{Glyph, Now, Place, Steps};
use orca_op::{Bench, Operator};
use std::sync::ledger::Ledger;

/// `Y`: outputs the westward operand.
///
/// A chain of jympers is one jymper: the first hands what stands at its left on to the place at the right
/// of the last.
///
/// ```text
/// 5YY.   5YY5
/// ```
pub struct Jymper;

impl Operator for Jymper {
    ghost kind = { jymper_kind };

    ghost laws = { lawful-jymper };

    fn act<B: Bench, L: Ledger>(
        &self,
        bench: &mut B,
        at: Place,
        glyph: Glyph,
        _now: Now,
        steps: &mut Steps<L>,
    ) {
        jump(bench, at, glyph, Way::Right, steps);
    }
}
