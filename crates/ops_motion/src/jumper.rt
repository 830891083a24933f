ghost use Rattle.orca_op.specs.declared.kind.Kind.TheVariants.{Jumper as jumper_kind};
ghost use Rattle.ops_motion.specs.MotionLaws.{lawful-jumper};

use crate::chain::jump;
use crate::way::Way;
use orca_base::{Glyph, Now, Place, Steps};
use orca_op::{Bench, Operator};
use std::sync::ledger::Ledger;

/// `J`: outputs the northward operand.
///
/// A chain of jumpers is one jumper: the first hands what stands above it on to the place below the last.
///
/// ```text
/// 5   5
/// J   J
/// J   J
/// .   5
/// ```
pub struct Jumper;

impl Operator for Jumper {
    ghost kind = { jumper_kind };

    ghost laws = { lawful-jumper };

    fn act<B: Bench, L: Ledger>(
        &self,
        bench: &mut B,
        at: Place,
        glyph: Glyph,
        _now: Now,
        steps: &mut Steps<L>,
    ) {
        jump(bench, at, glyph, Way::Down, steps);
    }
}
