ghost use Rattle.orca_op.specs.declared.kind.Kind.TheVariants.{Bang as bang_kind};
ghost use Rattle.ops_motion.specs.MotionLaws.{lawful-bang};

use orca_base::{Glyph, Now, Place, Steps};
use orca_op::{Bench, Operator};
use std::sync::ledger::Ledger;

/// `*`: bangs neighboring operands.
///
/// It stands until it is visited itself, and is erased then.
///
/// ```text
/// 1a2   1a2
/// .*.   .3.
///
/// .*.   ...
/// 1a2   1a2
/// ...   ...
/// ```
pub struct Bang;

impl Operator for Bang {
    ghost kind = { bang_kind };

    ghost laws = { lawful-bang };

    fn act<B: Bench, L: Ledger>(
        &self,
        bench: &mut B,
        at: Place,
        _glyph: Glyph,
        _now: Now,
        steps: &mut Steps<L>,
    ) {
        bench.write(at.here(), Glyph::EMPTY, steps);
    }
}
