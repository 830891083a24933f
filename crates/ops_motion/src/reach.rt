ghost use Rattle.orca_base.specs.Grids.{above, down, left, right};
ghost use Rattle.orca_op.specs.MotionRules.{jumper, jymper};
ghost use Rattle.ops_motion.specs.Reaches.{HandsOn, MarksItsSource, CommentsLock, CommentsLockAlone};

/// The first of a chain of jumpers hands the glyph of its source on to the first place beyond that holds
/// another glyph, within its reach. Where there is none, it only marks its source. The law does nothing.
pub fn chain_law()
    ensures jumper { HandsOn jumper above down }
    ensures endless_jumper { MarksItsSource jumper above down }
    ensures jymper { HandsOn jymper (λ at. left at 1) right }
    ensures endless_jymper { MarksItsSource jymper (λ at. left at 1) right }
{}

/// A comment locks each place at its right, up to and with the next `#`, and none beyond its reach. The law
/// does nothing.
pub fn comment_law()
    ensures locks { CommentsLock }
    ensures alone { CommentsLockAlone }
{}
