ghost use Rattle.orca_history.specs.Trails.{PushedLaw, JumpedLaw, RedoneLaw, RetractedLaw, WornLaw};

/// What holds of the patches of every history: a push, a jump, a redo and a Retract give the new
/// entry its patch, and each earlier entry keeps the patch that it had, if it is kept. A push lets as
/// few patches go as serve. It does nothing.
pub fn patch_laws()
    ensures pushed { PushedLaw }
    ensures jumped { JumpedLaw }
    ensures redone { RedoneLaw }
    ensures retracted { RetractedLaw }
    ensures worn { WornLaw }
{}
