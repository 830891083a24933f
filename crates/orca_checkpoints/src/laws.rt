ghost use Rattle.orca_checkpoints.specs.Laws.{BestLaw, DroppedLaw, NextLaw, SpacingLaw, StartLaw};

/// What holds of the checkpoints of every history: they are those of the multiples of the spacing,
/// as far as the history reaches, and the spacing stays small beside the history. It does nothing.
pub fn checkpoint_law()
    ensures start { StartLaw }
    ensures next { NextLaw }
    ensures dropped { DroppedLaw }
    ensures best { BestLaw }
    ensures spacing { SpacingLaw }
{}
