ghost use Rattle.orca_base.specs.declared.now.Now.{Now};
ghost use Rattle.orca_base.specs.Grids.{IsSheet, Sheet};
ghost use Rattle.orca_frame.specs.Skips.{IsAtRest, IsInert, IsSkipping};
ghost use Rattle.orca_op.specs.Scan.{Rules};

/// Over idle places the scan changes nothing, whatever the rules are: over those that hold no
/// operator, are locked or asleep, or wait for a bang. So a walk that goes from one operator to the
/// next leaves what a visit of every place leaves. It does nothing.
pub fn skipping_law()
    ensures { (rules : Rules) → IsSkipping rules }
{}

/// A grid that holds no operator is at rest: a frame that begins on it anew leaves it as it is, and
/// takes one step for each row and one more. It does nothing.
pub fn rest_law()
    ensures { (g : Sheet) (now : Now) → IsSheet g → IsInert g → IsAtRest g now }
{}
