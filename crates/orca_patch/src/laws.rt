ghost use Rattle.orca_patch.specs.Patches.{InverseLaw, ListedLaw, NoChangeLaw};

/// What holds of the patch of a board's changes. Whatever was done to the board, the patch makes of
/// its grid exactly the grid of the last `begin`, and can be undone on it. What a board lists makes
/// a patch. The patch of no change leaves a grid of its size as it is. It does nothing.
pub fn inverse_law()
    ensures inverse { InverseLaw }
    ensures listed { ListedLaw }
    ensures no_change { NoChangeLaw }
{}
