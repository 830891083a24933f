ghost use Rattle.orca_board.specs.Laws.{BeginLaw, CutLaw, FillLaw, ListingLaw, PutLaw, ShiftLaw};

/// What a board lists. Where nothing was listed, as after `begin`, an edit lists each place that it
/// touches, once: so there are as many changes as places. A begin leaves nothing to clear. It does
/// nothing.
pub fn listing_law()
    ensures listing { ListingLaw }
    ensures fill { FillLaw }
    ensures put { PutLaw }
    ensures shift { ShiftLaw }
    ensures cut { CutLaw }
    ensures begin { BeginLaw }
{}
