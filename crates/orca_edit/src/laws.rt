//! Laws of the folds of histories, and of prices. Each function does nothing; its contract is the
//! law.

ghost use Rattle.orca_edit.specs.Folding.{ClosesAll, FitsAtFirst, FitsAtMoment, FitsInParts, FitsOn, FitsOneMore, FitsWithout, FitsWithoutNotes, FoldsFromMoment, FoldsFromOpened, FoldsMore, FoldsNext, FoldsOn, FoldsOneMore, HushesAll, IgnoresCloses, IgnoresNotes, IsSheetAfter, KeepsSeed, KeepsSheet};
ghost use Rattle.orca_edit.specs.Prices.{change_price, price, touched};
ghost use Rattle.orca_edit.specs.Pricing.{ChargesReply, EndsAtPiece, FirstIsWorn, IgnoresNotesOf, JumpWearsNone, ListsPlaces, PaysTwice, PiecesAgree, TotalsAgree, TotalsNone, TotalsOne, TotalsSplit, TouchedByHush, TouchedJumped, TouchedLater, TouchedMore, TouchesBothWays, TouchesFew, TouchesListed};

use orca_board::listing_law;

/// A history is folded entry by entry: one more is applied to the piece as it stands. The seed
/// stays.
pub fn fold_law()
    ensures one { FoldsOneMore }
    ensures more { FoldsMore }
    ensures on { FoldsOn }
    ensures opened { FoldsFromOpened }
    ensures seed { KeepsSeed }
{}

/// No grid and no tick depends on notes, so they don't depend on when a session was closed. A close
/// and the end of a jump end every note, and leave all else.
pub fn notes_law()
    ensures notes { IgnoresNotes }
    ensures closes { IgnoresCloses }
    ensures close { ClosesAll }
    ensures hush { HushesAll }
{}

/// But for its notes, the piece of a moment comes from that of any moment before.
pub fn moment_law()
    ensures next { FoldsNext }
    ensures from { FoldsFromMoment }
{}

/// Entries that all fit: the first ones do, and the others after them. Each fits the piece of its
/// moment. They do without one of them, if no edit may need the size that it gave.
pub fn fit_law()
    ensures on { FitsOn }
    ensures parts { FitsInParts }
    ensures first { FitsAtFirst }
    ensures moment { FitsAtMoment }
    ensures one { FitsOneMore }
    ensures without { FitsWithout }
    ensures notes { FitsWithoutNotes }
{}

/// Entries that fit and write glyphs leave a grid, if the operator table is lawful.
pub fn sheet_law()
    ensures entries { KeepsSheet }
    ensures history { IsSheetAfter }
{}

/// No price depends on notes. Its total splits at each moment, and is the same for sessions that
/// agree so far. What may be taken for a command is the bill of its reply.
pub fn price_law()
    ensures touched { IgnoresNotesOf touched }
    ensures change { IgnoresNotesOf change_price }
    ensures price { IgnoresNotesOf price }
    ensures end { EndsAtPiece }
    ensures split { TotalsSplit }
    ensures one { TotalsOne }
    ensures none { TotalsNone }
    ensures pieces { PiecesAgree }
    ensures totals { TotalsAgree }
    ensures reply { ChargesReply }
{}

/// An edit of the grid lists no more places than it touches, and its price pays for its steps, for
/// the begin before it, and for what the next begin has to clear.
pub fn touch_law()
    ensures places { ListsPlaces }
    ensures listed { TouchesListed }
    ensures both { TouchesBothWays }
    ensures few { TouchesFew }
    ensures pays { PaysTwice }
{
    listing_law();
}

/// The first patch that is kept is the one that as few worn patches as serve lead to.
pub fn first_law()
    ensures worn { FirstIsWorn }
    ensures later { TouchedLater }
    ensures more { TouchedMore }
    ensures jumped { TouchedJumped }
    ensures none { JumpWearsNone }
    ensures hush { TouchedByHush }
{}
