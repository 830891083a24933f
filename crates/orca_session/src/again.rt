//! The entries of a history, done again.

ghost use Rattle.std.specs.Prelude.{◌≡◌, ◌+◌, ◌<◌, ◌≤◌};
ghost use Rattle.orca_edit.specs.Editing.{FitsIn};
ghost use Rattle.orca_edit.specs.Pieces.{Piece, apply};
ghost use Rattle.orca_edit.specs.Prices.{price};
ghost use Rattle.orca_op.specs.Slate.{residue};
ghost use Rattle.orca_op.specs.State.{sheet_of};

use orca_base::limits::MAX_HISTORY;
use orca_base::{Entry, Now, Steps};
use orca_board::Board;
use orca_edit::{apply, touch_law};
use orca_frame::frame;
use std::sync::ledger::Ledger;

/// Does an entry of the history again, with the tick and the seed before it. Answers the tick after
/// it. It takes no more steps than the entry's price.
#[tactic(auto, unfolding(orca_edit::specs::Pieces::apply))]
pub(crate) fn do_again<L: Ledger>(
    board: &mut Board,
    entry: &Entry,
    now: Now,
    steps: &mut Steps<L>,
) -> u32
    requires fits { FitsIn board.old.scan.dims entry.now }
    requires early { now.tick < MAX_HISTORY }
    ensures sheet { (p : Piece) → p.sheet ≡ sheet_of board.old.scan → p.tick ≡ now.tick
        → p.seed ≡ now.seed → sheet_of board.new.scan ≡ (apply p entry.now).piece.sheet }
    ensures tick { (p : Piece) → p.sheet ≡ sheet_of board.old.scan → p.tick ≡ now.tick
        → p.seed ≡ now.seed → result ≡ (apply p entry.now).piece.tick }
    ensures price { (p : Piece) → p.sheet ≡ sheet_of board.old.scan → p.tick ≡ now.tick
        → p.seed ≡ now.seed
        → steps.new + residue board.new ≤ steps.old + residue board.old + price p entry.now }
{
    touch_law();
    match entry {
        Entry::Frame => {
            frame(board, now, steps);
        }
        Entry::Reset => {}
        Entry::Hush => {}
        _ => apply(board, entry, steps),
    }
    tick_after(entry, now.tick)
}

/// The tick after an entry.
#[tactic(auto, unfolding(orca_edit::specs::Pieces::apply))]
pub(crate) fn tick_after(entry: &Entry, tick: u32) -> u32
    requires { tick < MAX_HISTORY }
    ensures { (p : Piece) → p.tick ≡ tick → result ≡ (apply p entry.now).piece.tick }
{
    match entry {
        Entry::Frame => tick + 1,
        Entry::Reset => 0,
        _ => tick,
    }
}
