ghost use Rattle.std.specs.Prelude.{◌≡◌, ◌+◌, ◌≤◌};
ghost use Rattle.orca_edit.specs.Editing.{FitsIn, IsGridEdit, slate_with, steps_of};
ghost use Rattle.orca_edit.specs.Pieces.{Piece, apply, regrid};
ghost use Rattle.orca_op.specs.Slate.{residue};
ghost use Rattle.orca_op.specs.State.{sheet_of};

use orca_base::{Entry, Steps};
use orca_board::Board;
use std::sync::ledger::Ledger;

/// Does an entry on a board: a Fill, a Put, a Move or a Resize, whose area and place lie in the
/// board's grid. It makes one call of the board, and counts the steps of that call.
#[tactic(auto, unfolding(crate::specs::Pieces::apply))]
pub fn apply<L: Ledger>(board: &mut Board, entry: &Entry, steps: &mut Steps<L>)
    requires edit { IsGridEdit entry.now }
    requires fits { FitsIn board.old.scan.dims entry.now }
    ensures slate { board.new ≡ slate_with board.old entry.now }
    ensures sheet { (p : Piece) → p.sheet ≡ sheet_of board.old.scan
        → sheet_of board.new.scan ≡ (apply p entry.now).piece.sheet }
    // The tick, the notes and the seed stay, and there is no message.
    ensures others { (p : Piece) → p.sheet ≡ sheet_of board.old.scan
        → apply p entry.now ≡ regrid p (sheet_of board.new.scan) }
    ensures steps { steps.new ≡ steps.old + steps_of board.old.scan.dims entry.now }
    // What a later begin has to clear grows by no more than the steps.
    ensures residue { residue board.new + steps.old ≤ residue board.old + steps.new }
{
    match entry {
        Entry::Fill { area, glyph } => board.fill(*area, *glyph, steps),
        Entry::Put { at, block } => board.put(*at, block, steps),
        Entry::Move { area, to } => board.shift(*area, *to, steps),
        Entry::Resize { dims } => board.set_dims(*dims, steps),
        Entry::Reset | Entry::Frame | Entry::Hush => unreachable!(),
    }
}
