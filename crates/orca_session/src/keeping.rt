//! What a past keeps of an entry: how many cells it touched, and a checkpoint where one is due.

ghost use Rattle.std.specs.Prelude.{◌≡◌, ◌+◌, ◌≤◌, true, length, if◌then◌else◌};
ghost use Rattle.orca_base.specs.Grids.{cells_of};
ghost use Rattle.orca_checkpoints.specs.Laws.{points_after};
ghost use Rattle.orca_checkpoints.specs.Points.{ArePoints, is_point_due, next_moment};
ghost use Rattle.orca_op.specs.State.{sheet_of};
ghost use Rattle.orca_session.specs.Past.{touched_by};

use orca_base::limits::MAX_TOUCHED;
use orca_base::{Dims, Entry, Steps};
use orca_board::Board;
use orca_checkpoints::Checkpoints;
use orca_patch::Patch;
use std::sync::ledger::Ledger;

/// Keeps the board's grid with this tick, if a checkpoint is due as the history comes to so many
/// entries. It takes no more steps than the grid has cells, and none if nothing is due.
pub(crate) fn keep_due<L: Ledger>(
    checkpoints: &mut Checkpoints,
    len: u32,
    tick: u32,
    board: &Board,
    steps: &mut Steps<L>,
)
    requires { is_point_due checkpoints.old len ≡ true → len ≡ next_moment checkpoints.old }
    ensures points { checkpoints.new ≡ points_after checkpoints.old len
        (record { sheet = sheet_of board.now.scan; tick = tick }) }
    ensures steps { steps.new ≤ steps.old
        + (if is_point_due checkpoints.old len then cells_of board.now.scan.dims else 0) }
    ensures all { ArePoints checkpoints.old }
{
    if checkpoints.due(len) {
        checkpoints.keep(len, tick, board, steps);
    }
}

/// How many cells an entry touched. The patch is that of its changes, `dims` is the size before it,
/// and `now` the size after it.
pub(crate) fn touched_by(entry: &Entry, patch: &Patch, dims: Dims, now: Dims) -> u32
    requires { dims ≡ patch.now.dims }
    ensures touched { result ≡ touched_by entry.now patch.now now }
    ensures size { length patch.now.changes ≤ result }
    ensures most { result ≤ MAX_TOUCHED }
{
    let changes = patch.size();
    match entry {
        Entry::Resize { .. } => (dims.cells() + now.cells()) as u32,
        _ => changes,
    }
}
