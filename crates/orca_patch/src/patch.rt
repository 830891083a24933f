ghost use Rattle.std.specs.Prelude.{◌≡◌, ◌+◌, ◌≤◌, [], All, IfOk, IsOk, length};
ghost use Rattle.std.specs.List.{IsDistinct};
ghost use Rattle.orca_base.specs.Grids.{IsInside, cells_of, is_place};
ghost use Rattle.orca_op.specs.Slate.{residue};
ghost use Rattle.orca_op.specs.State.{sheet_of};
ghost use Rattle.orca_board.specs.Listing.{places_of};
ghost use Rattle.orca_board.specs.Sizes.{cut_places};
ghost use Rattle.orca_patch.specs.Patches.{CoversCut, GoesBack, IsPatch, slate_before, no_change, sheet_before};

use orca_base::limits::INLINE_CHANGES;
use orca_base::{Change, Dims, Memory, Steps};
use orca_board::Board;
use orca_op::Bench;
use smallvec::SmallVec;
use std::alloc::Global;
use std::marker::Model;
use std::sync::ledger::Ledger;

/// What was before a change: the size, the tick, and the old glyph of each place that was written
/// or cut off. A contract sees these three.
#[derive(Drop)]
pub struct Patch {
    dims: Dims,
    tick: u32,
    changes: SmallVec<Change, INLINE_CHANGES>,
}

impl Model for Patch {
    ghost use Rattle.orca_patch.specs.Patches.{Before, IsPatch};

    ghost Value = { Before };

    ghost view = { λ p. record { dims = p.dims; tick = p.tick; changes = p.changes.items } };

    ghost invariant = { λ p. IsPatch
        (record { dims = p.dims; tick = p.tick; changes = p.changes.items }) };
}

impl Patch {
    /// The patch of these changes, with the size and the tick before them. Up to [`INLINE_CHANGES`]
    /// of them take no memory. [`Memory`] if there is none for more.
    pub fn of_changes(
        alloc: Global,
        dims: Dims,
        tick: u32,
        changes: &[Change],
    ) -> Result<Patch, Memory>
        requires inside { All (IsInside dims) (places_of changes.now) }
        requires once { IsDistinct is_place (places_of changes.now) }
        ensures patch { IfOk result (λ p. p
            ≡ record { dims = dims; tick = tick; changes = changes.now }) }
        ensures inline { length changes.now ≤ INLINE_CHANGES → IsOk result }
    {
        let changes = SmallVec::from_slice(alloc, changes)?;
        Ok(Patch {
            dims,
            tick,
            changes,
        })
    }

    /// The patch of no change.
    pub fn empty(alloc: Global, dims: Dims, tick: u32) -> Patch
        ensures { result ≡ no_change dims tick }
    {
        Patch {
            dims,
            tick,
            changes: SmallVec::new(alloc),
        }
    }

    /// The number of changes, at most one for each cell of a grid of the size before.
    pub fn size(&self) -> u32
        ensures size { result ≡ length self.now.changes }
        ensures few { result ≤ cells_of self.now.dims }
        ensures patch { IsPatch self.now }
    {
        self.changes.len() as u32
    }

    /// Goes back: gives the board the size before, with the old glyph at each listed place and the
    /// board's own glyph at every other place. Answers the tick before. It counts a step for each
    /// place that the size cuts off, and for each change.
    pub fn undo_on<L: Ledger>(&self, board: &mut Board, steps: &mut Steps<L>) -> u32
        requires { CoversCut self.now board.old.scan.dims }
        ensures tick { result ≡ self.now.tick }
        ensures slate { board.new ≡ slate_before self.now board.old }
        ensures sheet { sheet_of board.new.scan ≡ sheet_before self.now (sheet_of board.old.scan) }

        // The patch of a board's changes gives its grid of the last `begin` back, whatever was done.
        ensures inverse { GoesBack self.now (sheet_of board.old.scan) (sheet_of board.new.scan) }
        ensures steps { steps.new ≡ steps.old
            + length (cut_places board.old.scan.dims self.now.dims) + length self.now.changes }

        // The board's own size cuts off no place, and another at most all of its cells.
        ensures same_size { board.old.scan.dims ≡ self.now.dims
            → steps.new ≡ steps.old + length self.now.changes }
        ensures few_steps { steps.new
            ≤ steps.old + cells_of board.old.scan.dims + length self.now.changes }

        // It marks no place, and lists at most one place for each step.
        ensures residue { residue board.new + steps.old ≤ residue board.old + steps.new }
    {
        board.set_dims(self.dims, steps);
        for change in self.changes.as_slice() {
            board.write(change.at.here(), change.old, steps);
        }
        self.tick
    }
}
