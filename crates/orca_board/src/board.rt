ghost use Rattle.std.specs.Prelude.{◌≡◌, ◌≤◌, ◌+◌, ◌*◌, length, IfOk};
ghost use Rattle.orca_base.specs.declared.limits.TheConstants.{MAX_CELLS, MAX_EVENTS};
ghost use Rattle.orca_base.specs.Areas.{IsArea};
ghost use Rattle.orca_base.specs.Edits.{sheet_after_fill, sheet_after_put, sheet_after_move};
ghost use Rattle.orca_base.specs.Grids.{IsInside, cells_of};
ghost use Rattle.orca_board.specs.Blocks.{slate_after_edit, fill_places, put_places, shift_places};
ghost use Rattle.orca_board.specs.Sizes.{cut_places, slate_after_resize, slate_reverted};
ghost use Rattle.orca_op.specs.Slate.{changes_of, slate_of_sheet, residue};
ghost use Rattle.orca_op.specs.State.{sheet_of};

use crate::blocks;
use crate::field::Field;
use orca_base::limits::MAX_CELLS;
use orca_base::{Area, Block, Change, Dims, Event, Glyph, Look, Marks, Memory, Place, Spot, Steps};
use orca_grid::Grid;
use orca_op::{Bench, LiveRow, Span, Walk};
use std::alloc::Global;
use std::marker::Model;
use std::sync::ledger::Ledger;

/// A bench that keeps which places hold an operator, that is edited in blocks and goes back.
#[derive(Drop)]
pub struct Board {
    field: Field,
    /// Room for the glyphs that a move reads. Nothing is written there until a move.
    scratch: Vec<Glyph>,
}

impl Model for Board {
    ghost use Rattle.std.specs.Prelude.{◌≤◌, vec_capacity};
    ghost use Rattle.orca_base.specs.declared.limits.TheConstants.{MAX_CELLS, MAX_EVENTS};
    ghost use Rattle.orca_op.specs.Slate.{Slate};

    ghost Value = { Slate };

    ghost view = { λ b. b.field };

    ghost invariant = { λ b. MAX_CELLS ≤ vec_capacity b.scratch };
}

impl Board {
    /// A board with the grid's size and glyphs, as after `begin`. It takes at once all the room that it
    /// will need, for the largest grid. [`Memory`] where that room is refused.
    pub fn start(alloc: Global, grid: &Grid) -> Result<Board, Memory>
        ensures { IfOk result (λ board. board ≡ slate_of_sheet grid.now) }
    {
        Ok(Board {
            field: Field::start(alloc, grid)?,
            scratch: Vec::with_capacity(alloc, MAX_CELLS)?,
        })
    }

    /// A grid of this size with exactly these glyphs, in reading order, as after `begin`. It counts a step
    /// for each cell of the old grid and of the new one.
    pub fn load<L: Ledger>(&mut self, dims: Dims, cells: &[Glyph], steps: &mut Steps<L>)
        requires { length cells.now ≡ dims.h * dims.w }
        ensures slate { self.new ≡ slate_of_sheet (record { dims = dims; cells = cells.now }) }
        ensures clear { residue self.new ≡ 0 }
        ensures steps { steps.new ≡ steps.old + cells_of self.old.scan.dims + cells_of dims }
    {
        self.field.load(dims, cells, steps);
    }

    /// Writes the glyph to each place of an area of the grid. It counts a step for each.
    pub fn fill<L: Ledger>(&mut self, area: Area, glyph: Glyph, steps: &mut Steps<L>)
        requires { IsArea self.old.scan.dims area }
        ensures slate { self.new ≡ slate_after_edit self.old
            (sheet_after_fill (sheet_of self.old.scan) area glyph) (fill_places area) }
        ensures steps { steps.new ≡ steps.old + area.h * area.w }
        ensures residue { residue self.new + steps.old ≤ residue self.old + steps.new }
    {
        blocks::fill(&mut self.field, area, glyph, steps);
    }

    /// Writes a block whose first place is `to`. What would stand outside the grid is left out. It counts
    /// a step for each place that it writes.
    pub fn put<L: Ledger>(&mut self, to: Place, block: &Block, steps: &mut Steps<L>)
        requires { IsInside self.old.scan.dims to }
        ensures slate { self.new ≡ slate_after_edit self.old
            (sheet_after_put (sheet_of self.old.scan) to block.now)
            (put_places self.old.scan.dims to block.now.dims) }
        ensures steps { steps.new
            ≡ steps.old + length (put_places self.old.scan.dims to block.now.dims) }
        ensures residue { residue self.new + steps.old ≤ residue self.old + steps.new }
    {
        blocks::put(&mut self.field, to, block, steps);
    }

    /// Moves the glyphs of an area to its image, the block of its size whose first place is `to`. The rest
    /// of the area becomes empty, and what would stand outside the grid is left out. It counts a step for
    /// each place that it reads, and for each that it writes.
    pub fn shift<L: Ledger>(&mut self, area: Area, to: Place, steps: &mut Steps<L>)
        requires area { IsArea self.old.scan.dims area }
        requires to { IsInside self.old.scan.dims to }
        ensures slate { self.new ≡ slate_after_edit self.old
            (sheet_after_move (sheet_of self.old.scan) area to)
            (shift_places self.old.scan.dims area to) }
        ensures steps { steps.new ≡ steps.old + area.h * area.w
            + length (shift_places self.old.scan.dims area to) }
        ensures residue { residue self.new + steps.old ≤ residue self.old + steps.new }
    {
        let dims = Bench::dims(&self.field);
        prove!(usize::from(area.h) * usize::from(area.w) <= dims.cells());
        blocks::shift(&mut self.field, area, to, &mut self.scratch, steps);
    }

    /// Gives the grid another size: the common part stays, and new places are empty. Where the size changes,
    /// nothing is marked any more, and there is no event. It counts a step for each place that is cut off.
    pub fn set_dims<L: Ledger>(&mut self, dims: Dims, steps: &mut Steps<L>)
        ensures slate { self.new ≡ slate_after_resize self.old dims }
        ensures steps { steps.new ≡ steps.old + length (cut_places self.old.scan.dims dims) }
        ensures residue { residue self.new + steps.old ≤ residue self.old + steps.new }
    {
        self.field.set_dims(dims, steps);
    }

    /// The size and the glyphs of the last `begin`, and no changes. Where the size changes, nothing is marked
    /// any more, and there is no event. It counts a step for each change, and for each place that the size of
    /// the last `begin` cuts off.
    pub fn revert<L: Ledger>(&mut self, steps: &mut Steps<L>)
        ensures slate { self.new ≡ slate_reverted self.old }
        ensures steps { steps.new ≡ steps.old
            + length (cut_places self.old.scan.dims self.old.began.dims) + length self.old.listed }
        ensures residue { residue self.new + steps.old ≤ residue self.old + steps.new }
    {
        self.field.revert(steps);
    }

    /// The events, in the order in which they were emitted.
    pub fn events(&self) -> &[Event]
        ensures events { result.now ≡ self.now.scan.events }
        ensures few { length result.now ≤ MAX_EVENTS }
    {
        self.field.events()
    }

    /// The places that were written or cut off since the last `begin`, each once, with its glyph of that
    /// moment.
    pub fn changes(&self) -> &[Change]
        ensures { result.now ≡ changes_of self.now }
    {
        self.field.changes()
    }
}

impl Look for Board {
    ghost sheet = { λ b. sheet_of b.scan };

    ghost marks = { λ b. b.scan.marks };

    fn dims(&self) -> Dims {
        Look::dims(&self.field)
    }

    fn glyph_at(&self, at: Place) -> Glyph {
        self.field.glyph_at(at)
    }

    fn marks_at(&self, at: Place) -> Marks {
        self.field.marks_at(at)
    }
}

impl Bench for Board {
    ghost slate = { λ b. b };

    fn dims(&self) -> Dims {
        Bench::dims(&self.field)
    }

    fn peek<L: Ledger>(&self, at: Spot, steps: &mut Steps<L>) -> Glyph {
        self.field.peek(at, steps)
    }

    fn write<L: Ledger>(&mut self, at: Spot, glyph: Glyph, steps: &mut Steps<L>) {
        self.field.write(at, glyph, steps);
    }

    fn mark<L: Ledger>(&mut self, at: Spot, marks: Marks, steps: &mut Steps<L>) {
        self.field.mark(at, marks, steps);
    }

    fn marked<L: Ledger>(&self, at: Spot, steps: &mut Steps<L>) -> Marks {
        self.field.marked(at, steps)
    }

    fn var<L: Ledger>(&self, index: u8, steps: &mut Steps<L>) -> Glyph {
        self.field.var(index, steps)
    }

    fn set_var<L: Ledger>(&mut self, index: u8, glyph: Glyph, steps: &mut Steps<L>) {
        self.field.set_var(index, glyph, steps);
    }

    fn emit<L: Ledger>(&mut self, event: Event, steps: &mut Steps<L>) {
        self.field.emit(event, steps);
    }

    fn peek_here<L: Ledger>(&self, at: Place, steps: &mut Steps<L>) -> Glyph {
        self.field.peek_here(at, steps)
    }

    fn marked_here<L: Ledger>(&self, at: Place, steps: &mut Steps<L>) -> Marks {
        self.field.marked_here(at, steps)
    }

    #[inline(always)]
    fn beside_bang<L: Ledger>(&self, at: Place, steps: &mut Steps<L>) -> bool {
        self.field.beside_bang(at, steps)
    }

    fn find_right<L: Ledger>(
        &self,
        at: Place,
        byte: u8,
        reach: u8,
        steps: &mut Steps<L>,
    ) -> Option<u16> {
        self.field.find_right(at, byte, reach, steps)
    }

    fn mark_span<L: Ledger>(&mut self, at: Place, span: Span, marks: Marks, steps: &mut Steps<L>) {
        self.field.mark_span(at, span, marks, steps);
    }

    fn begin<L: Ledger>(&mut self, steps: &mut Steps<L>) {
        self.field.begin(steps);
    }
}

impl Walk for Board {
    #[inline(always)]
    fn live_words<L: Ledger>(&self, row: u16, steps: &mut Steps<L>) -> LiveRow<'_> {
        self.field.live_words(row, steps)
    }
}
