ghost use Rattle.std.specs.Prelude.{◌≤◌, ◌≡◌, ◌+◌, ◌*◌, length, count_by, replicate, vec_capacity, IfOk};
ghost use Rattle.orca_base.specs.Glyphs.{AreGlyphs};
ghost use Rattle.orca_base.specs.Grids.{cells_of};
ghost use Rattle.orca_base.specs.MarkSet.{is_marked, no_marks};
ghost use Rattle.orca_op.specs.Slate.{changes_of, slate_of_sheet};
ghost use Rattle.orca_op.specs.State.{sheet_of};

use crate::listing::Listing;
use orca_base::limits::{BASE, MAX_CELLS, MAX_EVENTS};
use orca_base::{Change, Dims, Event, Glyph, Look, Marks, Memory, Place, Spot, Steps};
use orca_grid::Grid;
use orca_op::Bench;
use std::alloc::Global;
use std::marker::Model;
use std::snapshot::Snapshot;
use std::sync::ledger::Ledger;

/// A bench over plain lists: the slow form, which looks at each place. No run uses it; tests and the
/// stored frames do.
#[derive(Drop)]
pub struct PlainBoard {
    dims: Dims,
    cells: Vec<Glyph>,
    /// The glyphs at the last `begin`, for the proof alone: it has no bytes when the program runs.
    before: Snapshot<Vec<Glyph>>,
    marks: Vec<Marks>,
    vars: Vec<Glyph>,
    events: Vec<Event>,
    listing: Listing,
}

impl Model for PlainBoard {
    ghost use Rattle.std.specs.Prelude.{vec_capacity};
    ghost use Rattle.orca_op.specs.Slate.{Slate};

    ghost Value = { Slate };

    ghost use Rattle.orca_board.specs.PlainBoard.{plain_slate_of, KeepsSlate};

    ghost view = { plain_slate_of };

    ghost invariant = { λ b. KeepsSlate (plain_slate_of b) b.listing.changes
        (vec_capacity b.cells) (vec_capacity b.marks) (vec_capacity b.events) };
}

impl PlainBoard {
    /// A board with the grid's size and glyphs, as after `begin`. It takes at once all the room that it
    /// will need, for the largest grid. [`Memory`] where that room is refused.
    pub fn start(alloc: Global, grid: &Grid) -> Result<PlainBoard, Memory>
        ensures { IfOk result (λ board. board ≡ slate_of_sheet grid.now) }
    {
        let dims = Look::dims(grid);
        let mut cells = Vec::with_capacity(alloc, MAX_CELLS)?;
        cells.extend_from_slice(grid.cells())?;
        let mut marks = Vec::with_capacity(alloc, MAX_CELLS)?;
        marks.resize(dims.cells(), Marks::none())?;
        let mut vars = Vec::new(alloc);
        vars.resize(usize::from(BASE), Glyph::EMPTY)?;
        let before = Snapshot::of(&cells);
        Ok(PlainBoard {
            dims,
            cells,
            before,
            marks,
            vars,
            events: Vec::with_capacity(alloc, MAX_EVENTS)?,
            listing: Listing::start(alloc, dims)?,
        })
    }

    /// A grid of this size with exactly these glyphs, in reading order, as after `begin`. It counts a step
    /// for each of its cells, and takes no memory.
    pub fn load<L: Ledger>(&mut self, dims: Dims, cells: &[Glyph], steps: &mut Steps<L>)
        requires { length cells.now ≡ dims.h * dims.w }
        ensures slate { self.new ≡ slate_of_sheet (record { dims = dims; cells = cells.now }) }
        ensures steps { steps.new ≡ steps.old + cells_of dims }
    {
        let places = dims.cells();
        self.dims = dims;
        copy_into(&mut self.cells, cells, steps);
        unmark(&mut self.marks, places);
        self.vars.fill(Glyph::EMPTY);
        self.events.clear();
        self.before = Snapshot::of(&self.cells);
        self.listing.begin(dims);
    }

    /// The events, in the order in which they were emitted.
    pub fn events(&self) -> &[Event]
        ensures events { result.now ≡ self.now.scan.events }
        ensures few { length result.now ≤ MAX_EVENTS }
    {
        self.events.as_slice()
    }

    /// The places that were written since the last `begin`, each once, with its glyph of that moment.
    pub fn changes(&self) -> &[Change]
        ensures { result.now ≡ changes_of self.now }
    {
        self.listing.changes()
    }
}

impl Look for PlainBoard {
    ghost sheet = { λ b. sheet_of b.scan };

    ghost marks = { λ b. b.scan.marks };

    fn dims(&self) -> Dims {
        self.dims
    }

    fn glyph_at(&self, at: Place) -> Glyph {
        self.cells[self.dims.index(at)]
    }

    fn marks_at(&self, at: Place) -> Marks {
        self.marks[self.dims.index(at)]
    }
}

/// Makes a list exactly these glyphs, for which it has room. It counts a step for each.
fn copy_into<L: Ledger>(list: &mut Vec<Glyph>, glyphs: &[Glyph], steps: &mut Steps<L>)
    requires { length glyphs.now ≤ vec_capacity list.old }
    ensures items { list.new.items ≡ glyphs.now }
    ensures glyphs { AreGlyphs glyphs.now }
    ensures capacity { vec_capacity list.new ≡ vec_capacity list.old }
    ensures steps { steps.new ≡ steps.old + length glyphs.now }
{
    list.clear();
    for glyph in glyphs {
        steps.count_one();
        // By its byte a contract sees that it is a glyph.
        let _byte = glyph.byte();
        list.push_reserved(*glyph);
    }
}

/// Makes a list the empty sets of so many places, for which it has room.
fn unmark(list: &mut Vec<Marks>, places: usize)
    requires { places ≤ vec_capacity list.old }
    ensures items { list.new.items ≡ replicate places no_marks }
    ensures capacity { vec_capacity list.new ≡ vec_capacity list.old }
{
    list.clear();
    for _ in 0..places {
        list.push_reserved(Marks::none());
    }
}

/// Counts a step for each place that is marked.
fn count_marked<L: Ledger>(marks: &[Marks], steps: &mut Steps<L>)
    ensures { steps.new ≡ steps.old + count_by is_marked marks.now }
{
    for place in marks {
        if !place.is_empty() {
            steps.count_one();
        }
    }
}

/// Counts a step for each change.
fn count_changes<L: Ledger>(changes: &[Change], steps: &mut Steps<L>)
    ensures { steps.new ≡ steps.old + length changes.now }
{
    for _change in changes {
        steps.count_one();
    }
}

impl Bench for PlainBoard {
    ghost slate = { λ b. b };

    fn dims(&self) -> Dims {
        self.dims
    }

    #[tactic(auto, unfolding(orca_op::specs::State::peek))]
    fn peek<L: Ledger>(&self, at: Spot, steps: &mut Steps<L>) -> Glyph {
        steps.count_one();
        match self.dims.holds(at) {
            Some(place) => self.cells[self.dims.index(place)],
            None => Glyph::EMPTY,
        }
    }

    #[tactic(auto, unfolding(orca_op::specs::Deeds::after, orca_op::specs::Slate::list_after))]
    fn write<L: Ledger>(&mut self, at: Spot, glyph: Glyph, steps: &mut Steps<L>) {
        steps.count_one();
        if let Some(place) = self.dims.holds(at) {
            let i = self.dims.index(place);
            self.listing.add(place, self.cells[i]);
            glyph.put(&mut self.cells, i);
        }
    }

    #[tactic(auto, unfolding(orca_op::specs::Deeds::after, orca_op::specs::Slate::list_after))]
    fn mark<L: Ledger>(&mut self, at: Spot, marks: Marks, steps: &mut Steps<L>) {
        steps.count_one();
        if let Some(place) = self.dims.holds(at) {
            let i = self.dims.index(place);
            self.marks[i] = self.marks[i].union(marks);
        }
    }

    #[tactic(auto, unfolding(orca_op::specs::State::marked))]
    fn marked<L: Ledger>(&self, at: Spot, steps: &mut Steps<L>) -> Marks {
        steps.count_one();
        match self.dims.holds(at) {
            Some(place) => self.marks[self.dims.index(place)],
            None => Marks::none(),
        }
    }

    #[tactic(auto, unfolding(orca_op::specs::State::var_at))]
    fn var<L: Ledger>(&self, index: u8, steps: &mut Steps<L>) -> Glyph {
        steps.count_one();
        self.vars[usize::from(index)]
    }

    #[tactic(auto, unfolding(orca_op::specs::Deeds::after, orca_op::specs::Slate::list_after))]
    fn set_var<L: Ledger>(&mut self, index: u8, glyph: Glyph, steps: &mut Steps<L>) {
        steps.count_one();
        glyph.put(&mut self.vars, usize::from(index));
    }

    #[tactic(auto, unfolding(orca_op::specs::Deeds::after, orca_op::specs::Slate::list_after))]
    fn emit<L: Ledger>(&mut self, event: Event, steps: &mut Steps<L>) {
        steps.count_one();
        self.events.push_reserved(event);
    }

    #[tactic(auto, unfolding(orca_op::specs::Slate::residue))]
    fn begin<L: Ledger>(&mut self, steps: &mut Steps<L>) {
        steps.count_one();
        count_marked(&self.marks, steps);
        count_changes(self.listing.changes(), steps);
        self.marks.fill(Marks::none());
        self.vars.fill(Glyph::EMPTY);
        self.events.clear();
        self.before = Snapshot::of(&self.cells);
        self.listing.begin(self.dims);
    }
}
