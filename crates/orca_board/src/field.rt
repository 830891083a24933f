ghost use Rattle.std.specs.Prelude.{ℕ, All, true, ◌≤◌, ◌≡◌, ◌==◌, ◌||◌, ◌+◌, ◌-◌, ◌*◌, ◌<◌, false, length, count_by, if◌then◌else◌, nat_le, nat_lt, slice_index, slice_set, ◌&&◌, IfOk, IfSome};
ghost use Rattle.orca_base.specs.Edits.{sheet_after_resize};
ghost use Rattle.orca_base.specs.Grids.{IsInside, IsSize, above, below, by_place, cells_of, is_inside, largest, left, place_in, right};
ghost use Rattle.orca_base.specs.declared.place.Place.{Place};
ghost use Rattle.orca_board.specs.Listing.{places_of};
ghost use Rattle.orca_board.specs.Sizes.{cut_places, slate_after_resize, slate_reverted, with_sheet};
ghost use Rattle.orca_base.specs.Glyphs.{AreGlyphs, IsGlyph, bang, empty};
ghost use Rattle.orca_base.specs.MarkSet.{is_marked};
ghost use Rattle.orca_base.specs.declared.limits.TheConstants.{MAX_CELLS, MAX_COLUMNS, MAX_ROWS};
ghost use Rattle.orca_board.specs.declared.field.TheConstants.{GROUP};
ghost use Rattle.orca_board.specs.Board.{AreLive, IsEmptyOutside, cell_in, cell_marks};
ghost use Rattle.orca_op.specs.Live.{has_bit};
ghost use Rattle.orca_op.specs.Slate.{changes_of, slate_of_sheet, is_listed};
ghost use Rattle.orca_op.specs.State.{state_glyph, has_bang, peek, sheet_of};

use crate::blocks;
use crate::listing::Listing;
use crate::live_bits::LiveBits;
use orca_base::limits::{
    BASE, MAX_CELLS, MAX_COLUMNS, MAX_EVENTS, MAX_ROWS, ROW_WORDS, WORD_COLUMNS,
};
use orca_base::{Change, Dims, Event, Glyph, Look, Marks, Memory, Place, Spot, Steps};
use orca_grid::Grid;
use orca_marks::MarkPlane;
use orca_op::{Bench, LiveRow, Span, Walk};
use std::alloc::Global;
use std::marker::Model;
use std::snapshot::Snapshot;
use std::sync::ledger::Ledger;

/// A bench that keeps which places hold an operator. A row takes the room of the longest one, so that a
/// change of size moves no glyph; outside the grid each cell is `.`.
#[derive(Drop)]
pub(crate) struct Field {
    dims: Dims,
    cells: Vec<Glyph>,
    /// The cells at the last `begin`, for the proof alone: it has no bytes when the program runs.
    before: Snapshot<Vec<Glyph>>,
    marks: MarkPlane,
    live: LiveBits,
    vars: Vec<Glyph>,
    events: Vec<Event>,
    listing: Listing,
}

impl Model for Field {
    ghost use Rattle.std.specs.Prelude.{vec_capacity};
    ghost use Rattle.orca_op.specs.Slate.{Slate};

    ghost Value = { Slate };

    ghost use Rattle.orca_board.specs.Board.{slate_of, KeepsBoard};

    ghost view = { slate_of };

    ghost invariant = { λ b. KeepsBoard (slate_of b) b.listing.changes
        b.cells.items b.marks b.live (vec_capacity b.events) };
}

impl Field {
    /// A field with the grid's size and glyphs, as after `begin`. It takes at once all the room that it
    /// will need, for the largest grid. [`Memory`] where that room is refused.
    pub fn start(alloc: Global, grid: &Grid) -> Result<Field, Memory>
        ensures { IfOk result (λ field. field ≡ slate_of_sheet grid.now) }
    {
        let dims = Look::dims(grid);
        let mut cells = Vec::new(alloc);
        cells.resize(MAX_CELLS, Glyph::EMPTY)?;
        let mut live = LiveBits::start(alloc)?;
        lay(&mut cells, &mut live, dims, grid.cells());
        let mut vars = Vec::new(alloc);
        vars.resize(usize::from(BASE), Glyph::EMPTY)?;
        let before = Snapshot::of(&cells);
        Ok(Field {
            dims,
            cells,
            before,
            marks: MarkPlane::start(alloc)?,
            live,
            vars,
            events: Vec::with_capacity(alloc, MAX_EVENTS)?,
            listing: Listing::start(alloc, dims)?,
        })
    }

    /// A grid of this size with exactly these glyphs, in reading order, as after `begin`. It counts a step
    /// for each cell of the old grid and of the new one.
    pub fn load<L: Ledger>(&mut self, dims: Dims, cells: &[Glyph], steps: &mut Steps<L>)
        requires { length cells.now ≡ dims.h * dims.w }
        ensures slate { self.new ≡ slate_of_sheet (record { dims = dims; cells = cells.now }) }
        ensures steps { steps.new ≡ steps.old + cells_of self.old.scan.dims + cells_of dims }
    {
        steps.count_many(self.dims.cells());
        wipe(&mut self.cells, &mut self.live, self.dims);
        steps.count_many(dims.cells());
        lay(&mut self.cells, &mut self.live, dims, cells);
        self.dims = dims;
        self.marks.clear(dims);
        self.vars.fill(Glyph::EMPTY);
        self.events.clear();
        self.before = Snapshot::of(&self.cells);
        self.listing.begin(dims);
    }

    /// Gives the grid another size: the common part stays, and new places are empty. Where the size changes,
    /// nothing is marked any more, and there is no event. It counts a step for each place that is cut off.
    pub fn set_dims<L: Ledger>(&mut self, dims: Dims, steps: &mut Steps<L>)
        ensures slate { self.new ≡ slate_after_resize self.old dims }
        ensures steps { steps.new ≡ steps.old + length (cut_places self.old.scan.dims dims) }
    {
        let old = self.dims;
        blocks::cut(self, old, dims, steps);
        self.take_dims(dims);
    }

    /// The size and the glyphs of the last `begin`, and no changes. Where the size changes, nothing is marked
    /// any more, and there is no event. It counts a step for each change, and for each place that the size of
    /// the last `begin` cuts off.
    pub fn revert<L: Ledger>(&mut self, steps: &mut Steps<L>)
        ensures slate { self.new ≡ slate_reverted self.old }
        ensures steps { steps.new ≡ steps.old
            + length (cut_places self.old.scan.dims self.old.began.dims) + length self.old.listed }
    {
        let old = self.dims;
        let began = self.listing.dims();
        blocks::cut(self, old, began, steps);
        self.take_dims(began);
        restore(
            &mut self.cells,
            &mut self.live,
            self.listing.changes(),
            steps,
        );
        self.listing.begin(began);
    }

    /// Gives the grid another size, where no place that is cut off holds a glyph, or is wanted for a change.
    fn take_dims(&mut self, dims: Dims)
        requires size { IsSize dims }
        requires empty { (at : Place) → IsInside self.old.scan.dims at → is_inside dims at ≡ false
            → state_glyph self.old.scan at ≡ empty }
        requires listed { (at : Place) → IsInside self.old.began.dims at → is_inside dims at ≡ false
            → is_listed self.old.listed at ≡ true }
        ensures { self.new ≡ record self.old {
          scan = with_sheet self.old.scan (sheet_after_resize (sheet_of self.old.scan) dims);
        } }
    {
        if dims != self.dims {
            self.marks.clear(dims);
            self.events.clear();
            self.dims = dims;
        }
    }

    /// The glyph above a place of the grid.
    fn above(&self, at: Place) -> Glyph
        requires { IsInside self.now.scan.dims at }
        ensures { result ≡ peek self.now.scan (above at) }
    {
        // For the proof alone: there are as many cells as the largest grid has.
        let _cells = &self.cells;
        let i = Dims::largest().index(at);
        if at.y == 0 {
            return Glyph::EMPTY;
        }
        self.cells[i - usize::from(MAX_COLUMNS)]
    }

    /// The glyph at the left of a place of the grid.
    fn left(&self, at: Place) -> Glyph
        requires { IsInside self.now.scan.dims at }
        ensures { result ≡ peek self.now.scan (left at 1) }
    {
        // For the proof alone: there are as many cells as the largest grid has.
        let _cells = &self.cells;
        let i = Dims::largest().index(at);
        if at.x == 0 {
            return Glyph::EMPTY;
        }
        self.cells[i - 1]
    }

    /// The glyph at the right of a place of the grid.
    fn right(&self, at: Place) -> Glyph
        requires { IsInside self.now.scan.dims at }
        ensures { result ≡ peek self.now.scan (right at 1) }
    {
        // For the proof alone: there are as many cells as the largest grid has.
        let _cells = &self.cells;
        let i = Dims::largest().index(at);
        if at.x == MAX_COLUMNS - 1 {
            return Glyph::EMPTY;
        }
        self.cells[i + 1]
    }

    /// The glyph below a place of the grid.
    fn below(&self, at: Place) -> Glyph
        requires { IsInside self.now.scan.dims at }
        ensures { result ≡ peek self.now.scan (below at) }
    {
        // For the proof alone: there are as many cells as the largest grid has.
        let _cells = &self.cells;
        let i = Dims::largest().index(at);
        if at.y == MAX_ROWS - 1 {
            return Glyph::EMPTY;
        }
        self.cells[i + usize::from(MAX_COLUMNS)]
    }

    /// Whether a bang stands beside a place of the grid, wherever it lies. It stands apart, so that the
    /// walk of a row keeps its registers.
    #[inline(never)]
    #[tactic(auto, unfolding(orca_op::specs::State::has_bang))]
    fn is_beside_bang(&self, at: Place) -> bool
        requires { IsInside self.now.scan.dims at }
        ensures { result ≡ has_bang self.now.scan at }
    {
        self.above(at) == Glyph::BANG
            || self.left(at) == Glyph::BANG
            || self.right(at) == Glyph::BANG
            || self.below(at) == Glyph::BANG
    }

    /// The events, in the order in which they were emitted.
    pub fn events(&self) -> &[Event]
        ensures events { result.now ≡ self.now.scan.events }
        ensures few { length result.now ≤ MAX_EVENTS }
    {
        self.events.as_slice()
    }

    /// The places that were written or cut off since the last `begin`, each once, with its glyph of that
    /// moment.
    pub fn changes(&self) -> &[Change]
        ensures { result.now ≡ changes_of self.now }
    {
        self.listing.changes()
    }
}

impl Look for Field {
    ghost sheet = { λ b. sheet_of b.scan };

    ghost marks = { λ b. b.scan.marks };

    fn dims(&self) -> Dims {
        self.dims
    }

    fn glyph_at(&self, at: Place) -> Glyph {
        self.cells[Dims::largest().index(at)]
    }

    fn marks_at(&self, at: Place) -> Marks {
        self.marks.at(at)
    }
}

/// Writes the glyphs of a grid into cells that are all empty.
fn lay(cells: &mut [Glyph], live: &mut LiveBits, dims: Dims, glyphs: &[Glyph])
    requires whole { length cells.old ≡ MAX_CELLS }
    requires empty { (n : ℕ) → n < MAX_CELLS → slice_index cells.old n ≡ empty }
    requires off { (n : ℕ) → n < MAX_CELLS → has_bit live.old n ≡ false }
    requires size { length glyphs.now ≡ dims.h * dims.w }
    ensures whole { length cells.new ≡ MAX_CELLS }
    ensures glyphs { AreGlyphs glyphs.now }
    ensures inside { by_place dims (cell_in cells.new) ≡ glyphs.now }
    ensures outside { IsEmptyOutside dims cells.new }
    ensures live { AreLive cells.new live.new }
{
    let columns = usize::from(dims.w);
    for row in 0..usize::from(dims.h) {
        let first = row * columns;
        let glyphs = &glyphs[first..first + columns];
        lay_row(cells, live, row, glyphs);
    }
}

/// Writes glyphs into the first cells of a row, and sets the bits of their words.
fn lay_row(cells: &mut [Glyph], live: &mut LiveBits, row: usize, glyphs: &[Glyph])
    requires whole { length cells.old ≡ MAX_CELLS }
    requires row { row < MAX_ROWS }
    requires fits { length glyphs.now ≤ MAX_COLUMNS }
    requires live { AreLive cells.old live.old }
    ensures whole { length cells.new ≡ MAX_CELLS }
    ensures glyphs { AreGlyphs glyphs.now }
    ensures cells { (n : ℕ) → slice_index cells.new n
        ≡ (if nat_le (row * MAX_COLUMNS) n && nat_lt n (row * MAX_COLUMNS + length glyphs.now)
        then slice_index glyphs.now (n - row * MAX_COLUMNS) else slice_index cells.old n) }
    ensures live { AreLive cells.new live.new }
{
    let first = row * usize::from(MAX_COLUMNS);
    cells[first..first + glyphs.len()].copy_from_slice(glyphs);
    let columns = usize::from(WORD_COLUMNS);
    let words = (glyphs.len() + (columns - 1)) / columns;
    for k in 0..words {
        let word = row * ROW_WORDS + k;
        live.set_word(word, &cells[word * columns..word * columns + columns]);
    }
}

/// Empties the cells of a grid.
fn wipe(cells: &mut [Glyph], live: &mut LiveBits, dims: Dims)
    requires whole { length cells.old ≡ MAX_CELLS }
    requires outside { IsEmptyOutside dims cells.old }
    requires live { AreLive cells.old live.old }
    ensures whole { length cells.new ≡ MAX_CELLS }
    ensures empty { (n : ℕ) → n < MAX_CELLS → slice_index cells.new n ≡ empty }
    ensures off { (n : ℕ) → n < MAX_CELLS → has_bit live.new n ≡ false }
{
    for row in 0..usize::from(dims.h) {
        wipe_row(
            cells,
            live,
            row * usize::from(MAX_COLUMNS),
            usize::from(dims.w),
        );
    }
}

/// Empties `count` cells from a number on.
fn wipe_row(cells: &mut [Glyph], live: &mut LiveBits, first: usize, count: usize)
    requires whole { length cells.old ≡ MAX_CELLS }
    requires fits { first + count ≤ MAX_CELLS }
    requires live { AreLive cells.old live.old }
    ensures whole { length cells.new ≡ MAX_CELLS }
    ensures cells { (n : ℕ) → slice_index cells.new n
        ≡ (if nat_le first n && nat_lt n (first + count) then empty else slice_index cells.old n) }
    ensures live { AreLive cells.new live.new }
{
    for i in first..first + count {
        let old = cells[i];
        renew(cells, live, i, old, Glyph::EMPTY);
    }
}

/// Puts the old glyphs of the changes back. It counts a step for each.
fn restore<L: Ledger>(
    cells: &mut [Glyph],
    live: &mut LiveBits,
    changes: &[Change],
    steps: &mut Steps<L>,
)
    requires whole { length cells.old ≡ MAX_CELLS }
    requires inside { All (IsInside largest) (places_of changes.now) }
    requires live { AreLive cells.old live.old }
    ensures whole { length cells.new ≡ MAX_CELLS }
    ensures olds { (old : Place → ℕ) → All (λ change. change.old ≡ old change.at) changes.now
        → (at : Place) → IsInside largest at → is_listed (places_of changes.now) at ≡ true
        → cell_in cells.new at ≡ old at }
    ensures others { (at : Place) → IsInside largest at
        → is_listed (places_of changes.now) at ≡ false
        → cell_in cells.new at ≡ cell_in cells.old at }
    ensures live { AreLive cells.new live.new }
    ensures steps { steps.new ≡ steps.old + length changes.now }
{
    for change in changes {
        steps.count_one();
        let i = Dims::largest().index(change.at);
        change.old.put(cells, i);
        live.set(i, change.old.is_operator());
    }
}

/// Writes a glyph where another stands, by the number of the place in the largest grid.
fn renew(cells: &mut [Glyph], live: &mut LiveBits, i: usize, old: Glyph, glyph: Glyph)
    requires whole { length cells.old ≡ MAX_CELLS }
    requires number { i < MAX_CELLS }
    requires old { slice_index cells.old i ≡ old }
    requires live { AreLive cells.old live.old }
    ensures cells { cells.new ≡ slice_set cells.old i glyph }
    ensures glyph { IsGlyph glyph }
    ensures live { AreLive cells.new live.new }
{
    if glyph.byte() != old.byte() {
        glyph.put(cells, i);
        let operator = glyph.is_operator();
        if operator != old.is_operator() {
            live.set(i, operator);
        }
    }
}

/// Whether a bang stands above, at the left, at the right or below a cell of the column `x` that lies
/// neither in the first nor in the last row of the largest grid. Few cells hold a bang, so whether the
/// cell lies at the edge of its row is asked only where one of the four does.
fn bang_around(cells: &[Glyph], i: usize, x: u16) -> bool
    requires above { MAX_COLUMNS ≤ i }
    requires below { i + MAX_COLUMNS < length cells.now }
    ensures { result ≡ ((slice_index cells.now (i - MAX_COLUMNS) == bang)
        || ((slice_index cells.now (i - 1) == bang) && nat_lt 0 x)
        || ((slice_index cells.now (i + 1) == bang) && nat_lt x (MAX_COLUMNS - 1))
        || (slice_index cells.now (i + MAX_COLUMNS) == bang)) }
{
    let row = usize::from(MAX_COLUMNS);
    if cells[i - row] != Glyph::BANG
        && cells[i - 1] != Glyph::BANG
        && cells[i + 1] != Glyph::BANG
        && cells[i + row] != Glyph::BANG
    {
        return false;
    }
    bang_within_edges(cells, i, x)
}

/// The same, with the edges asked for. It stands apart, so that the walk of a row keeps its registers.
#[inline(never)]
fn bang_within_edges(cells: &[Glyph], i: usize, x: u16) -> bool
    requires above { MAX_COLUMNS ≤ i }
    requires below { i + MAX_COLUMNS < length cells.now }
    ensures { result ≡ ((slice_index cells.now (i - MAX_COLUMNS) == bang)
        || ((slice_index cells.now (i - 1) == bang) && nat_lt 0 x)
        || ((slice_index cells.now (i + 1) == bang) && nat_lt x (MAX_COLUMNS - 1))
        || (slice_index cells.now (i + MAX_COLUMNS) == bang)) }
{
    let row = usize::from(MAX_COLUMNS);
    cells[i - row] == Glyph::BANG
        || cells[i - 1] == Glyph::BANG && x > 0
        || cells[i + 1] == Glyph::BANG && x < MAX_COLUMNS - 1
        || cells[i + row] == Glyph::BANG
}

/// How many cells are compared at once with a byte that is looked for.
const GROUP: u16 = 8;

/// Whether one of a group of cells holds the byte. It compares them all at once, which takes fewer
/// instructions than a stop at the first.
fn is_in_group(cells: &[Glyph], first: usize, byte: u8) -> bool
    requires { first + GROUP ≤ length cells.now }
    ensures { result ≡ false
        → (k : ℕ) → k < GROUP → (slice_index cells.now (first + k) == byte) ≡ false }
{
    let mut found = false;
    for k in 0..usize::from(GROUP) {
        found |= cells[first + k].byte() == byte;
    }
    found
}

/// The column up to which no cell at the right of the first holds the byte, as far as whole groups
/// tell. It counts a step for each column before.
fn skip_groups<L: Ledger>(
    cells: &[Glyph],
    first: usize,
    end: u16,
    byte: u8,
    steps: &mut Steps<L>,
) -> u16
    requires some { 1 ≤ end }
    requires fits { first + end ≤ length cells.now }
    ensures range { (1 ≤ result) × (result ≤ end) }
    ensures none { (k : ℕ) → 1 ≤ k → k < result
        → (slice_index cells.now (first + k) == byte) ≡ false }
    ensures steps { steps.new + 1 ≡ steps.old + result }
{
    let groups = (end - 1) / GROUP;
    for group in 0..groups {
        let column = 1 + group * GROUP;
        if is_in_group(cells, first + usize::from(column), byte) {
            return column;
        }
        steps.count_many(usize::from(GROUP));
    }
    1 + groups * GROUP
}

/// The place of a spot in the largest grid; none exactly where the spot lies outside. Its sides are
/// one power of two, so it takes one comparison: a negative number is a great one without its sign.
#[tactic(auto, using(crate::proofs::SpotLemmas::or_below, crate::proofs::SpotLemmas::or_small))]
fn in_largest(spot: Spot) -> Option<Place>
    ensures place { result ≡ place_in largest spot }
    ensures inside { IfSome result (IsInside largest) }
{
    let y = spot.y.cast_unsigned();
    let x = spot.x.cast_unsigned();
    if (y | x) >= u32::from(MAX_COLUMNS) {
        return None;
    }
    Some(Place {
        y: y as u16,
        x: x as u16,
    })
}

/// Counts a step for each place of a grid that is marked.
fn count_marked<L: Ledger>(marks: &MarkPlane, dims: Dims, steps: &mut Steps<L>)
    ensures { steps.new ≡ steps.old + count_by is_marked (by_place dims (cell_marks marks.now)) }
{
    for n in 0..dims.cells() {
        if !marks.at(dims.place(n)).is_empty() {
            steps.count_one();
        }
    }
}

impl Bench for Field {
    ghost slate = { λ b. b };

    fn dims(&self) -> Dims {
        self.dims
    }

    #[tactic(auto, unfolding(orca_op::specs::State::peek))]
    fn peek<L: Ledger>(&self, at: Spot, steps: &mut Steps<L>) -> Glyph {
        steps.count_one();
        // Outside the grid each cell is empty.
        match in_largest(at) {
            Some(place) => self.cells[Dims::largest().index(place)],
            None => Glyph::EMPTY,
        }
    }

    #[tactic(auto, unfolding(orca_op::specs::Deeds::after, orca_op::specs::Slate::list_after))]
    fn write<L: Ledger>(&mut self, at: Spot, glyph: Glyph, steps: &mut Steps<L>) {
        steps.count_one();
        if let Some(place) = self.dims.holds(at) {
            let i = Dims::largest().index(place);
            let old = self.cells[i];
            self.listing.add(place, old);
            renew(&mut self.cells, &mut self.live, i, old, glyph);
        }
    }

    #[tactic(auto, unfolding(orca_op::specs::Deeds::after, orca_op::specs::Slate::list_after))]
    fn mark<L: Ledger>(&mut self, at: Spot, marks: Marks, steps: &mut Steps<L>) {
        steps.count_one();
        // Marks outside the grid are never looked at.
        if let Some(place) = in_largest(at) {
            self.marks.add(place, marks);
        }
    }

    #[tactic(auto, unfolding(orca_op::specs::State::marked))]
    fn marked<L: Ledger>(&self, at: Spot, steps: &mut Steps<L>) -> Marks {
        steps.count_one();
        match self.dims.holds(at) {
            Some(place) => self.marks.at(place),
            None => Marks::none(),
        }
    }

    #[tactic(auto, unfolding(orca_op::specs::State::var_at))]
    fn var<L: Ledger>(&self, index: u8, steps: &mut Steps<L>) -> Glyph {
        steps.count_one();
        self.vars[usize::from(index)]
    }

    #[tactic(auto, unfolding(orca_op::specs::Deeds::after, orca_op::specs::Slate::list_after))]
    fn set_var<L: Ledger>(&mut self, index: u8, glyph: Glyph, steps: &mut Steps<L>) {
        steps.count_one();
        glyph.put(&mut self.vars, usize::from(index));
    }

    #[tactic(auto, unfolding(orca_op::specs::Deeds::after, orca_op::specs::Slate::list_after))]
    fn emit<L: Ledger>(&mut self, event: Event, steps: &mut Steps<L>) {
        steps.count_one();
        self.events.push_reserved(event);
    }

    fn peek_here<L: Ledger>(&self, at: Place, steps: &mut Steps<L>) -> Glyph {
        steps.count_one();
        self.cells[Dims::largest().index(at)]
    }

    fn marked_here<L: Ledger>(&self, at: Place, steps: &mut Steps<L>) -> Marks {
        steps.count_one();
        self.marks.at(at)
    }

    // The walk has the number of the place at hand, so the look for a bang is a part of it.
    #[inline(always)]
    fn beside_bang<L: Ledger>(&self, at: Place, steps: &mut Steps<L>) -> bool {
        steps.count_many(4);
        let cells = &self.cells;
        let i = Dims::largest().index(at);
        let row = usize::from(MAX_COLUMNS);
        if i >= row && i < MAX_CELLS - row {
            return bang_around(cells, i, at.x);
        }
        self.is_beside_bang(at)
    }

    fn find_right<L: Ledger>(
        &self,
        at: Place,
        byte: u8,
        reach: u8,
        steps: &mut Steps<L>,
    ) -> Option<u16> {
        let dims = self.dims;
        let first = Dims::largest().index(at);
        let end = (u16::from(reach) + 1).min(dims.w - at.x);
        let start = skip_groups(&self.cells, first, end, byte, steps);
        for column in start..end {
            steps.count_one();
            if self.cells[first + usize::from(column)].byte() == byte {
                return Some(column);
            }
        }
        None
    }

    fn mark_span<L: Ledger>(&mut self, at: Place, span: Span, marks: Marks, steps: &mut Steps<L>) {
        steps.count_many(usize::from(span.length));
        let y = u32::from(at.y) + u32::from(span.y);
        let x = u32::from(at.x) + u32::from(span.x);
        let dims = self.dims;
        if y < u32::from(dims.h) && x < u32::from(dims.w) {
            let first = Place {
                y: y as u16,
                x: x as u16,
            };
            let count = u16::from(span.length).min(dims.w - first.x);
            self.marks.add_run(first, count, marks);
        }
    }

    // It stands apart, so that the walk of a row keeps its registers.
    #[inline(never)]
    #[tactic(auto, unfolding(orca_op::specs::Slate::residue))]
    fn begin<L: Ledger>(&mut self, steps: &mut Steps<L>) {
        let dims = self.dims;
        steps.count_one();
        count_marked(&self.marks, dims, steps);
        steps.count_many(self.listing.changes().len());
        self.marks.clear(self.dims);
        self.vars.fill(Glyph::EMPTY);
        self.events.clear();
        self.before = Snapshot::of(&self.cells);
        self.listing.begin(dims);
    }
}

impl Walk for Field {
    // A row is told by its summary alone where that is zero, and then nothing reads its words.
    #[inline(always)]
    fn live_words<L: Ledger>(&self, row: u16, steps: &mut Steps<L>) -> LiveRow<'_> {
        steps.count_one();
        LiveRow {
            words: self.live.row(row, self.dims.w),
            summary: self.live.summary(row),
        }
    }
}
