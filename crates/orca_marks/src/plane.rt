ghost use Rattle.std.specs.Prelude.{◌≡◌, ◌≤◌, ◌+◌, ◌&&◌, ℕ, length, map, nat_le, nat_lt, slice_set, slice_index_or, count_by, if◌then◌else◌, IfOk};
ghost use Rattle.orca_base.specs.declared.limits.TheConstants.{MAX_CELLS, MAX_COLUMNS, MAX_ROWS};
ghost use Rattle.orca_base.specs.declared.place.Place.{Place};
ghost use Rattle.orca_base.specs.Grids.{IsInside, largest, index_of, is_inside};
ghost use Rattle.orca_base.specs.MarkSet.{MarkSet, no_marks, all_marks, is_marked};
ghost use Rattle.orca_marks.specs.Planes.{IsPlane, blank};

use orca_base::limits::{MAX_CELLS, MAX_COLUMNS, MAX_ROWS};
use orca_base::{Dims, Marks, Memory, Place};
use std::alloc::Global;
use std::marker::Model;

/// The rows of the largest grid.
const ROWS: usize = MAX_ROWS as usize;

/// The marks of the places of the largest grid. A contract sees them in reading order.
#[derive(Drop)]
pub struct MarkPlane {
    marks: Vec<Marks>,
    /// The size of the last clearing.
    cleared: Dims,
    /// Which rows were marked since. In the others no place of a grid of that size is marked.
    marked: [bool; ROWS],
}

impl Model for MarkPlane {
    ghost use Rattle.std.specs.Prelude.{List};
    ghost use Rattle.orca_base.specs.MarkSet.{MarkSet};
    ghost use Rattle.orca_marks.specs.Planes.{IsPlane};

    ghost Value = { List MarkSet };

    ghost view = { λ p. p.marks.items };

    ghost invariant = { λ p. IsPlane p.marks.items p.cleared p.marked };
}

impl MarkPlane {
    /// No marks, with the room for those of every place. [`Memory`] where that room is refused.
    pub fn start(alloc: Global) -> Result<MarkPlane, Memory>
        ensures { IfOk result (λ plane. plane ≡ blank) }
    {
        let mut marks = Vec::new(alloc);
        marks.resize(MAX_CELLS, Marks::none())?;
        Ok(MarkPlane {
            marks,
            cleared: Dims::largest(),
            marked: [false; ROWS],
        })
    }

    /// Adds marks to a place of the largest grid.
    pub fn add(&mut self, at: Place, marks: Marks)
        requires { IsInside largest at }
        ensures { self.new ≡ slice_set self.old (index_of largest at)
            (all_marks (slice_index_or self.old (index_of largest at) no_marks) marks) }
    {
        let index = Dims::largest().index(at);
        self.marked[usize::from(at.y)] = true;
        self.marks[index] = self.marks[index].union(marks);
    }

    /// Adds marks to `count` places of a row of the largest grid, the first of which is `at`.
    pub fn add_run(&mut self, at: Place, count: u16, marks: Marks)
        requires inside { IsInside largest at }
        requires fits { at.x + count ≤ MAX_COLUMNS }
        ensures size { length self.new ≡ MAX_CELLS }
        ensures marks { (i : ℕ) → slice_index_or self.new i no_marks
            ≡ (if nat_le (index_of largest at) i && nat_lt i (index_of largest at + count)
            then all_marks (slice_index_or self.old i no_marks) marks
            else slice_index_or self.old i no_marks) }
    {
        let first = Dims::largest().index(at);
        self.marked[usize::from(at.y)] = true;
        add_from(&mut self.marks, first, usize::from(count), marks);
    }

    /// The marks of a place of the largest grid.
    pub fn at(&self, at: Place) -> Marks
        requires { IsInside largest at }
        ensures { result ≡ slice_index_or self.now (index_of largest at) no_marks }
    {
        self.marks[Dims::largest().index(at)]
    }

    /// How many places are marked.
    pub fn count(&self) -> u32
        ensures count { result ≡ count_by is_marked self.now }
        ensures most { result ≤ MAX_CELLS }
    {
        self.marks.iter().filter(|place| !place.is_empty()).count() as u32
    }

    /// Takes the marks of a grid's places away. It goes over the rows that were marked, and over
    /// all rows of the grid where the size is another one than at the last clearing.
    pub fn clear(&mut self, dims: Dims)
        ensures size { length self.new ≡ MAX_CELLS }
        ensures marks { (at : Place) → IsInside largest at
            → slice_index_or self.new (index_of largest at) no_marks ≡ (if is_inside dims at
            then no_marks else slice_index_or self.old (index_of largest at) no_marks) }
    {
        if dims != self.cleared {
            self.cleared = dims;
            self.marked = [true; ROWS];
        }
        clear_rows(&mut self.marks, &mut self.marked, dims);
    }
}

/// Takes the marks of a grid's places away, in the rows that were marked.
fn clear_rows(places: &mut [Marks], marked: &mut [bool; ROWS], dims: Dims)
    requires { IsPlane places.old dims marked.old }
    ensures plane { IsPlane places.new dims marked.new }
    ensures marks { (at : Place) → IsInside largest at
        → slice_index_or places.new (index_of largest at) no_marks ≡ (if is_inside dims at
        then no_marks else slice_index_or places.old (index_of largest at) no_marks) }
{
    for row in 0..usize::from(dims.h) {
        if marked[row] {
            marked[row] = false;
            let first = row * usize::from(MAX_COLUMNS);
            clear_from(places, first, usize::from(dims.w));
        }
    }
}

/// Adds marks to `count` places, counted up from `first`.
fn add_from(places: &mut [Marks], first: usize, count: usize, marks: Marks)
    requires { first + count ≤ length places.old }
    ensures size { length places.new ≡ length places.old }
    ensures marks { (i : ℕ) → slice_index_or places.new i no_marks
        ≡ (if nat_le first i && nat_lt i (first + count)
        then all_marks (slice_index_or places.old i no_marks) marks
        else slice_index_or places.old i no_marks) }
{
    for i in first..first + count {
        places[i] = places[i].union(marks);
    }
}

/// Takes the marks of `count` places away, counted up from `first`.
fn clear_from(places: &mut [Marks], first: usize, count: usize)
    requires { first + count ≤ length places.old }
    ensures size { length places.new ≡ length places.old }
    ensures marks { (i : ℕ) → slice_index_or places.new i no_marks
        ≡ (if nat_le first i && nat_lt i (first + count) then no_marks
        else slice_index_or places.old i no_marks) }
{
    for i in first..first + count {
        places[i] = Marks::none();
    }
}
