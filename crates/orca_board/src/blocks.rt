//! Edits of a block of cells, over any bench. Each goes row by row.

ghost use Rattle.std.specs.Prelude.{◌≡◌, ◌+◌, ◌*◌, ◌-◌, ◌<◌, ◌≤◌, ◌++◌, length, map, slice_index, vec_capacity};
ghost use Rattle.orca_base.specs.Areas.{IsArea, corner_of};
ghost use Rattle.orca_base.specs.Edits.{block_of, sheet_after_fill, sheet_after_put, sheet_after_move};
ghost use Rattle.orca_base.specs.Glyphs.{empty};
ghost use Rattle.orca_base.specs.Grids.{IsInside, IsSize};
ghost use Rattle.orca_base.specs.declared.limits.TheConstants.{MAX_COLUMNS};
ghost use Rattle.orca_op.specs.Slate.{slate_after_all};
ghost use Rattle.orca_op.specs.State.{state_glyph, sheet_of};
ghost use Rattle.orca_board.specs.Blocks.{IsInLargest, crosses, slate_after_edit, row_run, places_in, image, fill_places, put_places, places_outside, row_outside, shift_places, write_each, rows_of_width, glyph_from};
ghost use Rattle.orca_board.specs.Sizes.{cut_places};

use orca_base::{Area, Block, Dims, Glyph, Place, Steps};
use orca_op::Bench;
use std::sync::ledger::Ledger;

/// The first place of a row of an area.
fn row_of(area: Area, row: u16) -> Place
    requires row { row < area.h }
    requires area { IsInLargest area }
    ensures { result ≡ record { y = area.y + row; x = area.x } }
{
    Place {
        y: area.y + row,
        x: area.x,
    }
}

/// The part, inside a grid, of a block of `h` rows and `w` columns whose first place is `to`.
fn image(dims: Dims, to: Place, h: u16, w: u16) -> Area
    requires { IsInside dims to }
    ensures image { result ≡ image dims to (record { h = h; w = w }) }
    ensures fits { IsInLargest result }
{
    Area {
        y: to.y,
        x: to.x,
        h: h.min(dims.h - to.y),
        w: w.min(dims.w - to.x),
    }
}

/// Reads the glyphs of `count` places of a row, the first of which is `at`, after those read before.
fn read_run<B: Bench, L: Ledger>(
    bench: &B,
    at: Place,
    count: u16,
    into: &mut Vec<Glyph>,
    steps: &mut Steps<L>,
)
    requires row { at.y < (B.slate bench.now).scan.dims.h }
    requires fits { at.x + count ≤ (B.slate bench.now).scan.dims.w }
    requires room { length into.old.items + count ≤ vec_capacity into.old }
    ensures glyphs { into.new.items
        ≡ into.old.items ++ map (state_glyph (B.slate bench.now).scan) (row_run at count) }
    ensures capacity { vec_capacity into.new ≡ vec_capacity into.old }
    ensures steps { steps.new ≡ steps.old + count }
{
    // For the proof alone: the size of the grid.
    let _dims = bench.dims();
    for i in 0..count {
        let place = Place {
            y: at.y,
            x: at.x + i,
        };
        into.push_reserved(bench.peek_here(place, steps));
    }
}

/// Reads the glyphs of an area, in reading order.
fn read_area<B: Bench, L: Ledger>(
    bench: &B,
    area: Area,
    into: &mut Vec<Glyph>,
    steps: &mut Steps<L>,
)
    requires area { IsArea (B.slate bench.now).scan.dims area }
    requires fits { IsInLargest area }
    requires room { area.h * area.w ≤ vec_capacity into.old }
    ensures glyphs { into.new.items ≡ (block_of (sheet_of (B.slate bench.now).scan) area).cells }
    ensures capacity { vec_capacity into.new ≡ vec_capacity into.old }
    ensures steps { steps.new ≡ steps.old + area.h * area.w }
{
    into.clear();
    for row in 0..area.h {
        read_run(bench, row_of(area, row), area.w, into, steps);
    }
}

/// Writes a glyph to `count` places of a row, the first of which is `at`.
fn fill_run<B: Bench, L: Ledger>(
    bench: &mut B,
    at: Place,
    count: u16,
    glyph: Glyph,
    steps: &mut Steps<L>,
)
    requires { at.x + count ≤ MAX_COLUMNS }
    ensures slate { B.slate bench.new
        ≡ slate_after_all (B.slate bench.old) (write_each (λ place. glyph) (row_run at count)) }
    ensures steps { steps.new ≡ steps.old + count }
{
    for i in 0..count {
        let place = Place {
            y: at.y,
            x: at.x + i,
        };
        bench.write(place.here(), glyph, steps);
    }
}

/// Writes `count` glyphs of a list, from a number on, to the places of a row, the first of which is `at`.
fn write_run<B: Bench, L: Ledger>(
    bench: &mut B,
    at: Place,
    count: u16,
    glyphs: &[Glyph],
    first: usize,
    steps: &mut Steps<L>,
)
    requires fits { at.x + count ≤ MAX_COLUMNS }
    requires glyphs { first + count ≤ length glyphs.now }
    ensures slate { B.slate bench.new ≡ slate_after_all (B.slate bench.old)
        (write_each (λ place. slice_index glyphs.now (first + (place.x - at.x)))
        (row_run at count)) }
    ensures steps { steps.new ≡ steps.old + count }
{
    for i in 0..count {
        let place = Place {
            y: at.y,
            x: at.x + i,
        };
        bench.write(place.here(), glyphs[first + usize::from(i)], steps);
    }
}

/// Empties the places of a grid that another size cuts off: the columns and the rows beyond it. Where
/// the other size has as many columns, it goes over the rows beyond alone.
pub(crate) fn cut<B: Bench, L: Ledger>(bench: &mut B, dims: Dims, to: Dims, steps: &mut Steps<L>)
    ensures slate { B.slate bench.new ≡ slate_after_all (B.slate bench.old)
        (write_each (λ place. empty) (cut_places dims to)) }
    ensures steps { steps.new ≡ steps.old + length (cut_places dims to) }
    ensures size { IsSize to }
{
    let first = if to.w < dims.w { 0 } else { to.h.min(dims.h) };
    for y in first..dims.h {
        let x = if y < to.h { to.w.min(dims.w) } else { 0 };
        fill_run(bench, Place { y, x }, dims.w - x, Glyph::EMPTY, steps);
    }
}

/// Whether an area has places in a row.
fn crosses(area: Area, y: u16) -> bool
    requires { IsInLargest area }
    ensures { result ≡ crosses area y }
{
    area.y <= y && y < area.y + area.h
}

/// Empties the places of a row of an area that lie outside another.
fn clear_row_outside<B: Bench, L: Ledger>(
    bench: &mut B,
    area: Area,
    row: u16,
    other: Area,
    steps: &mut Steps<L>,
)
    requires row { row < area.h }
    requires area { IsInLargest area }
    requires other { IsInLargest other }
    ensures slate { B.slate bench.new ≡ slate_after_all (B.slate bench.old) (write_each
        (λ place. empty) (row_outside area row other)) }
    ensures steps { steps.new ≡ steps.old + length (row_outside area row other) }
{
    let first = row_of(area, row);
    if !crosses(other, first.y) {
        fill_run(bench, first, area.w, Glyph::EMPTY, steps);
        return;
    }
    let end = area.x + area.w;
    let left = other.x.max(area.x).min(end);
    let right = (other.x + other.w).max(area.x).min(end);
    fill_run(bench, first, left - area.x, Glyph::EMPTY, steps);
    let behind = Place {
        y: first.y,
        x: right,
    };
    fill_run(bench, behind, end - right, Glyph::EMPTY, steps);
}

/// Empties the places of an area that lie outside another.
fn clear_outside<B: Bench, L: Ledger>(bench: &mut B, area: Area, other: Area, steps: &mut Steps<L>)
    requires area { IsInLargest area }
    requires other { IsInLargest other }
    ensures slate { B.slate bench.new ≡ slate_after_all (B.slate bench.old)
        (write_each (λ place. empty) (places_outside area other)) }
    ensures steps { steps.new ≡ steps.old + length (places_outside area other) }
{
    for row in 0..area.h {
        clear_row_outside(bench, area, row, other, steps);
    }
}

/// Writes each place of an area with the glyph of a block, whose rows of `width` glyphs begin where the
/// area begins.
fn write_block<B: Bench, L: Ledger>(
    bench: &mut B,
    area: Area,
    cells: &[Glyph],
    width: u16,
    steps: &mut Steps<L>,
)
    requires area { IsInLargest area }
    requires columns { area.w ≤ width }
    requires rows { area.h * width ≤ length cells.now }
    ensures slate { B.slate bench.new ≡ slate_after_all (B.slate bench.old)
        (write_each (glyph_from (rows_of_width width cells.now) (corner_of area)) (places_in area)) }
    ensures steps { steps.new ≡ steps.old + area.h * area.w }
{
    for row in 0..area.h {
        let first = usize::from(row) * usize::from(width);
        write_run(bench, row_of(area, row), area.w, cells, first, steps);
    }
}

/// Writes the glyph to each place of an area.
pub(crate) fn fill<B: Bench, L: Ledger>(
    bench: &mut B,
    area: Area,
    glyph: Glyph,
    steps: &mut Steps<L>,
)
    requires { IsArea (B.slate bench.old).scan.dims area }
    ensures slate { B.slate bench.new ≡ slate_after_edit (B.slate bench.old)
        (sheet_after_fill (sheet_of (B.slate bench.old).scan) area glyph) (fill_places area) }
    ensures steps { steps.new ≡ steps.old + area.h * area.w }
{
    let dims = bench.dims();
    prove!(area.h <= dims.h && area.w <= dims.w);
    for row in 0..area.h {
        fill_run(bench, row_of(area, row), area.w, glyph, steps);
    }
}

/// Writes a block whose first place is `to`. What would stand outside the grid is left out.
pub(crate) fn put<B: Bench, L: Ledger>(
    bench: &mut B,
    to: Place,
    block: &Block,
    steps: &mut Steps<L>,
)
    requires { IsInside (B.slate bench.old).scan.dims to }
    ensures slate { B.slate bench.new ≡ slate_after_edit (B.slate bench.old)
        (sheet_after_put (sheet_of (B.slate bench.old).scan) to block.now)
        (put_places (B.slate bench.old).scan.dims to block.now.dims) }
    ensures steps { steps.new
        ≡ steps.old + length (put_places (B.slate bench.old).scan.dims to block.now.dims) }
{
    let area = image(bench.dims(), to, block.h(), block.w());
    write_block(bench, area, block.cells(), block.w(), steps);
}

/// Moves the glyphs of an area to the area's image, the block of its size whose first place is `to`. The
/// rest of the area becomes empty, and what would stand outside the grid is left out. The glyphs are first
/// read into `scratch`, since the area and its image may overlap.
pub(crate) fn shift<B: Bench, L: Ledger>(
    bench: &mut B,
    area: Area,
    to: Place,
    scratch: &mut Vec<Glyph>,
    steps: &mut Steps<L>,
)
    requires area { IsArea (B.slate bench.old).scan.dims area }
    requires to { IsInside (B.slate bench.old).scan.dims to }
    requires room { area.h * area.w ≤ vec_capacity scratch.old }
    ensures slate { B.slate bench.new ≡ slate_after_edit (B.slate bench.old)
        (sheet_after_move (sheet_of (B.slate bench.old).scan) area to)
        (shift_places (B.slate bench.old).scan.dims area to) }
    ensures steps { steps.new ≡ steps.old + area.h * area.w
        + length (shift_places (B.slate bench.old).scan.dims area to) }
    ensures room { vec_capacity scratch.new ≡ vec_capacity scratch.old }
{
    let target = image(bench.dims(), to, area.h, area.w);
    read_area(bench, area, scratch, steps);
    clear_outside(bench, area, target, steps);
    write_block(bench, target, scratch, area.w, steps);
}
