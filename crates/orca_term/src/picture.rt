//! The picture of a grid, its marks, the editor and the status line.

ghost use Rattle.std.specs.Prelude.{◌≡◌, ◌≢◌, ◌==◌, ◌+◌, ◌-◌, ◌*◌, ◌%◌, ◌^◌, [], ◌<◌, ◌≤◌, ◌&&◌, ◌++◌, false, true, if◌then◌else◌, length, map, slice_index_or, vec_len, All};
ghost use Rattle.std.specs.List.{list_any, range_with_len};
ghost use Rattle.std.specs.Vec.{vec_capacity};
ghost use Rattle.orca_base.specs.Edits.{is_in_area};
ghost use Rattle.orca_base.specs.Glyphs.{empty};
ghost use Rattle.orca_base.specs.Grids.{IsInside, glyph_at};
ghost use Rattle.orca_base.specs.MarkSet.{no_marks};
ghost use Rattle.orca_term.specs.Codes.{plus};
ghost use Rattle.orca_term.specs.Editing.{area_of, page_of};
ghost use Rattle.orca_term.specs.Picture.{IsPrintable, IsPrintableByte, IsScreen, faint, screen_cells, scene_of, style_at, style_by, is_met, blank_cell, cut_row, grid_cell, grid_row, glyph_under, page_row, piece_row, rows_of, status_cells, tells_sent, text_cell, text_row, upper_rows};

use crate::help::page_line;
use crate::limits::{RULER_PLACES, TRAFFIC_ROWS};
use crate::status::status_cells;
use crate::styles::{FAINT, PLAIN, style_by};
use crate::window::page_of;
use crate::{Cell, Cursors, Editor, Overlay, ScreenSize, StatusLine, Traffic};
use orca_base::{Glyph, Look, Place};

/// A space without a style.
pub(crate) const BLANK: Cell = Cell {
    byte: b' ',
    style: PLAIN,
};

/// A row and a column that may lie outside the grid.
#[derive(Clone, Copy)]
struct Corner {
    y: u32,
    x: u32,
}

/// Makes `cells` the rows of the picture above the status line.
#[tactic(auto, unfolding(crate::specs::Picture::upper_rows))]
pub(crate) fn draw_upper<T: Look>(
    cells: &mut Vec<Cell>,
    size: ScreenSize,
    look: &T,
    over: &Overlay,
    sent: &Traffic,
)
    requires screen { IsScreen size }
    requires room { screen_cells size ≤ vec_capacity cells.old }
    ensures rows { cells.new.items
        ≡ upper_rows size (scene_of (T.sheet look.now) (T.marks look.now) over.now) sent.now }
    ensures len { vec_len cells.new ≡ (size.rows - 1) * size.columns }
    ensures printable { All IsPrintable cells.new.items }
    ensures room { vec_capacity cells.new ≡ vec_capacity cells.old }
{
    cells.clear();
    if over.editor.page == 0 {
        draw_piece(cells, size, look, over, sent);
    } else {
        draw_page(cells, size, over.editor.page);
    }
}

/// Appends the status line.
pub(crate) fn draw_status<T: Look>(
    cells: &mut Vec<Cell>,
    size: ScreenSize,
    look: &T,
    over: &Overlay,
    line: &StatusLine,
)
    requires screen { IsScreen size }
    requires above { vec_len cells.old ≡ (size.rows - 1) * size.columns }
    requires room { screen_cells size ≤ vec_capacity cells.old }
    requires printable { All IsPrintable cells.old.items }
    ensures row { let scene = scene_of (T.sheet look.now) (T.marks look.now) over.now in
        cells.new.items ≡ cells.old.items ++ cut_row size.columns
        (status_cells scene.editor (glyph_under scene) line.now) }
    ensures whole { length cells.new.items ≡ screen_cells size }
    ensures printable { All IsPrintable cells.new.items }
    ensures room { vec_capacity cells.new ≡ vec_capacity cells.old }
{
    let strip = status_cells(&over.editor, glyph_under(look, over), line);
    push_strip(cells, u32::from(size.columns), strip.as_slice());
}

/// Appends the rows of a page of help.
fn draw_page(cells: &mut Vec<Cell>, size: ScreenSize, page: u8)
    requires screen { IsScreen size }
    requires none { cells.old.items ≡ [] }
    requires room { screen_cells size ≤ vec_capacity cells.old }
    ensures rows { cells.new.items ≡ rows_of (page_row size page) (size.rows - 1) }
    ensures len { vec_len cells.new ≡ (size.rows - 1) * size.columns }
    ensures printable { All IsPrintable cells.new.items }
    ensures room { vec_capacity cells.new ≡ vec_capacity cells.old }
{
    for y in 0..size.rows - 1 {
        push_text(cells, u32::from(size.columns), page_line(page, y));
    }
}

/// Appends the rows of the piece: of the grid, and what was sent where the editor shows that.
fn draw_piece<T: Look>(
    cells: &mut Vec<Cell>,
    size: ScreenSize,
    look: &T,
    over: &Overlay,
    sent: &Traffic,
)
    requires screen { IsScreen size }
    requires none { cells.old.items ≡ [] }
    requires room { screen_cells size ≤ vec_capacity cells.old }
    ensures rows { let scene = scene_of (T.sheet look.now) (T.marks look.now) over.now in
        cells.new.items ≡ rows_of (piece_row size scene sent.now) (size.rows - 1) }
    ensures len { vec_len cells.new ≡ (size.rows - 1) * size.columns }
    ensures printable { All IsPrintable cells.new.items }
    ensures room { vec_capacity cells.new ≡ vec_capacity cells.old }
{
    if tells_sent(size, &over.editor) {
        draw_grid(cells, size, look, over, size.rows - 2);
        push_text(cells, u32::from(size.columns), sent.text().as_slice());
    } else {
        draw_grid(cells, size, look, over, size.rows - 1);
    }
}

/// Whether the last row of the window tells what was sent.
fn tells_sent(size: ScreenSize, editor: &Editor) -> bool
    ensures { result ≡ tells_sent size editor.now }
{
    editor.traffic && size.rows >= TRAFFIC_ROWS
}

/// Appends the first rows of the window.
fn draw_grid<T: Look>(cells: &mut Vec<Cell>, size: ScreenSize, look: &T, over: &Overlay, rows: u16)
    requires screen { IsScreen size }
    requires none { cells.old.items ≡ [] }
    requires rows { rows < size.rows }
    requires room { screen_cells size ≤ vec_capacity cells.old }
    ensures rows { let scene = scene_of (T.sheet look.now) (T.marks look.now) over.now in
        cells.new.items ≡ rows_of (grid_row size scene) rows }
    ensures len { vec_len cells.new ≡ rows * size.columns }
    ensures printable { All IsPrintable cells.new.items }
    ensures room { vec_capacity cells.new ≡ vec_capacity cells.old }
{
    let columns = u32::from(size.columns);
    let corner = window_corner(size, over.editor);
    for y in 0..u32::from(rows) {
        let first = Corner {
            y: corner.y + y,
            x: corner.x,
        };
        push_grid_row(cells, columns, look, over, first);
    }
}

/// The corner of the window at the top left.
fn window_corner(size: ScreenSize, editor: Editor) -> Corner
    requires { IsScreen size }
    ensures y { result.y ≡ page_of (size.rows - 1) editor.y }
    ensures x { result.x ≡ page_of size.columns editor.x }
    ensures fits { result.y < 2 ^ 16 × result.x < 2 ^ 16 }
{
    Corner {
        y: page_of(u32::from(size.rows) - 1, u32::from(editor.y)),
        x: page_of(u32::from(size.columns), u32::from(editor.x)),
    }
}

/// The glyph at the cursor, if that lies in the grid.
fn glyph_under<T: Look>(look: &T, over: &Overlay) -> Glyph
    ensures { result ≡ glyph_under (scene_of (T.sheet look.now) (T.marks look.now) over.now) }
{
    let dims = look.dims();
    let at = Place {
        y: over.editor.y,
        x: over.editor.x,
    };
    if at.y >= dims.h || at.x >= dims.w {
        return Glyph::EMPTY;
    }
    look.glyph_at(at)
}

/// Appends the cells of a row of the window, from its first one on.
fn push_grid_row<T: Look>(
    cells: &mut Vec<Cell>,
    columns: u32,
    look: &T,
    over: &Overlay,
    first: Corner,
)
    requires room { vec_len cells.old + columns ≤ vec_capacity cells.old }
    requires columns { first.x + columns < 2 ^ 32 }
    requires printable { All IsPrintable cells.old.items }
    ensures row { let scene = scene_of (T.sheet look.now) (T.marks look.now) over.now in
        cells.new.items ≡ cells.old.items ++ map
        (λ x. grid_cell scene (record { y = first.y; x = first.x + x }))
        (range_with_len 0 columns) }
    ensures len { vec_len cells.new ≡ vec_len cells.old + columns }
    ensures printable { All IsPrintable cells.new.items }
    ensures room { vec_capacity cells.new ≡ vec_capacity cells.old }
{
    let dims = look.dims();
    if first.y >= u32::from(dims.h) || first.x >= u32::from(dims.w) {
        push_blanks(cells, columns);
        return;
    }
    let inside = columns.min(u32::from(dims.w) - first.x);
    let at = Place {
        y: first.y as u16,
        x: first.x as u16,
    };
    push_places(cells, look, over, at, at.x + inside as u16);
    push_blanks(cells, columns - inside);
}

/// Appends the cells of a row of the grid, from a place on and up to a column.
fn push_places<T: Look>(cells: &mut Vec<Cell>, look: &T, over: &Overlay, at: Place, end: u16)
    requires room { vec_len cells.old + (end - at.x) ≤ vec_capacity cells.old }
    requires inside { IsInside (T.sheet look.now).dims at }
    requires order { at.x ≤ end }
    requires fits { end ≤ (T.sheet look.now).dims.w }
    requires printable { All IsPrintable cells.old.items }
    ensures places { let scene = scene_of (T.sheet look.now) (T.marks look.now) over.now in
        cells.new.items ≡ cells.old.items ++ map
        (λ x. grid_cell scene (record { y = at.y; x = at.x + x }))
        (range_with_len 0 (end - at.x)) }
    ensures len { vec_len cells.new ≡ vec_len cells.old + (end - at.x) }
    ensures printable { All IsPrintable cells.new.items }
    ensures room { vec_capacity cells.new ≡ vec_capacity cells.old }
{
    if over.others.meet_row(at.y) {
        push_styled::<T, true>(cells, look, over, at, end);
    } else {
        push_styled::<T, false>(cells, look, over, at, end);
    }
}

/// The same, where it is known whether the cursor of another hand lies in the row.
fn push_styled<T: Look, const MET: bool>(
    cells: &mut Vec<Cell>,
    look: &T,
    over: &Overlay,
    at: Place,
    end: u16,
)
    requires room { vec_len cells.old + (end - at.x) ≤ vec_capacity cells.old }
    requires inside { IsInside (T.sheet look.now).dims at }
    requires order { at.x ≤ end }
    requires fits { end ≤ (T.sheet look.now).dims.w }
    requires printable { All IsPrintable cells.old.items }
    requires met { list_any (λ other. at.y == other.y) over.now.others ≡ MET }
    ensures places { let scene = scene_of (T.sheet look.now) (T.marks look.now) over.now in
        cells.new.items ≡ cells.old.items ++ map
        (λ x. grid_cell scene (record { y = at.y; x = at.x + x }))
        (range_with_len 0 (end - at.x)) }
    ensures len { vec_len cells.new ≡ vec_len cells.old + (end - at.x) }
    ensures printable { All IsPrintable cells.new.items }
    ensures room { vec_capacity cells.new ≡ vec_capacity cells.old }
{
    if !over.editor.guide {
        push_cells::<T, MET, false, false>(cells, look, over, at, end);
    } else if at.y % RULER_PLACES == 0 {
        push_cells::<T, MET, true, true>(cells, look, over, at, end);
    } else {
        push_cells::<T, MET, true, false>(cells, look, over, at, end);
    }
}

/// The same, where it is also known whether the guide shows, and whether the ruler goes through the row.
fn push_cells<T: Look, const MET: bool, const GUIDED: bool, const RULED: bool>(
    cells: &mut Vec<Cell>,
    look: &T,
    over: &Overlay,
    at: Place,
    end: u16,
)
    requires room { vec_len cells.old + (end - at.x) ≤ vec_capacity cells.old }
    requires inside { IsInside (T.sheet look.now).dims at }
    requires order { at.x ≤ end }
    requires fits { end ≤ (T.sheet look.now).dims.w }
    requires printable { All IsPrintable cells.old.items }
    requires met { list_any (λ other. at.y == other.y) over.now.others ≡ MET }
    requires guided { over.now.editor.guide ≡ GUIDED }
    requires ruled { (over.now.editor.guide && at.y % RULER_PLACES == 0) ≡ RULED }
    ensures places { let scene = scene_of (T.sheet look.now) (T.marks look.now) over.now in
        cells.new.items ≡ cells.old.items ++ map
        (λ x. grid_cell scene (record { y = at.y; x = at.x + x }))
        (range_with_len 0 (end - at.x)) }
    ensures len { vec_len cells.new ≡ vec_len cells.old + (end - at.x) }
    ensures printable { All IsPrintable cells.new.items }
    ensures room { vec_capacity cells.new ≡ vec_capacity cells.old }
{
    let selected = over.editor.columns_at(at.y);
    for x in at.x..end {
        let here = Place { y: at.y, x };
        let is_selected = selected.contains(&u32::from(x));
        let is_met = is_met::<MET>(&over.others, here);
        let cell = place_cell(look, GUIDED, is_selected, is_met, here);
        cells.push_reserved(ruled_cell(RULED, cell, x));
    }
}

/// Whether the cursor of another hand is here, where it is known whether one lies in the row.
#[tactic(auto, using(crate::proofs::DrawnRows::none_in_row))]
fn is_met<const MET: bool>(others: &Cursors, at: Place) -> bool
    requires { list_any (λ other. at.y == other.y) others.now ≡ MET }
    ensures { result ≡ is_met others.now at }
{
    MET && others.meet(at)
}

/// Appends blanks.
fn push_blanks(cells: &mut Vec<Cell>, count: u32)
    requires room { vec_len cells.old + count ≤ vec_capacity cells.old }
    requires printable { All IsPrintable cells.old.items }
    ensures blanks { cells.new.items
        ≡ cells.old.items ++ map (λ x. blank_cell) (range_with_len 0 count) }
    ensures len { vec_len cells.new ≡ vec_len cells.old + count }
    ensures printable { All IsPrintable cells.new.items }
    ensures room { vec_capacity cells.new ≡ vec_capacity cells.old }
{
    for _ in 0..count {
        cells.push_reserved(BLANK);
    }
}

/// Appends a row with a text.
fn push_text(cells: &mut Vec<Cell>, columns: u32, text: &[u8])
    requires room { vec_len cells.old + columns ≤ vec_capacity cells.old }
    requires text { All IsPrintableByte text.now }
    requires printable { All IsPrintable cells.old.items }
    ensures row { cells.new.items ≡ cells.old.items ++ text_row columns text.now }
    ensures len { vec_len cells.new ≡ vec_len cells.old + columns }
    ensures printable { All IsPrintable cells.new.items }
    ensures room { vec_capacity cells.new ≡ vec_capacity cells.old }
{
    for x in 0..columns {
        cells.push_reserved(text_cell(text, x));
    }
}

/// The cell of a column of it.
fn text_cell(text: &[u8], x: u32) -> Cell
    requires { All IsPrintableByte text.now }
    ensures cell { result ≡ text_cell text.now x }
    ensures printable { IsPrintable result }
{
    Cell {
        byte: text.get(x as usize).copied().unwrap_or(b' '),
        style: PLAIN,
    }
}

/// Appends a row of cells, cut at the last column, or filled with spaces.
fn push_strip(cells: &mut Vec<Cell>, columns: u32, strip: &[Cell])
    requires room { vec_len cells.old + columns ≤ vec_capacity cells.old }
    requires strip { All IsPrintable strip.now }
    requires printable { All IsPrintable cells.old.items }
    ensures row { cells.new.items ≡ cells.old.items ++ cut_row columns strip.now }
    ensures len { vec_len cells.new ≡ vec_len cells.old + columns }
    ensures printable { All IsPrintable cells.new.items }
    ensures room { vec_capacity cells.new ≡ vec_capacity cells.old }
{
    for x in 0..columns {
        cells.push_reserved(strip_cell(strip, x));
    }
}

/// The cell of a column of it.
fn strip_cell(strip: &[Cell], x: u32) -> Cell
    requires { All IsPrintable strip.now }
    ensures cell { result ≡ slice_index_or strip.now x blank_cell }
    ensures printable { IsPrintable result }
{
    match strip.get(x as usize) {
        Some(cell) => *cell,
        None => BLANK,
    }
}

/// The glyph and the style of a place of the grid.
fn place_cell<T: Look>(look: &T, guided: bool, selected: bool, met: bool, at: Place) -> Cell
    requires inside { IsInside (T.sheet look.now).dims at }
    ensures cell { (over : Overlay) → is_in_area (area_of over.editor) at ≡ selected
        → is_met over.others at ≡ met → over.editor.guide ≡ guided
        → result ≡ record {
          byte = glyph_at (T.sheet look.now) at;
          style = style_at (scene_of (T.sheet look.now) (T.marks look.now) over) at;
        } }
    ensures printable { IsPrintable result }
{
    let glyph = look.glyph_at(at);
    Cell {
        byte: glyph.byte(),
        style: style_by(guided, selected, met, look.marks_at(at), glyph),
    }
}

/// What a column shows, in a row that the ruler goes through or does not: the ruler in place of the
/// cell where that is empty and faint.
fn ruled_cell(ruled: bool, cell: Cell, x: u16) -> Cell
    requires { IsPrintable cell }
    ensures cell { result ≡ record cell {
      byte = if ruled && x % RULER_PLACES == 0 && cell.byte == empty && cell.style == faint
          then plus else cell.byte;
    } }
    ensures printable { IsPrintable result }
{
    if ruled && x % RULER_PLACES == 0 && cell.byte == Glyph::EMPTY.byte() && cell.style == FAINT {
        return Cell { byte: b'+', ..cell };
    }
    cell
}
