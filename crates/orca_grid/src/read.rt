//! Reading a grid text.

ghost use Rattle.std.specs.Prelude.{◌≡◌, ◌≢◌, ◌+◌, ◌^◌, ◌<◌, Some, None, Ok, Err, IfOk, IfErr, IfSome, IsOk, OnOk, IsOkUnless, length, nat_lt, ◌&&◌, if◌then◌else◌};
ghost use Rattle.std.specs.Str.Lines.{lines};
ghost use Rattle.orca_base.specs.declared.limits.TheConstants.{MAX_COLUMNS, MAX_ROWS};
ghost use Rattle.orca_base.specs.Grids.{IsSize};
ghost use Rattle.orca_grid.specs.BlankGrid.{blank_sheet};
ghost use Rattle.orca_grid.specs.GridText.{row_at, column_at, is_cell as is_cell_byte, is_bad as is_bad_at, offence as offence_at, IsClean, glyph_of, size_of_rows, sheet_of_rows, grid_text};

use crate::{Grid, GridRefusal};
use orca_base::limits::{MAX_COLUMNS, MAX_ROWS};
use orca_base::{Dims, Glyph, Place};
use std::alloc::Global;

impl Grid {
    /// The grid of a text of fewer than 2^32 bytes, or the [`GridRefusal`] of the first byte that
    /// offends; [`GridRefusal::Memory`] where memory is refused to the grid of a text.
    ///
    /// A row ends in a line feed, or in a carriage return and a line feed; the end of the last row
    /// may be missing. A space is read as `.`, and a row shorter than the longest is filled with
    /// `.` at the right. A refused text is refused whatever memory there is.
    pub fn read(alloc: Global, bytes: &[u8]) -> Result<Grid, GridRefusal>
        requires { length bytes.now < 2 ^ 32 }
        ensures found { IfOk result (λ grid. grid_text bytes.now ≡ Ok grid) }
        ensures refused { IfErr (grid_text bytes.now) (λ refusal. result ≡ Err refusal) }
        ensures only_memory { OnOk (grid_text bytes.now) (IsOkUnless result GridRefusal.Memory) }
        ensures memory { result ≡ Err GridRefusal.Memory → IsOk (grid_text bytes.now) }
    {
        let dims = size_of(bytes)?;
        let mut grid = Grid::blank(alloc, dims)?;
        fill(&mut grid, bytes);
        Ok(grid)
    }
}

/// The size of the grid of a text, or how the text is refused.
fn size_of(bytes: &[u8]) -> Result<Dims, GridRefusal>
    requires { length bytes.now < 2 ^ 32 }
    ensures size { IfOk result (λ dims. dims ≡ size_of_rows (lines bytes.now)) }
    ensures whole { IfOk result IsSize }
    ensures clean { OnOk result (IsClean bytes.now) }
    ensures found { OnOk result (grid_text bytes.now ≡ Ok (sheet_of_rows (lines bytes.now))) }
    ensures refused { IfErr result (λ refusal. grid_text bytes.now ≡ Err refusal) }
    ensures named { IfErr result (λ refusal. refusal ≢ GridRefusal.Memory) }
{
    // The rows that have ended, the longest of them, and the cells of the row that has begun.
    let mut height: u16 = 0;
    let mut width: u16 = 0;
    let mut column: u16 = 0;
    for (i, byte) in bytes.iter().enumerate() {
        // Most bytes are such cells, and they do not offend.
        if is_cell_with_room(*byte, height, column) {
            column += 1;
        } else if let Some(refusal) = offence(bytes, i, height, column) {
            return Err(refusal);
        } else if *byte == b'\n' {
            height += 1;
            width = width.max(column);
            column = 0;
        }
    }
    // The end of the last row may be missing.
    let h = height + column.min(1);
    let w = width.max(column);
    if h == 0 || w == 0 {
        return Err(GridRefusal::NoCells);
    }
    Ok(Dims { h, w })
}

/// Writes the cells of a text in which no byte offends into a blank grid of its size.
fn fill(grid: &mut Grid, bytes: &[u8])
    requires clean { IsClean bytes.now }
    requires blank { grid.old ≡ blank_sheet (size_of_rows (lines bytes.now)) }
    requires whole { IsSize grid.old.dims }
    ensures { grid.new ≡ sheet_of_rows (lines bytes.now) }
{
    let mut at = Place { y: 0, x: 0 };
    for byte in bytes {
        if *byte == b'\n' {
            at = Place { y: at.y + 1, x: 0 };
        } else if let Some(glyph) = cell(*byte) {
            // An empty cell is written too: a branch for it would be guessed wrong at many cells.
            grid.set(at, glyph);
            at.x += 1;
        }
    }
}

/// Whether the byte is a cell for which there is room: `height` rows have ended before it, and
/// `column` cells of its row stand before it.
fn is_cell_with_room(byte: u8, height: u16, column: u16) -> bool
    ensures { result ≡ (is_cell_byte byte && nat_lt column MAX_COLUMNS && nat_lt height MAX_ROWS) }
{
    is_cell(byte) && column < MAX_COLUMNS && height < MAX_ROWS
}

/// How the byte at a place offends: `height` rows have ended before it, and `column` cells of its
/// row stand before it.
#[tactic(auto, unfolding(crate::specs::GridText::offence))]
fn offence(bytes: &[u8], i: usize, height: u16, column: u16) -> Option<GridRefusal>
    requires place { i < length bytes.now }
    requires short { length bytes.now < 2 ^ 32 }
    requires row { height + 1 ≡ row_at bytes.now i }
    requires column { column ≡ column_at bytes.now i }
    ensures offence { result ≡ offence_at bytes.now i }
    ensures named { IfSome result (λ refusal. refusal ≢ GridRefusal.Memory) }
{
    if height >= MAX_ROWS {
        return Some(GridRefusal::TooHigh);
    }
    if is_bad(bytes, i) {
        return Some(GridRefusal::BadByte { offset: i as u32 });
    }
    if is_cell(bytes[i]) && column == MAX_COLUMNS {
        return Some(GridRefusal::TooWide {
            row: u32::from(height) + 1,
        });
    }
    None
}

/// Whether the byte at a place is no cell byte and no part of the end of a row.
fn is_bad(bytes: &[u8], i: usize) -> bool
    requires place { i < length bytes.now }
    requires short { length bytes.now < 2 ^ 32 }
    ensures { result ≡ is_bad_at bytes.now i }
{
    match bytes[i] {
        b'\n' => false,
        b'\r' => i + 1 == bytes.len() || bytes[i + 1] != b'\n',
        byte => !is_cell(byte),
    }
}

/// Whether the byte is a glyph or a space.
fn is_cell(byte: u8) -> bool
    ensures { result ≡ is_cell_byte byte }
{
    cell(byte).is_some()
}

/// The glyph that a cell byte is read as.
fn cell(byte: u8) -> Option<Glyph>
    ensures { result ≡ (if is_cell_byte byte then Some (glyph_of byte) else None) }
{
    if byte == b' ' {
        return Some(Glyph::EMPTY);
    }
    Glyph::of(byte)
}
