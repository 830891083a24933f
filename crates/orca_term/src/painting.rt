//! The bytes of a painting.

ghost use Rattle.std.specs.Prelude.{◌≡◌, ◌+◌, ◌-◌, ◌*◌, ◌^◌, ◌<◌, ◌≤◌, ◌++◌, length, IfSome, vec_len};
ghost use Rattle.std.specs.Fmt.{decimal};
ghost use Rattle.std.specs.Option.{option_copied};
ghost use Rattle.std.specs.Vec.{vec_capacity};
ghost use Rattle.orca_term.specs.Forms.{bytes_of};
ghost use Rattle.orca_term.specs.Painting.{screen_row, is_painted, style_change, painted_row, painting, painting_room};
ghost use Rattle.orca_term.specs.Picture.{IsScreen, screen_cells};

use crate::limits::{CELL_BYTES, FORM_DIGITS, ROW_BYTES};
use crate::status::decimal;
use crate::{Cell, ScreenSize};

/// Makes `bytes` the painting of the cells of a screen after the last picture, or after none.
#[tactic(auto, unfolding(crate::specs::Painting::painting))]
pub(crate) fn paint_rows(
    bytes: &mut Vec<u8>,
    size: ScreenSize,
    last: Option<&[Cell]>,
    cells: &[Cell],
)
    requires screen { IsScreen size }
    requires room { painting_room size ≤ vec_capacity bytes.old }
    requires whole { length cells.now ≡ screen_cells size }
    requires last { IfSome last (λ old. length old.now ≡ screen_cells size) }
    ensures painting { bytes.new.items
        ≡ bytes_of (painting size (option_copied last.entry) cells.now) }
    ensures room { vec_capacity bytes.new ≡ vec_capacity bytes.old }
{
    bytes.clear();
    for y in 0..size.rows {
        if is_painted(size, last, cells, y) {
            paint_row(bytes, y, row_of(size, cells, y));
        }
    }
}

/// Whether a row is painted.
fn is_painted(size: ScreenSize, last: Option<&[Cell]>, cells: &[Cell], y: u16) -> bool
    requires screen { IsScreen size }
    requires row { y < size.rows }
    requires whole { length cells.now ≡ screen_cells size }
    requires last { IfSome last (λ old. length old.now ≡ screen_cells size) }
    ensures { result ≡ is_painted size (option_copied last.entry) cells.now y }
{
    match last {
        None => true,
        Some(last) => row_of(size, last, y) != row_of(size, cells, y),
    }
}

/// The cells of a row.
fn row_of(size: ScreenSize, cells: &[Cell], y: u16) -> &[Cell]
    requires screen { IsScreen size }
    requires row { y < size.rows }
    requires whole { length cells.now ≡ screen_cells size }
    ensures row { result.now ≡ screen_row size cells.now y }
    ensures whole { length result.now ≡ size.columns }
{
    let columns = usize::from(size.columns);
    let start = usize::from(y) * columns;
    &cells[start..start + columns]
}

/// Appends a painted row.
#[tactic(auto, unfolding(crate::specs::Painting::painted_row))]
fn paint_row(bytes: &mut Vec<u8>, y: u16, cells: &[Cell])
    requires row { y < 10 ^ FORM_DIGITS - 1 }
    requires room { vec_len bytes.old + ROW_BYTES + CELL_BYTES * length cells.now
        ≤ vec_capacity bytes.old }
    ensures row { bytes.new.items ≡ bytes.old.items ++ bytes_of (painted_row y cells.now) }
    ensures short { vec_len bytes.new
        ≤ vec_len bytes.old + ROW_BYTES + CELL_BYTES * length cells.now }
    ensures room { vec_capacity bytes.new ≡ vec_capacity bytes.old }
{
    push_all(bytes, b"\x1b[");
    push_number(bytes, u32::from(y) + 1);
    push_all(bytes, b";1H\x1b[0m");
    let mut style = 0;
    for cell in cells {
        restyle(bytes, style, cell.style);
        bytes.push_reserved(cell.byte);
        style = cell.style;
    }
}

/// Changes the style that is in force.
#[tactic(auto, unfolding(crate::specs::Painting::style_change))]
fn restyle(bytes: &mut Vec<u8>, old: u8, new: u8)
    requires { vec_len bytes.old + CELL_BYTES ≤ vec_capacity bytes.old }
    ensures style { bytes.new.items ≡ bytes.old.items ++ bytes_of (style_change old new) }
    ensures short { vec_len bytes.new + 1 ≤ vec_len bytes.old + CELL_BYTES }
    ensures room { vec_capacity bytes.new ≡ vec_capacity bytes.old }
{
    if old == new {
        return;
    }
    push_all(bytes, b"\x1b[0m");
    if new != 0 {
        push_all(bytes, b"\x1b[");
        push_number(bytes, u32::from(new));
        push_all(bytes, b"m");
    }
}

/// Appends a number of a form.
#[tactic(auto, using(crate::proofs::Digits::decimal_form))]
fn push_number(bytes: &mut Vec<u8>, n: u32)
    requires number { n < 10 ^ FORM_DIGITS }
    requires room { vec_len bytes.old + FORM_DIGITS ≤ vec_capacity bytes.old }
    ensures number { bytes.new.items ≡ bytes.old.items ++ decimal n }
    ensures short { vec_len bytes.new ≤ vec_len bytes.old + FORM_DIGITS }
    ensures room { vec_capacity bytes.new ≡ vec_capacity bytes.old }
{
    push_all(bytes, decimal(n).as_slice());
}

/// Appends bytes for which there is room.
fn push_all(bytes: &mut Vec<u8>, more: &[u8])
    requires { vec_len bytes.old + length more.now ≤ vec_capacity bytes.old }
    ensures bytes { bytes.new.items ≡ bytes.old.items ++ more.now }
    ensures len { vec_len bytes.new ≡ vec_len bytes.old + length more.now }
    ensures room { vec_capacity bytes.new ≡ vec_capacity bytes.old }
{
    for byte in more {
        bytes.push_reserved(*byte);
    }
}
