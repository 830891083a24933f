//! The places and areas that a command names.

ghost use Rattle.std.specs.Prelude.{◌≡◌, ◌<◌, ◌≤◌};
ghost use Rattle.orca_base.specs.Areas.{IsArea, area_at, area_in};
ghost use Rattle.orca_base.specs.Grids.{IsInside, is_inside};
ghost use Rattle.orca_edit.specs.Obeying.{anchor_of, place};

use orca_base::{Area, Dims, Place, Rect};

/// Whether a row and a column name a place of the grid.
pub(crate) fn holds(dims: Dims, y: u32, x: u32) -> bool
    ensures { result ≡ is_inside dims (place y x) }
{
    y < u32::from(dims.h) && x < u32::from(dims.w)
}

/// The place of a row and a column.
pub(crate) fn place(dims: Dims, y: u32, x: u32) -> Place
    requires { IsInside dims (place y x) }
    ensures place { result ≡ place y x }
    ensures inside { IsInside dims result }
{
    prove!(y < u32::from(dims.h) && x < u32::from(dims.w));
    Place {
        y: y as u16,
        x: x as u16,
    }
}

/// The area of one place.
pub(crate) fn area_at(dims: Dims, at: Place) -> Area
    requires { IsInside dims at }
    ensures area { result ≡ area_at at }
    ensures inside { IsArea dims result }
{
    Area {
        y: at.y,
        x: at.x,
        h: 1,
        w: 1,
    }
}

/// The part of a block that lies in the grid.
pub(crate) fn area_in(dims: Dims, rect: Rect) -> Area
    requires anchor { IsInside dims (anchor_of rect) }
    requires rows { 1 ≤ rect.h }
    requires columns { 1 ≤ rect.w }
    ensures area { result ≡ area_in dims rect }
    ensures inside { IsArea dims result }
{
    let rows = u32::from(dims.h) - rect.y;
    let columns = u32::from(dims.w) - rect.x;
    Area {
        y: rect.y as u16,
        x: rect.x as u16,
        h: rect.h.min(rows) as u16,
        w: rect.w.min(columns) as u16,
    }
}
