//! What a mouse makes of the editor.

ghost use Rattle.std.specs.Prelude.{◌≡◌, ◌+◌, ◌-◌, ◌^◌, ◌<◌, max, min};
ghost use Rattle.orca_base.specs.Areas.{IsArea};
ghost use Rattle.orca_base.specs.Grids.{IsInside};
ghost use Rattle.orca_term.specs.Editing.{area_of, edited, place_inside, pointed, spanned};

use crate::window::page_of;
use crate::{Around, Editor, Key};
use orca_base::{Dims, Place};

impl Editor {
    /// Does what a click on a cell of the screen makes of the editor: the cursor, the selection and the
    /// anchor are the place that it points to.
    pub(crate) fn press(&mut self, around: &Around, row: u16, column: u16)
        ensures editor { self.new ≡ edited (Key.Press row column) around.now self.old }
        ensures inside { IsArea around.now.dims (area_of self.new) }
    {
        let at = self.pointed(around, row, column);
        (self.y, self.x) = (at.y, at.x);
        (self.h, self.w) = (1, 1);
        self.anchor = at;
    }

    /// Does what a motion to a cell of the screen makes of the editor while the button is held: the
    /// selection reaches from the anchor to the place that it points to.
    pub(crate) fn drag(&mut self, around: &Around, row: u16, column: u16)
        ensures editor { self.new ≡ edited (Key.Drag row column) around.now self.old }
        ensures inside { IsArea around.now.dims (area_of self.new) }
    {
        let to = self.pointed(around, row, column);
        self.span(around.dims, to);
    }

    /// Makes the selection reach to a place from the anchor, which is brought into the grid for that.
    fn span(&mut self, dims: Dims, to: Place)
        requires { IsInside dims to }
        ensures editor { self.new ≡ spanned (place_inside dims self.old.anchor) to self.old }
        ensures inside { IsArea dims (area_of self.new) }
    {
        let from = place_inside(dims, u32::from(self.anchor.y), u32::from(self.anchor.x));
        (self.y, self.h) = reach(from.y, to.y);
        (self.x, self.w) = reach(from.x, to.x);
    }

    /// The place of a cell of the screen, or the nearest one that the window shows.
    fn pointed(&self, around: &Around, row: u16, column: u16) -> Place
        ensures place { result ≡ pointed around.now self.now row column }
        ensures inside { IsInside around.now.dims result }
    {
        let (rows, columns) = (around.screen.rows, around.screen.columns);
        let top = page_of(u32::from(rows.saturating_sub(1)), u32::from(self.y));
        let left = page_of(u32::from(columns), u32::from(self.x));
        let y = top + u32::from(row.min(rows.saturating_sub(2)));
        let x = left + u32::from(column.min(columns.saturating_sub(1)));
        place_inside(around.dims, y, x)
    }
}

/// The place of a grid that is nearest to a row and a column.
fn place_inside(dims: Dims, y: u32, x: u32) -> Place
    ensures place { result ≡ place_inside dims (record { y = y; x = x }) }
    ensures inside { IsInside dims result }
{
    Place {
        y: y.min(u32::from(dims.h) - 1) as u16,
        x: x.min(u32::from(dims.w) - 1) as u16,
    }
}

/// The first of the numbers between two, and how many they are with both.
fn reach(from: u16, to: u16) -> (u16, u16)
    requires { max from to + 1 < 2 ^ 16 }
    ensures first { result.0 ≡ min from to }
    ensures count { result.1 ≡ max from to - min from to + 1 }
{
    let first = from.min(to);
    (first, from.max(to) - first + 1)
}
