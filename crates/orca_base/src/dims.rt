ghost use Rattle.std.specs.Prelude.{◌≡◌, ◌+◌, ◌*◌, ◌<◌, ◌≤◌, ◌↔◌, ℕ, pos, IsNone, IfSome};
ghost use Rattle.orca_base.specs.Grids.{Size, IsSize, IsInside, largest, index_of, place_in, place_of};

use crate::limits::{MAX_CELLS, MAX_COLUMNS, MAX_ROWS};
use crate::{Place, Spot};
use std::marker::Model;

/// The size of a grid: 1 to [`MAX_ROWS`] rows of 1 to [`MAX_COLUMNS`] columns.
#[derive(Clone, Copy, Debug, PartialEq, Eq)]
pub struct Dims {
    /// The number of rows.
    pub h: u16,
    /// The number of columns.
    pub w: u16,
}

impl Model for Dims {
    ghost use Rattle.orca_base.specs.Grids.{Size, IsSize};

    ghost Value = { Size };

    ghost view = { λ d. record { h = d.h; w = d.w } };

    ghost invariant = { λ d. IsSize (record { h = d.h; w = d.w }) };

    ghost inverse = { λ d. record { h = d.h; w = d.w } };
}

impl Dims {
    /// The size of `h` rows and `w` columns; none exactly where a side is 0
    /// or above its limit.
    pub fn of(h: u32, w: u32) -> Option<Dims>
        ensures some { IfSome result (λ d. d ≡ record { h = h; w = w }) }
        ensures none { IsNone result ↔ (IsSize (record { h = h; w = w }) → ⊥) }
    {
        if h == 0 || h > u32::from(MAX_ROWS) || w == 0 || w > u32::from(MAX_COLUMNS) {
            return None;
        }
        Some(Dims {
            h: h as u16,
            w: w as u16,
        })
    }

    /// The size of the largest grid.
    pub fn largest() -> Dims
        ensures { result ≡ largest }
    {
        Dims {
            h: MAX_ROWS,
            w: MAX_COLUMNS,
        }
    }

    /// The place of a spot; none exactly where the spot lies outside the grid.
    pub fn holds(self, spot: Spot) -> Option<Place>
        ensures place { result ≡ place_in self spot }
        ensures inside { IfSome result (IsInside self) }
    {
        if spot.y < 0 || spot.x < 0 || spot.y >= i32::from(self.h) || spot.x >= i32::from(self.w) {
            return None;
        }
        Some(Place {
            y: spot.y as u16,
            x: spot.x as u16,
        })
    }

    /// The number of cells, 1 to [`MAX_CELLS`].
    pub fn cells(self) -> usize
        ensures cells { result ≡ self.h * self.w }
        ensures most { result ≤ MAX_CELLS }
        ensures size { IsSize self }
    {
        usize::from(self.h) * usize::from(self.w)
    }

    /// The number of a place of the grid, in reading order.
    pub fn index(self, at: Place) -> usize
        requires { IsInside self at }
        ensures index { result ≡ index_of self at }
        ensures cell { result < self.h * self.w }
        ensures most { result < MAX_CELLS }
    {
        usize::from(at.y) * usize::from(self.w) + usize::from(at.x)
    }

    /// The place of a number, in reading order.
    pub fn place(self, index: usize) -> Place
        requires { index < self.h * self.w }
        ensures place { result ≡ place_of self index }
        ensures inside { IsInside self result }
        ensures index { index_of self result ≡ index }
    {
        let width = usize::from(self.w);
        Place {
            y: (index / width) as u16,
            x: (index % width) as u16,
        }
    }
}
