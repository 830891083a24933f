//! The grid.

ghost use Rattle.std.specs.Prelude.{◌≡◌, [], IfOk, slice_set};
ghost use Rattle.orca_base.specs.Grids.{IsInside, index_of};
ghost use Rattle.orca_grid.specs.BlankGrid.{blank_sheet};

use orca_base::{Dims, Glyph, Look, Marks, Memory, Place};
use std::alloc::Global;
use std::marker::Model;

/// A grid of glyphs. A contract sees its size and its glyphs in reading order.
#[derive(Debug, Drop)]
pub struct Grid {
    dims: Dims,
    cells: Vec<Glyph>,
}

impl Model for Grid {
    ghost use Rattle.orca_base.specs.Grids.{Sheet, IsSheet};

    ghost Value = { Sheet };

    ghost view = { λ g. record { dims = g.dims; cells = g.cells.items } };

    ghost invariant = { λ g. IsSheet (record { dims = g.dims; cells = g.cells.items }) };
}

impl Grid {
    /// A grid of this size, each cell of it empty; [`Memory`] where its room is refused.
    pub fn blank(alloc: Global, dims: Dims) -> Result<Grid, Memory>
        ensures { IfOk result (λ g. g ≡ blank_sheet dims) }
    {
        let mut cells = Vec::new(alloc);
        cells.resize(dims.cells(), Glyph::EMPTY)?;
        Ok(Grid { dims, cells })
    }

    /// Puts a glyph at a place in the grid.
    pub fn set(&mut self, at: Place, glyph: Glyph)
        requires { IsInside self.old.dims at }
        ensures { let index = index_of self.old.dims at in
            self.new ≡ record self.old { cells = slice_set self.old.cells index glyph } }
    {
        let index = self.dims.index(at);
        self.cells[index] = glyph;
    }

    /// The glyphs, in reading order.
    pub fn cells(&self) -> &[Glyph]
        ensures { result.now ≡ self.now.cells }
    {
        self.cells.as_slice()
    }

    /// An equal grid; [`Memory`] where its room is refused.
    pub fn copy(&self) -> Result<Grid, Memory>
        ensures { IfOk result (λ grid. grid ≡ self.now) }
    {
        let cells = self.cells.to_vec(*self.cells.allocator())?;
        Ok(Grid {
            dims: self.dims,
            cells,
        })
    }
}

impl Look for Grid {
    ghost sheet = { λ g. g };

    ghost marks = { λ _. [] };

    fn dims(&self) -> Dims {
        self.dims
    }

    fn glyph_at(&self, at: Place) -> Glyph {
        self.cells[self.dims.index(at)]
    }

    fn marks_at(&self, _at: Place) -> Marks {
        Marks::none()
    }
}
