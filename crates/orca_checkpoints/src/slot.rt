ghost use Rattle.std.specs.Prelude.{◌≡◌, ◌+◌, ◌*◌, ◌<◌, length, take};
ghost use Rattle.orca_base.specs.Grids.{IsSheet};

use orca_base::limits::MAX_CELLS;
use orca_base::{Dims, Glyph, Look, Memory, Place};
use std::alloc::Global;
use std::marker::Model;

/// The grid and the tick of a moment.
#[derive(Clone, Copy, Debug)]
pub struct Checkpoint<'a> {
    /// The moment: how many entries came before it.
    pub moment: u32,
    /// The tick of the next frame.
    pub tick: u32,
    /// The size of the grid.
    pub dims: Dims,
    /// Its glyphs, in reading order.
    pub cells: &'a [Glyph],
}

/// Room for the largest grid, and a grid with its tick. A contract sees these two.
#[derive(Drop)]
pub(crate) struct Slot {
    dims: Dims,
    cells: Vec<Glyph>,
    tick: u32,
}

impl Model for Slot {
    ghost use Rattle.std.specs.Prelude.{◌≤◌, vec_capacity};
    ghost use Rattle.orca_base.specs.declared.limits.TheConstants.{MAX_CELLS};
    ghost use Rattle.orca_checkpoints.specs.Points.{Point};

    ghost Value = { Point };

    ghost view = { λ s. record {
      sheet = record { dims = s.dims; cells = s.cells.items };
      tick = s.tick;
    } };

    ghost invariant = { λ s. MAX_CELLS ≤ vec_capacity s.cells };
}

impl Slot {
    /// The room for a grid, and none in it. [`Memory`] if that room is refused.
    pub fn start(alloc: Global) -> Result<Slot, Memory> {
        Ok(Slot {
            dims: Dims::largest(),
            cells: Vec::with_capacity(alloc, MAX_CELLS)?,
            tick: 0,
        })
    }

    /// Keeps the grid that is looked at, with this tick.
    pub fn fill<T: Look>(&mut self, tick: u32, look: &T)
        ensures point { self.new ≡ record { sheet = T.sheet look.now; tick = tick } }
        ensures whole { IsSheet (T.sheet look.now) }
    {
        let dims = look.dims();
        self.dims = dims;
        self.tick = tick;
        // There is room for the largest grid, so this takes no memory.
        let _ = self.cells.resize(dims.cells(), Glyph::EMPTY);
        for y in 0..dims.h {
            copy_row(&mut self.cells, look, dims, y);
        }
    }

    /// What is kept, as the checkpoint of a moment.
    pub fn checkpoint(&self, moment: u32) -> Checkpoint<'_>
        ensures moment { result.moment ≡ moment }
        ensures tick { result.tick ≡ self.now.tick }
        ensures size { result.dims ≡ self.now.sheet.dims }
        ensures cells { result.cells.now ≡ self.now.sheet.cells }
    {
        Checkpoint {
            moment,
            tick: self.tick,
            dims: self.dims,
            cells: self.cells.as_slice(),
        }
    }
}

/// Copies the glyphs of a row, after those of the rows before it.
fn copy_row<T: Look>(cells: &mut [Glyph], look: &T, dims: Dims, y: u16)
    requires size { dims ≡ (T.sheet look.now).dims }
    requires row { y < dims.h }
    requires whole { length cells.old ≡ length (T.sheet look.now).cells }
    requires before { take (y * dims.w) cells.old ≡ take (y * dims.w) (T.sheet look.now).cells }
    ensures row { take ((y + 1) * dims.w) cells.new
        ≡ take ((y + 1) * dims.w) (T.sheet look.now).cells }
    ensures whole { length cells.new ≡ length (T.sheet look.now).cells }
{
    let first = usize::from(y) * usize::from(dims.w);
    for x in 0..dims.w {
        let glyph = look.glyph_at(Place { y, x });
        glyph.put(cells, first + usize::from(x));
    }
}
