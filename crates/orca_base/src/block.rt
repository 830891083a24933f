ghost use Rattle.std.specs.Prelude.{◌≡◌, ◌*◌, ◌<◌, IfOk, OnErr, OnOk, if◌then◌else◌, length, vec_len};
ghost use Rattle.orca_base.specs.Edits.{block_with, cell_with, one_cell};
ghost use Rattle.orca_base.specs.Grids.{IsInside, largest};

use crate::{Glyph, Memory, Place};
use std::alloc::Global;
use std::marker::Model;
use std::rc::Rc;

/// A block of glyphs, as a clip is one. A contract sees its size, and its glyphs in reading order.
/// Copies share the glyphs, so that a history of pastes has them once.
#[derive(Debug, Drop)]
pub struct Block {
    h: u16,
    w: u16,
    cells: Rc<Vec<Glyph>>,
}

impl Model for Block {
    ghost use Rattle.std.specs.Prelude.{◌≡◌, ◌*◌, length};
    ghost use Rattle.orca_base.specs.Grids.{Sheet};

    ghost Value = { Sheet };

    ghost view = { λ b. record { dims = record { h = b.h; w = b.w }; cells = b.cells.value.items } };

    ghost invariant = { λ b. length b.cells.value.items ≡ b.h * b.w };
}

impl Block {
    /// The block of `h` rows and `w` columns with these glyphs, as many as it has places.
    pub fn of(h: u16, w: u16, cells: Rc<Vec<Glyph>>) -> Block
        requires { vec_len cells.value ≡ h * w }
        ensures { result ≡ record { dims = record { h = h; w = w }; cells = cells.value.items } }
    {
        Block { h, w, cells }
    }

    /// The block of one cell; [`Memory`] where its room is refused.
    pub fn one(alloc: Global, glyph: Glyph) -> Result<Block, Memory>
        ensures { IfOk result (λ block. block ≡ one_cell glyph) }
    {
        let mut cells = Vec::new(alloc);
        cells.push(glyph)?;
        Ok(Block {
            h: 1,
            w: 1,
            cells: Rc::new(alloc, cells)?,
        })
    }

    /// The number of rows.
    pub fn h(&self) -> u16
        ensures { result ≡ self.now.dims.h }
    {
        self.h
    }

    /// The number of columns.
    pub fn w(&self) -> u16
        ensures { result ≡ self.now.dims.w }
    {
        self.w
    }

    /// The glyphs, in reading order.
    pub fn cells(&self) -> &[Glyph]
        ensures cells { result.now ≡ self.now.cells }
        ensures whole { length result.now ≡ self.now.dims.h * self.now.dims.w }
    {
        self.cells.as_slice()
    }

    /// An equal block, which shares the glyphs; [`Memory`] where no more can share them.
    pub fn copy(&self) -> Result<Block, Memory>
        ensures { IfOk result (λ block. block ≡ self.now) }
    {
        Ok(Block {
            h: self.h,
            w: self.w,
            cells: self.cells.clone()?,
        })
    }

    /// Puts a glyph into a cell. The block gets as many rows and columns more as hold the cell, and
    /// these are empty. Its copies stay as they are. [`Memory`] where room is refused; the block is
    /// then as before.
    pub fn put(&mut self, at: Place, glyph: Glyph) -> Result<(), Memory>
        requires { IsInside largest at }
        ensures put { OnOk result (self.new ≡ block_with self.old at glyph) }
        ensures err { OnErr result (self.new ≡ self.old) }
    {
        if at.x < self.w && self.put_below(at, glyph)? {
            return Ok(());
        }
        *self = self.copy_with(at, glyph)?;
        Ok(())
    }

    /// Puts a glyph into a cell of a column of the block, unless a copy shares the glyphs. New rows
    /// come after the others. Whether it did so.
    fn put_below(&mut self, at: Place, glyph: Glyph) -> Result<bool, Memory>
        requires row { IsInside largest at }
        requires column { at.x < self.old.dims.w }
        ensures put { IfOk result (λ put.
            self.new ≡ (if put then block_with self.old at glyph else self.old)) }
        ensures err { OnErr result (self.new ≡ self.old) }
    {
        let h = self.h.max(at.y + 1);
        let width = usize::from(self.w);
        let Some(cells) = Rc::get_mut(&mut self.cells) else {
            return Ok(false);
        };
        cells.resize(usize::from(h) * width, Glyph::EMPTY)?;
        cells[usize::from(at.y) * width + usize::from(at.x)] = glyph;
        self.h = h;
        Ok(true)
    }

    /// A copy with a glyph in a cell. Its rows may be longer, so it is laid out anew.
    fn copy_with(&self, at: Place, glyph: Glyph) -> Result<Block, Memory>
        requires { IsInside largest at }
        ensures { IfOk result (λ block. block ≡ block_with self.now at glyph) }
    {
        let h = self.h.max(at.y + 1);
        let w = self.w.max(at.x + 1);
        let width = usize::from(w);
        let size = usize::from(h) * width;
        let mut cells = Vec::with_capacity(*self.cells.allocator(), size)?;
        for n in 0..size {
            let cell = Place {
                y: (n / width) as u16,
                x: (n % width) as u16,
            };
            cells.push(self.cell_with(at, glyph, cell))?;
        }
        let cells = Rc::new(*self.cells.allocator(), cells)?;
        Ok(Block { h, w, cells })
    }

    /// The glyph of a cell, once the block has this one at a place. Others beyond it are empty.
    fn cell_with(&self, at: Place, glyph: Glyph, cell: Place) -> Glyph
        ensures { result ≡ cell_with self.now at glyph cell }
    {
        if cell == at {
            glyph
        } else if cell.y < self.h && cell.x < self.w {
            self.cells[usize::from(cell.y) * usize::from(self.w) + usize::from(cell.x)]
        } else {
            Glyph::EMPTY
        }
    }
}
