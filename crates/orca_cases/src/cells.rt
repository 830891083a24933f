//! A grid as the list of its glyphs, and what a step makes of it: for each place, where its glyph comes from.

ghost use Rattle.std.specs.Prelude.{◌≡◌, ◌*◌, vec_len};

use crate::step::Step;
use anyhow::{Context, Result, ensure};
use orca_base::{Area, Block, Dims, Glyph, Look, Place};
use std::alloc::Global;
use std::rc::Rc;

/// A grid, or a block of one.
#[derive(Drop)]
pub(crate) struct Cells {
    pub dims: Dims,
    /// The glyphs, in reading order.
    pub glyphs: Vec<Glyph>,
}

impl Cells {
    /// Reads a grid of this size, its glyphs as they are and in reading order.
    pub fn read(alloc: Global, dims: Dims, text: &str) -> Result<Cells> {
        let mut glyphs = Vec::new(alloc);
        for byte in text.as_bytes() {
            glyphs.push(Glyph::of(*byte).context("a byte is no glyph")?)?;
        }
        ensure!(glyphs.len() == dims.cells(), "a grid has another size");
        Ok(Cells { dims, glyphs })
    }

    /// The grid that a board shows.
    pub fn of<T: Look>(alloc: Global, look: &T) -> Result<Cells> {
        let dims = look.dims();
        let mut glyphs = Vec::new(alloc);
        for n in 0..dims.cells() {
            glyphs.push(look.glyph_at(dims.place(n)))?;
        }
        Ok(Cells { dims, glyphs })
    }

    /// An equal grid.
    pub fn copy(&self, alloc: Global) -> Result<Cells> {
        Ok(Cells {
            dims: self.dims,
            glyphs: self.glyphs.to_vec(alloc)?,
        })
    }

    /// The same as a block.
    pub fn block(&self, alloc: Global) -> Result<Block> {
        let Dims { h, w } = self.dims;
        let glyphs = self.glyphs.to_vec(alloc)?;
        ensure!(glyphs.len() == self.dims.cells(), "a grid has another size");
        Ok(Block::of(h, w, Rc::new(alloc, glyphs)?))
    }

    /// The grid after a step that is no frame. `began` is the grid of the last frame or load.
    pub fn after(&self, alloc: Global, step: &Step, began: &Cells) -> Result<Cells> {
        match step {
            Step::Revert => began.copy(alloc),
            Step::Load(cells) => cells.copy(alloc),
            Step::Resize(dims) => self.edited(alloc, step, *dims),
            _ => self.edited(alloc, step, self.dims),
        }
    }

    /// The grid of that size after an edit.
    fn edited(&self, alloc: Global, step: &Step, dims: Dims) -> Result<Cells> {
        let mut glyphs = Vec::new(alloc);
        for n in 0..dims.cells() {
            glyphs.push(self.glyph_after(step, dims.place(n)))?;
        }
        Ok(Cells { dims, glyphs })
    }

    /// The glyph of a place after an edit.
    fn glyph_after(&self, step: &Step, at: Place) -> Glyph {
        match step {
            Step::Write(to, glyph) if at == *to => *glyph,
            Step::Fill(area, glyph) if within(at, corner(*area), area.h, area.w).is_some() =>
                *glyph,
            Step::Put(to, cells) => match within(at, *to, cells.dims.h, cells.dims.w) {
                Some(there) => cells.at(there),
                None => self.at(at),
            },
            Step::Shift(area, to) => self.glyph_after_shift(*area, *to, at),
            _ => self.at(at),
        }
    }

    /// The glyph of a place after an area was moved.
    fn glyph_after_shift(&self, area: Area, to: Place, at: Place) -> Glyph {
        if let Some(there) = within(at, to, area.h, area.w) {
            return self.at(Place {
                y: area.y.saturating_add(there.y),
                x: area.x.saturating_add(there.x),
            });
        }
        match within(at, corner(area), area.h, area.w) {
            Some(_) => Glyph::EMPTY,
            None => self.at(at),
        }
    }

    /// The glyph of a place, `.` outside the grid.
    fn at(&self, at: Place) -> Glyph {
        if at.y >= self.dims.h || at.x >= self.dims.w {
            return Glyph::EMPTY;
        }
        let index = self.dims.index(at);
        self.glyphs.get(index).copied().unwrap_or(Glyph::EMPTY)
    }
}

/// The first place of an area.
fn corner(area: Area) -> Place {
    Place {
        y: area.y,
        x: area.x,
    }
}

/// How far a place lies below and to the right of the first place of a block of that size; none where it
/// lies outside.
fn within(at: Place, first: Place, h: u16, w: u16) -> Option<Place> {
    let there = Place {
        y: at.y.checked_sub(first.y)?,
        x: at.x.checked_sub(first.x)?,
    };
    if there.y < h && there.x < w {
        Some(there)
    } else {
        None
    }
}
