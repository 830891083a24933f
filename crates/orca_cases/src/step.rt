//! The steps of a case that is done on both boards.

use crate::cells::Cells;
use anyhow::{Context, Result, bail};
use orca_base::{Area, Dims, Glyph, Now, Place};
use std::alloc::Global;

/// One step.
#[derive(Drop)]
pub(crate) enum Step {
    /// A frame.
    Frame(Now),
    /// A glyph is written to a place.
    Write(Place, Glyph),
    /// A glyph is written to each place of an area.
    Fill(Area, Glyph),
    /// A block is written; its first place is named.
    Put(Place, Cells),
    /// The glyphs of an area are moved; the first place of its image is named.
    Shift(Area, Place),
    /// The grid gets another size.
    Resize(Dims),
    /// Another grid.
    Load(Cells),
    /// The grid of the last frame or load comes back.
    Revert,
}

/// Reads a step: its name and its values, with a blank between two words.
pub(crate) fn read_step(alloc: Global, text: &str) -> Result<Step> {
    let words: Vec<&str> = text.split(' ').collect(alloc)?;
    step_of(alloc, text, words.as_slice())
}

/// The step of these words, which are those of the text.
fn step_of(alloc: Global, text: &str, words: &[&str]) -> Result<Step> {
    match words {
        ["frame", tick, seed] => Ok(Step::Frame(Now {
            tick: tick.parse::<u32>()?,
            seed: seed.parse::<u32>()?,
        })),
        ["write", y, x, glyph] => Ok(Step::Write(read_place(y, x)?, read_glyph(glyph)?)),
        ["fill", y, x, h, w, glyph] => {
            Ok(Step::Fill(read_area(y, x, h, w)?, read_glyph(glyph)?))
        }
        ["put", y, x, h, w, glyphs] => Ok(Step::Put(
            read_place(y, x)?,
            Cells::read(alloc, read_dims(h, w)?, glyphs)?,
        )),
        ["shift", y, x, h, w, to_y, to_x] => Ok(Step::Shift(
            read_area(y, x, h, w)?,
            read_place(to_y, to_x)?,
        )),
        ["resize", h, w] => Ok(Step::Resize(read_dims(h, w)?)),
        ["load", h, w, glyphs] => Ok(Step::Load(Cells::read(alloc, read_dims(h, w)?, glyphs)?)),
        ["revert"] => Ok(Step::Revert),
        _ => bail!("{text:?} is no step"),
    }
}

/// A row and a column.
fn read_place(y: &str, x: &str) -> Result<Place> {
    Ok(Place {
        y: y.parse::<u16>()?,
        x: x.parse::<u16>()?,
    })
}

/// The first row and column, and how many there are.
fn read_area(y: &str, x: &str, h: &str, w: &str) -> Result<Area> {
    Ok(Area {
        y: y.parse::<u16>()?,
        x: x.parse::<u16>()?,
        h: h.parse::<u16>()?,
        w: w.parse::<u16>()?,
    })
}

/// The rows and the columns of a grid.
fn read_dims(h: &str, w: &str) -> Result<Dims> {
    Dims::of(h.parse::<u32>()?, w.parse::<u32>()?).context("no grid has such a size")
}

/// A glyph as it is.
fn read_glyph(word: &str) -> Result<Glyph> {
    let [byte] = word.as_bytes() else {
        bail!("{word:?} is no glyph");
    };
    Glyph::of(*byte).context("a byte is no glyph")
}
