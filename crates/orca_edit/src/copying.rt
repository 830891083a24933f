ghost use Rattle.std.specs.Prelude.{◌≡◌, IfOk, OnErr, OnOk};
ghost use Rattle.orca_base.specs.Areas.{IsArea};
ghost use Rattle.orca_base.specs.Edits.{block_of, clipped};
ghost use Rattle.orca_base.specs.Grids.{IsInside, largest};
ghost use Rattle.orca_edit.specs.Editing.{IsBlock};
ghost use Rattle.orca_edit.specs.Obeying.{place};

use crate::areas::place;
use orca_base::{Area, Block, Dims, Glyph, Look, Memory, Place};
use std::alloc::Global;
use std::rc::Rc;

/// Copies the glyphs of an area of the grid; [`Memory`] if their room is refused.
pub fn copy<T: Look>(alloc: Global, look: &T, area: Area) -> Result<Block, Memory>
    requires { IsArea (T.sheet look.now).dims area }
    ensures block { IfOk result (λ block. block ≡ block_of (T.sheet look.now) area) }
    ensures glyphs { IfOk result IsBlock }
{
    let grid = look.dims();
    prove!(area.h <= grid.h && area.w <= grid.w);
    let size = Dims {
        h: area.h,
        w: area.w,
    };
    let mut cells = Vec::with_capacity(alloc, size.cells())?;
    for n in 0..size.cells() {
        let within = size.place(n);
        let glyph = look.glyph_at(Place {
            y: area.y + within.y,
            x: area.x + within.x,
        });
        cells.push(glyph)?;
    }
    let cells = Rc::new(alloc, cells)?;
    Ok(Block::of(area.h, area.w, cells))
}

/// Puts a glyph into a cell of the clip, and the first cell begins a new one. Without a clip any
/// other cell is passed over. [`Memory`] if the room is refused; the clip is then as before.
pub fn put_in_clip(
    alloc: Global,
    clip: &mut Option<Block>,
    y: u32,
    x: u32,
    glyph: Glyph,
) -> Result<(), Memory>
    requires { IsInside largest (place y x) }
    ensures clip { OnOk result (clip.new ≡ clipped clip.old (place y x) glyph) }
    ensures err { OnErr result (clip.new ≡ clip.old) }
{
    if y == 0 && x == 0 {
        *clip = Some(Block::one(alloc, glyph)?);
        return Ok(());
    }
    match clip {
        Some(block) => block.put(place(Dims::largest(), y, x), glyph),
        None => Ok(()),
    }
}
