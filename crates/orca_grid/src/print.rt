//! Printing a grid.

ghost use Rattle.std.specs.Prelude.{◌≡◌, ◌<◌, ◌++◌, Ok, OnOk, OnErr, length, take};
ghost use Rattle.orca_grid.specs.GridText.{grid_text, text_of, row_of, line};

use crate::Grid;
use orca_base::{Look, Memory, Place};

impl Grid {
    /// Appends the text of a grid: each row, with a line feed. Where memory is refused, `into` is
    /// as before.
    pub fn print<T: Look>(look: &T, into: &mut Vec<u8>) -> Result<(), Memory>
        ensures ok { OnOk result (into.new.items ≡ into.old.items ++ text_of (T.sheet look.now)) }
        ensures reads_back { let g = T.sheet look.now in
            OnOk result (grid_text (text_of g) ≡ Ok g) }
        ensures err { OnErr result (into.new.items ≡ into.old.items) }
    {
        let before = into.len();
        match push_rows(look, into) {
            Ok(()) => Ok(()),
            Err(memory) => {
                into.truncate(before);
                Err(memory)
            }
        }
    }
}

/// Appends the rows. Where memory is refused, some of them stand after what was there.
#[tactic(auto, unfolding(crate::specs::GridText::text_of))]
fn push_rows<T: Look>(look: &T, into: &mut Vec<u8>) -> Result<(), Memory>
    ensures ok { OnOk result (into.new.items ≡ into.old.items ++ text_of (T.sheet look.now)) }
    ensures reads_back { let g = T.sheet look.now in OnOk result (grid_text (text_of g) ≡ Ok g) }
    ensures err { OnErr result (take (length into.old.items) into.new.items ≡ into.old.items) }
{
    let dims = look.dims();
    for y in 0..dims.h {
        push_row(look, dims.w, y, into)?;
    }
    Ok(())
}

/// Appends a row and its line feed. Where memory is refused, a part stands after what was there.
fn push_row<T: Look>(look: &T, width: u16, y: u16, into: &mut Vec<u8>) -> Result<(), Memory>
    requires row { y < (T.sheet look.now).dims.h }
    requires width { width ≡ (T.sheet look.now).dims.w }
    ensures ok { OnOk result
        (into.new.items ≡ into.old.items ++ line (row_of (T.sheet look.now) y)) }
    ensures err { OnErr result (take (length into.old.items) into.new.items ≡ into.old.items) }
{
    for x in 0..width {
        into.push(look.glyph_at(Place { y, x }).byte())?;
    }
    into.push(b'\n')?;
    Ok(())
}
