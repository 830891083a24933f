//! The cells of the status line.

ghost use Rattle.std.specs.Prelude.{◌≡◌, ◌+◌, ◌<◌, ◌≤◌, [], ◌∷◌, ◌++◌, length, All};
ghost use Rattle.orca_term.specs.Picture.{IsPrintable, IsPrintableByte, styled};

use crate::Cell;
use crate::limits::STATUS_CELLS;
use crate::picture::BLANK;
use std::marker::Model;

/// The cells of a status line, as far as they were made. A contract sees the list of them.
#[derive(Debug, Drop)]
pub(crate) struct Strip {
    cells: [Cell; STATUS_CELLS],
    len: usize,
}

impl Model for Strip {
    ghost use Rattle.std.specs.Prelude.{◌≤◌, List, take};
    ghost use Rattle.orca_term.specs.declared.cell.Cell.{Cell};
    ghost use Rattle.orca_term.specs.declared.limits.TheConstants.{STATUS_CELLS};

    ghost Value = { List Cell };

    ghost view = { λ s. take s.len s.cells };

    ghost invariant = { λ s. s.len ≤ STATUS_CELLS };
}

impl Strip {
    /// No cells.
    pub(crate) fn empty() -> Strip
        ensures { result ≡ [] }
    {
        Strip {
            cells: [BLANK; STATUS_CELLS],
            len: 0,
        }
    }

    /// Adds a cell at the end, where one more fits.
    pub(crate) fn push(&mut self, cell: Cell)
        requires { length self.old < STATUS_CELLS }
        ensures { self.new ≡ self.old ++ cell ∷ [] }
    {
        self.cells[self.len] = cell;
        self.len += 1;
    }

    /// Adds a text in a style at the end, where it fits.
    pub(crate) fn push_text(&mut self, style: u8, text: &[u8])
        requires room { length self.old + length text.now ≤ STATUS_CELLS }
        requires text { All IsPrintableByte text.now }
        requires printable { All IsPrintable self.old }
        ensures cells { self.new ≡ self.old ++ styled style text.now }
        ensures len { length self.new ≡ length self.old + length text.now }
        ensures printable { All IsPrintable self.new }
    {
        for byte in text {
            self.push(Cell { byte: *byte, style });
        }
    }

    /// The cells.
    pub(crate) fn as_slice(&self) -> &[Cell]
        ensures { result.now ≡ self.now }
    {
        &self.cells[..self.len]
    }
}
