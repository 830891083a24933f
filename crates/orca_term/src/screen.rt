//! The small terminal, which shows what it is sent.

ghost use Rattle.std.specs.Prelude.{◌≡◌, ◌<◌, IfOk};
ghost use Rattle.orca_term.specs.Terminal.{fresh_terminal, after_form, IsWhole, after_bytes, terminal_cell};

use crate::forms::{Form, Reading, Step, read};
use crate::picture::BLANK;
use crate::{Cell, ScreenSize};
use orca_base::Memory;
use std::alloc::Global;
use std::marker::Model;

/// A small terminal: cells, a cursor and a style. A contract sees all of them. No run uses it; tests paint on
/// it.
#[derive(Debug, Drop)]
pub struct Screen {
    size: ScreenSize,
    cells: Vec<Cell>,
    y: u16,
    x: u16,
    style: u8,
}

impl Model for Screen {
    ghost use Rattle.std.specs.Prelude.{◌≡◌, length};
    ghost use Rattle.orca_term.specs.Picture.{screen_cells};
    ghost use Rattle.orca_term.specs.Terminal.{Terminal};

    ghost Value = { Terminal };

    ghost view = { λ s. record {
      size = s.size;
      cells = s.cells.items;
      y = s.y;
      x = s.x;
      style = s.style;
    } };

    ghost invariant = { λ s. length s.cells.items ≡ screen_cells s.size };
}

impl Screen {
    /// A screen of spaces without a style, with the cursor at the top left; [`Memory`] if its room is
    /// refused.
    pub fn start(alloc: Global, rows: u16, columns: u16) -> Result<Screen, Memory>
        ensures { IfOk result (λ s. s ≡ fresh_terminal (record { rows = rows; columns = columns })) }
    {
        let mut cells = Vec::new(alloc);
        cells.resize(usize::from(rows) * usize::from(columns), BLANK)?;
        Ok(Screen {
            size: ScreenSize { rows, columns },
            cells,
            y: 0,
            x: 0,
            style: 0,
        })
    }

    /// Reads bytes, which are a sequence of whole forms.
    pub fn show(&mut self, bytes: &[u8])
        requires { IsWhole bytes.now }
        ensures shown { self.new ≡ after_bytes self.old bytes.now }
        ensures size { self.new.size ≡ self.old.size }
    {
        let mut reading = Reading::Ready;
        for byte in bytes {
            match read(reading, *byte) {
                Step::Goes(next) => reading = next,
                Step::Gives(form) => {
                    self.follow(form);
                    reading = Reading::Ready;
                }
                Step::Breaks => unreachable!(),
            }
        }
    }

    /// The byte and the style of the cell of a row and a column, counted from 0.
    pub fn cell(&self, y: u16, x: u16) -> (u8, u8)
        requires row { y < self.now.size.rows }
        requires column { x < self.now.size.columns }
        ensures byte { result.0 ≡ (terminal_cell self.now y x).byte }
        ensures style { result.1 ≡ (terminal_cell self.now y x).style }
    {
        let cell = self.cells[usize::from(y) * usize::from(self.size.columns) + usize::from(x)];
        (cell.byte, cell.style)
    }

    /// Does what a form says.
    #[tactic(auto, unfolding(crate::specs::Terminal::after_form))]
    fn follow(&mut self, form: Form)
        ensures { self.new ≡ after_form self.old form }
    {
        match form {
            Form::GoTo { row, column } => {
                self.y = row.saturating_sub(1);
                self.x = column.saturating_sub(1);
            }
            Form::Style(style) => self.style = style,
            Form::Show(byte) => self.put(byte),
        }
    }

    /// Shows a byte.
    #[tactic(auto, unfolding(crate::specs::Terminal::after_form))]
    fn put(&mut self, byte: u8)
        ensures { self.new ≡ after_form self.old (Form.Show byte) }
    {
        if self.y >= self.size.rows || self.x >= self.size.columns {
            return;
        }
        let index = usize::from(self.y) * usize::from(self.size.columns) + usize::from(self.x);
        let style = self.style;
        self.cells[index] = Cell { byte, style };
        self.x += 1;
    }
}
