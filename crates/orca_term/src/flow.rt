//! A text that is pasted into the terminal.

ghost use Rattle.std.specs.Prelude.{◌≡◌};
ghost use Rattle.orca_term.specs.Pasting.{new_flow, is_begun, next_cell, next_row, flow_after, cell_wish, flow_wish};

use crate::{Editor, Key, ScreenSize, Wish};
use orca_base::limits::{MAX_SCREEN_COLUMNS, MAX_SCREEN_ROWS};
use orca_base::{Command, Glyph};

/// A text that is pasted, as far as it was read: where its next cell stands in it.
#[derive(Clone, Copy, Debug, PartialEq, Eq)]
pub struct Flow {
    /// The row, counted from 0.
    pub y: u16,
    /// The column, counted from 0.
    pub x: u16,
    /// Whether the last of its cells and newlines was a Return, to which a Line right after it belongs.
    pub returned: bool,
}

impl Flow {
    /// A text of which nothing was read.
    pub(crate) fn start() -> Flow
        ensures { result ≡ new_flow }
    {
        Flow {
            y: 0,
            x: 0,
            returned: false,
        }
    }

    /// The text after a key.
    pub(crate) fn after(&self, key: &Key) -> Flow
        ensures { result ≡ flow_after key.now self.now }
    {
        match *key {
            Key::Glyph(_) => self.next_cell(),
            Key::Pause => self.next_cell(),
            Key::Append => self.next_cell(),
            Key::Return => self.next_row(true),
            Key::Line => self.next_line(),
            _ => *self,
        }
    }

    /// What a key asks for inside the text, which is pasted at the cursor of the editor.
    pub(crate) fn wish(&self, key: &Key, editor: &Editor) -> Wish
        ensures { result ≡ flow_wish key.now self.now editor.now }
    {
        match *key {
            Key::Glyph(glyph) => self.cell_wish(glyph),
            Key::Pause => self.cell_wish(Glyph::EMPTY),
            Key::Append => self.cell_wish(Glyph::EMPTY),
            Key::PasteEnd => self.last_wish(editor),
            Key::Screen { rows, columns } => Wish::Redraw(Some(ScreenSize { rows, columns })),
            _ => Wish::Nothing,
        }
    }

    /// Whether the text has a cell.
    fn is_begun(&self) -> bool
        ensures { result ≡ is_begun self.now }
    {
        !(self.y == 0 && self.x == 0)
    }

    /// The text after a cell.
    fn next_cell(&self) -> Flow
        ensures { result ≡ next_cell self.now }
    {
        Flow {
            y: self.y,
            x: self.x.saturating_add(1).min(MAX_SCREEN_COLUMNS),
            returned: false,
        }
    }

    /// The text after a newline.
    fn next_row(&self, returned: bool) -> Flow
        ensures { result ≡ next_row returned self.now }
    {
        let y = if self.is_begun() {
            self.y.saturating_add(1).min(MAX_SCREEN_ROWS)
        } else {
            0
        };
        Flow { y, x: 0, returned }
    }

    /// The text after a Line, which belongs to the Return before it.
    fn next_line(&self) -> Flow
        ensures { result ≡ flow_after Key.Line self.now }
    {
        if self.returned {
            return Flow {
                returned: false,
                ..*self
            };
        }
        self.next_row(false)
    }

    /// Puts a cell of the text into the clip, if it is taken.
    fn cell_wish(&self, glyph: Glyph) -> Wish
        ensures { result ≡ cell_wish self.now glyph }
    {
        if self.y < MAX_SCREEN_ROWS && self.x < MAX_SCREEN_COLUMNS {
            return Wish::Do(Command::Clip {
                y: u32::from(self.y),
                x: u32::from(self.x),
                glyph,
            });
        }
        Wish::Nothing
    }

    /// Pastes the text, if it has a cell.
    fn last_wish(&self, editor: &Editor) -> Wish
        ensures { result ≡ flow_wish Key.PasteEnd self.now editor.now }
    {
        if self.is_begun() {
            return Wish::Do(Command::Paste {
                y: u32::from(editor.y),
                x: u32::from(editor.x),
            });
        }
        Wish::Nothing
    }
}
