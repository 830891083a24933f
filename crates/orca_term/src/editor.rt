//! The editor: a cursor, a selection, and what a key makes of them.

ghost use Rattle.std.specs.Prelude.{◌≡◌, ◌≤◌, ◌&&◌, ℕ, false, is_some, nat_le, nat_lt};
ghost use Rattle.orca_base.specs.Areas.{IsArea};
ghost use Rattle.orca_base.specs.Edits.{is_in_area};
ghost use Rattle.orca_term.specs.Editing.{area_of, selection_rect, new_editor, cut_to_grid, editor_inside, stepped, moved_to, slid, typed, rubbed, edited, wished, wish_of, editor_after, page_after, turned_page, written};
ghost use Rattle.orca_term.specs.Pasting.{flowed};

use crate::limits::HELP_PAGES;
use crate::{Around, Deed, Flow, Key, ScreenSize, Side};
use orca_base::limits::BACK_MOMENTS;
use orca_base::{Command, Dims, Place, Rect};
use std::ops::Range;

/// A cursor, a selection that reaches from it downwards and to the right, and what the user has switched on.
#[derive(Clone, Copy, Debug, PartialEq, Eq)]
pub struct Editor {
    /// The row of the cursor, counted from 0.
    pub y: u16,
    /// The column of the cursor, counted from 0.
    pub x: u16,
    /// The number of rows of the selection, at least 1.
    pub h: u16,
    /// The number of columns of the selection, at least 1.
    pub w: u16,
    /// Whether the performance is paused.
    pub paused: bool,
    /// Whether the cursor goes on after a glyph that is typed.
    pub append: bool,
    /// Whether the picture shows the guide: the tempo, the beat, the operator at the cursor in words, the
    /// ruler and the colours.
    pub guide: bool,
    /// The place on which the mouse was pressed last, from which a drag selects.
    pub anchor: Place,
    /// A text that is pasted, while it is read.
    pub flow: Option<Flow>,
    /// The page of help that the picture shows, counted from 1; 0 for none.
    pub page: u8,
    /// Whether the picture tells what is sent.
    pub traffic: bool,
}

/// What a key asks for, beside what it makes of the editor.
#[derive(Clone, Copy, Debug, PartialEq, Eq)]
pub enum Wish {
    /// Nothing beyond the editor.
    Nothing,
    /// A command for the session.
    Do(Command),
    /// The editor has changed its pause.
    Toggle,
    /// To save the grid.
    Save,
    /// To end the performance.
    Quit,
    /// So many beats a minute less.
    Slower(u16),
    /// So many beats a minute more.
    Faster(u16),
    /// To paint all rows, on a screen of this size, if it has another one.
    Redraw(Option<ScreenSize>),
}

impl Editor {
    /// The cursor on the first place, the selection of that place alone, no pause and nothing switched on.
    pub fn start() -> Editor
        ensures { result ≡ new_editor false }
    {
        Editor {
            y: 0,
            x: 0,
            h: 1,
            w: 1,
            paused: false,
            append: false,
            guide: false,
            anchor: Place { y: 0, x: 0 },
            flow: None,
            page: 0,
            traffic: false,
        }
    }

    /// Brings the cursor and then the selection into a grid of this size.
    pub fn fit(&mut self, dims: Dims)
        ensures fitted { self.new ≡ editor_inside dims self.old }
        ensures inside { IsArea dims (area_of self.new) }
    {
        self.y = self.y.min(dims.h - 1);
        self.x = self.x.min(dims.w - 1);
        self.cut(dims);
    }

    /// The columns of a row that lie in the selection.
    pub(crate) fn columns_at(&self, y: u16) -> Range<u32>
        ensures { (x : ℕ) → is_in_area (area_of self.now) (record { y = y; x = x })
            ≡ (nat_le result.start x && nat_lt x result.end) }
    {
        let (y, top, left) = (u32::from(y), u32::from(self.y), u32::from(self.x));
        if y < top || top + u32::from(self.h) <= y {
            return 0..0;
        }
        left..left + u32::from(self.w)
    }

    /// Cuts the selection to the grid.
    fn cut(&mut self, dims: Dims)
        ensures { self.new ≡ cut_to_grid dims self.old }
    {
        self.h = self.h.min(dims.h.saturating_sub(self.y)).max(1);
        self.w = self.w.min(dims.w.saturating_sub(self.x)).max(1);
    }

    /// What a key asks for, with what it makes of the editor. The selection isn't empty and lies in the
    /// grid, before and afterwards.
    pub fn key(&mut self, key: Key, around: &Around) -> Wish
        requires inside { IsArea around.now.dims (area_of self.old) }
        ensures wish { result ≡ wish_of key around.now self.old }
        ensures editor { self.new ≡ editor_after key around.now self.old }
        ensures inside { IsArea around.now.dims (area_of self.new) }
    {
        let wish = self.wish(&key, around);
        self.change(key, around);
        wish
    }

    /// What a key asks for.
    fn wish(&self, key: &Key, around: &Around) -> Wish
        requires inside { IsArea around.now.dims (area_of self.now) }
        ensures { result ≡ wish_of key.now around.now self.now }
    {
        match self.flow {
            Some(flow) => flow.wish(key, self),
            None => self.wish_outside(key, around),
        }
    }

    /// Does what a key makes of the page of help, also one that is denied: Help turns to the next page
    /// outside a text, the size of the terminal and Redraw leave it, and any other key closes it.
    pub fn turn_page(&mut self, key: &Key)
        ensures { self.new ≡ turned_page key.now self.old }
    {
        self.page = match *key {
            Key::Help => self.page_after_help(),
            Key::Screen { .. } => self.page,
            Key::Redraw => self.page,
            _ => 0,
        };
    }

    /// The page after the key of help.
    fn page_after_help(&self) -> u8
        ensures { result ≡ page_after Key.Help (is_some self.now.flow) self.now.page }
    {
        if self.flow.is_some() {
            return self.page;
        }
        if self.page < HELP_PAGES {
            return self.page + 1;
        }
        0
    }

    /// Does what a key makes of the editor.
    fn change(&mut self, key: Key, around: &Around)
        requires inside { IsArea around.now.dims (area_of self.old) }
        ensures editor { self.new ≡ editor_after key around.now self.old }
        ensures inside { IsArea around.now.dims (area_of self.new) }
    {
        let mut turned = *self;
        turned.turn_page(&key);
        self.write(key, around);
        self.page = turned.page;
    }

    /// Does what a key makes of all but the page.
    fn write(&mut self, key: Key, around: &Around)
        requires inside { IsArea around.now.dims (area_of self.old) }
        ensures editor { self.new ≡ written key around.now self.old }
        ensures inside { IsArea around.now.dims (area_of self.new) }
    {
        if let Key::PasteBegin = key {
            self.flow = Some(Flow::start());
            return;
        }
        match self.flow {
            Some(flow) => self.read(flow, &key),
            None => self.change_outside(key, around),
        }
    }

    /// Does what a key makes of the editor inside a text.
    fn read(&mut self, flow: Flow, key: &Key)
        ensures { self.new ≡ flowed key.now flow self.old }
    {
        self.flow = match *key {
            Key::PasteEnd => None,
            Key::Escape => None,
            _ => Some(flow.after(key)),
        };
    }

    /// What a key asks for outside a text that is pasted.
    fn wish_outside(&self, key: &Key, around: &Around) -> Wish
        requires inside { IsArea around.now.dims (area_of self.now) }
        ensures { result ≡ wished key.now around.now self.now }
    {
        let (y, x) = (u32::from(self.y), u32::from(self.x));
        let rect = self.rect();
        match *key {
            Key::Arrow { deed, side, by } => self.arrow_wish(deed, side, by, around),
            Key::Glyph(glyph) => Wish::Do(Command::Write { y, x, glyph }),
            Key::Fill => Wish::Do(Command::Fill {
                rect,
                glyph: around.glyph,
            }),
            Key::Rub => Wish::Do(Command::Erase {
                rect: self.rubbed().rect(),
            }),
            Key::Erase => Wish::Do(Command::Erase { rect }),
            Key::Copy => Wish::Do(Command::Copy { rect }),
            Key::Cut => Wish::Do(Command::Cut { rect }),
            Key::Paste => Wish::Do(Command::Paste { y, x }),
            Key::Undo => Wish::Do(Command::Undo),
            Key::Redo => Wish::Do(Command::Redo),
            Key::Retract => Wish::Do(Command::Retract {
                moment: around.own.unwrap_or(around.moments),
            }),
            Key::Hush => Wish::Do(Command::Hush),
            Key::Reset => Wish::Do(Command::Reset),
            Key::Step => Wish::Do(Command::Frame),
            Key::Back => Wish::Do(Command::Rewind {
                moment: around.moments.saturating_sub(BACK_MOMENTS),
            }),
            Key::Pause => Wish::Toggle,
            Key::Save => Wish::Save,
            Key::Quit => Wish::Quit,
            Key::Slower(beats) => Wish::Slower(beats),
            Key::Faster(beats) => Wish::Faster(beats),
            Key::Redraw => Wish::Redraw(None),
            Key::Screen { rows, columns } => Wish::Redraw(Some(ScreenSize { rows, columns })),
            _ => Wish::Nothing,
        }
    }

    /// What an arrow asks for: a move of the block that slides, unless it stays where it is, or another size
    /// of the grid.
    fn arrow_wish(&self, deed: Deed, side: Side, by: u16, around: &Around) -> Wish
        requires inside { IsArea around.now.dims (area_of self.now) }
        ensures { result ≡ wished (Key.Arrow deed side by) around.now self.now }
    {
        match deed {
            Deed::Slide => {
                let (y, x) = self.slid(side, by, around.dims);
                if y == self.y && x == self.x {
                    return Wish::Nothing;
                }
                Wish::Do(Command::Move {
                    rect: self.rect(),
                    to_y: u32::from(y),
                    to_x: u32::from(x),
                })
            }
            Deed::Grow => {
                let (h, w) = stepped(side, by, (around.dims.h, around.dims.w));
                Wish::Do(Command::Resize { h, w })
            }
            _ => Wish::Nothing,
        }
    }

    /// The selection, as a user names it.
    fn rect(&self) -> Rect
        ensures { result ≡ selection_rect self.now }
    {
        Rect {
            y: u32::from(self.y),
            x: u32::from(self.x),
            h: u32::from(self.h),
            w: u32::from(self.w),
        }
    }

    /// Does what a key makes of the editor outside a text that is pasted.
    fn change_outside(&mut self, key: Key, around: &Around)
        requires inside { IsArea around.now.dims (area_of self.old) }
        ensures editor { self.new ≡ edited key around.now self.old }
        ensures inside { IsArea around.now.dims (area_of self.new) }
    {
        let dims = around.dims;
        match key {
            Key::Arrow { deed, side, by } => self.follow(deed, side, by, around),
            Key::Glyph(_) => self.advance(dims),
            Key::Rub => *self = self.rubbed(),
            Key::All => {
                (self.y, self.x) = (0, 0);
                (self.h, self.w) = (dims.h, dims.w);
            }
            Key::Escape => {
                (self.h, self.w) = (1, 1);
                self.append = false;
            }
            Key::Append => self.append = !self.append,
            Key::Guide => self.guide = !self.guide,
            Key::Traffic => self.traffic = !self.traffic,
            Key::Pause => self.paused = !self.paused,
            Key::Press { row, column } => self.press(around, row, column),
            Key::Drag { row, column } => self.drag(around, row, column),
            _ => {}
        }
    }

    /// Does what an arrow makes of the editor.
    fn follow(&mut self, deed: Deed, side: Side, by: u16, around: &Around)
        requires inside { IsArea around.now.dims (area_of self.old) }
        ensures editor { self.new ≡ edited (Key.Arrow deed side by) around.now self.old }
        ensures inside { IsArea around.now.dims (area_of self.new) }
    {
        let dims = around.dims;
        match deed {
            Deed::Move => self.go(stepped(side, by, (self.y, self.x)), dims),
            Deed::Stretch => {
                let (h, w) = stepped(side, by, (self.h, self.w));
                self.h = h.min(u32::from(dims.h)) as u16;
                self.w = w.min(u32::from(dims.w)) as u16;
                self.cut(dims);
            }
            Deed::Slide => (self.y, self.x) = self.slid(side, by, dims),
            Deed::Grow => {}
        }
    }

    /// Moves the cursor, as far as the grid reaches.
    fn go(&mut self, at: (u32, u32), dims: Dims)
        ensures moved { self.new ≡ moved_to dims self.old at }
        ensures inside { IsArea dims (area_of self.new) }
    {
        self.y = at.0.min(u32::from(dims.h) - 1) as u16;
        self.x = at.1.min(u32::from(dims.w) - 1) as u16;
        self.cut(dims);
    }

    /// Goes on after a glyph that was typed.
    fn advance(&mut self, dims: Dims)
        requires inside { IsArea dims (area_of self.old) }
        ensures typed { self.new ≡ typed dims self.old }
        ensures inside { IsArea dims (area_of self.new) }
    {
        if self.append {
            self.go(stepped(Side::Right, 1, (self.y, self.x)), dims);
        }
    }

    /// The editor on what Rub erases.
    fn rubbed(&self) -> Editor
        ensures { result ≡ rubbed self.now }
    {
        let mut editor = *self;
        if self.append && self.h == 1 && self.w == 1 {
            editor.x = self.x.saturating_sub(1);
        }
        editor
    }

    /// Where the selected block slides, as far as all of it stays in the grid.
    fn slid(&self, side: Side, by: u16, dims: Dims) -> (u16, u16)
        requires inside { IsArea dims (area_of self.now) }
        ensures { result ≡ slid side by dims self.now }
    {
        let (y, x) = stepped(side, by, (self.y, self.x));
        let y = y.min(u32::from(dims.h - self.h)) as u16;
        let x = x.min(u32::from(dims.w - self.w)) as u16;
        (y, x)
    }
}

/// A pair of numbers, one of them less or more by `by`: up and down step the first, left and right the
/// second.
fn stepped(side: Side, by: u16, pair: (u16, u16)) -> (u32, u32)
    ensures { result ≡ stepped side by pair }
{
    let (first, second) = (u32::from(pair.0), u32::from(pair.1));
    let by = u32::from(by);
    match side {
        Side::Up => (first.saturating_sub(by), second),
        Side::Down => (first + by, second),
        Side::Left => (first, second.saturating_sub(by)),
        Side::Right => (first, second + by),
    }
}
