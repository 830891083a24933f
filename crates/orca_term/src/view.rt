//! The view of a performance, as a terminal is sent it.

use crate::limits::{CELL_BYTES, ROW_BYTES};
use crate::painting::paint_rows;
use crate::picture::{draw_status, draw_upper};
use crate::{Cell, Overlay, ScreenSize, StatusLine, Traffic};
use orca_base::limits::{MAX_SCREEN_COLUMNS, MAX_SCREEN_ROWS, MIN_SCREEN_COLUMNS, MIN_SCREEN_ROWS};
use orca_base::{Look, Memory};
use std::alloc::Global;
use std::marker::Model;
use std::mem;

/// The cells of the largest screen.
const MOST_CELLS: usize = MAX_SCREEN_ROWS as usize * MAX_SCREEN_COLUMNS as usize;

/// The most bytes of a painting.
const MOST_BYTES: usize = MAX_SCREEN_ROWS as usize
    * (ROW_BYTES + CELL_BYTES * MAX_SCREEN_COLUMNS as usize);

/// The view of a performance. A contract sees the size of the screen, the last picture that was painted,
/// if any, and the bytes of that painting.
#[derive(Drop)]
pub struct View {
    size: ScreenSize,
    /// Whether a picture was painted.
    painted: bool,
    /// The last picture, if one was painted.
    last: Vec<Cell>,
    /// Room for the next picture.
    next: Vec<Cell>,
    bytes: Vec<u8>,
}

impl Model for View {
    ghost use Rattle.std.specs.Prelude.{◌≡◌, ◌≤◌, Some, None, true, length, if◌then◌else◌};
    ghost use Rattle.std.specs.Vec.{vec_capacity};
    ghost use Rattle.orca_term.specs.Painting.{painting_room};
    ghost use Rattle.orca_term.specs.Picture.{IsScreen, screen_cells, largest_screen};
    ghost use Rattle.orca_term.specs.Viewing.{Seen};

    ghost Value = { Seen };

    ghost view = { λ v. record {
      size = v.size;
      last = if v.painted then Some v.last.items else None;
      bytes = v.bytes.items;
    } };

    ghost invariant = { λ v. IsScreen v.size
        × (v.painted ≡ true → length v.last.items ≡ screen_cells v.size)
        × (screen_cells largest_screen ≤ vec_capacity v.last)
        × (screen_cells largest_screen ≤ vec_capacity v.next)
        × (painting_room largest_screen ≤ vec_capacity v.bytes) };
}

impl View {
    ghost use Rattle.std.specs.Prelude.{◌≡◌, ◌↔◌, ◌≤◌, ◌++◌, [], All, Some, None, List, ℕ, IfOk};
    ghost use Rattle.std.specs.Borrow.{sem};
    ghost use Rattle.orca_base.specs.declared.limits.TheConstants.{MIN_SCREEN_ROWS, MAX_SCREEN_ROWS, MIN_SCREEN_COLUMNS, MAX_SCREEN_COLUMNS};
    ghost use Rattle.orca_term.specs.Lending.{RestsWith};
    ghost use Rattle.orca_term.specs.Picture.{IsPrintable, scene_of, picture, screen_inside};
    ghost use Rattle.orca_term.specs.Terminal.{IsWhole};
    ghost use Rattle.orca_term.specs.Viewing.{painting_bytes, Shows};

    /// A view of a screen of this size, on which nothing was painted. It takes the room for the pictures
    /// and the paintings of the largest screen; [`Memory`] if that is refused.
    pub fn start(alloc: Global, rows: u16, columns: u16) -> Result<View, Memory>
        requires rows { (MIN_SCREEN_ROWS ≤ rows) × (rows ≤ MAX_SCREEN_ROWS) }
        requires columns { (MIN_SCREEN_COLUMNS ≤ columns) × (columns ≤ MAX_SCREEN_COLUMNS) }
        ensures { IfOk result (λ view. view
            ≡ record {
              size = record { rows = rows; columns = columns };
              last = None;
              bytes = [];
            }) }
    {
        let last = Vec::with_capacity(alloc, MOST_CELLS)?;
        let next = Vec::with_capacity(alloc, MOST_CELLS)?;
        let bytes = Vec::with_capacity(alloc, MOST_BYTES)?;
        let size = ScreenSize { rows, columns };
        Ok(View {
            size,
            painted: false,
            last,
            next,
            bytes,
        })
    }

    /// The size of the screen.
    pub fn size(&self) -> ScreenSize
        ensures { result ≡ self.now.size }
    {
        self.size
    }

    /// From here on the terminal has this size, as far as a screen may have it, and shows whatever it shows:
    /// the next painting has all rows. This takes no memory.
    pub fn begin_anew(&mut self, size: ScreenSize)
        ensures { self.new ≡ record {
          size = screen_inside size;
          last = None;
          bytes = self.old.bytes;
        } }
    {
        self.size = ScreenSize {
            rows: size.rows.min(MAX_SCREEN_ROWS).max(MIN_SCREEN_ROWS),
            columns: size.columns.min(MAX_SCREEN_COLUMNS).max(MIN_SCREEN_COLUMNS),
        };
        self.painted = false;
    }

    /// The bytes of the painting of what is shown: those rows of the picture that differ from the last
    /// one, from the first row down, and all rows at the first call and at the first after
    /// [`View::begin_anew`]. They are whole forms that the small terminal reads.
    pub fn paint<T: Look>(
        &mut self,
        look: &T,
        over: &Overlay,
        line: &StatusLine,
        sent: &Traffic,
    ) -> &[u8]
        ensures painting { let scene = scene_of (T.sheet look.now) (T.marks look.now) over.now in
            let cells = picture self.old.size scene sent.now line.now in
            result.now ≡ painting_bytes self.old.size self.old.last cells }

        ensures whole { IsWhole result.now }

        // No bytes exactly where the picture is the last one.
        ensures same { let scene = scene_of (T.sheet look.now) (T.marks look.now) over.now in
            (result.now ≡ [])
            ↔ (self.old.last ≡ Some (picture self.old.size scene sent.now line.now)) }

        // A terminal can show each cell of the picture.
        ensures printable { let scene = scene_of (T.sheet look.now) (T.marks look.now) over.now in
            All IsPrintable (picture self.old.size scene sent.now line.now) }

        // A terminal of this size that was sent all paintings so far shows the new picture after
        // this one, whatever it showed before them.
        ensures shows { let scene = scene_of (T.sheet look.now) (T.marks look.now) over.now in
            let cells = picture self.old.size scene sent.now line.now in
            (sent : List ℕ) → Shows self.old.size sent self.old.last
            → Shows self.old.size (sent ++ result.now) (Some cells) }

        ensures* kept { sem 𝓛 (RestsWith self.entry (λ new. new ≡ record {
          size = self.old.size;
          last = Some (picture self.old.size
              (scene_of (T.sheet look.now) (T.marks look.now) over.now) sent.now line.now);
          bytes = result.now;
        })) }
    {
        self.repaint(look, over, line, sent);
        self.bytes()
    }

    /// Makes the picture, and its painting after the last one.
    fn repaint<T: Look>(&mut self, look: &T, over: &Overlay, line: &StatusLine, sent: &Traffic)
        ensures kept { let scene = scene_of (T.sheet look.now) (T.marks look.now) over.now in
            let cells = picture self.old.size scene sent.now line.now in
            self.new ≡ record {
              size = self.old.size;
              last = Some cells;
              bytes = painting_bytes self.old.size self.old.last cells;
            } }

        ensures whole { IsWhole self.new.bytes }

        ensures same { let scene = scene_of (T.sheet look.now) (T.marks look.now) over.now in
            (self.new.bytes ≡ [])
            ↔ (self.old.last ≡ Some (picture self.old.size scene sent.now line.now)) }

        ensures printable { let scene = scene_of (T.sheet look.now) (T.marks look.now) over.now in
            All IsPrintable (picture self.old.size scene sent.now line.now) }

        ensures shows { let scene = scene_of (T.sheet look.now) (T.marks look.now) over.now in
            let cells = picture self.old.size scene sent.now line.now in
            (sent : List ℕ) → Shows self.old.size sent self.old.last
            → Shows self.old.size (sent ++ self.new.bytes) (Some cells) }
    {
        draw_upper(&mut self.next, self.size, look, over, sent);
        draw_status(&mut self.next, self.size, look, over, line);
        let last = self.painted.then_some(self.last.as_slice());
        paint_rows(&mut self.bytes, self.size, last, &self.next);
        mem::swap(&mut self.last, &mut self.next);
        self.painted = true;
    }

    /// The bytes of the last painting.
    fn bytes(&self) -> &[u8]
        ensures { result.now ≡ self.now.bytes }
    {
        self.bytes.as_slice()
    }
}
