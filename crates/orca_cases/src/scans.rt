//! A frame alone, on both boards.

ghost use Rattle.std.specs.Prelude.{◌≡◌, ◌<◌};

use crate::answer::Answer;
use crate::bytes::write_bytes;
use crate::case::Case;
use anyhow::{Result, bail, ensure};
use orca_base::limits::{BASE, MAX_FILE_BYTES};
use orca_base::{Event, Look, Mark, Marks, Now, Steps};
use orca_board::{Board, PlainBoard};
use orca_frame::{frame, frame_plain};
use orca_grid::Grid;
use orca_op::Bench;
use std::alloc::Global;
use std::marker::Brand;
use std::sync::ledger::{Blank, Ledger};

/// Adds the lines of the answer, which both boards have to give.
pub(crate) fn tell(case: &Case, now: Now, answer: &mut Answer) -> Result<()> {
    let grid = read_grid(answer.alloc, case)?;
    let mut slow = Answer::new(answer.alloc, answer.form);
    let mut quick = Answer::new(answer.alloc, answer.form);
    tell_plain(&grid, now, &mut slow)?;
    tell_live(&grid, now, &mut quick)?;
    ensure!(slow.as_str() == quick.as_str(), "the boards differ");
    answer.push(slow.as_str())
}

/// Adds the answer of the plain board.
fn tell_plain(grid: &Grid, now: Now, answer: &mut Answer) -> Result<()> {
    let mut board = plain_board(answer.alloc, grid)?;
    scan::<Brand>(&mut board, now, Blank::new(1), answer)
}

/// Adds the answer of the live board.
fn tell_live(grid: &Grid, now: Now, answer: &mut Answer) -> Result<()> {
    let mut board = live_board(answer.alloc, grid)?;
    walk::<Brand>(&mut board, now, Blank::new(1), answer)
}

/// The grid of a case, its one file.
pub(crate) fn read_grid(alloc: Global, case: &Case) -> Result<Grid> {
    let [(_, text)] = case.outside.files.as_slice() else {
        bail!("a case on boards has one grid");
    };
    ensure!(text.len() <= MAX_FILE_BYTES, "the grid is too long");
    Ok(Grid::read(alloc, text.as_slice())?)
}

/// The plain board of a grid.
pub(crate) fn plain_board(alloc: Global, grid: &Grid) -> Result<PlainBoard> {
    let Ok(board) = PlainBoard::start(alloc, grid) else {
        bail!("memory was refused");
    };
    Ok(board)
}

/// The live board of a grid.
pub(crate) fn live_board(alloc: Global, grid: &Grid) -> Result<Board> {
    let Ok(board) = Board::start(alloc, grid) else {
        bail!("memory was refused");
    };
    Ok(board)
}

/// Adds the answer of the plain board, which looks at every place.
fn scan<L: Ledger>(
    board: &mut PlainBoard,
    now: Now,
    blank: Blank,
    answer: &mut Answer,
) -> Result<()>
    requires name { blank.name ≡ L.name }
    requires parts { blank.parts ≡ L.parts }
    requires some { 0 < blank.parts }
{
    let mut steps = Steps::<L>::start(blank);
    frame_plain(board, now, &mut steps);
    tell_frame(board, board.events(), answer, &mut steps)
}

/// Adds the answer of the live board, which goes from one operator to the next.
fn walk<L: Ledger>(board: &mut Board, now: Now, blank: Blank, answer: &mut Answer) -> Result<()>
    requires name { blank.name ≡ L.name }
    requires parts { blank.parts ≡ L.parts }
    requires some { 0 < blank.parts }
{
    let mut steps = Steps::<L>::start(blank);
    frame(board, now, &mut steps);
    tell_frame(board, board.events(), answer, &mut steps)
}

/// Adds the lines of a board after a frame: its glyphs, its marks, its variables and its events.
pub(crate) fn tell_frame<B: Bench + Look, L: Ledger>(
    board: &B,
    events: &[Event],
    answer: &mut Answer,
    steps: &mut Steps<L>,
) -> Result<()> {
    tell_places(board, answer)?;
    let mut vars = Vec::new(answer.alloc);
    for index in 0..BASE {
        vars.push(board.var(index, steps).byte())?;
    }
    answer.push_bytes("vars", vars.as_slice())?;
    for event in events {
        tell_event(*event, answer)?;
    }
    Ok(())
}

/// Adds the lines of the glyphs and the marks.
fn tell_places<T: Look>(look: &T, answer: &mut Answer) -> Result<()> {
    let mut cells = Vec::new(answer.alloc);
    let mut marks = Vec::new(answer.alloc);
    let dims = Look::dims(look);
    for index in 0..dims.cells() {
        let place = dims.place(index);
        cells.push(look.glyph_at(place).byte())?;
        marks.push(mark_byte(look.marks_at(place)))?;
    }
    answer.push_bytes("cells", cells.as_slice())?;
    answer.push_bytes("marks", marks.as_slice())
}

/// A set of marks as a byte.
fn mark_byte(marks: Marks) -> u8 {
    mark_bit(marks, Mark::Lock, 1)
        | mark_bit(marks, Mark::Input, 2)
        | mark_bit(marks, Mark::Param, 4)
        | mark_bit(marks, Mark::Output, 8)
        | mark_bit(marks, Mark::Sleep, 16)
}

/// The bit, where the mark is in the set.
fn mark_bit(marks: Marks, mark: Mark, bit: u8) -> u8 {
    if marks.has(mark) { bit } else { 0 }
}

/// Adds the line of an event.
fn tell_event(event: Event, answer: &mut Answer) -> Result<()> {
    let alloc = answer.alloc;
    match event {
        Event::Note {
            channel,
            key,
            velocity,
            length,
            mono,
        } => {
            let mono = u8::from(mono);
            let line = format!(in alloc;
                "event note {channel} {key} {velocity} {length} {mono}\n"
            )?;
            answer.push(line.as_str())
        }
        Event::Control {
            channel,
            control,
            value,
        } => {
            let line = format!(in alloc; "event control {channel} {control} {value}\n")?;
            answer.push(line.as_str())
        }
        Event::Bend { channel, lsb, msb } => {
            let line = format!(in alloc; "event bend {channel} {lsb} {msb}\n")?;
            answer.push(line.as_str())
        }
        Event::Udp { text } => answer.push_bytes("event udp", text.as_slice()),
        Event::Osc { path, values } => {
            let path = write_bytes(alloc, answer.form, &[path.byte()])?;
            let words = format!(in alloc; "event osc {path}")?;
            answer.push_bytes(words.as_str(), values.as_slice())
        }
    }
}
