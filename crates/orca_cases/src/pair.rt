//! A live board with a plain board beside it. After each step the two have to be one.

ghost use Rattle.std.specs.Prelude.{◌≡◌, ◌<◌, ◌↔◌, IsTrue};
ghost use Rattle.orca_base.specs.Areas.{IsArea};

use crate::answer::{Answer, Form};
use crate::case::Case;
use crate::cells::Cells;
use crate::scans::{live_board, plain_board, read_grid, tell_frame};
use crate::step::Step;
use anyhow::{Result, bail, ensure};
use orca_base::{Area, Change, Dims, Event, Glyph, Look, Place, Steps};
use orca_board::{Board, PlainBoard};
use orca_frame::{frame, frame_plain};
use orca_grid::Grid;
use orca_op::{Bench, next_live};
use std::alloc::Global;
use std::marker::Brand;
use std::sync::ledger::{Blank, Ledger};

/// The two boards.
#[derive(Drop)]
struct Pair {
    live: Board,
    plain: PlainBoard,
    /// The grid of the last frame or load.
    began: Cells,
    /// Whether both boards were given the same calls since then. The plain board knows no edits of blocks: it
    /// is given the grid that they leave.
    alike: bool,
}

/// Adds the line of the answer.
pub(crate) fn tell(case: &Case, answer: &mut Answer) -> Result<()> {
    let grid = read_grid(answer.alloc, case)?;
    let mut pair = pair_of(answer.alloc, &grid)?;
    tell_steps(&mut pair, &case.steps, answer)
}

/// Both boards with this grid.
fn pair_of(alloc: Global, grid: &Grid) -> Result<Pair> {
    let plain = plain_board(alloc, grid)?;
    let began = Cells::of(alloc, &plain)?;
    Ok(Pair {
        live: live_board(alloc, grid)?,
        plain,
        began,
        alike: true,
    })
}

/// Does the steps, and adds the line of the answer.
fn tell_steps(pair: &mut Pair, list: &[Step], answer: &mut Answer) -> Result<()> {
    let alloc = answer.alloc;
    match work::<Brand>(alloc, pair, list, Blank::new(1))? {
        None => answer.push("one answer\n"),
        Some(n) => {
            let line = format!(in alloc; "two answers after step {n}\n")?;
            answer.push(line.as_str())
        }
    }
}

/// Does the steps, and gives the number of the first after which the boards differ, counted from 1.
fn work<L: Ledger>(
    alloc: Global,
    pair: &mut Pair,
    list: &[Step],
    blank: Blank,
) -> Result<Option<usize>>
    requires name { blank.name ≡ L.name }
    requires parts { blank.parts ≡ L.parts }
    requires some { 0 < blank.parts }
{
    let mut steps = Steps::<L>::start(blank);
    for (n, step) in list.iter().enumerate() {
        do_step(alloc, pair, step, &mut steps)?;
        if !agree(alloc, pair, &mut steps)? {
            return Ok(Some(n + 1));
        }
    }
    Ok(None)
}

/// Does a step on both boards.
fn do_step<L: Ledger>(
    alloc: Global,
    pair: &mut Pair,
    step: &Step,
    steps: &mut Steps<L>,
) -> Result<()> {
    match step {
        Step::Frame(now) => {
            pair.began = Cells::of(alloc, &pair.plain)?;
            frame(&mut pair.live, *now, steps);
            frame_plain(&mut pair.plain, *now, steps);
            pair.alike = true;
        }
        Step::Write(at, glyph) => {
            pair.live.write(at.here(), *glyph, steps);
            pair.plain.write(at.here(), *glyph, steps);
        }
        Step::Load(cells) => {
            pair.began = cells.copy(alloc)?;
            load_live(&mut pair.live, cells, steps)?;
            load_plain(&mut pair.plain, cells, steps)?;
            pair.alike = true;
        }
        _ => {
            let after = Cells::of(alloc, &pair.plain)?.after(alloc, step, &pair.began)?;
            edit(alloc, &mut pair.live, step, steps)?;
            load_plain(&mut pair.plain, &after, steps)?;
            pair.alike = false;
        }
    }
    Ok(())
}

/// Loads a grid into the live board.
fn load_live<L: Ledger>(board: &mut Board, cells: &Cells, steps: &mut Steps<L>) -> Result<()> {
    let glyphs = cells.glyphs.as_slice();
    ensure!(
        glyphs.len() == cells.dims.cells(),
        "a grid has another size"
    );
    board.load(cells.dims, glyphs, steps);
    Ok(())
}

/// Loads a grid into the plain board.
fn load_plain<L: Ledger>(
    board: &mut PlainBoard,
    cells: &Cells,
    steps: &mut Steps<L>,
) -> Result<()> {
    let glyphs = cells.glyphs.as_slice();
    ensure!(
        glyphs.len() == cells.dims.cells(),
        "a grid has another size"
    );
    board.load(cells.dims, glyphs, steps);
    Ok(())
}

/// Does an edit on the live board.
fn edit<L: Ledger>(
    alloc: Global,
    board: &mut Board,
    step: &Step,
    steps: &mut Steps<L>,
) -> Result<()> {
    let dims = Look::dims(board);
    match step {
        Step::Fill(area, glyph) => {
            ensure!(is_area(dims, *area), "an area lies outside");
            board.fill(*area, *glyph, steps);
        }
        Step::Put(to, cells) => {
            ensure!(to.y < dims.h && to.x < dims.w, "a place lies outside");
            board.put(*to, &cells.block(alloc)?, steps);
        }
        Step::Shift(area, to) => {
            ensure!(is_area(dims, *area), "an area lies outside");
            ensure!(to.y < dims.h && to.x < dims.w, "a place lies outside");
            board.shift(*area, *to, steps);
        }
        Step::Resize(to) => board.set_dims(*to, steps),
        Step::Revert => board.revert(steps),
        _ => bail!("this is no edit"),
    }
    Ok(())
}

/// Whether a block lies in a grid of this size, and isn't empty.
fn is_area(dims: Dims, area: Area) -> bool
    ensures { IsTrue result ↔ IsArea dims area }
{
    area.h >= 1
        && area.w >= 1
        && u32::from(area.y) + u32::from(area.h) <= u32::from(dims.h)
        && u32::from(area.x) + u32::from(area.w) <= u32::from(dims.w)
}

/// Whether both boards show the same, and the live board finds its operators.
fn agree<L: Ledger>(alloc: Global, pair: &Pair, steps: &mut Steps<L>) -> Result<bool> {
    let Pair { live, plain, .. } = pair;
    if !is_same_grid(alloc, live, plain)? || !finds_operators(live, steps) {
        return Ok(false);
    }
    if !pair.alike {
        return Ok(true);
    }
    let mut quick = Answer::new(alloc, Form::Hex);
    let mut slow = Answer::new(alloc, Form::Hex);
    tell_frame(live, live.events(), &mut quick, steps)?;
    tell_frame(plain, plain.events(), &mut slow, steps)?;
    Ok(quick.as_str() == slow.as_str() && live.changes() == plain.changes())
}

/// Whether two boards have one size and the same glyphs.
fn is_same_grid<A: Look, B: Look>(alloc: Global, a: &A, b: &B) -> Result<bool> {
    let a = Cells::of(alloc, a)?;
    let b = Cells::of(alloc, b)?;
    Ok(a.dims == b.dims && a.glyphs.as_slice() == b.glyphs.as_slice())
}

/// Whether the board finds exactly its operators.
fn finds_operators<L: Ledger>(board: &Board, steps: &mut Steps<L>) -> bool {
    let dims = Look::dims(board);
    for row in 0..dims.h {
        if !finds_row(board, row, steps) {
            return false;
        }
    }
    true
}

/// Whether the board finds exactly the operators of a row.
fn finds_row<L: Ledger>(board: &Board, row: u16, steps: &mut Steps<L>) -> bool {
    let dims = Look::dims(board);
    if row >= dims.h {
        return false;
    }
    let mut from = 0;
    for x in 0..dims.w {
        if board.glyph_at(Place { y: row, x }).is_operator() {
            if next_live(board, row, from, steps) != Some(x) {
                return false;
            }
            from = x + 1;
        }
    }
    next_live(board, row, from, steps).is_none()
}
