//! What a frame takes where nothing works.

ghost use Rattle.std.specs.Prelude.{◌≡◌, ◌+◌, ◌<◌};
ghost use Rattle.orca_grid.specs.BlankGrid.{blank_sheet};
ghost use Rattle.orca_op.specs.Slate.{slate_of_sheet};

use orca_base::{Dims, Now, Steps};
use orca_board::Board;
use orca_frame::{frame, rest_law};
use orca_grid::Grid;
use std::marker::Brand;
use std::sync::ledger::{Blank, Ledger};
use std::test::Fail;

/// A frame of 256 rows of 256 dots: one step for each row, and one more. No step is kept when the
/// program runs, so this contract says how many there are.
fn play_dots<L: Ledger>(board: &mut Board, steps: &mut Steps<L>)
    requires { board.old ≡ slate_of_sheet (blank_sheet (record { h = 256; w = 256 })) }
    ensures same { board.new ≡ board.old }
    ensures steps { steps.new ≡ steps.old + 257 }
{
    rest_law();
    frame(board, Now { tick: 0, seed: 1 }, steps);
}

/// Plays that frame with a counter of its own.
fn count_dots<L: Ledger>(board: &mut Board, blank: Blank)
    requires name { blank.name ≡ L.name }
    requires parts { blank.parts ≡ L.parts }
    requires some { 0 < blank.parts }
    requires dots { board.old ≡ slate_of_sheet (blank_sheet (record { h = 256; w = 256 })) }
    ensures { board.new ≡ board.old }
{
    play_dots(board, &mut Steps::<L>::start(blank));
}

#[test]
fn frame_of_dots_takes_a_step_for_each_row(rt: HostRuntime) -> Result<(), Fail> {
    let alloc = rt.alloc();
    let grid = Grid::blank(alloc, Dims { h: 256, w: 256 })?;
    let mut board = Board::start(alloc, &grid)?;
    count_dots::<Brand>(&mut board, Blank::new(1));
    let mut before = Vec::new(alloc);
    let mut after = Vec::new(alloc);
    Grid::print(&grid, &mut before)?;
    Grid::print(&board, &mut after)?;
    assert!(rt; after.as_slice() == before.as_slice());
    assert_eq!(rt; board.changes().len(), 0);
    assert_eq!(rt; board.events().len(), 0);
    Ok(())
}
