//! A patch of all that a board lists since its last `begin`, other sizes among it. In a run each entry has
//! a patch of its own.

ghost use Rattle.std.specs.Prelude.{◌≡◌, ◌<◌, IfOk};
ghost use Rattle.orca_patch.specs.Patches.{CoversCut};

use orca_base::{Dims, Glyph, Memory, Place, Steps};
use orca_board::Board;
use orca_grid::Grid;
use orca_op::Bench;
use orca_patch::{Patch, inverse_law};
use std::alloc::Global;
use std::marker::Brand;
use std::process::Abort;
use std::sync::ledger::{Blank, Ledger};
use std::test::Fail;

/// Takes two sizes, writes before each and after them, the corner cut off in between, and gives the patch of
/// what that changed.
fn change<L: Ledger>(
    alloc: Global,
    board: &mut Board,
    steps: &mut Steps<L>,
) -> Result<Patch, Memory>
    ensures { IfOk result (λ patch. CoversCut patch board.new.scan.dims) }
{
    inverse_law();
    board.begin(steps);
    let dims = Bench::dims(board);
    for size in &[
        Dims { h: 1, w: 2 },
        Dims { h: 3, w: 3 },
        Dims { h: 3, w: 3 },
    ] {
        board.write(Place { y: 1, x: 2 }.here(), Glyph::BANG, steps);
        board.write(Place { y: 0, x: 0 }.here(), Glyph::BANG, steps);
        board.set_dims(*size, steps);
    }
    let _now = Bench::dims(board);
    let patch = Patch::of_changes(alloc, dims, 7, board.changes())?;
    Ok(patch)
}

/// Does that, and goes back by the patch.
fn go_back<L: Ledger>(
    rt: &impl Abort,
    alloc: Global,
    board: &mut Board,
    blank: Blank,
) -> Result<(), Memory>
    requires name { blank.name ≡ L.name }
    requires parts { blank.parts ≡ L.parts }
    requires some { 0 < blank.parts }
{
    let mut steps = Steps::<L>::start(blank);
    let patch = change(alloc, board, &mut steps)?;
    assert_eq!(rt; patch.size(), 5);
    assert_eq!(rt; patch.undo_on(board, &mut steps), 7);
    Ok(())
}

#[test]
fn a_patch_gives_back_what_was_before_two_sizes(rt: HostRuntime) -> Result<(), Fail> {
    let alloc = rt.alloc();
    let before = b"abc\ndef\n";
    let mut board = Board::start(alloc, &Grid::read(alloc, before)?)?;
    go_back::<Brand>(&rt, alloc, &mut board, Blank::new(1))?;
    let mut after = Vec::new(alloc);
    Grid::print(&board, &mut after)?;
    assert!(rt; after.as_slice() == before.as_slice());
    Ok(())
}
