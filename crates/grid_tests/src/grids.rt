//! A copy of a grid, and the texts of refusals, which no run asks for.

use orca_base::{Glyph, Look, Place};
use orca_grid::{Grid, GridRefusal};
use std::test::Fail;

#[test]
fn a_copy_stays_when_the_grid_is_changed(rt: HostRuntime) -> Result<(), Fail> {
    let mut grid = Grid::read(rt.alloc(), b"AB\nC")?;
    let copy = grid.copy()?;
    let dims = grid.dims();
    assert!(rt; dims.h == 2 && dims.w == 2);
    grid.set(Place { y: 1, x: 1 }, Glyph::BANG);
    let mut text = Vec::from_slice(rt.alloc(), b"> ")?;
    Grid::print(&copy, &mut text)?;
    Grid::print(&grid, &mut text)?;
    assert!(rt; text.as_slice() == b"> AB\nC.\nAB\nC*\n".as_slice());
    Ok(())
}

#[test]
fn refusals_are_shown(rt: HostRuntime) -> Result<(), Fail> {
    for (refusal, want) in &[
        (GridRefusal::BadByte { offset: 0 }, "bad byte at 0"),
        (
            GridRefusal::BadByte { offset: u32::MAX },
            "bad byte at 4294967295",
        ),
        (GridRefusal::NoCells, "no cells"),
        (GridRefusal::TooWide { row: 1 }, "row 1 too wide"),
        (GridRefusal::TooWide { row: 1_024 }, "row 1024 too wide"),
        (GridRefusal::TooHigh, "too many rows"),
        (GridRefusal::Memory, "memory was refused"),
    ] {
        let text = format!(in rt.alloc(); "{refusal}")?;
        assert!(rt; text.as_str() == *want, "{text} and not {want}");
    }
    Ok(())
}
