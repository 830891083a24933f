//! Why a text is no grid.

use orca_base::Memory;
use thiserror::Error;

/// Why a text is no grid. The first offending byte decides; where it offends twice, [`TooHigh`]
/// comes before [`BadByte`], and that before [`TooWide`].
///
/// [`TooHigh`]: GridRefusal::TooHigh
/// [`BadByte`]: GridRefusal::BadByte
/// [`TooWide`]: GridRefusal::TooWide
#[derive(Clone, Copy, Debug, PartialEq, Eq, Error)]
pub enum GridRefusal {
    /// A byte that is no glyph, no space, no line feed, and no carriage return that a line feed
    /// follows.
    #[error("bad byte at {offset}")]
    BadByte {
        /// The bytes before it.
        offset: u32,
    },
    /// No byte offends, and the text has no row or only empty ones.
    #[error("no cells")]
    NoCells,
    /// A row has more cells than a grid has columns.
    #[error("row {row} too wide")]
    TooWide {
        /// The row, counted from 1.
        row: u32,
    },
    /// A byte stands after the end of the last row that a grid may have.
    #[error("too many rows")]
    TooHigh,
    /// Memory was refused. The text is a grid.
    #[error("memory was refused")]
    Memory,
}

impl From<Memory> for GridRefusal {
    ghost use Rattle.std.specs.Prelude.{◌≡◌};
    ghost use Rattle.orca_grid.specs.declared.refusal.GridRefusal.TheVariants.{Memory as OutOfMemory};

    ghost from_gives = { λ _ e. e ≡ OutOfMemory };

    fn from(_: Memory) -> GridRefusal {
        GridRefusal::Memory
    }
}
