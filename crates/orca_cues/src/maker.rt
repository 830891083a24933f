//! The generator of `make`.

ghost use Rattle.std.specs.Prelude.{◌≡◌, IfOk};
ghost use Rattle.orca_cues.specs.Made.{generator_of, made_glyph, made_sheet};

use orca_base::{Dims, Glyph, Memory};
use orca_grid::Grid;
use rand_core::utils::NextWord;
use rand_pcg::Pcg32;
use std::alloc::Global;

/// How many of 100 words give an empty cell.
const EMPTY_PERCENT: u32 = 70;

/// The other glyphs: the operators and the digits.
static PALETTE: [u8; 70] =
    *b"0123456789ABCDEFGHIJKLMNOPQRSTUVWXYZabcdefghijklmnopqrstuvwxyz*#:%!?;=";

/// Makes a large grid and what is done with it, from a seed and a size. The same seed and size make
/// the same.
///
/// Its words are those of PCG (XSH RR 64/32) that starts at the seed, on stream 0. They are taken
/// in order, each once: first those of the grid, in reading order, then three for each write.
#[derive(Clone, Copy, Debug, PartialEq, Eq)]
pub struct Maker {
    /// The seed.
    pub seed: u32,
    /// The size of the grid.
    pub dims: Dims,
}

impl Maker {
    /// The maker of a seed and a size.
    pub fn start(seed: u32, dims: Dims) -> Maker
        ensures { result ≡ record { seed = seed; dims = dims } }
    {
        Maker { seed, dims }
    }

    /// The grid. Of 100 words 70 give `.`, and the others a digit, a letter or a sign.
    pub fn grid(&self, alloc: Global) -> Result<Grid, Memory>
        ensures { IfOk result (λ grid. grid ≡ made_sheet self.now.seed self.now.dims) }
    {
        let mut grid = Grid::blank(alloc, self.dims)?;
        let mut words = generator(self.seed);
        for index in 0..self.dims.cells() {
            grid.set(self.dims.place(index), glyph_of(words.next_word()));
        }
        Ok(grid)
    }
}

/// The generator of a seed, before its first word.
pub(crate) fn generator(seed: u32) -> Pcg32
    ensures { result ≡ generator_of seed }
{
    Pcg32::new(u64::from(seed), 0)
}

/// The glyph of a word.
#[tactic(auto, unfolding(crate::specs::Made::made_glyph))]
pub(crate) fn glyph_of(word: u32) -> Glyph
    ensures { result ≡ made_glyph word }
{
    if word % 100 < EMPTY_PERCENT {
        return Glyph::EMPTY;
    }
    let byte = PALETTE[(word / 100) as usize % PALETTE.len()];
    Glyph::of(byte).unwrap()
}
