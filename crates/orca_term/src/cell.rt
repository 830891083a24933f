//! Screens and their cells.

/// The size of a screen.
#[derive(Clone, Copy, Debug, PartialEq, Eq)]
pub struct ScreenSize {
    /// The number of rows.
    pub rows: u16,
    /// The number of columns.
    pub columns: u16,
}

/// A cell of a screen.
#[derive(Clone, Copy, Debug, Eq)]
pub struct Cell {
    /// The byte that it shows.
    pub byte: u8,
    /// Its style, the number of a graphic rendition of ECMA-48; 0 is none.
    pub style: u8,
}

impl PartialEq for Cell {
    ghost use Rattle.std.specs.Prelude.{◌==◌, ◌&&◌};
    ghost use Rattle.std.proofs.Common.{rules};
    ghost use Rattle.std.specs.Cmp.Rules.{comparing};

    ghost eq = { λ a b. a.byte == b.byte && a.style == b.style };

    ghost laws = { Prim.search (comparing, rules) };

    #[tactic(auto, using(crate::proofs::CellCodes::same_code))]
    fn eq(&self, other: &Cell) -> bool {
        self.code() == other.code()
    }
}

impl Cell {
    ghost use Rattle.std.specs.Prelude.{◌≡◌, ◌+◌, ◌*◌, ◌<◌};

    /// The byte and the style as one number. Cells are compared by it, without a branch between the two,
    /// so that the comparison of two rows takes many cells at once.
    fn code(self) -> u16
        ensures code { result ≡ self.style * 256 + self.byte }
        ensures range { self.byte < 256 }
    {
        u16::from(self.style) * 256 + u16::from(self.byte)
    }
}
