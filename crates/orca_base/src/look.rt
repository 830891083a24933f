ghost use Rattle.std.specs.Prelude.{◌≡◌, List, slice_index_or};
ghost use Rattle.orca_base.specs.Grids.{Sheet, IsSheet, IsInside, glyph_at as glyph_of, index_of};
ghost use Rattle.orca_base.specs.MarkSet.{MarkSet, no_marks};

use crate::{Dims, Glyph, Marks, Place};

/// A grid that can be looked at. It counts no steps, and no operator can reach it.
pub trait Look {
    /// The size and the glyphs.
    ghost sheet: { Self → Sheet };

    /// The marks of the places, in reading order. A place beyond the list has none.
    ghost marks: { Self → List MarkSet };

    /// The size.
    fn dims(&self) -> Dims
        ensures size { result ≡ (sheet self.now).dims }
        ensures whole { IsSheet (sheet self.now) };

    /// The glyph of a place in the grid.
    fn glyph_at(&self, at: Place) -> Glyph
        requires { IsInside (sheet self.now).dims at }
        ensures { result ≡ glyph_of (sheet self.now) at };

    /// The marks of a place in the grid.
    fn marks_at(&self, at: Place) -> Marks
        requires { IsInside (sheet self.now).dims at }
        ensures { result ≡ slice_index_or (marks self.now) (index_of (sheet self.now).dims at)
            no_marks };
}
