ghost use Rattle.std.specs.Prelude.{◌≡◌};
ghost use Rattle.ops_motion.specs.Ways.{source_on, beyond_on};

use orca_base::{Place, Spot};

/// The way that a chain of jumpers hands its glyph on.
#[derive(Clone, Copy)]
pub(crate) enum Way {
    /// From above to below.
    Down,
    /// From the left to the right.
    Right,
}

impl Way {
    /// The spot whose glyph is handed on by a chain that begins at a place.
    pub(crate) fn source(self, at: Place) -> Spot
        ensures { result ≡ source_on self at }
    {
        match self {
            Way::Down => at.above(),
            Way::Right => at.left(1),
        }
    }

    /// The spot that lies a number of places beyond a place.
    pub(crate) fn beyond(self, at: Place, places: u16) -> Spot
        ensures { result ≡ beyond_on self at places }
    {
        match self {
            Way::Down => at.down(places),
            Way::Right => at.right(places),
        }
    }
}
