//! What a picture lays over the grid.

ghost use Rattle.std.specs.Prelude.{◌≡◌, ◌==◌, ◌<◌, ◌≤◌, [], ◌∷◌, ◌++◌, length};
ghost use Rattle.std.specs.List.{list_any};
ghost use Rattle.orca_term.specs.Picture.{is_met};

use crate::Editor;
use crate::limits::MAX_CURSORS;
use orca_base::Place;
use std::marker::Model;

/// The places of the cursors of other hands. A contract sees the list of them.
#[derive(Debug, Drop)]
pub struct Cursors {
    places: [Place; MAX_CURSORS],
    len: usize,
}

impl Model for Cursors {
    ghost use Rattle.std.specs.Prelude.{◌≤◌, List, take};
    ghost use Rattle.orca_base.specs.declared.place.Place.{Place};
    ghost use Rattle.orca_term.specs.declared.limits.TheConstants.{MAX_CURSORS};

    ghost Value = { List Place };

    ghost view = { λ c. take c.len c.places };

    ghost invariant = { λ c. c.len ≤ MAX_CURSORS };
}

impl Cursors {
    /// None.
    pub fn none() -> Cursors
        ensures { result ≡ [] }
    {
        Cursors {
            places: [Place { y: 0, x: 0 }; MAX_CURSORS],
            len: 0,
        }
    }

    /// Adds a place at the end, where one more fits.
    pub fn push(&mut self, place: Place)
        requires { length self.old < MAX_CURSORS }
        ensures { self.new ≡ self.old ++ place ∷ [] }
    {
        self.places[self.len] = place;
        self.len += 1;
    }

    /// The places.
    fn as_slice(&self) -> &[Place]
        ensures { result.now ≡ self.now }
    {
        &self.places[..self.len]
    }

    /// Whether one of them lies in this row.
    pub(crate) fn meet_row(&self, y: u16) -> bool
        ensures { result ≡ list_any (λ other. y == other.y) self.now }
    {
        self.as_slice().iter().any(|other| y == other.y)
    }

    /// Whether one of them is this place.
    pub(crate) fn meet(&self, at: Place) -> bool
        ensures { result ≡ is_met self.now at }
    {
        self.as_slice()
            .iter()
            .any(|other| at.y == other.y && at.x == other.x)
    }
}

/// What the picture of a hand lays over the grid.
#[derive(Debug, Drop)]
pub struct Overlay {
    /// The editor of the hand.
    pub editor: Editor,
    /// The cursors of the other hands, as far as they are shown.
    pub others: Cursors,
}
