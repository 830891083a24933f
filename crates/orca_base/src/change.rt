use crate::{Glyph, Place};

/// A place that was written or cut off, and the glyph that it held before.
#[derive(Clone, Copy, Debug, Default, PartialEq, Eq)]
pub struct Change {
    /// The place.
    pub at: Place,
    /// Its glyph before.
    pub old: Glyph,
}
