//! What a key is told.

use crate::ScreenSize;
use orca_base::{Dims, Glyph};

/// What a key is told of what stands around the editor.
#[derive(Clone, Copy, Debug, PartialEq, Eq)]
pub struct Around {
    /// The size of the grid.
    pub dims: Dims,
    /// How many entries the history has.
    pub moments: u32,
    /// The glyph at the cursor.
    pub glyph: Glyph,
    /// The size of the screen.
    pub screen: ScreenSize,
    /// The number of the last edit of the hand itself that can be taken back, for the key that takes it back.
    pub own: Option<u32>,
}
