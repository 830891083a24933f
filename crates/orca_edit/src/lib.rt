//! Commands, and what they make of a grid.
//!
//! [`to_entry`] says what a command adds to a history and takes as the clip, or which rule refuses
//! it. [`copy`] takes the clip, [`put_in_clip`] puts a glyph into it, and [`apply`] does an entry
//! on a board. The laws say what holds of the piece that a history leaves. A session is a
//! [`Machine`] to those above it.
#![tactic(auto)]

mod applying;
mod areas;
mod copying;
mod entries;
mod laws;
mod machine;
mod rules;

pub use applying::apply;
pub use copying::{copy, put_in_clip};
pub use entries::{Edit, to_entry};
pub use laws::{
    first_law, fit_law, fold_law, moment_law, notes_law, price_law, sheet_law, touch_law,
};
pub use machine::Machine;
pub use rules::block_rule;
