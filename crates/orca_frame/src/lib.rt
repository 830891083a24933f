//! The frame, in two forms. [`frame_plain`] visits every place of the grid in reading order, and
//! [`frame`] goes from one operator to the next. Both leave what the scan of every place leaves.
#![tactic(auto)]

mod act;
mod covering;
mod laws;
mod plain;
mod skipping;
mod sparse;
mod visit;

pub use covering::covering_law;
pub use laws::table_laws;
pub use plain::frame_plain;
pub use skipping::{rest_law, skipping_law};
pub use sparse::frame;
