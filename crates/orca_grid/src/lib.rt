//! The grid of Orca, and its text: a grid is its size and its glyphs in reading order.
#![tactic(auto)]

mod grid;
mod print;
mod read;
mod refusal;

pub use grid::Grid;
pub use refusal::GridRefusal;
