//! The boards that a frame is worked on.
#![tactic(auto)]

mod blocks;
mod board;
mod field;
mod laws;
mod listing;
mod live_bits;
mod plain_board;

pub use board::Board;
pub use laws::listing_law;
pub use plain_board::PlainBoard;
