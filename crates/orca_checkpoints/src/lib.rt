//! The checkpoints of a session: the grid and the tick of some moments of its history, by which it
//! goes back farther than its patches reach.
#![tactic(auto)]

mod checkpoints;
mod laws;
mod slot;

pub use checkpoints::Checkpoints;
pub use laws::checkpoint_law;
pub use slot::Checkpoint;
