//! The clock of MIDI: a follower of a clock that another device gives, and a leader that gives one.
#![tactic(auto)]

mod counting;
mod follower;
mod leader;
pub mod limits;
pub mod real_time;

pub use follower::{Beat, Follower};
pub use leader::Leader;
