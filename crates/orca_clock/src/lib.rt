//! A performance by the clock of MIDI: it follows a clock that comes in, or gives one.
#![tactic(auto)]

mod ending;
mod follow;
mod frame;
mod laws;
mod lead;
mod sending;

pub use follow::Follow;
pub use laws::clock_law;
pub use lead::Lead;
