//! How a run does its commands: one function does one command and is the only one that asks a
//! session to act, and one loop does a list of them. What is printed, kept and saved of them is a
//! report's.
#![tactic(auto)]

mod concert;
mod halt;
mod news;
mod report;
mod sending;
mod stage;

pub use concert::{Closes, close, close_early, play};
pub use news::News;
pub use report::Report;
pub use sending::{print_messages, say, send_messages};
pub use stage::Stage;
