//! A run of Orca, from the words of the command line to what is sent.
#![tactic(auto)]

mod concert;
mod ending;
mod follow;
mod lead;
mod live;
mod migration;
mod opening;
mod performing;
mod reading;
mod recording;
mod recovery;
mod replay;
mod room;
mod status;
mod top;

pub use ending::end;
pub use status::Status;
pub use top::run;
