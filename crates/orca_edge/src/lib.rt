//! The outside over the real thing: the files, the ports and the connections of the system, behind
//! the traits of orca_rig.
#![tactic(auto)]

mod claim;
mod connection;
mod device;
mod fresh;
mod hands;
mod http;
mod journal;
mod moments;
mod owed;
mod real_files;
mod real_inbox;
mod real_outs;
pub mod room;
mod saving;
mod sinks;
mod start;
pub mod whole;

pub use real_files::RealFiles;
pub use real_inbox::RealInbox;
pub use real_outs::RealOuts;
pub use start::{open_closed_streams, words_after_name};
