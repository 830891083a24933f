//! The outside of a run: the files that are loaded and saved, the ports that are sent to, and the
//! inbox where bytes come in. Each is a trait, here with a form in memory; the forms over the real
//! thing stand in orca_edge.
#![tactic(auto)]

mod fault;
mod files;
mod house;
mod inbox;
mod mem_answer;
mod mem_files;
mod mem_inbox;
mod mem_outs;
mod outs;
mod spoilt;

pub use fault::{Misses, OutsideFault};
pub use files::{Claim, Disk, Files};
pub use house::House;
pub use inbox::{Answer, Inbox};
pub use mem_answer::{MemAnswer, are_arrivals, is_in_order};
pub use mem_files::{MemFiles, names_differ};
pub use mem_inbox::MemInbox;
pub use mem_outs::MemOuts;
pub use outs::Outs;
pub use spoilt::{is_spoilt, keep_spoilt, put_name};
