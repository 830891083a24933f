//! The bytes of the messages of a command, and the lines that are printed of them.
#![tactic(auto)]

mod lines;
mod message_bytes;

pub use lines::{Label, push_decimal, write_line};
pub use message_bytes::wire;
