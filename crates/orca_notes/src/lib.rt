//! Sustained notes: every note that starts ends, and only once.
#![tactic(auto)]

mod ending;
mod laws;
mod messages;
mod notes;

pub use laws::{device_laws, message_laws};
pub use messages::Messages;
pub use notes::Notes;
