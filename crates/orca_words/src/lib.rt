//! The words of the command line, read into what they ask for.
//!
//! The first word picks a form from a table, and a simple `clap` command of that form reads the
//! words after it.
#![tactic(auto)]

mod command;
mod fault;
mod forms;
mod laws;
pub mod limits;
mod read;
mod request;
mod values;

pub use fault::WordsFault;
pub use laws::{own_journal_law, plain_words_law};
pub use read::read_words;
pub use request::{
    Leading, Migration, Performance, Recording, Recovery, Request, Setup, Work, Workload,
};
