//! Script text: the lines that ask for commands, read and printed exactly.
//!
//! A line of the grammar is one of the forms of a table, or has no command. [`read_line`] reads a
//! line, [`print`] prints one, and [`Lines`] cuts a text into its lines.
//!
//! A script of format 2 has a first line with a seed, which [`read_header`] reads. [`read_line2`]
//! reads its other lines: those of format 1, and runs of frames. [`print2`] prints such a script.
#![tactic(auto)]

mod format_2;
mod forms;
mod limits;
mod lines;
mod printing;
mod read;
mod reader;
mod refusal;
mod runs;
mod values;

pub use format_2::{Line, read_header, read_line2};
pub use lines::Lines;
pub use printing::print;
pub use read::read_line;
pub use refusal::ScriptRefusal;
pub use runs::{Runs, print_header, print2};
