//! Where the commands of a run come from.
//!
//! A [`Source`] gives cues, one by one: a command, the line that it stands on, and how often it is
//! done. [`Frames`] is one cue, [`Script`] reads the lines of a script of either format, and
//! [`Turns`] is what the generator of `make` does with the grid of a [`Maker`].
#![tactic(auto)]

mod fault;
mod frames;
mod laws;
mod maker;
mod printing;
mod rooms;
mod script;
mod source;
mod turns;

pub use fault::ScriptFault;
pub use frames::Frames;
pub use laws::{room_laws, script_laws};
pub use maker::Maker;
pub use printing::print_script;
pub use rooms::{Room, room_parts, whole_lines};
pub use script::{Script, check_any_script, check_script, check_script2, script_seed};
pub use source::{Cue, Order, Source};
pub use turns::Turns;
