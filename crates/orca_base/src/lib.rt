//! The plain types that every crate of Orca speaks of: glyphs, sizes, places, marks, events, the
//! inline lists of bytes and the counter of steps.
#![tactic(auto)]

mod area;
mod block;
mod change;
mod command;
mod decimal;
mod dims;
mod errors;
mod event;
mod glyph;
mod inline;
mod laws;
pub mod limits;
mod look;
mod marks;
mod message;
mod note;
mod now;
mod place;
mod port;
mod steps;

pub use area::{Area, Rect};
pub use block::Block;
pub use change::Change;
pub use command::{Command, Entry, Fault, Reply, Rule};
pub use decimal::number;
pub use dims::Dims;
pub use errors::Memory;
pub use event::Event;
pub use glyph::Glyph;
pub use inline::{Inline, Short, Wire};
pub use laws::midi_law;
pub use look::Look;
pub use marks::{Mark, Marks};
pub use message::Message;
pub use note::Note;
pub use now::Now;
pub use place::{Place, Spot};
pub use port::Port;
pub use steps::Steps;
