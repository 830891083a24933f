//! A run as a song in a Standard MIDI File (Standard MIDI Files 1.0).
//!
//! The file has format 0, one track and a division of 4, so that one frame of a run is one unit of
//! delta time. A [`Track`] is written message by message, and [`read`] reads exactly what a track
//! writes, and no other spelling of the same song.
#![tactic(auto)]

mod delta;
mod fault;
mod front;
mod laws;
pub mod limits;
mod reading;
mod song;
mod timed;
mod track;

pub use fault::{SmfFault, SmfRefusal};
pub use laws::song_law;
pub use reading::read;
pub use song::Song;
pub use timed::Timed;
pub use track::Track;
