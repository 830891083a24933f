//! The sound of a run: its notes as square waves, and the header of the file that holds them.
#![tactic(auto)]

pub mod limits;
mod pitch;
mod riff;
mod tone;
mod voice;
mod voices;

pub use riff::header;
pub use voice::Voice;
pub use voices::Voices;
