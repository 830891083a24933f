//! What `recover` reads in a room beside its grid: the limit of the history, and the script up to its
//! first wrong line.
#![tactic(auto)]

mod limit;
mod printing;
mod sound;

pub use limit::{lines_before, room_limit};
pub use printing::print_sound;
pub use sound::SoundScript;
