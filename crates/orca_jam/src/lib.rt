//! Several hands at one session: the keys and the editor of each, what belongs to the first of them, and whose
//! each entry of the history is.
#![tactic(auto)]

mod answers;
mod crew;
mod denial;
mod jam;
mod laws;
mod limits;
mod own;
mod owner;
mod player;
mod shared;

pub use answers::{JamFault, JamReply};
pub use crew::{Crew, LEADER};
pub use denial::{Denial, DenialLine};
pub use jam::Jam;
pub use laws::crew_law;
pub use owner::{NOBODY, Owner};
