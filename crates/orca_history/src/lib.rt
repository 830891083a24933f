//! The history of a session: what was done, what was cut off of it and can be done again, and the
//! patches by which the newest of it is undone.
#![tactic(auto)]

mod entries;
mod history;
mod laws;
mod ring;

pub use history::History;
pub use laws::patch_laws;
