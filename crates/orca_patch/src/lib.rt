//! Patches: what was before a change, kept so that it can be undone.
#![tactic(auto)]

mod laws;
mod patch;

pub use laws::inverse_law;
pub use patch::Patch;
