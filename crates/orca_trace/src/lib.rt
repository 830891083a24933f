//! The calls that were made on the outside, as clauses see them.
//!
//! A [`Trace`] has no bytes, and noting a call takes no time when the program runs. It is the one
//! type whose proofs are written by hand, since the list of its calls stands in no field that code
//! could read or change.
#![tactic(auto)]

mod kind;
mod trace;

pub use kind::Kind;
pub use trace::Trace;
