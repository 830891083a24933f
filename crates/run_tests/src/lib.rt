//! Whole runs that are refused memory, and calls that no run makes. They need public calls alone, so they
//! stand in a crate of their own: the tests of a crate prove that crate once more.
#![tactic(auto)]

#[cfg(test)]
mod closes;
#[cfg(test)]
mod laws;
#[cfg(test)]
mod players;
#[cfg(test)]
mod songs;
