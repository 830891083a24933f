//! A rewind far back, and calls that no run makes. They need public calls alone, so they
//! stand in a crate of their own: the tests of a crate prove that crate once more.
#![tactic(auto)]

#[cfg(test)]
mod calls;
#[cfg(test)]
mod jams;
#[cfg(test)]
mod rewinds;
