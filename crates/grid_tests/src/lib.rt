//! Tests of what no run can show of a grid and its boards. They need public calls alone, so they stand in
//! a crate of their own: the tests of a crate prove that crate once more.
#![tactic(auto)]

#[cfg(test)]
mod frames;
#[cfg(test)]
mod grids;
#[cfg(test)]
mod patches;
