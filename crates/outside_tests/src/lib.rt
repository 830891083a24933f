//! Tests of the outside, over the real thing, and of a desk, over one in memory. They need public calls alone,
//! so they stand in a crate of their own: the tests of a crate prove that crate once more. What the outside in
//! memory does is shown by the stored runs of `orca_cases`, and what files, pipes and addresses do by the built
//! program itself, after the proofs.
#![tactic(auto)]

#[cfg(test)]
mod claims;
#[cfg(test)]
mod files;
#[cfg(test)]
mod losses;
#[cfg(test)]
mod outs;
#[cfg(test)]
mod saves;
#[cfg(test)]
mod tcp;
#[cfg(test)]
mod whole;
