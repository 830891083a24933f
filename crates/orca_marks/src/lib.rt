//! Marks that clear cheaply: of the rows of a grid, clearing goes over those that were marked.
#![tactic(auto)]

mod plane;

pub use plane::MarkPlane;
