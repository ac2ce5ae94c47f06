//! Steps, filters and paths, over a function that evaluates their parts.
//!
//! Contracts speak of the definition of what expressions mean: each form gives what its definition comes to by what its parts mean.
#![tactic(auto)]

mod distinct;
mod filters;
mod found;
mod kept;
mod named_segments;
mod segments;
mod steps;

pub use filters::Paths;
