//! Updating expressions (XQuery Update Facility 1.0, section 2.4), over a function that evaluates their parts.
//!
//! Contracts speak of the definition of what expressions mean: each form adds the primitives that its definition adds, by what its parts
//! mean, and gives no items.
#![tactic(auto)]

mod deletions;
mod insertions;
mod renamings;
mod replacements;
mod targets;
mod updates;

pub use updates::Updates;
