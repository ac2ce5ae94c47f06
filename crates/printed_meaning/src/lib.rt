//! The meaning of the printed text of a tree.
#![tactic(auto)]

pub mod laws;
