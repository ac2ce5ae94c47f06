//! The printed text of an item, as a text of the grammar.
#![tactic(auto)]

pub mod laws;
