//! What a group of members replicates, as each of them has it: a state to which values are applied, one after the other.
#![tactic(auto)]

mod application;

pub use application::Application;
