//! What expressions mean: the definition, and laws of it. There is no code that evaluates here.
#![tactic(auto)]

pub mod laws;
