//! Laws of texts and their expressions, in the words of those who read expressions.
#![tactic(auto)]

pub mod laws;
