//! Laws of the levels of the language, in the words of those who wrote for the level before.
#![tactic(auto)]

pub mod laws;
