//! Laws of what level 1 of the language does to stores, in the words of those who wrote for it.
#![tactic(auto)]

pub mod laws;
