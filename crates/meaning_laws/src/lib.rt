//! Laws of what expressions mean, in the words of those who write them.
#![tactic(auto)]

pub mod laws;
