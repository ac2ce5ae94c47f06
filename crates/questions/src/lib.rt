//! What questions give: the texts of their items, or a code.
//!
//! Contracts speak of the definition of what expressions mean.
#![tactic(auto)]

mod answering;

pub use answering::answer;
