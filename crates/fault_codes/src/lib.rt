//! The codes of the faults that a request or a question can end in, with their names and their numbers in messages.
#![tactic(auto)]

mod code;

pub use code::Code;
