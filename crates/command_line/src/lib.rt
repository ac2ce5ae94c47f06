//! What the words of the command line of `paxq` ask for.
#![tactic(auto)]

mod words;

pub use words::{Form, WordsFault, read_words};
