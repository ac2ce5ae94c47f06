//! How far a list that only grows was seen. The entries are in the proofs alone: threads share the list's length, and each sight is a length.
#![tactic(auto)]

mod book;

pub use book::{Naming, Opened, Roll, Sight};
