//! Characters and names of the data model, and lists of document names.
#![tactic(auto)]

mod names;

pub use names::{Names, NamesFault};
