//! Event files: a group of members, writes that fail, and what happens to the members, line by line.
#![tactic(auto)]

mod command;
mod file;
mod first;
pub mod laws;
mod lines;
mod parts;

pub use command::Command;
pub use file::{EventFile, EventFileFault, read_event_file};
pub use first::{Failure, Group};
