//! What the program does with an event file: it runs a group of members in memory through what the file says, and prints what they were
//! told and how far each of them is.
//!
//! It stands apart from the program so that its proofs know nothing of a command line.
#![tactic(auto)]

mod file;
mod numbers;
mod places;
mod report;
mod run;
mod simulation;
mod stores;

pub use file::sim_file;
pub use run::{play, run_events, simulate};
pub use stores::stores_of;
