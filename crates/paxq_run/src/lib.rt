//! What the program does with a script: it has the only member of a group take its requests, has a reader answer its questions, and prints.
//!
//! It stands apart from the program so that its proofs know nothing of a command line.
#![tactic(auto)]

mod file;
mod lone;
mod run;
mod turn;

pub use file::run_file;
pub use run::run_script;
