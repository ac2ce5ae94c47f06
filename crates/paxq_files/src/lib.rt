//! The scripts of the program `paxq`.
#![tactic(auto)]

mod line;
mod lines;
mod script;

pub use line::read_command;
pub use script::{Command, Script, ScriptFault, read_script};
