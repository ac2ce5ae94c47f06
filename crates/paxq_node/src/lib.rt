//! `paxq node CONFIG`: one node of a group, over a socket, with its records in a file or in memory.
#![tactic(auto)]

mod config;
mod run;
mod service;

pub use run::node_file;
pub use service::{End, open_in_database, serve_in_database, serve_over};
