//! A script's lines, asked of members over a wire: of a whole group in this program, or of one node elsewhere.
//!
//! The wire is the caller's, so that it may be sockets or in memory.
#![tactic(auto)]

mod answers;
mod asked;
mod client;
mod group;
mod heard;
mod local;
mod send;

pub use local::run_local;
pub use send::send_line;
