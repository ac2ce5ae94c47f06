//! What a client of a group sends, and what it hears.
//!
//! A client sends a datagram to a member and takes what comes back for that client and number; each may be lost, so it sends again.
#![tactic(auto)]

mod hearing;
mod sending;

pub use hearing::{Heard, hear};
pub use sending::{question, request};
