//! A server's state, and the steps by which it goes on: a node, the place where it stands, what its steps sent and its wire was not given yet, the
//! requests that wait for replies, and the word to lead.
//!
//! What a step sends is held: no step gives the wire anything. A step may take what the wire brings, and waits for nothing.
#![tactic(auto)]

mod fault;
mod hold;
mod leading;
mod place;
mod requests;
mod seat;
mod sending;
mod state;
mod taking;
mod waiting;

pub use fault::ServeFault;
pub use state::State;
