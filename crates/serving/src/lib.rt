//! A node that serves over a wire: what comes to it is taken, what its steps send is given to the wire, and it ticks by the wire's while.
//!
//! It goes by rounds. In one it takes what waits, its node's records are then written in one, and only after that is given to the wire what the
//! steps sent: so several requests share a write, and nothing is sent before the record that it rests on is acknowledged. Nothing here waits but
//! by the wire, and a round waits for no more than its first datagram.
#![tactic(auto)]

mod rounds;
mod server;

pub use server::{MOST_BYTES, Server};
pub use server_steps::ServeFault;
