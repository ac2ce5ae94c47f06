//! Messages as bytes, one datagram a message: how each is spelt, and what bytes read as.
#![tactic(auto)]

mod bodies;
mod decoding;
mod encoding;
mod fault;
mod fields;
pub mod laws;
mod limits;
mod lists;

pub use decoding::{Packet, decode};
pub use encoding::encode;
pub use fault::WireFault;
