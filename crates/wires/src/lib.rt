//! Datagrams on their way: what a program sends from its ends, and what comes to them.
//!
//! A wire has ends, numbered from 0, each with an address. Datagrams may be lost, repeated or overtaken, but for those that an end sends to
//! itself. `UdpWire` has a socket for each end, `ScriptedWire` is in memory and fails where it is told to.
#![tactic(auto)]

mod kept;
mod scripted;
mod udp;
mod wire;

pub use scripted::{Calls, ScriptedWire};
pub use udp::{UdpWire, end_towards, loopback, resolve};
pub use wire::{Arrival, Lost, Unheard, Wire};
