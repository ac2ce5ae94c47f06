//! All members of a group in one program, and every interleaving of what may happen to them: a world as the laws of Paxos have it.
#![tactic(auto)]

mod event;
mod fault;
mod happen;
mod mail;
mod memory;
mod running;
mod seat;
mod state;
mod straight;
mod told;
mod world;

pub use events::{Event, Step, Tick};
pub use fault::WorldFault;
pub use told::Told;
pub use world::World;
