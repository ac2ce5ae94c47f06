//! Stores and update primitives as rows spell them, and a desk at which lists are built for a store.
#![tactic(auto)]

mod desk;
mod nodes;
mod opening;
mod primitives;
pub mod printed;
mod targets;

pub use desk::{Desk, Way};
pub use opening::{opened, take_next};
pub use primitives::{Brought, read_primitive};
pub use targets::read_target;
