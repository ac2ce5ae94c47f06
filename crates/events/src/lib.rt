//! What may happen to a group of members: deliveries, ticks, requests, stops (inside a write too) and starts.
#![tactic(auto)]

mod event;

pub use event::{Event, Step};
pub use member::Tick;
