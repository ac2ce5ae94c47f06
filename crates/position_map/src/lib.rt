//! Values by position, with room made before they come.
#![tactic(auto)]

mod map;
mod slot;

pub use map::PositionMap;
