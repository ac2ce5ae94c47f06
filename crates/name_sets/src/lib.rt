//! Sets of names.
#![tactic(auto)]

mod set;

pub use set::NameSet;
