//! Pending update lists: the primitives that an updating expression asks for, and which of them may stand in one list.
//!
//! The rules are those of the XQuery Update Facility 1.0, section 3. Contracts speak of a list of primitives alone.
#![tactic(auto)]

pub mod laws;
mod list;
mod primitive;
mod targets;

pub use list::{CheckFault, ListFault, MOST_PRIMITIVES, PendingList};
pub use primitive::Primitive;
