//! Updates of a forest by lists of primitives, in place (XQuery Update Facility 1.0, section 3.2.2): of a store, or of copies in it.
//!
//! An update is planned in a draft: stage by stage, then tidied, then judged. Only then the forest becomes what was planned, in one step that can't be
//! refused; an update of a store can be made so that it is taken back in another such step. What an update of a store costs follows what it touches, and
//! not how large the forest is; one of copies costs what making the copies did.
#![tactic(auto)]

mod copies;
mod emptying;
mod merging;
mod names;
mod places;
mod site;
mod sizes;
mod tidying;
mod undo;
mod update;
mod verdict;

pub use copies::apply_copies;
pub use undo::apply_undo;
pub use update::{ApplyFault, Unprepared, apply, prepare};
