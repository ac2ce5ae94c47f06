//! Copies of trees, from row to row of the flat table.
//!
//! Contracts speak of tables (`specs/Flat.antt` of `node_table`) and of nested trees.
#![tactic(auto)]

mod copies;
mod copying;
mod grown;

pub use copies::{copy_all, remove_range};
pub use copying::Copying;
pub use grown::{CopyLimits, Grown, NewNode, grow};
