//! Tuples of a FLWOR expression with their keys, and their stable sort by these.
#![tactic(auto)]

mod abbreviations;
mod place;
mod tuples;

pub use place::{Binding, Place, Placed};
pub use tuples::{Keys, Tuple, Tuples, key_of};
