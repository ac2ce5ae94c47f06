//! The walk over the clauses of a FLWOR expression, whatever is done at each tuple.
//!
//! Contracts speak of the definition of what expressions mean.
#![tactic(auto)]

mod bound;
mod walk;

pub use bound::and_item;
pub use walk::{AtTuple, Walk};
