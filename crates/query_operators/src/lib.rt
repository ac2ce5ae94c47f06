//! Operators between values: arithmetic, comparisons and ranges.
//!
//! Contracts speak of the definition of what expressions mean.
#![tactic(auto)]

mod nodes;
mod operators;
mod ranges;

pub use nodes::{follows, is_same, precedes};
pub use operators::{boolean, calculated, compared_by_pairs, compared_by_value};
pub use ranges::ranged;
