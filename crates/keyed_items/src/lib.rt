//! Tuples of a FLWOR expression with `order by`, where its keys are functions of an item (XQuery 1.0, section 3.8.3).
//!
//! Contracts speak of the definition of what expressions mean.
#![tactic(auto)]

mod keeping;
mod keys;

pub use keeping::keep_of_each;
pub use keys::{are_of, key_functions};
