//! The evaluator: what an expression gives over a forest (XQuery 1.0; XQuery Update Facility 1.0, section 2).
//!
//! Each form is evaluated by a crate below, over a function that evaluates its parts. `value_of` is that function, and the recursion
//! stands in it alone.
#![tactic(auto)]

mod outcome;
mod value;

pub use outcome::{Outcome, evaluate};
pub use value::value_of;
