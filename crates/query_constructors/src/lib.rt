//! Computed constructors (XQuery 1.0, section 3.7.3), over a function that evaluates their parts.
//!
//! Contracts speak of the definition of what expressions mean.
#![tactic(auto)]

mod leaves;
mod names;
mod roots;

pub use leaves::{Constructors, check_comment, instruction_text};
pub use names::named_by_values;
pub use roots::rooted;
