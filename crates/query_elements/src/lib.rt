//! Constructors of elements and documents (XQuery 1.0, sections 3.7.3.1 and 3.7.3.3), over a function that evaluates their parts.
//!
//! Contracts speak of the definition of what expressions mean.
#![tactic(auto)]

mod assembled;
mod elements;
mod judged;
mod whole;

pub use elements::Elements;
