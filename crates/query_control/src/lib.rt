//! The forms of expressions that are about order alone, over a function that evaluates their parts.
//!
//! Contracts speak of the definition of what expressions mean: each form gives what its definition comes to by what its parts mean.
#![tactic(auto)]

mod chain;
mod flwor;
mod forms;
mod logic;
mod order;
mod quantified;
mod signs;

pub use chain::SetOperator;
pub use forms::{Forms, context_item, number, string, variable};
