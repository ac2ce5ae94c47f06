//! What an evaluation has come to, the environment that an expression is evaluated in, and sequences of items.
//!
//! Contracts see them as the run, the environment and the items of the definition of what expressions mean.
#![tactic(auto)]

mod atoms;
mod environment;
mod run;
mod sequence;
mod value;

pub use atoms::Atoms;
pub use environment::{Environment, KeptEnvironment, OneItem, Variables, is_same_name};
pub use run::Evaluation;
pub use sequence::{MOST_ITEMS, Sequence};
pub use value::{Value, value_of_part};
