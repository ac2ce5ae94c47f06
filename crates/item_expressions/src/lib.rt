//! Expressions of what stands for an item, which are read once for many items and evaluated without an environment.
//!
//! Contracts speak of the definition of what expressions mean, in each environment where that stands for the item.
#![tactic(auto)]

mod condition;
mod each;
mod item_comparison;
mod item_function;
mod item_test;
mod subject;
mod variable_comparison;

pub use condition::Condition;
pub use each::{add_of_each, add_value, read_if};
pub use item_comparison::ItemComparison;
pub use item_function::ItemFunction;
pub use item_test::ItemTest;
pub use subject::Subject;
