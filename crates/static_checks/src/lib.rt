//! Static faults of queries: checks of tokens and of expressions, each over the whole (XQuery 1.0, section 2.3.1).
#![tactic(auto)]

mod brackets;
mod categories;
mod functions;
mod judging;
mod names;
mod parts;
mod variables;
mod walk;

pub use brackets::nests_too_deep;
pub use categories::Category;
pub use functions::has_unknown_call;
pub use judging::{category, category_fault};
pub use variables::{binds_a_name_twice, has_unbound};
pub use walk::has_fault;
