//! Queries: the expression that a text's tokens are spelt as.
//!
//! What takes tokens fails with the code `Static(XPST0003)` where the next tokens are others, or none is left, and with `Memory` where
//! memory is refused. How many tokens are left after a failure isn't said.
#![tactic(auto)]

mod clauses;
mod constructors;
mod forms;
mod operators;
mod paths;
mod pending;
mod primaries;
mod query;
mod resuming;
mod rules;
mod updates;

pub use query::read_query;
