//! The nodes of an axis step, how many it looks at, and operators between sets of nodes.
//!
//! Contracts speak of the definition of what expressions mean, and of the trees of a run.
#![tactic(auto)]

mod axes;
mod below;
mod identities;
mod listing;
mod named;
mod named_children;
mod node_tests;
mod sets;
mod siblings;

pub use axes::nodes_of_step;
pub use identities::{Identities, set_of};
pub use listing::Listing;
pub use named_children::{ListedChildren, NamedChildren, children_named};
pub use sets::{all_nodes, except, intersect, union};
