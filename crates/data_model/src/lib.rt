//! XDM nodes: identities, kinds, names and texts; trees of nodes, their axes and their document order.
//!
//! Contracts speak of nested trees (`specs/Trees.antt`). The forests that nodes stand in are the crate `trees`.
#![tactic(auto)]

mod axis;
pub mod limits;
mod node;
mod tree;

pub use axis::Axis;
pub use node::{Content, Kind, NodeId, NodeView, Part};
pub use tree::{Tree, are_within_levels, node_count, renumber};
