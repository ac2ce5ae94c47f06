//! XDM trees: nodes in forests over one flat table. What a node is stands in the crate `data_model`, whose types are exported here too;
//! the table is the crate `node_table`.
//!
//! Contracts speak of nested trees alone (`Trees.antt` of `data_model`); nothing above this crate sees the table.
#![tactic(auto)]

mod draft;
mod forest;
mod making;
mod order;
mod undo;

pub use copied_rows::CopyLimits;
pub use data_model::{Axis, Content, Kind, NodeId, NodeView, Tree};
pub use draft::{Draft, Prepared};
pub use forest::{Forest, MakeFault};
pub use node_table::cursor::{NodeCursor, NodeName};
pub use node_table::plain::PlainValue;
pub use undo::Undo;
