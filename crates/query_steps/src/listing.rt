//! What a step gives.

use trees::NodeId;

/// What a step along an axis gives from a node.
#[derive(Drop)]
pub struct Listing {
    /// The nodes that pass its test, in document order.
    pub nodes: Vec<NodeId>,
    /// How many nodes it looked at, whichever of them pass: its work.
    pub looked_at: u64,
}
