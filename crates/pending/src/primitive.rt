//! Update primitives.

use trees::{NodeId, Tree};

/// One change to one node, the target (XQuery Update Facility 1.0, section 3.1.1).
///
/// New nodes are trees of their own, in the order in which they are to stand.
#[derive(Drop)]
pub enum Primitive {
    /// The trees are to stand right before the target.
    InsertBefore(NodeId, Vec<Tree>),
    /// The trees are to stand right after the target.
    InsertAfter(NodeId, Vec<Tree>),
    /// The trees are to be children of the target.
    InsertInto(NodeId, Vec<Tree>),
    /// The trees are to be the first children of the target.
    InsertIntoAsFirst(NodeId, Vec<Tree>),
    /// The trees are to be the last children of the target.
    InsertIntoAsLast(NodeId, Vec<Tree>),
    /// The trees are to be attributes of the target.
    InsertAttributes(NodeId, Vec<Tree>),
    /// The target is to go.
    Delete(NodeId),
    /// The trees are to stand in the target's place.
    ReplaceNode(NodeId, Vec<Tree>),
    /// The target's text is to be this one.
    ReplaceValue(NodeId, String),
    /// The target's children are to be these trees alone.
    ReplaceElementContent(NodeId, Vec<Tree>),
    /// The target's name is to be this one.
    Rename(NodeId, String),
}
