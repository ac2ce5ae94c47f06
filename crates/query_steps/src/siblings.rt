//! The children of a node's parent, before the node and after it.

ghost use Rattle.std.specs.Prelude.{◌≡◌, ◌<◌, length, slice_index_or, IfSome, IfNone, IsSome};
ghost use Rattle.data_model.specs.Trees.{find};
ghost use Rattle.data_model.specs.Walks.{held};
ghost use Rattle.data_model.specs.Axes.{on_axis};
ghost use Rattle.data_model.specs.declared.axis.Axis.TheVariants.{FollowingSibling, PrecedingSibling};
ghost use Rattle.shelves.specs.Shelf.{shelf_trees};

use shelves::Shelf;
use trees::NodeId;

/// Where a node stands in a list, sought from its beginning.
fn place_from_start(nodes: &[NodeId], node: NodeId) -> Option<usize>
    ensures within { IfSome result (λ at. at < length nodes.now) }
    ensures some { IfSome result (λ at. node ≡ slice_index_or nodes.now at node) }
    ensures none { IfNone result (held node nodes.now ≡ 0) }
{
    for at in 0..nodes.len() {
        if nodes[at] == node {
            return Some(at);
        }
    }
    None
}

/// Where a node stands in a list, sought from its end.
fn place_from_end(nodes: &[NodeId], node: NodeId) -> Option<usize>
    ensures within { IfSome result (λ at. at < length nodes.now) }
    ensures some { IfSome result (λ at. node ≡ slice_index_or nodes.now at node) }
    ensures none { IfNone result (held node nodes.now ≡ 0) }
{
    let mut at = nodes.len();
    while at > 0 {
        at -= 1;
        if nodes[at] == node {
            return Some(at);
        }
    }
    None
}

/// The children of a node's parent that come after it; none where it is an attribute.
pub(crate) fn following<'s>(shelf: &'s Shelf, node: NodeId) -> &'s [NodeId]
    requires { IsSome (find node (shelf_trees shelf.now)) }
    ensures { result.now ≡ on_axis FollowingSibling (shelf_trees shelf.now) node }
{
    shelf.facts();
    let Some(parent) = shelf.parent(node) else {
        return &[];
    };
    let children = shelf.children(parent);
    match place_from_end(children, node) {
        Some(at) => &children[at + 1..],
        None => &[],
    }
}

/// The children of a node's parent that come before it; none where it is an attribute.
pub(crate) fn preceding<'s>(shelf: &'s Shelf, node: NodeId) -> &'s [NodeId]
    requires { IsSome (find node (shelf_trees shelf.now)) }
    ensures { result.now ≡ on_axis PrecedingSibling (shelf_trees shelf.now) node }
{
    shelf.facts();
    let Some(parent) = shelf.parent(node) else {
        return &[];
    };
    let children = shelf.children(parent);
    match place_from_start(children, node) {
        Some(at) => &children[..at],
        None => &[],
    }
}
