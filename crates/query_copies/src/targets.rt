//! Targets of primitives that change copies (XQuery Update Facility 1.0, section 2.4.5).

ghost use Rattle.std.specs.Prelude.{◌≡◌, ◌<◌, nat_lt, map, IsSome};
ghost use Rattle.data_model.specs.Trees.{count, find};
ghost use Rattle.data_model.specs.Walks.{root_of};
ghost use Rattle.pending.specs.Primitives.{primitive_term};
ghost use Rattle.shelves.specs.Shelf.{shelf_trees};
ghost use Rattle.update_meaning.specs.Changed.{chosen, rooted_at};
ghost use Rattle.update_meaning.specs.Effects.{target_of};
ghost use Rattle.query_meaning.specs.Copies.{target_these};

use crate::roots::CopyRoots;
use pending::Primitive;
use shelves::Shelf;
use trees::NodeId;

/// Whether each primitive's target is a node of the copies with these roots. For each the way up to its root is gone, and no tree is searched.
pub(crate) fn are_in_copies(shelf: &Shelf, roots: &CopyRoots, primitives: &[Primitive]) -> bool
    ensures { result
        ≡ target_these (chosen (rooted_at roots.now) shelf.now.own.trees) (map primitive_term primitives.now) }
{
    for primitive in primitives {
        if !is_in_copies(shelf, roots, target_of(primitive)) {
            return false;
        }
    }
    true
}

/// Whether a node stands in one of the copies.
fn is_in_copies(shelf: &Shelf, roots: &CopyRoots, node: NodeId) -> bool
    ensures { result ≡ nat_lt 0 (count node (chosen (rooted_at roots.now) shelf.now.own.trees)) }
{
    shelf.facts();
    shelf.is_own(node) && roots.has(root_of(shelf, node))
}

/// The root of the tree in which a node stands.
fn root_of(shelf: &Shelf, node: NodeId) -> NodeId
    requires { IsSome (find node (shelf_trees shelf.now)) }
    ensures { result ≡ root_of node (shelf_trees shelf.now) }
{
    shelf.facts();
    let mut root = node;
    while let Some(parent) = shelf.parent(root) {
        root = parent;
    }
    root
}

/// The target of a primitive.
fn target_of(primitive: &Primitive) -> NodeId
    ensures { result ≡ target_of (primitive_term primitive.now) }
{
    match primitive {
        Primitive::InsertBefore(target, _)
        | Primitive::InsertAfter(target, _)
        | Primitive::InsertInto(target, _)
        | Primitive::InsertIntoAsFirst(target, _)
        | Primitive::InsertIntoAsLast(target, _)
        | Primitive::InsertAttributes(target, _)
        | Primitive::Delete(target)
        | Primitive::ReplaceNode(target, _)
        | Primitive::ReplaceValue(target, _)
        | Primitive::ReplaceElementContent(target, _)
        | Primitive::Rename(target, _) => *target,
    }
}
