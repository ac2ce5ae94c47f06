//! The descendants of a root that are elements of a name, sought by the name and not by going through the tree.

ghost use Rattle.std.specs.Prelude.{◌≡◌, ◌&&◌, ◌||◌, eqb, filter, IfOk, IfSome, IsSome};
ghost use Rattle.data_model.specs.Axes.{is_ancestor, is_descendant};
ghost use Rattle.data_model.specs.Trees.{find};
ghost use Rattle.shelves.specs.Shelf.{shelf_trees};
ghost use Rattle.query_meaning.specs.Paths.{looked_at, passes_at, tested_nodes};

use crate::listing::Listing;
use crate::node_tests::passes_at;
use query_grammar::NodeTest;
use shelves::Shelf;
use std::alloc::{AllocError, Global};
use trees::{Axis, NodeId};

/// A tree of so many nodes lets the search take one step. Where it would take more, going through the tree is as good, and this way of
/// seeking has cost little.
const NODES_A_STEP: u64 = 4;

/// Whether a node is another one or stands below it, as far as so many steps up tell; `None` where it takes more. It leaves those that it did not take.
fn is_at_or_below(shelf: &Shelf, root: NodeId, node: NodeId, steps: &mut u64) -> Option<bool>
    requires { IsSome (find node (shelf_trees shelf.now)) }
    ensures { IfSome result (λ is. is ≡ (eqb node root || is_ancestor (shelf_trees shelf.now) node root)) }
{
    shelf.facts();
    let mut at = node;
    while at != root {
        let Some(parent) = shelf.parent(at) else {
            return Some(false);
        };
        *steps = steps.checked_sub(1)?;
        at = parent;
    }
    Some(true)
}

/// Whether a node is a descendant of another (XQuery 1.0, section 3.2.1.1), as far as so many steps tell: one for each attribute of its parent, which
/// it might be, and one for each level up. `None` where it takes more.
fn is_descendant(shelf: &Shelf, root: NodeId, node: NodeId, steps: &mut u64) -> Option<bool>
    requires { IsSome (find node (shelf_trees shelf.now)) }
    ensures { IfSome result (λ is. is ≡ is_descendant (shelf_trees shelf.now) root node) }
{
    shelf.facts();
    let Some(parent) = shelf.parent(node) else {
        return Some(false);
    };
    let attributes = shelf.attributes(parent);
    *steps = steps.checked_sub(attributes.len() as u64)?;
    if attributes.contains(&node) {
        return Some(false);
    }
    is_at_or_below(shelf, root, parent, steps)
}

/// Whether a node passes a test and is a descendant of another, as far as so many steps tell.
fn is_wanted(
    shelf: &Shelf,
    test: &NodeTest,
    root: NodeId,
    node: NodeId,
    steps: &mut u64,
) -> Option<bool>
    ensures { IfSome result
        (λ is. is
        ≡ (passes_at Axis.Descendant test.now (find node (shelf_trees shelf.now)) && is_descendant (shelf_trees shelf.now) root node)) }
{
    if !passes_at(shelf, Axis::Descendant, test, node) {
        return Some(false);
    }
    is_descendant(shelf, root, node, steps)
}

/// Those of some nodes that pass a test and are descendants of another, in their order; `None` where that takes more than so many steps, of which
/// each of the nodes takes one or more. It fails where memory is refused.
fn wanted_among(
    alloc: Global,
    shelf: &Shelf,
    test: &NodeTest,
    root: NodeId,
    ids: &[NodeId],
    steps: u64,
) -> Result<Option<Vec<NodeId>>, AllocError>
    ensures { IfOk result
        (λ found. IfSome found
        (λ nodes. nodes.items
        ≡ filter
        (λ i. passes_at Axis.Descendant test.now (find i (shelf_trees shelf.now)) && is_descendant (shelf_trees shelf.now) root i)
        ids.now)) }
{
    let Some(mut left) = steps.checked_sub(ids.len() as u64) else {
        return Ok(None);
    };
    let mut wanted = Vec::new(alloc);
    for id in ids {
        let Some(is_wanted) = is_wanted(shelf, test, root, *id, &mut left) else {
            return Ok(None);
        };
        if is_wanted {
            wanted.push(*id)?;
        }
    }
    Ok(Some(wanted))
}

/// The descendants of a root that pass the test, where it is a name, in document order; `None` where the lent forest keeps no such elements or not the
/// size of the root's tree, or where it is better to go through that. Own nodes stand below no lent one. It fails where memory is refused.
pub(crate) fn named_descendants(
    alloc: Global,
    shelf: &Shelf,
    test: &NodeTest,
    root: NodeId,
) -> Result<Option<Listing>, AllocError>
    ensures nodes { IfOk result
        (λ found. IfSome found (λ l. l.nodes.items ≡ tested_nodes Axis.Descendant test.now root (shelf_trees shelf.now))) }
    ensures looked { IfOk result
        (λ found. IfSome found (λ l. l.looked_at ≡ looked_at Axis.Descendant root (shelf_trees shelf.now))) }
{
    let NodeTest::Name(name) = test else {
        return Ok(None);
    };
    let Some(size) = shelf.tree_size(root) else {
        return Ok(None);
    };
    let Some(ids) = shelf.elements_named(name.as_str()) else {
        return Ok(None);
    };
    shelf.facts();
    let Some(wanted) = wanted_among(alloc, shelf, test, root, ids, size / NODES_A_STEP)? else {
        return Ok(None);
    };
    let nodes = shelf.document_order(alloc, wanted)?;
    Ok(Some(Listing {
        nodes,
        looked_at: size,
    }))
}
