//! The nodes below a node.

ghost use Rattle.std.specs.Prelude.{◌≡◌, ◌<◌, ◌^◌, ◌++◌, ◌∷◌, [], OnOk, IfOk, IsSome, filter, cond, false, true};
ghost use Rattle.data_model.specs.Changes.{pick};
ghost use Rattle.data_model.specs.Trees.{attributes_of, children_of, find, size};
ghost use Rattle.shelves.specs.Shelf.{shelf_trees};
ghost use Rattle.query_meaning.specs.Paths.{passes_at};
ghost use Rattle.query_steps.specs.Below.{counted_below, levels_below};

use crate::node_tests::passes;
use query_grammar::NodeTest;
use shelves::{Shelf, ShelfCursor};
use std::alloc::{AllocError, Global};
use trees::{Axis, NodeId};

/// The lists of nodes that stand below a node.
#[derive(Clone, Copy)]
struct Lists<'s> {
    attributes: &'s [NodeId],
    children: &'s [NodeId],
}

/// Adds a node, if it is listed and passes the test, and gives what stands below it, by one look-up.
fn add_node<'s>(
    cursor: &mut ShelfCursor<'s>,
    axis: Axis,
    test: &NodeTest,
    node: NodeId,
    is_listed: bool,
    nodes: &mut Vec<NodeId>,
) -> Result<Lists<'s>, AllocError>
    ensures nodes { OnOk result
        (nodes.new.items
        ≡ nodes.old.items ++ filter (λ i. passes_at axis test.now (find i cursor.old)) (cond is_listed (node ∷ []) [])) }
    ensures attributes { IfOk result (λ lists. lists.attributes.now ≡ attributes_of node cursor.old) }
    ensures children { IfOk result (λ lists. lists.children.now ≡ children_of node cursor.old) }
    ensures same { cursor.new ≡ cursor.old }
{
    let Some(view) = cursor.node(node) else {
        return Ok(Lists {
            attributes: &[],
            children: &[],
        });
    };
    if is_listed && passes(axis, test, view.kind, view.name) {
        nodes.push(node)?;
    }
    Ok(Lists {
        attributes: view.attributes,
        children: view.children,
    })
}

/// Adds those of a list of nodes and of what stands below them, down to so many levels, that pass the test: the nodes themselves only
/// if they are listed, and no attributes below them. It goes through attributes too, since something might stand below one, and gives how
/// many nodes it went through.
fn add_below(
    shelf: &Shelf,
    axis: Axis,
    test: &NodeTest,
    ids: &[NodeId],
    is_listed: bool,
    levels: u64,
    nodes: &mut Vec<NodeId>,
) -> Result<u64, AllocError>
    requires { counted_below levels (shelf_trees shelf.now) ids.now < 2 ^ 64 }
    ensures nodes { OnOk result
        (nodes.new.items
        ≡ nodes.old.items
        ++ filter (λ i. passes_at axis test.now (find i (shelf_trees shelf.now))) (levels_below levels (shelf_trees shelf.now) is_listed ids.now)) }
    ensures looked { IfOk result (λ n. n ≡ counted_below levels (shelf_trees shelf.now) ids.now) }
{
    if levels == 0 {
        return Ok(0);
    }
    let mut looked = ids.len() as u64;
    let mut cursor = shelf.cursor();
    for id in ids {
        let lists = add_node(&mut cursor, axis, test, *id, is_listed, nodes)?;
        if !lists.attributes.is_empty() {
            looked += add_below(
                shelf,
                axis,
                test,
                lists.attributes,
                false,
                levels - 1,
                nodes,
            )?;
        }
        if !lists.children.is_empty() {
            looked += add_below(shelf, axis, test, lists.children, true, levels - 1, nodes)?;
        }
    }
    Ok(looked)
}

/// Adds what stands below a node but attributes, as far as it passes the test, and gives how many nodes the tree of the node has, itself and
/// attributes counted. It fails where memory is refused; which nodes are listed then isn't said.
pub(crate) fn add_descendants(
    shelf: &Shelf,
    axis: Axis,
    test: &NodeTest,
    node: NodeId,
    nodes: &mut Vec<NodeId>,
) -> Result<u64, AllocError>
    requires { IsSome (find node (shelf_trees shelf.now)) }
    ensures nodes { OnOk result
        (nodes.new.items
        ≡ nodes.old.items
        ++ filter
        (λ i. passes_at axis test.now (find i (shelf_trees shelf.now)))
        (levels_below (size (shelf_trees shelf.now)) (shelf_trees shelf.now) false (attributes_of node (shelf_trees shelf.now))
        ++ levels_below (size (shelf_trees shelf.now)) (shelf_trees shelf.now) true (children_of node (shelf_trees shelf.now)))) }
    ensures looked { IfOk result (λ n. n ≡ size (pick node (shelf_trees shelf.now))) }
{
    shelf.facts();
    let levels = shelf.len();
    let attributes = shelf.attributes(node);
    let children = shelf.children(node);
    let in_attributes = add_below(shelf, axis, test, attributes, false, levels, nodes)?;
    let in_children = add_below(shelf, axis, test, children, true, levels, nodes)?;
    Ok(1 + in_attributes + in_children)
}
