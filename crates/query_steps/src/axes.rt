//! The axes of a step (XQuery 1.0, section 3.2.1.1).

ghost use Rattle.std.specs.Prelude.{◌≡◌, ◌++◌, IfOk, IsSome};
ghost use Rattle.data_model.specs.Trees.{find};
ghost use Rattle.shelves.specs.Shelf.{shelf_trees};
ghost use Rattle.query_meaning.specs.Paths.{looked_at, tested_nodes};
ghost use Rattle.query_meaning.specs.Running.{trees_of};

use crate::below::add_descendants;
use crate::listing::Listing;
use crate::named::named_descendants;
use crate::node_tests::{add_passing, passing};
use crate::siblings::{following, preceding};
use evaluation::Evaluation;
use query_grammar::NodeTest;
use shelves::Shelf;
use std::alloc::{AllocError, Global};
use trees::{Axis, NodeId};

/// The nodes on an axis from a node that pass the test, in document order (XQuery 1.0, section 3.2.1), and how many nodes were looked at,
/// whichever of them pass: those on the axis, and where descendants are wanted all of the tree of the node, itself and attributes counted (our
/// own measure). No others are looked at. It fails where memory is refused.
pub fn nodes_of_step(
    run: &Evaluation,
    axis: Axis,
    test: &NodeTest,
    node: NodeId,
) -> Result<Listing, AllocError>
    requires stands { IsSome (find node (trees_of run.now)) }
    ensures nodes { IfOk result (λ l. l.nodes.items ≡ tested_nodes axis test.now node (trees_of run.now)) }
    ensures looked { IfOk result (λ l. l.looked_at ≡ looked_at axis node (trees_of run.now)) }
{
    let alloc = run.alloc();
    let shelf = run.shelf();
    match axis {
        Axis::Child => children(alloc, shelf, test, node),
        Axis::Descendant => descendants(alloc, shelf, test, node),
        Axis::DescendantOrSelf => descendants_or_self(alloc, shelf, test, node),
        Axis::SelfAxis => itself(alloc, shelf, test, node),
        Axis::Attribute => attributes(alloc, shelf, test, node),
        Axis::Parent => parent(alloc, shelf, test, node),
        Axis::Ancestor => ancestors(alloc, shelf, test, node),
        Axis::FollowingSibling => passing(alloc, shelf, axis, test, following(shelf, node)),
        Axis::PrecedingSibling => passing(alloc, shelf, axis, test, preceding(shelf, node)),
    }
}

fn children(
    alloc: Global,
    shelf: &Shelf,
    test: &NodeTest,
    node: NodeId,
) -> Result<Listing, AllocError>
    requires { IsSome (find node (shelf_trees shelf.now)) }
    ensures nodes { IfOk result (λ l. l.nodes.items ≡ tested_nodes Axis.Child test.now node (shelf_trees shelf.now)) }
    ensures looked { IfOk result (λ l. l.looked_at ≡ looked_at Axis.Child node (shelf_trees shelf.now)) }
{
    shelf.facts();
    passing(alloc, shelf, Axis::Child, test, shelf.children(node))
}

fn attributes(
    alloc: Global,
    shelf: &Shelf,
    test: &NodeTest,
    node: NodeId,
) -> Result<Listing, AllocError>
    requires { IsSome (find node (shelf_trees shelf.now)) }
    ensures nodes { IfOk result (λ l. l.nodes.items ≡ tested_nodes Axis.Attribute test.now node (shelf_trees shelf.now)) }
    ensures looked { IfOk result (λ l. l.looked_at ≡ looked_at Axis.Attribute node (shelf_trees shelf.now)) }
{
    shelf.facts();
    passing(alloc, shelf, Axis::Attribute, test, shelf.attributes(node))
}

fn itself(
    alloc: Global,
    shelf: &Shelf,
    test: &NodeTest,
    node: NodeId,
) -> Result<Listing, AllocError>
    requires { IsSome (find node (shelf_trees shelf.now)) }
    ensures nodes { IfOk result (λ l. l.nodes.items ≡ tested_nodes Axis.SelfAxis test.now node (shelf_trees shelf.now)) }
    ensures looked { IfOk result (λ l. l.looked_at ≡ looked_at Axis.SelfAxis node (shelf_trees shelf.now)) }
{
    shelf.facts();
    passing(alloc, shelf, Axis::SelfAxis, test, &[node])
}

fn parent(
    alloc: Global,
    shelf: &Shelf,
    test: &NodeTest,
    node: NodeId,
) -> Result<Listing, AllocError>
    requires { IsSome (find node (shelf_trees shelf.now)) }
    ensures nodes { IfOk result (λ l. l.nodes.items ≡ tested_nodes Axis.Parent test.now node (shelf_trees shelf.now)) }
    ensures looked { IfOk result (λ l. l.looked_at ≡ looked_at Axis.Parent node (shelf_trees shelf.now)) }
{
    shelf.facts();
    match shelf.parent(node) {
        Some(parent) => passing(alloc, shelf, Axis::Parent, test, &[parent]),
        None => passing(alloc, shelf, Axis::Parent, test, &[]),
    }
}

/// What stands above a node: found on the way up, and then turned.
fn ancestors(
    alloc: Global,
    shelf: &Shelf,
    test: &NodeTest,
    node: NodeId,
) -> Result<Listing, AllocError>
    requires { IsSome (find node (shelf_trees shelf.now)) }
    ensures nodes { IfOk result (λ l. l.nodes.items ≡ tested_nodes Axis.Ancestor test.now node (shelf_trees shelf.now)) }
    ensures looked { IfOk result (λ l. l.looked_at ≡ looked_at Axis.Ancestor node (shelf_trees shelf.now)) }
{
    shelf.facts();
    // They are no more than all nodes, which a u64 counts.
    let _all = shelf.len();
    let mut nodes = Vec::new(alloc);
    let mut looked_at = 0;
    let mut at = node;
    while let Some(parent) = shelf.parent(at) {
        add_passing(shelf, Axis::Ancestor, test, parent, &mut nodes)?;
        looked_at += 1;
        at = parent;
    }
    nodes.reverse();
    Ok(Listing { nodes, looked_at })
}

fn descendants(
    alloc: Global,
    shelf: &Shelf,
    test: &NodeTest,
    node: NodeId,
) -> Result<Listing, AllocError>
    requires { IsSome (find node (shelf_trees shelf.now)) }
    ensures nodes { IfOk result (λ l. l.nodes.items ≡ tested_nodes Axis.Descendant test.now node (shelf_trees shelf.now)) }
    ensures looked { IfOk result (λ l. l.looked_at ≡ looked_at Axis.Descendant node (shelf_trees shelf.now)) }
{
    if let Some(listing) = named_descendants(alloc, shelf, test, node)? {
        return Ok(listing);
    }
    shelf.facts();
    let mut nodes = Vec::new(alloc);
    let looked_at = add_descendants(shelf, Axis::Descendant, test, node, &mut nodes)?;
    Ok(Listing { nodes, looked_at })
}

fn descendants_or_self(
    alloc: Global,
    shelf: &Shelf,
    test: &NodeTest,
    node: NodeId,
) -> Result<Listing, AllocError>
    requires { IsSome (find node (shelf_trees shelf.now)) }
    ensures nodes { IfOk result (λ l. l.nodes.items ≡ tested_nodes Axis.DescendantOrSelf test.now node (shelf_trees shelf.now)) }
    ensures looked { IfOk result (λ l. l.looked_at ≡ looked_at Axis.DescendantOrSelf node (shelf_trees shelf.now)) }
{
    shelf.facts();
    let mut nodes = Vec::new(alloc);
    add_passing(shelf, Axis::DescendantOrSelf, test, node, &mut nodes)?;
    if let Some(below) = named_descendants(alloc, shelf, test, node)? {
        return with_below(nodes, below);
    }
    let looked_at = add_descendants(shelf, Axis::DescendantOrSelf, test, node, &mut nodes)?;
    Ok(Listing { nodes, looked_at })
}

/// Some nodes, then those that a step gave.
fn with_below(nodes: Vec<NodeId>, below: Listing) -> Result<Listing, AllocError>
    ensures nodes { IfOk result (λ l. l.nodes.items ≡ nodes.items ++ below.nodes.items) }
    ensures looked { IfOk result (λ l. l.looked_at ≡ below.looked_at) }
{
    let Listing {
        nodes: mut more,
        looked_at,
    } = below;
    let mut all = nodes;
    all.append(&mut more)?;
    Ok(Listing {
        nodes: all,
        looked_at,
    })
}
