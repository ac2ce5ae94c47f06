//! Node tests (XQuery 1.0, section 3.2.1.2).

ghost use Rattle.std.specs.Prelude.{◌≡◌, ◌++◌, ◌∷◌, [], IfOk, OnOk, filter, length};
ghost use Rattle.data_model.specs.Trees.{Content, find};
ghost use Rattle.shelves.specs.Shelf.{shelf_trees};
ghost use Rattle.query_meaning.specs.Paths.{is_of_kind, is_principal, passes, passes_at};

use crate::listing::Listing;
use evaluation::is_same_name;
use query_grammar::{KindTest, NodeTest};
use shelves::{Shelf, ShelfCursor};
use std::alloc::{AllocError, Global};
use trees::{Axis, Kind, NodeId};

/// Whether nodes of that kind are those that a name stands for on the axis: attributes on the attribute axis, elements on the others.
fn is_principal(axis: Axis, kind: Kind) -> bool
    ensures { result ≡ is_principal axis kind }
{
    match (axis, kind) {
        (Axis::Attribute, Kind::Attribute) => true,
        (Axis::Attribute, _) => false,
        (_, Kind::Element) => true,
        _ => false,
    }
}

/// Whether the test of a kind lets that one pass.
fn is_of_kind(test: KindTest, kind: Kind) -> bool
    ensures { result ≡ is_of_kind test kind }
{
    match (test, kind) {
        (KindTest::AnyNode, _) => true,
        (KindTest::Document, Kind::Document) => true,
        (KindTest::Element, Kind::Element) => true,
        (KindTest::Text, Kind::Text) => true,
        (KindTest::Comment, Kind::Comment) => true,
        (KindTest::Instruction, Kind::Instruction) => true,
        _ => false,
    }
}

/// Whether a node of that kind and name passes the test of a step along that axis.
pub(crate) fn passes(axis: Axis, test: &NodeTest, kind: Kind, name: &str) -> bool
    ensures { (c : Content) → kind ≡ c.kind → name.now ≡ c.name → result ≡ passes axis test.now c }
{
    match test {
        NodeTest::Name(wanted) => is_principal(axis, kind) && is_same_name(wanted.as_str(), name),
        NodeTest::AnyName => is_principal(axis, kind),
        NodeTest::Kind(test) => is_of_kind(*test, kind),
    }
}

/// Whether a node passes the test of a step along that axis.
pub(crate) fn passes_at(shelf: &Shelf, axis: Axis, test: &NodeTest, node: NodeId) -> bool
    ensures { result ≡ passes_at axis test.now (find node (shelf_trees shelf.now)) }
{
    match shelf.node(node) {
        Some(view) => passes(axis, test, view.kind, view.name),
        None => false,
    }
}

/// Whether a node that a cursor looks up passes it.
fn is_passing(cursor: &mut ShelfCursor, axis: Axis, test: &NodeTest, node: NodeId) -> bool
    ensures passes { result ≡ passes_at axis test.now (find node cursor.old) }
    ensures same { cursor.new ≡ cursor.old }
{
    let Some(it) = cursor.name(node) else {
        return false;
    };
    passes(axis, test, it.kind, it.name)
}

/// Adds a node where it passes the test. It fails where memory is refused; which nodes are listed then isn't said.
pub(crate) fn add_passing(
    shelf: &Shelf,
    axis: Axis,
    test: &NodeTest,
    node: NodeId,
    nodes: &mut Vec<NodeId>,
) -> Result<(), AllocError>
    ensures { OnOk result
        (nodes.new.items ≡ nodes.old.items ++ filter (λ i. passes_at axis test.now (find i (shelf_trees shelf.now))) (node ∷ [])) }
{
    add_passing_by(&mut shelf.cursor(), axis, test, node, nodes)
}

/// The same, of a node that a cursor looks up.
fn add_passing_by(
    cursor: &mut ShelfCursor,
    axis: Axis,
    test: &NodeTest,
    node: NodeId,
    nodes: &mut Vec<NodeId>,
) -> Result<(), AllocError>
    ensures added { OnOk result
        (nodes.new.items ≡ nodes.old.items ++ filter (λ i. passes_at axis test.now (find i cursor.old)) (node ∷ [])) }
    ensures same { cursor.new ≡ cursor.old }
{
    if is_passing(cursor, axis, test, node) {
        nodes.push(node)?;
    }
    Ok(())
}

/// Those of some nodes that pass the test, in their order, and how many these are. It fails where memory is refused.
pub(crate) fn passing(
    alloc: Global,
    shelf: &Shelf,
    axis: Axis,
    test: &NodeTest,
    nodes: &[NodeId],
) -> Result<Listing, AllocError>
    ensures nodes { IfOk result
        (λ l. l.nodes.items ≡ filter (λ i. passes_at axis test.now (find i (shelf_trees shelf.now))) nodes.now) }
    ensures looked { IfOk result (λ l. l.looked_at ≡ length nodes.now) }
{
    let mut passing = Vec::with_capacity(alloc, nodes.len())?;
    let mut cursor = shelf.cursor();
    for node in nodes {
        add_passing_by(&mut cursor, axis, test, *node, &mut passing)?;
    }
    Ok(Listing {
        nodes: passing,
        looked_at: nodes.len() as u64,
    })
}
