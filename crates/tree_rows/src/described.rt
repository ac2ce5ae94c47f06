//! What stands on a shelf, as text.

use super::parts::Pieces;
use rows::RowFault;
use shelves::Shelf;
use std::alloc::{AllocError, Global};
use trees::{NodeId, Tree};

/// Nodes are described up to this identity.
const MOST_IDENTITIES: u64 = 1_000;

/// Appends each node that stands on a shelf, in the order of their identities: `+` where it is an own one, the identity, the kind, the
/// name, the text, the parent or 0, the attributes, the children, and the string value. Fault: `NotARow` where too many may stand there.
pub(super) fn push_nodes(
    alloc: Global,
    out: &mut Pieces,
    shelf: &Shelf<'_>,
) -> Result<(), RowFault> {
    let next = shelf.next().number();
    if next > MOST_IDENTITIES {
        return Err(RowFault::NotARow);
    }
    for number in 0..next {
        push_node(alloc, out, shelf, NodeId::new(number))?;
    }
    Ok(())
}

/// Appends a node, if it stands there.
fn push_node(
    alloc: Global,
    out: &mut Pieces,
    shelf: &Shelf<'_>,
    id: NodeId,
) -> Result<(), AllocError> {
    if !shelf.has(id) {
        return Ok(());
    }
    let mut text = String::new(alloc);
    push_content(&mut text, shelf, id)?;
    push_places(&mut text, shelf, id)?;
    push_value(alloc, &mut text, shelf, id)?;
    out.look(&text)
}

fn push_content(out: &mut String, shelf: &Shelf<'_>, id: NodeId) -> Result<(), AllocError> {
    if !shelf.has(id) {
        return Ok(());
    }
    let mark = if shelf.is_own(id) { "+" } else { "" };
    let number = id.number();
    let kind = shelf.kind(id);
    write!(out, "{mark}{number} {kind:?} ")?;
    let name = shelf.name(id);
    let text = shelf.text(id);
    write!(out, "'{name}' '{text}' ")
}

fn push_places(out: &mut String, shelf: &Shelf<'_>, id: NodeId) -> Result<(), AllocError> {
    if !shelf.has(id) {
        return Ok(());
    }
    let parent = number_of(shelf.parent(id));
    write!(out, "{parent} ")?;
    push_ids(out, shelf.attributes(id))?;
    push_ids(out, shelf.children(id))
}

/// The number of a node, and 0 for none.
pub(super) fn number_of(id: Option<NodeId>) -> u64 {
    match id {
        Some(id) => id.number(),
        None => 0,
    }
}

/// Appends the numbers of nodes in brackets.
fn push_ids(out: &mut String, ids: &[NodeId]) -> Result<(), AllocError> {
    out.push_str("( ")?;
    for id in ids {
        push_number(out, id.number())?;
    }
    out.push_str(") ")
}

fn push_number(out: &mut String, number: u64) -> Result<(), AllocError> {
    write!(out, "{number} ")
}

fn push_value(
    alloc: Global,
    out: &mut String,
    shelf: &Shelf<'_>,
    id: NodeId,
) -> Result<(), AllocError> {
    if !shelf.has(id) {
        return Ok(());
    }
    let value = shelf.string_value(alloc, id)?;
    write!(out, "'{value}'")
}

/// The next identity and how many nodes there are.
pub(super) fn totals(alloc: Global, shelf: &Shelf<'_>) -> Result<String, AllocError> {
    let next = shelf.next().number();
    let nodes = shelf.len();
    format!(in alloc; "next {next} nodes {nodes}")
}

/// The identity and the name of a tree's node, and how many attributes and children it has.
pub(super) fn outline(alloc: Global, tree: &Tree) -> Result<String, AllocError> {
    let number = tree.content().identity.number();
    let name = tree.content().name.as_str();
    let attributes = tree.attributes().len();
    let children = tree.children().len();
    format!(in alloc; "{number} '{name}' {attributes} {children}")
}
