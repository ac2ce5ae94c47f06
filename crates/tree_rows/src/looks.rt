//! Looks at shelves.
//!
//! `nodes` shows all nodes and `totals` how many there are; `value NUMBER MOST` the string value of a node, where it has at most so many
//! bytes; `document NAME` the number of a document in the forest and on the shelf, or 0; `order NUMBER ..` for each of these nodes a word
//! with a mark for each of them: `<` where it comes before that one in document order; `sorted NUMBER ..` those of these nodes that stand
//! there, in document order and each once; `tree NUMBER` the outline of a node's tree; `print
//! NUMBER` its printed text; `typed NUMBER` its typed value; `duplicate` all nodes of an equal forest, and how many they are; and `own`,
//! as the last one, how many own nodes the shelf leaves.

use super::described::{number_of, outline, push_nodes, totals};
use super::parts::{MOST, Pieces, take_node};
use super::printed::{printed, typed};
use rows::{RowFault, Words};
use shelves::Shelf;
use std::alloc::{AllocError, Global};
use trees::{Forest, NodeId};

/// Takes the looks up to the first word that names none, and appends what they show.
pub(super) fn take_looks(
    alloc: Global,
    forest: &Forest,
    shelf: &Shelf<'_>,
    words: &mut Words<'_>,
    out: &mut Pieces,
) -> Result<(), RowFault> {
    for _ in 0..MOST {
        if !take_look(alloc, forest, shelf, words, out)? {
            break;
        }
    }
    Ok(())
}

/// Takes the next look, if the next word names one. Gives whether it did.
fn take_look(
    alloc: Global,
    forest: &Forest,
    shelf: &Shelf<'_>,
    words: &mut Words<'_>,
    out: &mut Pieces,
) -> Result<bool, RowFault> {
    if words.is_empty() {
        return Ok(false);
    }
    let mut ahead = *words;
    match ahead.plain()? {
        "nodes" => push_nodes(alloc, out, shelf)?,
        "duplicate" => push_duplicate(alloc, out, forest)?,
        "own" => return Ok(false),
        look => out.look(shown(alloc, forest, shelf, look, &mut ahead)?.as_str())?,
    }
    *words = ahead;
    Ok(true)
}

/// What a look shows.
fn shown(
    alloc: Global,
    forest: &Forest,
    shelf: &Shelf<'_>,
    look: &str,
    words: &mut Words<'_>,
) -> Result<String, RowFault> {
    match look {
        "totals" => Ok(totals(alloc, shelf)?),
        "value" => value_within(alloc, shelf, words),
        "document" => document(alloc, forest, shelf, words),
        "order" => order(alloc, shelf, words),
        "sorted" => sorted(alloc, shelf, words),
        "tree" => tree(alloc, shelf, take_node(words)?),
        "print" => printed(alloc, shelf, take_node(words)?),
        "typed" => typed(alloc, shelf, take_node(words)?),
        _ => Err(RowFault::NotARow),
    }
}

/// Appends all nodes of an equal forest, and how many there are.
fn push_duplicate(alloc: Global, out: &mut Pieces, forest: &Forest) -> Result<(), RowFault> {
    push_forest(alloc, out, &forest.duplicate()?)
}

/// Appends all nodes of a forest, and how many there are.
fn push_forest(alloc: Global, out: &mut Pieces, forest: &Forest) -> Result<(), RowFault> {
    push_shelf(alloc, out, &Shelf::new(alloc, forest))
}

/// Appends all nodes on a shelf, and how many there are.
fn push_shelf(alloc: Global, out: &mut Pieces, shelf: &Shelf<'_>) -> Result<(), RowFault> {
    push_nodes(alloc, out, shelf)?;
    out.look(totals(alloc, shelf)?.as_str())?;
    Ok(())
}

/// `NUMBER MOST`: the string value of a node, where it has at most so many bytes.
fn value_within(
    alloc: Global,
    shelf: &Shelf<'_>,
    words: &mut Words<'_>,
) -> Result<String, RowFault> {
    let id = take_node(words)?;
    let most = usize::try_from(words.number()?)
        .ok()
        .ok_or(RowFault::NotARow)?;
    if !shelf.has(id) {
        return Err(RowFault::NotARow);
    }
    Ok(match shelf.string_value_within(alloc, id, most)? {
        Some(value) => format!(in alloc; "'{value}'")?,
        None => String::from_str(alloc, "none")?,
    })
}

/// `NAME`: the number of a document in the forest and on the shelf, or 0.
fn document(
    alloc: Global,
    forest: &Forest,
    shelf: &Shelf<'_>,
    words: &mut Words<'_>,
) -> Result<String, RowFault> {
    let name = words.text(alloc)?;
    let stored = number_of(forest.document(&name));
    let seen = number_of(shelf.document(&name));
    Ok(format!(in alloc; "{stored} {seen}")?)
}

/// The outline of the tree of a node.
fn tree(alloc: Global, shelf: &Shelf<'_>, id: NodeId) -> Result<String, RowFault> {
    if !shelf.has(id) {
        return Err(RowFault::NotARow);
    }
    let tree = shelf.tree(alloc, id)?;
    Ok(outline(alloc, &tree)?)
}

/// `NUMBER ..`: for each node, before which of them it comes.
fn order(alloc: Global, shelf: &Shelf<'_>, words: &mut Words<'_>) -> Result<String, RowFault> {
    let nodes = take_nodes(alloc, words)?;
    let mut out = String::from_str(alloc, "order")?;
    for id in nodes.iter() {
        out.push_str(" ")?;
        push_order(&mut out, shelf, *id, &nodes)?;
    }
    Ok(out)
}

/// `NUMBER ..`: those of these nodes that stand there, in document order and each once.
fn sorted(alloc: Global, shelf: &Shelf<'_>, words: &mut Words<'_>) -> Result<String, RowFault> {
    let nodes = shelf.document_order(alloc, take_nodes(alloc, words)?)?;
    let mut out = String::from_str(alloc, "sorted")?;
    for id in nodes.iter() {
        push_id(&mut out, *id)?;
    }
    Ok(out)
}

/// Appends the number of a node.
fn push_id(out: &mut String, id: NodeId) -> Result<(), AllocError> {
    let number = id.number();
    write!(out, " {number}")
}

/// The numbers up to the next word that is none, as nodes.
fn take_nodes(alloc: Global, words: &mut Words<'_>) -> Result<Vec<NodeId>, AllocError> {
    let mut nodes = Vec::new(alloc);
    for _ in 0..MOST {
        let mut ahead = *words;
        match take_node(&mut ahead) {
            Ok(id) => nodes.push(id).map_err(AllocError::from)?,
            Err(_) => break,
        }
        *words = ahead;
    }
    Ok(nodes)
}

/// Appends a mark for each node, `<` where another one comes before it.
fn push_order(
    out: &mut String,
    shelf: &Shelf<'_>,
    id: NodeId,
    nodes: &[NodeId],
) -> Result<(), RowFault> {
    for other in nodes {
        out.push_str(order_mark(shelf, id, *other)?)?;
    }
    Ok(())
}

/// `<` where one node comes before another, and `.` elsewhere. Fault: `NotARow` where one of them does not stand there.
fn order_mark(shelf: &Shelf<'_>, id: NodeId, other: NodeId) -> Result<&'static str, RowFault> {
    if !shelf.has(id) || !shelf.has(other) {
        return Err(RowFault::NotARow);
    }
    Ok(if shelf.before(id, other) { "<" } else { "." })
}
