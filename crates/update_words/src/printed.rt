//! Stores as text.

use rows::{RowFault, Words};
use std::alloc::{AllocError, Global};
use trees::{Forest, Kind, NodeId};

/// The most levels that are printed; no store has more.
const MOST_LEVELS: u64 = 70;

/// Texts of more bytes are shown by their length.
const LONGEST_SHOWN: usize = 60;

/// The most words that describe a store.
const MOST_WORDS: u32 = 1_000_000;

/// How many nodes a store has, and its next identity.
pub fn size(alloc: Global, forest: &Forest) -> Result<String, AllocError> {
    let nodes = forest.len();
    let next = forest.next().number();
    format!(in alloc; "{nodes} nodes next {next}")
}

/// The documents of a store, which its description names, with all nodes and their identities, and the next identity.
pub fn store(alloc: Global, forest: &Forest, described: &str) -> Result<String, RowFault> {
    let mut out = String::new(alloc);
    let mut words = Words::new(described);
    for _ in 0..MOST_WORDS {
        if words.is_empty() {
            break;
        }
        if let Some(name) = words.word()?.plain.strip_prefix("[") {
            push_document(&mut out, forest, name)?;
        }
    }
    let next = forest.next().number();
    write!(out, "next {next}")?;
    Ok(out)
}

/// Whether two stores, whose documents a description names, are printed alike.
pub fn are_alike(
    alloc: Global,
    one: &Forest,
    other: &Forest,
    described: &str,
) -> Result<bool, RowFault> {
    let one = store(alloc, one, described)?;
    let other = store(alloc, other, described)?;
    Ok(one == other)
}

/// The trees of these roots, one after the other.
pub fn trees(alloc: Global, forest: &Forest, roots: &[NodeId]) -> Result<String, AllocError> {
    let mut out = String::new(alloc);
    push_nodes(&mut out, forest, roots, MOST_LEVELS)?;
    Ok(out)
}

fn push_document(out: &mut String, forest: &Forest, name: &str) -> Result<(), AllocError> {
    let Some(id) = forest.document(name) else {
        return Ok(());
    };
    let number = id.number();
    write!(out, "[{name}#{number} ")?;
    if let Some(node) = forest.node(id) {
        let children = node.children;
        push_nodes(out, forest, node.attributes, MOST_LEVELS)?;
        push_nodes(out, forest, children, MOST_LEVELS)?;
    }
    out.push_str("] ")
}

/// Appends nodes with what is below them, down to so many levels.
fn push_nodes(
    out: &mut String,
    forest: &Forest,
    ids: &[NodeId],
    levels: u64,
) -> Result<(), AllocError> {
    if levels == 0 {
        return out.push_str(".. ");
    }
    for id in ids {
        if let Some(node) = forest.node(*id) {
            let kind = node.kind;
            let attributes = node.attributes;
            let children = node.children;
            push_node(out, id.number(), kind, node.name, node.text)?;
            push_nodes(out, forest, attributes, levels - 1)?;
            push_nodes(out, forest, children, levels - 1)?;
            push_end(out, kind)?;
        }
    }
    Ok(())
}

/// Appends a node as a row would spell it, with its identity.
fn push_node(
    out: &mut String,
    number: u64,
    kind: Kind,
    name: &str,
    text: &str,
) -> Result<(), AllocError> {
    let mark = mark_of(kind);
    write!(out, "{mark}{name}#{number}")?;
    if !matches!(kind, Kind::Document | Kind::Element) || !text.is_empty() {
        push_text(out, text)?;
    }
    out.push_str(" ")
}

/// What stands before a node of that kind.
fn mark_of(kind: Kind) -> &'static str {
    match kind {
        Kind::Document => "[",
        Kind::Element => "<",
        Kind::Attribute => "@",
        Kind::Text => "",
        Kind::Comment => "!",
        Kind::Instruction => "?",
    }
}

/// Appends a text, or how long it is.
fn push_text(out: &mut String, text: &str) -> Result<(), AllocError> {
    let bytes = text.len();
    if bytes > LONGEST_SHOWN {
        write!(out, "({bytes} bytes)")
    } else {
        write!(out, "{text:?}")
    }
}

/// Appends the end of a node of that kind, where it has one.
fn push_end(out: &mut String, kind: Kind) -> Result<(), AllocError> {
    match kind {
        Kind::Element => out.push_str("> "),
        Kind::Document => out.push_str("] "),
        _ => Ok(()),
    }
}
