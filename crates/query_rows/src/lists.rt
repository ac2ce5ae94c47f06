//! Pending update lists, as rows print them.

use super::growing::name_of_kind;
use evaluator::Outcome;
use pending::{CheckFault, PendingList, Primitive};
use std::alloc::{AllocError, Global};
use trees::{Content, NodeId, Tree};

/// The most levels of a tree that are printed; no evaluation makes more.
const MOST_LEVELS: u64 = 64;

/// The update primitives that an evaluation gives, with ` / ` between two of them, then the code by which they may not stand in one
/// list, if there is one, and last the next identity.
pub(super) fn list_text(alloc: Global, outcome: Outcome) -> Result<String, AllocError> {
    let next = outcome.next().number();
    listed(alloc, &outcome.into_primitives(), next)
}

/// The same of a list and the next identity.
fn listed(alloc: Global, list: &PendingList, next: u64) -> Result<String, AllocError> {
    let mut out = String::new(alloc);
    for primitive in list.as_slice() {
        push_primitive(&mut out, primitive)?;
        out.push_str(" / ")?;
    }
    push_conflict(alloc, &mut out, list)?;
    write!(out, "next {next}")?;
    Ok(out)
}

/// Appends the code of the first rule that the list breaks, if it breaks one.
fn push_conflict(alloc: Global, out: &mut String, list: &PendingList) -> Result<(), AllocError> {
    match list.check(alloc) {
        Ok(()) => Ok(()),
        Err(CheckFault::Memory) => Err(AllocError),
        Err(CheckFault::Code(code)) => write!(out, "{code} / "),
    }
}

/// Appends a primitive: its kind and its target, and its text or the nodes of its trees in document order.
fn push_primitive(out: &mut String, primitive: &Primitive) -> Result<(), AllocError> {
    match primitive {
        Primitive::InsertBefore(target, trees) => push_trees(out, "insertBefore", *target, trees),
        Primitive::InsertAfter(target, trees) => push_trees(out, "insertAfter", *target, trees),
        Primitive::InsertInto(target, trees) => push_trees(out, "insertInto", *target, trees),
        Primitive::InsertIntoAsFirst(target, trees) => {
            push_trees(out, "insertIntoAsFirst", *target, trees)
        }
        Primitive::InsertIntoAsLast(target, trees) => {
            push_trees(out, "insertIntoAsLast", *target, trees)
        }
        Primitive::InsertAttributes(target, trees) => {
            push_trees(out, "insertAttributes", *target, trees)
        }
        Primitive::Delete(target) => push_target(out, "delete", *target),
        Primitive::ReplaceNode(target, trees) => push_trees(out, "replaceNode", *target, trees),
        Primitive::ReplaceValue(target, text) => push_text(out, "replaceValue", *target, text),
        Primitive::ReplaceElementContent(target, trees) => {
            push_trees(out, "replaceElementContent", *target, trees)
        }
        Primitive::Rename(target, name) => push_text(out, "rename", *target, name),
    }
}

fn push_target(out: &mut String, kind: &str, target: NodeId) -> Result<(), AllocError> {
    let number = target.number();
    write!(out, "{kind} {number}")
}

fn push_text(out: &mut String, kind: &str, target: NodeId, text: &str) -> Result<(), AllocError> {
    push_target(out, kind, target)?;
    write!(out, " \"{text}\"")
}

fn push_trees(
    out: &mut String,
    kind: &str,
    target: NodeId,
    trees: &[Tree],
) -> Result<(), AllocError> {
    push_target(out, kind, target)?;
    push_nodes(out, trees, MOST_LEVELS)
}

/// Appends the nodes of some trees in document order, down to so many levels.
fn push_nodes(out: &mut String, trees: &[Tree], levels: u64) -> Result<(), AllocError> {
    if levels == 0 {
        return Ok(());
    }
    for tree in trees {
        push_node(out, tree.content())?;
        push_nodes(out, tree.attributes(), levels - 1)?;
        push_nodes(out, tree.children(), levels - 1)?;
    }
    Ok(())
}

fn push_node(out: &mut String, node: &Content) -> Result<(), AllocError> {
    let number = node.identity.number();
    let kind = name_of_kind(node.kind);
    let name = node.name.as_str();
    let text = node.text.as_str();
    write!(out, ", {number} {kind} \"{name}\" \"{text}\"")
}
