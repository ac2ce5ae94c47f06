//! Targets of primitives, by identity or by place.
//!
//! `7` is the node of that identity, whether it stands there or not, and `7+2` in the turns of a `repeat` those of 7, 9, 11 and so on. `NAME` is a document,
//! and `/N` behind a place the Nth child of what stands there, `/@N` its Nth attribute, `/last` its last child.

use rows::{RowFault, Words, cut};
use trees::{Forest, NodeId};

/// The most levels of a place.
const MOST_LEVELS: u32 = 100;

/// The next word, a target, in such a turn. Fault: `NotARow` where nothing stands at the place.
pub fn read_target(words: &mut Words<'_>, forest: &Forest, turn: u64) -> Result<NodeId, RowFault> {
    let word = words.plain()?;
    let (first, step) = cut(word, "+");
    match first.parse::<u64>() {
        Ok(first) => in_turn(first, step, turn),
        Err(_) => at_place(word, forest),
    }
}

/// The identity that is so many steps after the first one.
fn in_turn(first: u64, step: &str, turn: u64) -> Result<NodeId, RowFault> {
    if step.is_empty() {
        return Ok(NodeId::new(first));
    }
    let step = step.parse::<u64>().ok().ok_or(RowFault::NotARow)?;
    let gone = step.checked_mul(turn).ok_or(RowFault::NotARow)?;
    let number = first.checked_add(gone).ok_or(RowFault::NotARow)?;
    Ok(NodeId::new(number))
}

/// The node at a place.
fn at_place(place: &str, forest: &Forest) -> Result<NodeId, RowFault> {
    let (name, mut rest) = cut(place, "/");
    let mut node = forest.document(name).ok_or(RowFault::NotARow)?;
    for _ in 0..MOST_LEVELS {
        if rest.is_empty() {
            return Ok(node);
        }
        let (step, others) = cut(rest, "/");
        node = below(forest, node, step).ok_or(RowFault::NotARow)?;
        rest = others;
    }
    Err(RowFault::NotARow)
}

/// The node one step below another, if there is one.
fn below(forest: &Forest, node: NodeId, step: &str) -> Option<NodeId> {
    let (attributes, children) = match forest.node(node) {
        Some(view) => (view.attributes, view.children),
        None => return None,
    };
    if step == "last" {
        return children.last().copied();
    }
    let (list, number) = match step.strip_prefix("@") {
        Some(number) => (attributes, number),
        None => (children, step),
    };
    let index = number.parse::<usize>().ok()?.checked_sub(1)?;
    list.get(index).copied()
}
