//! Steps on forests. Each looks first at what the calls of a forest require.
//!
//! `child PARENT NUMBER NAME` makes an element, of that number, as the first child of a node, and `plant NUMBER NAME` one with no parent;
//! `make KIND NAME TEXT` makes a node with no parent, and `put PARENT KIND NAME TEXT` puts it below another too, as an attribute or as the
//! first child; `take NUMBER` takes a node out of its parent, `copy NUMBER` copies its tree, and `raise NUMBER` lets the next node take that
//! identity.

ghost use Rattle.std.specs.Prelude.{◌≡◌, ◌≢◌, ◌<◌, ◌≤◌, ◌^◌, IsSome};
ghost use Rattle.data_model.specs.Trees.{find};

use super::parts::{Given, LIMIT, MOST, Made, Pieces, element, take_made, take_node};
use rows::{RowFault, Words};
use std::alloc::{AllocError, Global};
use trees::{Content, Forest, Kind, MakeFault, NodeId, Tree};

/// Takes the steps up to the first word that names none, and appends what they gave.
pub(super) fn take_steps(
    alloc: Global,
    forest: &mut Forest,
    words: &mut Words<'_>,
    out: &mut Pieces,
) -> Result<(), RowFault> {
    for _ in 0..MOST {
        if !take_step(alloc, forest, words, out)? {
            break;
        }
    }
    Ok(())
}

/// Takes the next step, if the next word names one. Gives whether it did.
fn take_step(
    alloc: Global,
    forest: &mut Forest,
    words: &mut Words<'_>,
    out: &mut Pieces,
) -> Result<bool, RowFault> {
    if words.is_empty() {
        return Ok(false);
    }
    let mut ahead = *words;
    let given = match ahead.plain()? {
        "child" => make_child(alloc, forest, &mut ahead)?,
        "plant" => plant(alloc, forest, &mut ahead)?,
        "make" => make(alloc, forest, &mut ahead)?,
        "put" => put(alloc, forest, &mut ahead)?,
        "take" => take_out(forest, &mut ahead)?,
        "copy" => copy(alloc, forest, &mut ahead)?,
        "raise" => raise(forest, &mut ahead)?,
        _ => return Ok(false),
    };
    *words = ahead;
    given.push_to(alloc, out)?;
    Ok(true)
}

fn make_child(
    alloc: Global,
    forest: &mut Forest,
    words: &mut Words<'_>,
) -> Result<Given, RowFault> {
    let parent = take_node(words)?;
    let number = words.number()?;
    let name = words.text(alloc)?;
    if !forest.has(parent) || number < forest.next().number() || number >= LIMIT {
        return Err(RowFault::NotARow);
    }
    forest.raise_next(NodeId::new(number));
    put_new(
        alloc,
        forest,
        parent,
        Kind::Element,
        name,
        String::new(alloc),
    )?;
    Ok(Given::Nothing)
}

fn plant(alloc: Global, forest: &mut Forest, words: &mut Words<'_>) -> Result<Given, RowFault> {
    let number = words.number()?;
    let node = element(number, words.text(alloc)?);
    if number < forest.next().number() || number >= LIMIT {
        return Err(RowFault::NotARow);
    }
    plant_leaf(alloc, forest, node)?;
    Ok(Given::Nothing)
}

/// Plants a tree of one node, whose identity is the next one or a later one.
fn plant_leaf(alloc: Global, forest: &mut Forest, node: Content) -> Result<(), AllocError>
    requires fresh { forest.old.next ≤ node.identity }
    requires room { node.identity < 2 ^ 62 }
{
    let tree = Tree::new(node, Vec::new(alloc), Vec::new(alloc));
    forest.facts();
    forest.plant(alloc, &tree)
}

fn make(alloc: Global, forest: &mut Forest, words: &mut Words<'_>) -> Result<Given, RowFault> {
    let made = take_made(alloc, words)?;
    Given::of(forest.make(alloc, made.kind, made.name, made.text))
}

fn put(alloc: Global, forest: &mut Forest, words: &mut Words<'_>) -> Result<Given, RowFault> {
    let parent = take_node(words)?;
    let made = take_made(alloc, words)?;
    let Made { kind, name, text } = made;
    if !forest.has(parent) || kind == Kind::Document {
        return Err(RowFault::NotARow);
    }
    put_new(alloc, forest, parent, kind, name, text)
}

/// Makes a node and puts it below another, as an attribute or as the first child.
fn put_new(
    alloc: Global,
    forest: &mut Forest,
    parent: NodeId,
    kind: Kind,
    name: String,
    text: String,
) -> Result<Given, RowFault>
    requires there { IsSome (find parent forest.old.trees) }
    requires other { kind ≢ Kind.Document }
{
    forest.facts();
    let id = match forest.make(alloc, kind, name, text) {
        Ok(id) => id,
        Err(MakeFault::Limit) => return Ok(Given::Limit),
        Err(MakeFault::Memory) => return Err(RowFault::Memory),
    };
    if kind == Kind::Attribute {
        forest.put_attributes(parent, 0, &[id])?;
    } else {
        forest.put_children(parent, 0, &[id])?;
    }
    Ok(Given::Node(id))
}

fn take_out(forest: &mut Forest, words: &mut Words<'_>) -> Result<Given, RowFault> {
    let id = take_node(words)?;
    if !forest.has(id) || forest.parent(id).is_none() {
        return Err(RowFault::NotARow);
    }
    forest.take_out(id);
    Ok(Given::Nothing)
}

fn copy(alloc: Global, forest: &mut Forest, words: &mut Words<'_>) -> Result<Given, RowFault> {
    let id = take_node(words)?;
    if !forest.has(id) {
        return Err(RowFault::NotARow);
    }
    let lent = Forest::empty(alloc, NodeId::new(0));
    Given::of(forest.copy_from(alloc, &lent, id))
}

fn raise(forest: &mut Forest, words: &mut Words<'_>) -> Result<Given, RowFault> {
    let next = words.number()?;
    if next < forest.next().number() || next > LIMIT {
        return Err(RowFault::NotARow);
    }
    forest.raise_next(NodeId::new(next));
    Ok(Given::Nothing)
}
