//! Steps on shelves, after the word `shelf`. Each looks first at what the calls of a shelf require.
//!
//! Those on forests but `child`, `remove` and `raise`, among own nodes, and `copy NUMBER` of any node; `plant NUMBER NAME` sets the
//! identities up to that one aside; `name NUMBER NAME` and `text NUMBER TEXT` give an own node another name and another text.

ghost use Rattle.std.specs.Prelude.{◌≡◌, ◌≢◌, ◌<◌, ◌≤◌, ◌^◌, IsSome};
ghost use Rattle.shelves.specs.Shelf.{shelf_trees};
ghost use Rattle.data_model.specs.Trees.{find, parent_of};

use super::parts::{Given, LIMIT, MOST, Made, Pieces, element, take_made, take_node, take_word};
use rows::{RowFault, Words};
use shelves::Shelf;
use std::alloc::{AllocError, Global};
use trees::{Content, Kind, MakeFault, NodeId, Tree};

/// Takes the steps on a shelf, if the next word is `shelf`, and appends what they gave.
pub(super) fn take_steps(
    alloc: Global,
    shelf: &mut Shelf<'_>,
    words: &mut Words<'_>,
    out: &mut Pieces,
) -> Result<(), RowFault> {
    if !take_word(words, "shelf") {
        return Ok(());
    }
    for _ in 0..MOST {
        if !take_step(alloc, shelf, words, out)? {
            break;
        }
    }
    Ok(())
}

/// Takes the next step, if the next word names one. Gives whether it did.
fn take_step(
    alloc: Global,
    shelf: &mut Shelf<'_>,
    words: &mut Words<'_>,
    out: &mut Pieces,
) -> Result<bool, RowFault> {
    if words.is_empty() {
        return Ok(false);
    }
    let mut ahead = *words;
    let given = match ahead.plain()? {
        "plant" => plant(alloc, shelf, &mut ahead)?,
        "make" => make(alloc, shelf, &mut ahead)?,
        "put" => put(alloc, shelf, &mut ahead)?,
        "take" => take_out(shelf, &mut ahead)?,
        "copy" => copy(alloc, shelf, &mut ahead)?,
        "name" => set_name(alloc, shelf, &mut ahead)?,
        "text" => set_text(alloc, shelf, &mut ahead)?,
        _ => return Ok(false),
    };
    *words = ahead;
    given.push_to(alloc, out)?;
    Ok(true)
}

fn plant(alloc: Global, shelf: &mut Shelf<'_>, words: &mut Words<'_>) -> Result<Given, RowFault> {
    let number = words.number()?;
    let node = element(number, words.text(alloc)?);
    if number < shelf.next().number() || number >= LIMIT {
        return Err(RowFault::NotARow);
    }
    plant_leaf(alloc, shelf, node)?;
    Ok(Given::Nothing)
}

/// Sets the identities up to a node's aside, which is the next one or a later one, and plants a tree of that node.
fn plant_leaf(alloc: Global, shelf: &mut Shelf<'_>, node: Content) -> Result<(), AllocError>
    requires fresh { shelf.old.own.next ≤ node.identity }
    requires room { node.identity < 2 ^ 62 }
{
    shelf.facts();
    shelf.raise_next(NodeId::new(node.identity.number() + 1));
    let tree = Tree::new(node, Vec::new(alloc), Vec::new(alloc));
    shelf.plant(alloc, &tree)
}

fn make(alloc: Global, shelf: &mut Shelf<'_>, words: &mut Words<'_>) -> Result<Given, RowFault> {
    let made = take_made(alloc, words)?;
    Given::of(shelf.make(alloc, made.kind, made.name, made.text))
}

fn put(alloc: Global, shelf: &mut Shelf<'_>, words: &mut Words<'_>) -> Result<Given, RowFault> {
    let parent = take_node(words)?;
    let made = take_made(alloc, words)?;
    let Made { kind, name, text } = made;
    if !shelf.is_own(parent) || kind == Kind::Document {
        return Err(RowFault::NotARow);
    }
    put_own(alloc, shelf, parent, kind, name, text)
}

/// Makes an own node and puts it below an own one, as an attribute or as the first child.
fn put_own(
    alloc: Global,
    shelf: &mut Shelf<'_>,
    parent: NodeId,
    kind: Kind,
    name: String,
    text: String,
) -> Result<Given, RowFault>
    requires there { IsSome (find parent shelf.old.own.trees) }
    requires other { kind ≢ Kind.Document }
{
    shelf.facts();
    let id = match shelf.make(alloc, kind, name, text) {
        Ok(id) => id,
        Err(MakeFault::Limit) => return Ok(Given::Limit),
        Err(MakeFault::Memory) => return Err(RowFault::Memory),
    };
    if kind == Kind::Attribute {
        shelf.put_attributes(parent, 0, &[id])?;
    } else {
        shelf.put_children(parent, 0, &[id])?;
    }
    Ok(Given::Node(id))
}

fn take_out(shelf: &mut Shelf<'_>, words: &mut Words<'_>) -> Result<Given, RowFault> {
    let id = take_node(words)?;
    if !shelf.has(id) || !shelf.is_own(id) || shelf.parent(id).is_none() {
        return Err(RowFault::NotARow);
    }
    take_out_own(shelf, id);
    Ok(Given::Nothing)
}

/// Takes an own node out of its parent.
fn take_out_own(shelf: &mut Shelf<'_>, id: NodeId)
    requires there { IsSome (find id shelf.old.own.trees) }
    requires below { IsSome (parent_of id (shelf_trees shelf.old)) }
{
    shelf.facts();
    shelf.take_out(id);
}

fn copy(alloc: Global, shelf: &mut Shelf<'_>, words: &mut Words<'_>) -> Result<Given, RowFault> {
    let id = take_node(words)?;
    if !shelf.has(id) {
        return Err(RowFault::NotARow);
    }
    Given::of(shelf.copy(alloc, id))
}

fn set_name(
    alloc: Global,
    shelf: &mut Shelf<'_>,
    words: &mut Words<'_>,
) -> Result<Given, RowFault> {
    let id = take_node(words)?;
    let name = words.text(alloc)?;
    if !shelf.is_own(id) {
        return Err(RowFault::NotARow);
    }
    shelf.set_name(id, name)?;
    Ok(Given::Nothing)
}

fn set_text(
    alloc: Global,
    shelf: &mut Shelf<'_>,
    words: &mut Words<'_>,
) -> Result<Given, RowFault> {
    let id = take_node(words)?;
    let text = words.text(alloc)?;
    if !shelf.is_own(id) {
        return Err(RowFault::NotARow);
    }
    shelf.set_text(id, text);
    Ok(Given::Nothing)
}
