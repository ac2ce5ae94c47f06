//! Whole nodes: elements, comments and processing instructions, which go into a new node as they are.

ghost use Rattle.std.specs.Prelude.{◌≡◌, ◌++◌, ◌∷◌, [], IfOk, OnOk, is_some};
ghost use Rattle.shelves.specs.Shelf.{shelf_trees};
ghost use Rattle.copied_rows.specs.Copies.{WhereMade};
ghost use Rattle.query_meaning.specs.Operators.{nodes};
ghost use Rattle.query_meaning.specs.Running.{trees_of};
ghost use Rattle.query_elements.specs.Whole.{are_whole, go_whole, goes_whole, is_whole_item, nodes_in};

use data_model::limits::{MOST_BYTES, MOST_LISTED};
use evaluation::Evaluation;
use shelves::{Shelf, ShelfCursor};
use std::alloc::{AllocError, Global};
use trees::{Kind, NodeId};
use values::Item;

/// The nodes that items are, where these are whole nodes alone, at most 10,000; elsewhere `None`, which takes no memory. It fails where memory is
/// refused.
pub(crate) fn whole_nodes(
    run: &Evaluation,
    items: &[Item],
) -> Result<Option<Vec<NodeId>>, AllocError>
    ensures whole { IfOk result (λ made. is_some made ≡ go_whole (trees_of run.now) items.now) }
    ensures nodes { WhereMade result (λ ids. nodes ids.items ≡ items.now) }
{
    if !go_whole(run.shelf(), items) {
        return Ok(None);
    }
    Ok(Some(nodes_in(run.alloc(), items)?))
}

/// Whether items are whole nodes alone, at most 10,000.
fn go_whole(shelf: &Shelf, items: &[Item]) -> bool
    ensures { result ≡ go_whole (shelf_trees shelf.now) items.now }
{
    items.len() <= MOST_LISTED && are_whole(shelf, items)
}

/// Whether items are whole nodes alone.
fn are_whole(shelf: &Shelf, items: &[Item]) -> bool
    ensures { result ≡ are_whole (shelf_trees shelf.now) items.now }
{
    let mut cursor = shelf.cursor();
    for item in items {
        if !is_whole(&mut cursor, item) {
            return false;
        }
    }
    true
}

/// Whether an item is a whole node, which a cursor looks up: its own text has at most 65,536 bytes.
fn is_whole(cursor: &mut ShelfCursor, item: &Item) -> bool
    ensures whole { result ≡ is_whole_item cursor.old item.now }
    ensures same { cursor.new ≡ cursor.old }
{
    let Item::Node(id) = item else {
        return false;
    };
    let Some(node) = cursor.node(*id) else {
        return false;
    };
    goes_whole(node.kind) && node.text.len() <= MOST_BYTES
}

/// Whether whole nodes may be of that kind.
fn goes_whole(kind: Kind) -> bool
    ensures { result ≡ goes_whole kind }
{
    match kind {
        Kind::Element | Kind::Comment | Kind::Instruction => true,
        Kind::Document | Kind::Attribute | Kind::Text => false,
    }
}

/// The nodes among items. It fails where memory is refused.
fn nodes_in(alloc: Global, items: &[Item]) -> Result<Vec<NodeId>, AllocError>
    ensures { IfOk result (λ ids. ids.items ≡ nodes_in items.now) }
{
    let mut ids = Vec::with_capacity(alloc, items.len())?;
    for item in items {
        add_node(&mut ids, item)?;
    }
    Ok(ids)
}

/// Adds an item that is a node. It fails where memory is refused.
fn add_node(ids: &mut Vec<NodeId>, item: &Item) -> Result<(), AllocError>
    ensures { OnOk result (ids.new.items ≡ ids.old.items ++ nodes_in (item.now ∷ [])) }
{
    if let Item::Node(id) = item {
        ids.push(*id)?;
    }
    Ok(())
}
