//! Printed nodes, and their typed values.

ghost use Rattle.std.specs.Prelude.{IsSome};
ghost use Rattle.shelves.specs.Shelf.{shelf_trees};
ghost use Rattle.data_model.specs.Trees.{find};

use rows::RowFault;
use shelves::Shelf;
use std::alloc::{AllocError, Global};
use trees::NodeId;
use values::{Atom, Item, LimitedText, ValueFault, atomize, push_item};

/// Typed values of more bytes are shown by their length.
const LONGEST_SHOWN: usize = 100;

/// The bytes that a printed text has at most.
const MOST_PRINTED: usize = 1_000_000;

/// The printed text of a node. Fault: `NotARow` where it does not stand there, or the text has more than 1,000,000 bytes.
pub(super) fn printed(alloc: Global, shelf: &Shelf<'_>, id: NodeId) -> Result<String, RowFault> {
    if !shelf.has(id) {
        return Err(RowFault::NotARow);
    }
    let mut out = LimitedText::new(alloc, MOST_PRINTED);
    push_item(alloc, &mut out, shelf, &Item::Node(id))?;
    out.into_text().ok_or(RowFault::NotARow)
}

/// The typed value of a node, `s` for a string and `u` for an untyped one, with its text, or the code of its fault. Fault: `NotARow`
/// where the node does not stand there.
pub(super) fn typed(alloc: Global, shelf: &Shelf<'_>, id: NodeId) -> Result<String, RowFault> {
    if !shelf.has(id) {
        return Err(RowFault::NotARow);
    }
    match typed_value(alloc, shelf, id) {
        Ok(atoms) => Ok(typed_text(alloc, &atoms)?),
        Err(ValueFault::Code(code)) => Ok(code.to_string(alloc)?),
        Err(ValueFault::Memory) => Err(RowFault::Memory),
    }
}

/// The typed value of a node.
fn typed_value(alloc: Global, shelf: &Shelf<'_>, id: NodeId) -> Result<Vec<Atom>, ValueFault>
    requires { IsSome (find id (shelf_trees shelf.now)) }
{
    atomize(alloc, shelf, &[Item::Node(id)])
}

/// The type of one value and its text, or how long that is.
fn typed_text(alloc: Global, atoms: &[Atom]) -> Result<String, AllocError> {
    match atoms {
        [Atom::String(text)] => named_text(alloc, "s", text.as_str()),
        [Atom::Untyped(text)] => named_text(alloc, "u", text.as_str()),
        _ => String::from_str(alloc, "other"),
    }
}

/// A type and a text in quotes, or how long that is.
fn named_text(alloc: Global, name: &str, text: &str) -> Result<String, AllocError> {
    let bytes = text.len();
    if bytes > LONGEST_SHOWN {
        return format!(in alloc; "{name} of {bytes} bytes");
    }
    format!(in alloc; "{name} '{text}'")
}
