//! Atomic values and items.

ghost use Rattle.std.specs.Prelude.{◌≡◌, Ok, Err, IfOk, IfErr, IsSome};
ghost use Rattle.shelves.specs.Shelf.{shelf_trees};
ghost use Rattle.data_model.specs.Trees.{find};
ghost use Rattle.fault_codes.specs.declared.code.Code.{Code};
ghost use Rattle.values.specs.declared.fault.ValueFault.{ValueFault};
ghost use Rattle.values.specs.Atoms.{bounded, typed, typed_at, atom_of, atomized, atom_truth, truth};
ghost use Rattle.values.specs.Items.{IsThere, AreThere};

use super::fault::ValueFault;
use data_model::limits::MOST_BYTES;
use fault_codes::Code;
use shared_texts::Text;
use shelves::Shelf;
use std::alloc::Global;
use trees::{Kind, NodeId, PlainValue};

/// An atomic value, of one of the four types that there are (XQuery 1.0 and XPath 2.0 Data Model, section 2.7).
#[derive(Clone, Drop)]
pub enum Atom {
    /// xs:string.
    String(Text),
    /// xs:boolean.
    Boolean(bool),
    /// xs:untypedAtomic.
    Untyped(Text),
    /// xs:integer, of 64 bits with a sign.
    Integer(i64),
}

/// An item: a node or an atomic value. A clone shares the text and costs a word or two.
#[derive(Clone, Drop)]
pub enum Item {
    /// A node.
    Node(NodeId),
    /// An atomic value.
    Atomic(Atom),
}

/// The typed values of items, from the left (XQuery 1.0, section 2.4.2). Faults: `Memory`; `Code` with PXQ0002 where the string
/// value of a node is longer than 65,536 bytes.
pub fn atomize(alloc: Global, shelf: &Shelf, items: &[Item]) -> Result<Vec<Atom>, ValueFault>
    requires there { AreThere (shelf_trees shelf.now) items.now }
    ensures atoms { IfOk result (λ v. atomized (shelf_trees shelf.now) items.now ≡ Ok v.items) }
    ensures code { IfErr result (λ fault. (code : Code) → fault ≡ ValueFault.Code code → atomized (shelf_trees shelf.now) items.now ≡ Err code) }
{
    let mut atoms = Vec::new(alloc);
    for item in items {
        atoms.push(atomize_item(alloc, shelf, item)?)?;
    }
    Ok(atoms)
}

/// The typed value of one item, with the same faults.
pub fn atomize_item(alloc: Global, shelf: &Shelf, item: &Item) -> Result<Atom, ValueFault>
    requires there { IsThere (shelf_trees shelf.now) item.now }
    ensures atom { IfOk result (λ a. atom_of (shelf_trees shelf.now) item.now ≡ Ok a) }
    ensures code { IfErr result (λ fault. (code : Code) → fault ≡ ValueFault.Code code → atom_of (shelf_trees shelf.now) item.now ≡ Err code) }
{
    match item {
        Item::Node(id) => typed_value(alloc, shelf, *id),
        Item::Atomic(atom) => Ok(atom.clone()?),
    }
}

/// The typed value of a node, which is made of its string value, with the same faults.
fn typed_value(alloc: Global, shelf: &Shelf, id: NodeId) -> Result<Atom, ValueFault>
    requires there { IsSome (find id (shelf_trees shelf.now)) }
    ensures atom { IfOk result (λ a. typed_at (find id (shelf_trees shelf.now)) ≡ Ok a) }
    ensures code { IfErr result (λ fault. (code : Code) → fault ≡ ValueFault.Code code → typed_at (find id (shelf_trees shelf.now)) ≡ Err code) }
{
    match shelf.plain_value(id) {
        Some(plain) => plain_atom(plain),
        None => gathered_value(alloc, shelf, id),
    }
}

/// The typed value of a node whose string value stands in one text. Faults: `Memory`; `Code` with PXQ0002 where it is longer than 65,536 bytes.
pub(crate) fn plain_atom(plain: PlainValue) -> Result<Atom, ValueFault>
    ensures atom { IfOk result (λ a. bounded plain.entry.kind plain.entry.text.now ≡ Ok a) }
    ensures code { IfErr result (λ fault. (code : Code) → fault ≡ ValueFault.Code code → bounded plain.entry.kind plain.entry.text.now ≡ Err code) }
{
    if plain.text.as_str().len() > MOST_BYTES {
        return Err(Code::PXQ0002.into());
    }
    Ok(typed(plain.kind, plain.text.clone()?))
}

/// The typed value of a node, whose string value is put together first, with the same faults.
fn gathered_value(alloc: Global, shelf: &Shelf, id: NodeId) -> Result<Atom, ValueFault>
    requires there { IsSome (find id (shelf_trees shelf.now)) }
    ensures atom { IfOk result (λ a. typed_at (find id (shelf_trees shelf.now)) ≡ Ok a) }
    ensures code { IfErr result (λ fault. (code : Code) → fault ≡ ValueFault.Code code → typed_at (find id (shelf_trees shelf.now)) ≡ Err code) }
{
    match shelf.string_value_within(alloc, id, MOST_BYTES)? {
        Some(text) => Ok(typed(shelf.kind(id), Text::shared(alloc, text)?)),
        None => Err(Code::PXQ0002.into()),
    }
}

/// The typed value of a node of that kind, with that string value (Data Model, sections 6.1.2 to 6.7.2).
fn typed(kind: Kind, text: Text) -> Atom
    ensures { result ≡ typed kind text }
{
    match kind {
        Kind::Document | Kind::Element | Kind::Attribute | Kind::Text => Atom::Untyped(text),
        Kind::Comment | Kind::Instruction => Atom::String(text),
    }
}

/// The effective boolean value of items (XQuery 1.0, section 2.4.3). Code: FORG0006 where the first of several is an atomic value.
pub fn truth(items: &[Item]) -> Result<bool, Code>
    ensures { result ≡ truth items.now }
{
    match items {
        [] => Ok(false),
        [Item::Node(_), ..] => Ok(true),
        [Item::Atomic(atom)] => Ok(atom_truth(atom)),
        _ => Err(Code::FORG0006),
    }
}

/// The effective boolean value of one atomic value.
fn atom_truth(atom: &Atom) -> bool
    ensures { result ≡ atom_truth atom.now }
{
    match atom {
        Atom::String(text) | Atom::Untyped(text) => !text.as_str().is_empty(),
        Atom::Boolean(value) => *value,
        Atom::Integer(integer) => *integer != 0,
    }
}
