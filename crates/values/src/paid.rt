//! Typed values that are taken for their work.

ghost use Rattle.std.specs.Prelude.{◌≡◌, ◌≤◌, Ok, Err, IfOk, IfErr, IsErrOf};
ghost use Rattle.shelves.specs.Shelf.{shelf_trees};
ghost use Rattle.fault_codes.specs.declared.code.Code.{Code};
ghost use Rattle.values.specs.declared.fault.ValueFault.{ValueFault};
ghost use Rattle.values.specs.Atoms.{bounded};
ghost use Rattle.values.specs.Items.{IsThere};
ghost use Rattle.values.specs.Paid.{less, nodes_in, paid, paid_atom};

use super::atom::{Atom, Item, atomize_item, plain_atom};
use super::fault::ValueFault;
use super::work::atom_work;
use fault_codes::Code;
use shelves::Shelf;
use std::alloc::Global;
use trees::{NodeId, PlainValue};

/// The typed value of an item (XQuery 1.0, section 2.4.2), which takes a unit of work for each node of a node's tree, and that of its text. Faults:
/// `Memory`; `Code` with PXQ0002 where the string value of a node is longer than 65,536 bytes, or where less work is left.
pub fn paid_atom(
    alloc: Global,
    shelf: &Shelf,
    item: &Item,
    work: &mut u64,
) -> Result<Atom, ValueFault>
    requires there { IsThere (shelf_trees shelf.now) item.now }
    ensures atom { IfOk result (λ a. paid_atom (shelf_trees shelf.now) item.now work.old ≡ Ok (a, work.new)) }
    ensures code { IfErr result (λ fault. (code : Code) → fault ≡ ValueFault.Code code → paid_atom (shelf_trees shelf.now) item.now work.old ≡ Err code) }
    ensures judged { IsErrOf result ValueFault.Memory → nodes_in (shelf_trees shelf.now) item.now ≤ work.old }
    ensures less { work.new ≤ work.old }
{
    match item {
        Item::Atomic(value) => {
            *work = less(atom_work(value), *work)?;
            Ok(value.clone()?)
        }
        Item::Node(node) => match shelf.plain_value(*node) {
            Some(plain) => plain_paid(plain, work),
            None => gathered_paid(alloc, shelf, *node, item, work),
        },
    }
}

/// The same of a node whose string value stands in one text.
fn plain_paid(plain: PlainValue, work: &mut u64) -> Result<Atom, ValueFault>
    ensures atom { IfOk result (λ a. paid plain.entry.size (bounded plain.entry.kind plain.entry.text.now) work.old ≡ Ok (a, work.new)) }
    ensures code { IfErr result (λ fault. (code : Code) → fault ≡ ValueFault.Code code → paid plain.entry.size (bounded plain.entry.kind plain.entry.text.now) work.old ≡ Err code) }
    ensures judged { IsErrOf result ValueFault.Memory → plain.entry.size ≤ work.old }
    ensures less { work.new ≤ work.old }
{
    // What stands in one text is read by the look-ups that count its nodes too.
    let left = less(plain.size, *work)?;
    let atom = plain_atom(plain)?;
    *work = less(atom_work(&atom), left)?;
    Ok(atom)
}

/// The same of any node, which is the item.
fn gathered_paid(
    alloc: Global,
    shelf: &Shelf,
    node: NodeId,
    item: &Item,
    work: &mut u64,
) -> Result<Atom, ValueFault>
    requires is { item.now ≡ Item.Node node }
    requires there { IsThere (shelf_trees shelf.now) item.now }
    ensures atom { IfOk result (λ a. paid_atom (shelf_trees shelf.now) item.now work.old ≡ Ok (a, work.new)) }
    ensures code { IfErr result (λ fault. (code : Code) → fault ≡ ValueFault.Code code → paid_atom (shelf_trees shelf.now) item.now work.old ≡ Err code) }
    ensures judged { IsErrOf result ValueFault.Memory → nodes_in (shelf_trees shelf.now) item.now ≤ work.old }
    ensures less { work.new ≤ work.old }
{
    let left = less(shelf.size_of(node), *work)?;
    let atom = atomize_item(alloc, shelf, item)?;
    *work = less(atom_work(&atom), left)?;
    Ok(atom)
}

/// So much work without some units of it. Code: PXQ0002 where it is less.
fn less(units: u64, work: u64) -> Result<u64, Code>
    ensures ok { IfOk result (λ left. less units work ≡ Ok left) }
    ensures code { IfErr result (λ code. less units work ≡ Err code) }
{
    work.checked_sub(units).ok_or(Code::PXQ0002)
}
