//! Items, however many.

ghost use Rattle.std.specs.Prelude.{◌≡◌, ◌≤◌, ◌+◌, [], length, map, reverse, IfOk};
ghost use Rattle.values.specs.declared.atom.Item.TheVariants as item;
ghost use Rattle.query_meaning.specs.Operators.{nodes};
ghost use Rattle.query_meaning.specs.Paths.{and_if};
ghost use Rattle.query_meaning.specs.Running.{within};
ghost use Rattle.evaluation.specs.Gives.{Says};

use evaluation::Sequence;
use std::alloc::{AllocError, Global};
use std::marker::Model;
use trees::NodeId;
use values::{Atom, Item, ValueFault};

/// Items, however many. Contracts see them as a list.
#[derive(Drop)]
pub(crate) struct Kept {
    items: Vec<Item>,
}

impl Model for Kept {
    ghost use Rattle.std.specs.Prelude.{List};
    ghost use Rattle.std.specs.Coded.{coded_list};
    ghost use Rattle.values.specs.declared.atom.Item.{Item};
    ghost use Rattle.values.specs.contracts.atom.Item as item;

    ghost Value = { List Item };

    ghost coded = { coded_list item.the_row.coded };

    ghost view = { λ k. k.items.items };
}

impl Kept {
    /// No items. It takes no memory.
    pub(crate) fn new(alloc: Global) -> Kept
        ensures { result ≡ [] }
    {
        Kept {
            items: Vec::new(alloc),
        }
    }

    /// The items that nodes are. It fails where memory is refused.
    pub(crate) fn of_nodes(alloc: Global, ids: &[NodeId]) -> Result<Kept, AllocError>
        ensures { IfOk result (λ kept. kept ≡ nodes ids.now) }
    {
        let mut items = Vec::with_capacity(alloc, ids.len())?;
        for id in ids {
            items.push(Item::Node(*id))?;
        }
        Ok(Kept { items })
    }

    /// The items that atomic values are. It fails where memory is refused.
    pub(crate) fn of_atoms(alloc: Global, atoms: &[Atom]) -> Result<Kept, AllocError>
        ensures { IfOk result (λ kept. kept ≡ map (λ a. item.Atomic a) atoms.now) }
    {
        let mut items = Vec::with_capacity(alloc, atoms.len())?;
        for atom in atoms {
            items.push(Item::Atomic(atom.clone()?))?;
        }
        Ok(Kept { items })
    }

    /// The items from the last to the first.
    pub(crate) fn reversed(self) -> Kept
        ensures { result ≡ reverse self }
    {
        let Kept { mut items } = self;
        items.reverse();
        Kept { items }
    }

    /// One item more, if it is kept. It fails where memory is refused.
    pub(crate) fn and_if(self, is_kept: bool, item: &Item) -> Result<Kept, AllocError>
        ensures kept { IfOk result (λ kept. kept ≡ and_if is_kept self item.now) }
        ensures few { IfOk result (λ kept. length kept ≤ length self + 1) }
    {
        let Kept { mut items } = self;
        if is_kept {
            items.push(item.clone()?)?;
        }
        Ok(Kept { items })
    }

    /// The items.
    pub(crate) fn as_slice(&self) -> &[Item]
        ensures { result.now ≡ self.now }
    {
        &self.items
    }

    /// The items as a sequence. It takes no memory. Code: PXQ0002 where they are more than 10,000.
    pub(crate) fn into_sequence(self) -> Result<Sequence, ValueFault>
        ensures { Says (within self) result }
    {
        let Kept { items } = self;
        Ok(Sequence::of(items)?)
    }
}
