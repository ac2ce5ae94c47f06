//! Sequences of items (XQuery 1.0 and XPath 2.0 Data Model, section 2.1).

ghost use Rattle.std.specs.Prelude.{◌≡◌, ◌≤◌, ◌<◌, ◌^◌, ◌+ℤ◌, pos, ℕ, ◌∷◌, [], ◌++◌, length, map, FitsSigned, Ok, Err, IfOk, IfErr, OnOk, OnErr};
ghost use Rattle.std.specs.Int.{w64};
ghost use Rattle.std.specs.List.{range_with_len};
ghost use Rattle.values.specs.declared.atom.Atom.TheVariants as atom;
ghost use Rattle.values.specs.declared.atom.Item.TheVariants as item;
ghost use Rattle.fault_codes.specs.declared.code.Code.{Code};
ghost use Rattle.values.specs.declared.fault.ValueFault.{ValueFault};
ghost use Rattle.query_meaning.specs.Operators.{nodes};
ghost use Rattle.query_meaning.specs.Running.{most_items, within};
ghost use Rattle.evaluation.specs.Gives.{Fails, Judged, Says};
ghost use Rattle.evaluation.specs.Held.{items_of};

use fault_codes::Code;
use std::alloc::{AllocError, Global};
use std::marker::Model;
use std::{mem, slice};
use trees::NodeId;
use values::{Atom, Item, ValueFault};

/// The most items in a sequence (our own limit).
pub const MOST_ITEMS: usize = 10_000;

/// The items of an expression's value, at most 10,000. Contracts see them as a list.
pub struct Sequence {
    alloc: Global,
    items: Held,
}

// By one call, whose contract is all that a caller's proof sees of it.
impl Drop for Sequence {
    fn drop(self) {
        let Sequence { alloc: _, items: _ } = self;
    }
}

/// Items as they are held. One alone takes no piece of memory, and most values are of one item.
#[derive(Drop)]
enum Held {
    /// One item.
    Single(Item),
    /// As many as there are.
    Many(Vec<Item>),
}

impl Model for Sequence {
    ghost use Rattle.std.specs.Prelude.{List, length, ◌≤◌};
    ghost use Rattle.std.specs.Coded.{coded_list};
    ghost use Rattle.values.specs.declared.atom.Item.{Item};
    ghost use Rattle.values.specs.contracts.atom.Item as item;
    ghost use Rattle.query_meaning.specs.Running.{most_items};

    ghost Value = { List Item };

    ghost coded = { coded_list item.the_row.coded };

    ghost use Rattle.evaluation.specs.Held.{items_of};

    ghost view = { λ s. items_of s.items };

    ghost invariant = { λ s. length (items_of s.items) ≤ most_items };
}

impl Sequence {
    /// No items. It takes no memory.
    #[tactic(auto, unfolding(query_meaning::specs::Running::most_items))]
    pub fn new(alloc: Global) -> Sequence
        ensures { result ≡ [] }
    {
        Sequence {
            alloc,
            items: Held::Many(Vec::new(alloc)),
        }
    }

    /// One item. It fails where memory is refused.
    #[tactic(auto, unfolding(query_meaning::specs::Running::most_items))]
    pub fn one(alloc: Global, item: Item) -> Result<Sequence, AllocError>
        ensures { IfOk result (λ s. s ≡ item ∷ []) }
    {
        Ok(Sequence {
            alloc,
            items: Held::Single(item),
        })
    }

    /// These items. It takes no memory. Code: PXQ0002 where they are more than 10,000.
    #[tactic(auto, unfolding(query_meaning::specs::Running::most_items))]
    pub fn of(items: Vec<Item>) -> Result<Sequence, Code>
        ensures { result ≡ within items.items }
    {
        if items.len() > MOST_ITEMS {
            return Err(Code::PXQ0002);
        }
        Ok(Sequence {
            alloc: *items.allocator(),
            items: Held::Many(items),
        })
    }

    /// The items that nodes are. One alone takes no memory. Faults: `Memory`; `Code` with PXQ0002 where they are more than 10,000.
    pub fn of_nodes(alloc: Global, ids: &[NodeId]) -> Result<Sequence, ValueFault>
        ensures items { Says (within (nodes ids.now)) result }
        ensures judged { Judged (within (nodes ids.now)) result }
    {
        if ids.len() > MOST_ITEMS {
            return Err(ValueFault::Code(Code::PXQ0002));
        }
        if let [id] = ids {
            return Ok(Sequence::one(alloc, Item::Node(*id))?);
        }
        let items = node_items(alloc, ids)?;
        Ok(Sequence::of(items)?)
    }

    /// So many integers from the first on. It fails where memory is refused.
    #[tactic(auto, unfolding(query_meaning::specs::Running::most_items))]
    pub fn integers(alloc: Global, first: i64, count: usize) -> Result<Sequence, AllocError>
        requires most { count ≤ most_items }
        requires range { (k : ℕ) → k < count → FitsSigned w64 (first +ℤ pos k) }
        ensures { IfOk result (λ s. s ≡ map (λ k. item.Atomic (atom.Integer (first +ℤ pos k))) (range_with_len 0 count)) }
    {
        let mut items = Vec::with_capacity(alloc, count)?;
        for offset in 0..count {
            items.push(nth(first, offset))?;
        }
        Ok(Sequence {
            alloc,
            items: Held::Many(items),
        })
    }

    /// The items.
    pub fn as_slice(&self) -> &[Item]
        ensures items { result.now ≡ self.now }
        ensures most { length self.now ≤ most_items }
    {
        match &self.items {
            Held::Single(item) => slice::from_ref(item),
            Held::Many(items) => items.as_slice(),
        }
    }

    /// The items of the one, then those of the other. Faults: `Memory`; `Code` with PXQ0002 where they are more than 10,000.
    #[tactic(auto, unfolding(query_meaning::specs::Running::most_items))]
    pub fn joined(self, other: Sequence) -> Result<Sequence, ValueFault>
        ensures joined { Says (within (self ++ other)) result }
        ensures judged { Judged (within (self ++ other)) result }
    {
        let (count, others) = (self.as_slice().len(), other.as_slice().len());
        if MOST_ITEMS - count < others {
            return Err(ValueFault::Code(Code::PXQ0002));
        }
        if count == 0 {
            return Ok(other);
        }
        if others == 0 {
            return Ok(self);
        }
        let Sequence { alloc, items } = self;
        let mut items = listed(alloc, items)?;
        let Sequence {
            alloc: _,
            items: last,
        } = other;
        put_last(&mut items, last)?;
        Ok(Sequence {
            alloc,
            items: Held::Many(items),
        })
    }

    /// Adds an item at the end. Faults: `Memory`; `Code` with PXQ0002 where there are 10,000. What is left after a fault is not said.
    #[tactic(auto, unfolding(query_meaning::specs::Running::most_items))]
    pub fn push(&mut self, item: Item) -> Result<(), ValueFault>
        ensures added { OnOk result (within (self.old ++ item ∷ []) ≡ Ok self.new) }
        ensures code { IfErr result (λ fault. Fails (within (self.old ++ item ∷ [])) fault) }
        ensures judged { Judged (within (self.old ++ item ∷ [])) result }
    {
        let count = self.as_slice().len();
        if count >= MOST_ITEMS {
            return Err(ValueFault::Code(Code::PXQ0002));
        }
        if count == 0 {
            self.items = Held::Single(item);
            return Ok(());
        }
        if let Held::Many(items) = &mut self.items {
            items.push(item)?;
            return Ok(());
        }
        let mut items = self.taken()?;
        items.push(item)?;
        self.items = Held::Many(items);
        Ok(())
    }

    /// Adds other items at the end. Faults: `Memory`; `Code` with PXQ0002 where they are more than 10,000. What is left after a fault is not said.
    pub fn append(&mut self, other: Sequence) -> Result<(), ValueFault>
        ensures joined { OnOk result (within (self.old ++ other) ≡ Ok self.new) }
        ensures code { IfErr result (λ fault. Fails (within (self.old ++ other)) fault) }
        ensures judged { Judged (within (self.old ++ other)) result }
    {
        let Sequence { alloc: _, items } = other;
        match items {
            Held::Single(item) => self.push(item),
            Held::Many(items) => self.append_list(items),
        }
    }

    /// Adds those of a list.
    #[tactic(auto, unfolding(query_meaning::specs::Running::most_items))]
    fn append_list(&mut self, mut others: Vec<Item>) -> Result<(), ValueFault>
        ensures joined { OnOk result (within (self.old ++ others.items) ≡ Ok self.new) }
        ensures code { IfErr result (λ fault. Fails (within (self.old ++ others.items)) fault) }
        ensures judged { Judged (within (self.old ++ others.items)) result }
    {
        let count = self.as_slice().len();
        if MOST_ITEMS - count < others.len() {
            return Err(ValueFault::Code(Code::PXQ0002));
        }
        if count == 0 {
            self.items = Held::Many(others);
            return Ok(());
        }
        if let Held::Many(items) = &mut self.items {
            items.append(&mut others)?;
            return Ok(());
        }
        let mut items = self.taken()?;
        items.append(&mut others)?;
        self.items = Held::Many(items);
        Ok(())
    }

    /// Takes the items out, and leaves none. It fails where memory is refused, and then what is left is not said.
    fn taken(&mut self) -> Result<Vec<Item>, AllocError>
        ensures { IfOk result (λ v. v.items ≡ self.old) }
    {
        let alloc = self.alloc;
        let items = mem::replace(&mut self.items, Held::Many(Vec::new(alloc)));
        listed(alloc, items)
    }

    /// The items, and one more. Faults: `Memory`; `Code` with PXQ0002 where there are 10,000.
    #[tactic(auto, unfolding(query_meaning::specs::Running::most_items))]
    pub fn and(self, item: Item) -> Result<Sequence, ValueFault>
        ensures added { Says (within (self ++ item ∷ [])) result }
        ensures judged { Judged (within (self ++ item ∷ [])) result }
    {
        let count = self.as_slice().len();
        if count >= MOST_ITEMS {
            return Err(ValueFault::Code(Code::PXQ0002));
        }
        let Sequence { alloc, items } = self;
        if count == 0 {
            return Ok(Sequence::one(alloc, item)?);
        }
        let mut items = listed(alloc, items)?;
        items.push(item)?;
        Ok(Sequence {
            alloc,
            items: Held::Many(items),
        })
    }

    /// The same items. It fails where memory is refused.
    pub fn copy(&self, alloc: Global) -> Result<Sequence, AllocError>
        ensures { IfOk result (λ s. s ≡ self.now) }
    {
        let items = match &self.items {
            Held::Single(item) => Held::Single(item.clone()?),
            Held::Many(items) => Held::Many(copies(alloc, items)?),
        };
        Ok(Sequence { alloc, items })
    }
}

/// The items that nodes are. It fails where memory is refused.
fn node_items(alloc: Global, ids: &[NodeId]) -> Result<Vec<Item>, AllocError>
    ensures { IfOk result (λ v. v.items ≡ nodes ids.now) }
{
    let mut items = Vec::with_capacity(alloc, ids.len())?;
    for id in ids {
        items.push(Item::Node(*id))?;
    }
    Ok(items)
}

/// Puts items at the end of a list. It fails where memory is refused, and then nothing changes.
fn put_last(list: &mut Vec<Item>, items: Held) -> Result<(), ValueFault>
    ensures put { OnOk result (list.new.items ≡ list.old.items ++ items_of items) }
    ensures memory { IfErr result (λ fault. fault ≡ ValueFault.Memory) }
    ensures refused { OnErr result (list.new.items ≡ list.old.items) }
{
    match items {
        Held::Single(item) => list.push(item)?,
        Held::Many(mut others) => list.append(&mut others)?,
    }
    Ok(())
}

/// The items in a list. It fails where memory is refused.
fn listed(alloc: Global, items: Held) -> Result<Vec<Item>, AllocError>
    ensures { IfOk result (λ v. v.items ≡ items_of items) }
{
    match items {
        Held::Single(item) => {
            let mut list = Vec::new(alloc);
            list.push(item)?;
            Ok(list)
        }
        Held::Many(list) => Ok(list),
    }
}

/// The integer that is so many after the first.
fn nth(first: i64, offset: usize) -> Item
    requires range { FitsSigned w64 (first +ℤ pos offset) }
    requires most { offset < 2 ^ 32 }
    ensures { result ≡ item.Atomic (atom.Integer (first +ℤ pos offset)) }
{
    Item::Atomic(Atom::Integer(first + offset as i64))
}

/// The same items. It fails where memory is refused.
fn copies(alloc: Global, items: &[Item]) -> Result<Vec<Item>, AllocError>
    ensures { IfOk result (λ v. v.items ≡ items.now) }
{
    let mut copies = Vec::with_capacity(alloc, items.len())?;
    for item in items {
        copies.push(item.clone()?)?;
    }
    Ok(copies)
}
