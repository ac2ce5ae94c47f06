//! A store, and two lists of primitives that are built for it.

ghost use Rattle.std.specs.Prelude.{◌≡◌, ◌≤◌, ◌^◌, [], OnErr};
ghost use Rattle.update_meaning.specs.Results.{IsStored};
ghost use Rattle.update_words.specs.New.{Brings};
ghost use Rattle.update_words.specs.Ready.{IsReady};

use super::primitives::Brought;
use apply::{ApplyFault, apply, prepare};
use pending::{CheckFault, ListFault, PendingList};
use std::alloc::Global;
use std::mem;
use trees::{Forest, NodeId};

/// What is done with the list.
#[derive(Clone, Copy, PartialEq, Eq, Debug)]
pub enum Way {
    /// It is applied.
    Apply,
    /// Its update is prepared and settled.
    Settle,
    /// Its update is prepared and discarded.
    Discard,
}

/// A store with the list, the other list, and the identity that the next node of a primitive takes.
#[derive(Drop)]
pub struct Desk {
    forest: Forest,
    list: PendingList,
    other: PendingList,
    next: u64,
}

impl Desk {
    /// A store with empty lists.
    pub fn new(alloc: Global, forest: Forest) -> Desk
        requires { IsStored forest.trees }
        ensures { IsReady result }
    {
        forest.bounds();
        let next = forest.next().number();
        Desk {
            forest,
            list: PendingList::new(alloc),
            other: PendingList::new(alloc),
            next,
        }
    }

    /// The store.
    pub fn forest(&self) -> &Forest
        ensures { result.now ≡ self.now.forest }
    {
        &self.forest
    }

    /// The store alone.
    pub fn into_forest(self) -> Forest
        ensures { result ≡ self.forest }
    {
        self.forest
    }

    /// The identity that the next node of a primitive takes.
    pub fn next(&self) -> u64
        ensures { result ≡ self.now.next }
    {
        self.next
    }

    /// How many primitives the list has.
    pub fn len(&self) -> usize {
        self.list.len()
    }

    /// How many primitives the list has, and how many the other one.
    pub fn lengths(&self) -> (usize, usize) {
        (self.list.len(), self.other.len())
    }

    /// Lets the next node of a primitive take a later identity.
    pub fn raise_next(&mut self, next: u64)
        requires ready { IsReady self.old }
        requires later { self.old.next ≤ next }
        requires bound { next ≤ 2 ^ 62 }
        ensures { IsReady self.new }
    {
        self.next = next;
    }

    /// Adds a primitive to the list or to the other one. After a fault its nodes' identities are free again.
    pub fn push(&mut self, brought: Brought, to_other: bool) -> Result<(), ListFault>
        requires ready { IsReady self.old }
        requires brings { Brings self.old.next brought }
        ensures { IsReady self.new }
    {
        if to_other {
            self.push_other(brought)
        } else {
            self.push_first(brought)
        }
    }

    fn push_first(&mut self, brought: Brought) -> Result<(), ListFault>
        requires ready { IsReady self.old }
        requires brings { Brings self.old.next brought }
        ensures { IsReady self.new }
    {
        let Brought { primitive, next } = brought;
        match self.list.push(primitive) {
            Ok(()) => {
                self.next = next;
                Ok(())
            }
            Err(fault) => Err(fault),
        }
    }

    fn push_other(&mut self, brought: Brought) -> Result<(), ListFault>
        requires ready { IsReady self.old }
        requires brings { Brings self.old.next brought }
        ensures { IsReady self.new }
    {
        let Brought { primitive, next } = brought;
        match self.other.push(primitive) {
            Ok(()) => {
                self.next = next;
                Ok(())
            }
            Err(fault) => Err(fault),
        }
    }

    /// Adds the other list's primitives to the list. The other list is empty then, whatever comes of it.
    pub fn merge(&mut self, alloc: Global) -> Result<(), ListFault>
        requires { IsReady self.old }
        ensures { IsReady self.new }
    {
        let other = mem::replace(&mut self.other, PendingList::new(alloc));
        match self.list.merge(other) {
            Ok(()) => Ok(()),
            Err(fault) => Err(fault),
        }
    }

    /// Whether the list is compatible.
    pub fn check(&self, alloc: Global) -> Result<(), CheckFault> {
        self.list.check(alloc)
    }

    /// Updates the store by the list, or prepares that and discards it. After an update both lists are empty.
    pub fn update(&mut self, alloc: Global, way: Way) -> Result<(), ApplyFault>
        requires { IsReady self.old }
        ensures { IsReady self.new }
    {
        match way {
            Way::Apply => self.apply(alloc),
            Way::Settle => self.settle(alloc),
            Way::Discard => self.discard(alloc),
        }
    }

    fn apply(&mut self, alloc: Global) -> Result<(), ApplyFault>
        requires { IsReady self.old }
        ensures { IsReady self.new }
    {
        self.forest.facts();
        let next = NodeId::new(self.next);
        apply(&mut self.forest, alloc, &self.list, next)?;
        self.list = PendingList::new(alloc);
        self.other = PendingList::new(alloc);
        Ok(())
    }

    fn settle(&mut self, alloc: Global) -> Result<(), ApplyFault>
        requires { IsReady self.old }
        ensures { IsReady self.new }
    {
        self.forest.facts();
        let next = NodeId::new(self.next);
        let was = mem::replace(&mut self.forest, Forest::empty(alloc, next));
        match prepare(alloc, was, &self.list, next) {
            Ok(prepared) => {
                self.forest = prepared.settle();
                self.list = PendingList::new(alloc);
                self.other = PendingList::new(alloc);
                Ok(())
            }
            Err(unprepared) => {
                self.forest = unprepared.forest;
                Err(unprepared.fault)
            }
        }
    }

    fn discard(&mut self, alloc: Global) -> Result<(), ApplyFault>
        requires { IsReady self.old }
        ensures { IsReady self.new }
    {
        self.forest.facts();
        let next = NodeId::new(self.next);
        let was = mem::replace(&mut self.forest, Forest::empty(alloc, next));
        match prepare(alloc, was, &self.list, next) {
            Ok(prepared) => {
                self.forest = prepared.discard();
                Ok(())
            }
            Err(unprepared) => {
                self.forest = unprepared.forest;
                Err(unprepared.fault)
            }
        }
    }
}
