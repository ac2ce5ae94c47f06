//! Rows on updates that are taken back: `undo PRIMITIVE ..` updates the store by a list of these primitives and takes the update back, and then makes it
//! again and keeps it. The primitives' nodes take identities from the store's next one on.
//!
//! It prints `done`, how many nodes there were while the store was changed, whether it was as before after the update was taken back, and the store in
//! which the update is kept; or the code, and whether the store is as it was.

ghost use Rattle.std.specs.Prelude.{◌≡◌, ◌≤◌, ◌^◌, IfOk, OnOk, OnErr};
ghost use Rattle.update_meaning.specs.Results.{IsStored};
ghost use Rattle.update_words.specs.New.{Brings};
ghost use Rattle.update_rows.specs.Ready.{IsListed};

use apply::{ApplyFault, apply_undo};
use pending::{ListFault, PendingList};
use rows::{RowFault, Words};
use std::alloc::Global;
use std::mem;
use trees::{Forest, NodeId};
use update_words::{Brought, opened, printed, read_primitive};

/// The most primitives of a row.
const MOST_TAKEN: u32 = 100_000;

/// A store, the list that is to update it, and the identity that the next node of a primitive takes.
#[derive(Drop)]
pub(super) struct Listed {
    forest: Forest,
    list: PendingList,
    next: u64,
}

impl Listed {
    /// A store with an empty list.
    fn new(alloc: Global, forest: Forest) -> Listed
        requires { IsStored forest.trees }
        ensures { IsListed result }
    {
        forest.bounds();
        let next = forest.next().number();
        Listed {
            forest,
            list: PendingList::new(alloc),
            next,
        }
    }

    /// Adds a primitive to the list. Faults: `NotARow` where it has no place, and `Memory`.
    fn push(&mut self, brought: Brought) -> Result<(), RowFault>
        requires ready { IsListed self.old }
        requires brings { Brings self.old.next brought }
        ensures { OnOk result (IsListed self.new) }
    {
        let Brought { primitive, next } = brought;
        match self.list.push(primitive) {
            Ok(()) => {
                self.next = next;
                Ok(())
            }
            Err(ListFault::Memory) => Err(RowFault::Memory),
            Err(ListFault::TooMany) => Err(RowFault::NotARow),
        }
    }

    /// Updates the store by the list, and takes the update back. Gives how many nodes there were meanwhile.
    fn go_back(&mut self, alloc: Global) -> Result<u64, ApplyFault>
        requires { IsListed self.old }
        ensures { IsListed self.new }
    {
        self.forest.facts();
        let next = NodeId::new(self.next);
        let was = mem::replace(&mut self.forest, Forest::empty(alloc, next));
        match apply_undo(alloc, was, &self.list, next) {
            Ok(undo) => {
                let nodes = undo.len();
                self.forest = undo.back();
                Ok(nodes)
            }
            Err(unprepared) => {
                self.forest = unprepared.forest;
                Err(unprepared.fault)
            }
        }
    }

    /// The same, made again where memory is refused.
    fn go_back_again(&mut self, alloc: Global) -> Result<u64, ApplyFault>
        requires { IsListed self.old }
        ensures { IsListed self.new }
    {
        match self.go_back(alloc) {
            Err(ApplyFault::Memory) => self.go_back(alloc),
            given => given,
        }
    }

    /// Updates the store by the list, and keeps the update.
    fn keep(&mut self, alloc: Global) -> Result<(), ApplyFault>
        requires { IsListed self.old }
        ensures { OnErr result (IsListed self.new) }
    {
        self.forest.facts();
        let next = NodeId::new(self.next);
        let was = mem::replace(&mut self.forest, Forest::empty(alloc, next));
        match apply_undo(alloc, was, &self.list, next) {
            Ok(undo) => {
                self.forest = undo.keep();
                Ok(())
            }
            Err(unprepared) => {
                self.forest = unprepared.forest;
                Err(unprepared.fault)
            }
        }
    }
}

/// What a row on an update that is taken back prints, on the store of that description.
pub(super) fn undone(alloc: Global, described: &str, words: Words<'_>) -> Result<String, RowFault> {
    let desk = opened(alloc, described)?;
    let listed = with_list(alloc, Listed::new(alloc, desk.into_forest()), words)?;
    taken_back(alloc, listed, described)
}

/// The store with the list of the primitives that the words spell. Faults: `NotARow` and `Memory`.
fn with_list(alloc: Global, listed: Listed, words: Words<'_>) -> Result<Listed, RowFault>
    requires { IsListed listed }
    ensures { IfOk result IsListed }
{
    let mut listed = listed;
    let mut words = words;
    for _ in 0..MOST_TAKEN {
        if words.is_empty() {
            return Ok(listed);
        }
        let brought = read_primitive(alloc, &mut words, &listed.forest, 0, listed.next)?;
        listed.push(brought)?;
    }
    Err(RowFault::NotARow)
}

/// Makes the update and takes it back, again where memory is refused, and gives what the row prints.
fn taken_back(alloc: Global, listed: Listed, described: &str) -> Result<String, RowFault>
    requires { IsListed listed }
{
    let mut listed = listed;
    let before = printed::store(alloc, &listed.forest, described)?;
    let gone = listed.go_back_again(alloc);
    let is_same = printed::store(alloc, &listed.forest, described)? == before;
    let same = if is_same { "same" } else { "changed" };
    match gone {
        Ok(nodes) => {
            let after = kept(alloc, listed, described)?;
            Ok(format!(in alloc; "done | {nodes} nodes | {same} | {after}")?)
        }
        Err(ApplyFault::Code(code)) => Ok(format!(in alloc; "{code} | {same}")?),
        Err(ApplyFault::Memory) => Err(RowFault::Memory),
    }
}

/// Makes the update, again where memory is refused, and gives the store in which it is kept, or that it has not been made.
fn kept(alloc: Global, listed: Listed, described: &str) -> Result<String, RowFault>
    requires { IsListed listed }
{
    let mut listed = listed;
    let mut kept = listed.keep(alloc);
    if kept == Err(ApplyFault::Memory) {
        kept = listed.keep(alloc);
    }
    match kept {
        Ok(()) => printed::store(alloc, &listed.forest, described),
        Err(ApplyFault::Code(code)) => Ok(code.to_string(alloc)?),
        Err(ApplyFault::Memory) => Err(RowFault::Memory),
    }
}
