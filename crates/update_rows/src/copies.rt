//! Rows on copies: `copies TARGET .. do PRIMITIVE ..` copies the nodes at these places of the store, one after the other, and updates the copies by a
//! list of these primitives. The copies' nodes take identities from the store's next one on, and the primitives' nodes those after them.
//!
//! It prints `done`, the copies and then the store; or the code, and whether copies and store are as they were.

ghost use Rattle.std.specs.Prelude.{◌≡◌, ◌≤◌, ◌^◌, true, false, IfOk, OnOk, OnErr};
ghost use Rattle.std.specs.List.{All};
ghost use Rattle.chosen_drafts.specs.Chosen.{IsRoot};
ghost use Rattle.pending.specs.Compatible.{is_among, has_repeat};
ghost use Rattle.update_words.specs.New.{Brings};
ghost use Rattle.update_rows.specs.Ready.{AreReady};

use apply::{ApplyFault, apply_copies};
use fault_codes::Code;
use pending::{ListFault, PendingList};
use rows::{RowFault, Words};
use std::alloc::Global;
use trees::{Forest, MakeFault, NodeId};
use update_words::{Brought, opened, printed, read_primitive, read_target};

/// The most copies of a row, and the most primitives.
const MOST_TAKEN: u32 = 100_000;

/// A forest with copies in it, the list that is to update them, and the identity that the next node of a primitive takes.
#[derive(Drop)]
pub(super) struct Copies {
    forest: Forest,
    roots: Vec<NodeId>,
    list: PendingList,
    next: u64,
}

impl Copies {
    /// Copies in a forest, by their roots, and an empty list. Fault: `NotARow` where they are no roots, or one is among them twice.
    fn new(alloc: Global, forest: Forest, roots: Vec<NodeId>) -> Result<Copies, RowFault>
        ensures { IfOk result AreReady }
    {
        if has_repeat(&roots) || !are_roots(&forest, &roots) {
            return Err(RowFault::NotARow);
        }
        forest.bounds();
        let next = forest.next().number();
        Ok(Copies {
            forest,
            roots,
            list: PendingList::new(alloc),
            next,
        })
    }

    /// Adds a primitive to the list. Faults: `NotARow` where it has no place, and `Memory`.
    fn push(&mut self, brought: Brought) -> Result<(), RowFault>
        requires ready { AreReady self.old }
        requires brings { Brings self.old.next brought }
        ensures { OnOk result (AreReady self.new) }
    {
        let Brought { primitive, next } = brought;
        match self.list.push(primitive) {
            Ok(()) => {
                self.next = next;
                Ok(())
            }
            Err(ListFault::Memory) => Err(RowFault::Memory),
            Err(ListFault::TooMany) => Err(RowFault::NotARow),
        }
    }

    /// Updates the copies by the list.
    fn update(&mut self, alloc: Global) -> Result<(), ApplyFault>
        requires { AreReady self.old }
        ensures { OnErr result (AreReady self.new) }
    {
        self.forest.facts();
        let next = NodeId::new(self.next);
        apply_copies(&mut self.forest, alloc, &self.roots, &self.list, next)
    }

    /// The copies, and then the store of that description.
    fn printed(&self, alloc: Global, described: &str) -> Result<String, RowFault> {
        let mut out = printed::trees(alloc, &self.forest, &self.roots)?;
        let store = printed::store(alloc, &self.forest, described)?;
        out.push_str("| ")?;
        out.push_str(store.as_str())?;
        Ok(out)
    }
}

/// Whether a node stands there and has no parent.
fn is_root(forest: &Forest, id: NodeId) -> bool
    ensures { result ≡ true → IsRoot forest.now.trees id }
{
    match forest.node(id) {
        Some(view) => view.parent.is_none(),
        None => false,
    }
}

/// Whether all of these nodes stand there and have no parent.
fn are_roots(forest: &Forest, ids: &[NodeId]) -> bool
    ensures { result ≡ true → All (IsRoot forest.now.trees) ids.now }
{
    for id in ids {
        if !is_root(forest, *id) {
            return false;
        }
    }
    true
}

/// Whether a node is among these.
fn is_among(ids: &[NodeId], id: NodeId) -> bool
    ensures { result ≡ is_among ids.now id }
{
    ids.iter().any(|other| id == *other)
}

/// Whether a node is among these twice.
fn has_repeat(ids: &[NodeId]) -> bool
    ensures { result ≡ has_repeat ids.now }
{
    for at in 0..ids.len() {
        if is_among(&ids[at + 1..], ids[at]) {
            return true;
        }
    }
    false
}

/// What a row on copies prints, on the store of that description.
pub(super) fn copied(alloc: Global, described: &str, words: Words<'_>) -> Result<String, RowFault> {
    let mut words = words;
    let mut forest = opened(alloc, described)?.into_forest();
    let roots = copy_all(alloc, &mut forest, &mut words)?;
    let copies = Copies::new(alloc, forest, roots)?;
    let copies = with_list(alloc, copies, words)?;
    updated(alloc, copies, described)
}

/// `TARGET .. do`: makes copies of these nodes, one after the other, and gives their roots. Faults: `NotARow` and `Memory`.
fn copy_all(
    alloc: Global,
    forest: &mut Forest,
    words: &mut Words<'_>,
) -> Result<Vec<NodeId>, RowFault> {
    let mut roots = Vec::new(alloc);
    for _ in 0..MOST_TAKEN {
        let mut ahead = *words;
        if ahead.plain()? == "do" {
            *words = ahead;
            return Ok(roots);
        }
        let id = read_target(words, forest, 0)?;
        roots.push(copy_of(alloc, forest, id)?)?;
    }
    Err(RowFault::NotARow)
}

/// Makes a copy of a node, and gives its root. Faults: `NotARow` where there is no such node, and `Memory`.
fn copy_of(alloc: Global, forest: &mut Forest, id: NodeId) -> Result<NodeId, RowFault> {
    if !forest.has(id) {
        return Err(RowFault::NotARow);
    }
    let lent = Forest::empty(alloc, NodeId::new(0));
    match forest.copy_from(alloc, &lent, id) {
        Ok(root) => Ok(root),
        Err(MakeFault::Memory) => Err(RowFault::Memory),
        Err(MakeFault::Limit) => Err(RowFault::NotARow),
    }
}

/// The copies with the list of the primitives that the words spell. Faults: `NotARow` and `Memory`.
fn with_list(alloc: Global, copies: Copies, words: Words<'_>) -> Result<Copies, RowFault>
    requires { AreReady copies }
    ensures { IfOk result AreReady }
{
    let mut copies = copies;
    let mut words = words;
    for _ in 0..MOST_TAKEN {
        if words.is_empty() {
            return Ok(copies);
        }
        let brought = read_primitive(alloc, &mut words, &copies.forest, 0, copies.next)?;
        copies.push(brought)?;
    }
    Err(RowFault::NotARow)
}

/// Updates the copies, again where memory is refused, and gives what the row prints. A refused update is to leave copies and store as they were.
fn updated(alloc: Global, copies: Copies, described: &str) -> Result<String, RowFault>
    requires { AreReady copies }
{
    let mut copies = copies;
    let before = copies.printed(alloc, described)?;
    let mut updated = copies.update(alloc);
    if let Err(ApplyFault::Memory) = updated {
        if copies.printed(alloc, described)? != before {
            return Ok(String::from_str(alloc, "changed")?);
        }
        updated = copies.update(alloc);
    }
    let after = copies.printed(alloc, described)?;
    match updated {
        Ok(()) => Ok(format!(in alloc; "done | {after}")?),
        Err(ApplyFault::Code(code)) => refused(alloc, code, after == before),
        Err(ApplyFault::Memory) => Err(RowFault::Memory),
    }
}

/// The code, and whether all is as it was.
fn refused(alloc: Global, code: Code, is_same: bool) -> Result<String, RowFault> {
    let kept = if is_same { "same" } else { "changed" };
    Ok(format!(in alloc; "{code} | {kept}")?)
}
