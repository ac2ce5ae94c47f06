//! Roots of copies.

ghost use Rattle.std.specs.Prelude.{◌≡◌, ℕ, ◌||◌, ◌==◌, IfOk, OnOk};
ghost use Rattle.pending.specs.Compatible.{is_among};

use indexmap::IndexSet;
use std::alloc::{AllocError, Global};
use std::marker::Model;
use trees::NodeId;

/// Roots of copies in a list, which is looked up in a set. Contracts see the list.
#[derive(Drop)]
pub(crate) struct CopyRoots {
    list: Vec<NodeId>,
    set: IndexSet<u64>,
}

impl Model for CopyRoots {
    ghost use Rattle.std.specs.Prelude.{◌≡◌, ℕ, List};
    ghost use Rattle.std.specs.Coded.{coded_list, coded_ℕ};
    ghost use Rattle.pending.specs.Compatible.{is_among};

    ghost Value = { List ℕ };

    ghost coded = { coded_list coded_ℕ };

    ghost view = { λ a. a.list.items };

    ghost invariant = { λ a. (i : ℕ) → is_among a.set.keys i ≡ is_among a.list.items i };
}

impl CopyRoots {
    /// These roots. It fails where memory is refused.
    pub(crate) fn new(alloc: Global, list: Vec<NodeId>) -> Result<CopyRoots, AllocError>
        ensures { IfOk result (λ roots. roots ≡ list.items) }
    {
        let set = set_of(alloc, &list)?;
        Ok(CopyRoots { list, set })
    }

    /// Whether a node is among them.
    pub(crate) fn has(&self, node: NodeId) -> bool
        ensures { result ≡ is_among self.now node }
    {
        self.set.contains(&node.number())
    }

    /// The list.
    pub(crate) fn as_slice(&self) -> &[NodeId]
        ensures { result.now ≡ self.now }
    {
        &self.list
    }
}

/// The numbers of identities. It fails where memory is refused.
fn set_of(alloc: Global, list: &[NodeId]) -> Result<IndexSet<u64>, AllocError>
    ensures { IfOk result (λ set. (i : ℕ) → is_among set.keys i ≡ is_among list.now i) }
{
    let mut set = IndexSet::new(alloc);
    for node in list {
        add(&mut set, *node)?;
    }
    Ok(set)
}

/// One number more. It fails where memory is refused.
fn add(set: &mut IndexSet<u64>, node: NodeId) -> Result<(), AllocError>
    ensures { OnOk result ((i : ℕ) → is_among set.new.keys i ≡ ((i == node) || is_among set.old.keys i)) }
{
    set.insert(node.number())?;
    Ok(())
}
