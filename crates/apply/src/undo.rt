//! The whole of an update that can be taken back.

ghost use Rattle.std.specs.Prelude.{◌≡◌, ℕ, ◌<◌, ◌≤◌, ◌^◌, Ok, Err, map, IfOk, IfErr};
ghost use Rattle.data_model.specs.Trees.{append, count};
ghost use Rattle.fault_codes.specs.declared.code.Code.{Code as CodeTerm};
ghost use Rattle.pending.specs.Primitives.{primitive_term};
ghost use Rattle.trees.specs.Drafts.{drafted_forest};
ghost use Rattle.update_meaning.specs.Brought.{new_trees};
ghost use Rattle.update_meaning.specs.Results.{applied, IsStored};

use super::update::{ApplyFault, Unprepared, prepare};
use pending::PendingList;
use std::alloc::Global;
use trees::{Forest, NodeId, Prepared, Undo};

/// Updates a stored forest as `apply` does, and keeps what takes the update back. `back` of what it gives gives the forest as it was, its next identity
/// too; `keep` gives the forest as updated. Neither can be refused. `next` is the identity that the next node takes after the update.
///
/// Faults: `Memory`; `Code`. The forest comes back as it was.
pub fn apply_undo(
    alloc: Global,
    forest: Forest,
    list: &PendingList,
    next: NodeId,
) -> Result<Undo, Unprepared>
    requires stored { IsStored forest.trees }
    requires later { forest.next ≤ next }
    requires bound { next ≤ 2 ^ 62 }
    requires distinct { (i : ℕ) → count i (append forest.trees (new_trees (map primitive_term list.now))) ≤ 1 }
    requires below { (i : ℕ) → 0 < count i (new_trees (map primitive_term list.now)) → i < next }
    ensures applied { IfOk result (λ u. applied (map primitive_term list.now) next forest ≡ Ok u.after) }
    ensures stored { IfOk result (λ u. IsStored u.after.trees) }
    ensures before { IfOk result (λ u. u.before ≡ forest) }
    ensures code { IfErr result (λ e. (c : CodeTerm) → e.fault ≡ ApplyFault.Code c → applied (map primitive_term list.now) next forest ≡ Err c) }
    ensures refused { IfErr result (λ e. e.forest ≡ forest) }
{
    settled(alloc, prepare(alloc, forest, list, next)?)
}

/// Makes a prepared update, and keeps what takes it back. Where memory for that is refused, the forest comes back as it was.
fn settled(alloc: Global, prepared: Prepared) -> Result<Undo, Unprepared>
    ensures before { IfOk result (λ u. u.before ≡ prepared.before) }
    ensures after { IfOk result (λ u. u.after ≡ drafted_forest prepared) }
    ensures fault { IfErr result (λ e. e.fault ≡ ApplyFault.Memory) }
    ensures refused { IfErr result (λ e. e.forest ≡ prepared.before) }
{
    match prepared.settle_with_undo(alloc) {
        Ok(undo) => Ok(undo),
        Err(forest) => Err(Unprepared {
            forest,
            fault: ApplyFault::Memory,
        }),
    }
}
