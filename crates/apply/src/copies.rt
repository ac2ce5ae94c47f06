//! The whole of an update of copies.

ghost use Rattle.std.specs.Prelude.{◌≡◌, ℕ, ◌<◌, ◌≤◌, ◌^◌, false, Ok, Err, map, IfOk, IfErr, OnOk, OnErr};
ghost use Rattle.std.specs.List.{All};
ghost use Rattle.chosen_drafts.specs.Chosen.{IsRoot};
ghost use Rattle.data_model.specs.Trees.{append, count};
ghost use Rattle.fault_codes.specs.declared.code.Code.{Code as CodeTerm};
ghost use Rattle.pending.specs.Compatible.{has_repeat};
ghost use Rattle.pending.specs.Primitives.{primitive_term};
ghost use Rattle.trees.specs.Drafts.{drafted_forest};
ghost use Rattle.update_meaning.specs.Brought.{new_trees};
ghost use Rattle.update_meaning.specs.Changed.{applied_to_copies};

use super::update::{ApplyFault, Unprepared, planned};
use pending::PendingList;
use std::alloc::Global;
use std::mem;
use tracked_drafts::TrackedDraft;
use trees::{Forest, NodeId, Prepared};

/// Updates copies by a list of primitives (XQuery Update Facility 1.0, sections 2.4.5 and 3.2.2): the trees of these roots, and no others. The roots may be
/// documents, elements, attributes or texts; they stay, and nothing is asked of what the trees say. `next` is the identity that the next node takes after it.
///
/// Faults: `Memory`; `Code`, where a copy would have two attributes of one name, or the copies together would pass a limit of a store. The forest is then
/// as it was, its next identity too.
pub fn apply_copies(
    forest: &mut Forest,
    alloc: Global,
    roots: &[NodeId],
    list: &PendingList,
    next: NodeId,
) -> Result<(), ApplyFault>
    requires apart { has_repeat roots.now ≡ false }
    requires roots { All (IsRoot forest.old.trees) roots.now }
    requires later { forest.old.next ≤ next }
    requires bound { next ≤ 2 ^ 62 }
    requires distinct { (i : ℕ) → count i (append forest.old.trees (new_trees (map primitive_term list.now))) ≤ 1 }
    requires below { (i : ℕ) → 0 < count i (new_trees (map primitive_term list.now)) → i < next }
    ensures applied { OnOk result (applied_to_copies roots.now (map primitive_term list.now) next forest.old ≡ Ok forest.new) }
    ensures code { IfErr result
        (λ e. (c : CodeTerm) → e ≡ ApplyFault.Code c → applied_to_copies roots.now (map primitive_term list.now) next forest.old ≡ Err c) }
    ensures refused { OnErr result (forest.new ≡ forest.old) }
{
    let was = mem::replace(forest, Forest::empty(alloc, next));
    match prepare_copies(alloc, was, roots, list, next) {
        Ok(prepared) => {
            *forest = prepared.settle();
            Ok(())
        }
        Err(unprepared) => {
            *forest = unprepared.forest;
            Err(unprepared.fault)
        }
    }
}

/// Plans the update of copies by a list of primitives, and takes all memory that it takes to make it.
///
/// Faults: `Memory`; `Code`. The forest comes back as it was.
fn prepare_copies(
    alloc: Global,
    forest: Forest,
    roots: &[NodeId],
    list: &PendingList,
    next: NodeId,
) -> Result<Prepared, Unprepared>
    requires apart { has_repeat roots.now ≡ false }
    requires roots { All (IsRoot forest.trees) roots.now }
    requires later { forest.next ≤ next }
    requires bound { next ≤ 2 ^ 62 }
    requires distinct { (i : ℕ) → count i (append forest.trees (new_trees (map primitive_term list.now))) ≤ 1 }
    requires below { (i : ℕ) → 0 < count i (new_trees (map primitive_term list.now)) → i < next }
    ensures applied { IfOk result (λ p. applied_to_copies roots.now (map primitive_term list.now) next forest ≡ Ok (drafted_forest p)) }
    ensures code { IfErr result
        (λ e. (c : CodeTerm) → e.fault ≡ ApplyFault.Code c → applied_to_copies roots.now (map primitive_term list.now) next forest ≡ Err c) }
    ensures refused { IfErr result (λ e. e.forest ≡ forest) }
{
    match TrackedDraft::of_roots(alloc, forest, roots, next) {
        Ok(draft) => planned(draft, alloc, list),
        Err(forest) => Err(Unprepared {
            forest,
            fault: ApplyFault::Memory,
        }),
    }
}
