//! The whole of an update.

ghost use Rattle.std.specs.Prelude.{◌≡◌, ℕ, ◌<◌, ◌≤◌, ◌^◌, Ok, Err, map, IfOk, IfErr, OnOk, OnErr};
ghost use Rattle.data_model.specs.Trees.{append, count};
ghost use Rattle.fault_codes.specs.declared.code.Code.{Code as CodeTerm};
ghost use Rattle.pending.specs.Primitives.{primitive_term};
ghost use Rattle.trees.specs.Drafts.{drafted_forest};
ghost use Rattle.apply.specs.Planned.{planned_draft};
ghost use Rattle.chosen_drafts.specs.Terms.{hidden};
ghost use Rattle.update_meaning.specs.Brought.{new_trees};
ghost use Rattle.update_meaning.specs.Changed.{changed};
ghost use Rattle.update_meaning.specs.Results.{applied, judged, IsStored};

use super::tidying::tidy;
use super::verdict::judge;
use fault_codes::Code;
use pending::{PendingList, Primitive};
use std::alloc::{AllocError, Global};
use std::mem;
use tracked_drafts::TrackedDraft;
use trees::{Forest, NodeId, Prepared};
use update_stages::run_stages;

/// Why an update is not made.
#[derive(Clone, Copy, PartialEq, Eq, Debug)]
pub enum ApplyFault {
    /// Memory was refused (1).
    Memory,
    /// The store would not be one: `XUDY0021` (2), an element would have two attributes of one name, or `PXQ0003` (3), a limit would be passed.
    Code(Code),
}

impl From<AllocError> for ApplyFault {
    ghost use Rattle.apply.specs.declared.update.ApplyFault.TheVariants.{Memory};

    ghost from_gives = { λ _ fault. fault ≡ Memory };

    fn from(_refused: AllocError) -> ApplyFault {
        ApplyFault::Memory
    }
}

/// A forest that is as it was, and why an update of it is not made.
#[derive(Drop)]
pub struct Unprepared {
    pub forest: Forest,
    pub fault: ApplyFault,
}

/// Updates a stored forest by a list of primitives (XQuery Update Facility 1.0, section 3.2.2). `next` is the identity that the next node takes after it.
///
/// Faults: `Memory`; `Code`. The forest is then as it was, its next identity too.
pub fn apply(
    forest: &mut Forest,
    alloc: Global,
    list: &PendingList,
    next: NodeId,
) -> Result<(), ApplyFault>
    requires stored { IsStored forest.old.trees }
    requires later { forest.old.next ≤ next }
    requires bound { next ≤ 2 ^ 62 }
    requires distinct { (i : ℕ) → count i (append forest.old.trees (new_trees (map primitive_term list.now))) ≤ 1 }
    requires below { (i : ℕ) → 0 < count i (new_trees (map primitive_term list.now)) → i < next }
    ensures applied { OnOk result (applied (map primitive_term list.now) next forest.old ≡ Ok forest.new) }
    ensures stored { OnOk result (IsStored forest.new.trees) }
    ensures code { IfErr result (λ e. (c : CodeTerm) → e ≡ ApplyFault.Code c → applied (map primitive_term list.now) next forest.old ≡ Err c) }
    ensures refused { OnErr result (forest.new ≡ forest.old) }
{
    let was = mem::replace(forest, Forest::empty(alloc, next));
    match prepare(alloc, was, list, next) {
        Ok(prepared) => {
            *forest = prepared.settle();
            Ok(())
        }
        Err(unprepared) => {
            *forest = unprepared.forest;
            Err(unprepared.fault)
        }
    }
}

/// Plans the update of a stored forest by a list of primitives, and takes all memory that it takes to make it. `settle` of what it gives then makes the
/// update, and `discard` gives the forest back as it was; neither can be refused.
///
/// Faults: `Memory`; `Code`. The forest comes back as it was.
pub fn prepare(
    alloc: Global,
    forest: Forest,
    list: &PendingList,
    next: NodeId,
) -> Result<Prepared, Unprepared>
    requires stored { IsStored forest.trees }
    requires later { forest.next ≤ next }
    requires bound { next ≤ 2 ^ 62 }
    requires distinct { (i : ℕ) → count i (append forest.trees (new_trees (map primitive_term list.now))) ≤ 1 }
    requires below { (i : ℕ) → 0 < count i (new_trees (map primitive_term list.now)) → i < next }
    ensures applied { IfOk result (λ p. applied (map primitive_term list.now) next forest ≡ Ok (drafted_forest p)) }
    ensures stored { IfOk result (λ p. IsStored p.after) }
    ensures before { IfOk result (λ p. p.before ≡ forest) }
    ensures code { IfErr result (λ e. (c : CodeTerm) → e.fault ≡ ApplyFault.Code c → applied (map primitive_term list.now) next forest ≡ Err c) }
    ensures refused { IfErr result (λ e. e.forest ≡ forest) }
{
    planned(TrackedDraft::new(alloc, forest, next), alloc, list)
}

/// Plans what a list of primitives makes of the trees that a draft shows, and takes all memory that it takes to make it.
///
/// Faults: `Memory`; `Code`. The forest comes back as it was.
pub(super) fn planned(
    draft: TrackedDraft,
    alloc: Global,
    list: &PendingList,
) -> Result<Prepared, Unprepared>
    requires distinct { (i : ℕ) → count i (append draft.draft.after (new_trees (map primitive_term list.now))) ≤ 1 }
    requires below { (i : ℕ) → 0 < count i (new_trees (map primitive_term list.now)) → i < draft.draft.next }
    requires apart { (i : ℕ) → 0 < count i (new_trees (map primitive_term list.now)) → count i (hidden draft.draft) ≡ 0 }
    ensures planned { IfOk result (λ p. planned_draft draft.draft (judged (changed (map primitive_term list.now) draft.draft.after)) ≡ Ok p) }
    ensures code { IfErr result
        (λ e. (c : CodeTerm) → e.fault ≡ ApplyFault.Code c → judged (changed (map primitive_term list.now) draft.draft.after) ≡ Err c) }
    ensures refused { IfErr result (λ e. e.forest ≡ draft.draft.before) }
{
    let mut draft = draft;
    if let Err(fault) = plan(&mut draft, alloc, list.as_slice()) {
        return Err(Unprepared {
            forest: draft.discard(),
            fault,
        });
    }
    match draft.prepare() {
        Ok(prepared) => Ok(prepared),
        Err(forest) => Err(Unprepared {
            forest,
            fault: ApplyFault::Memory,
        }),
    }
}

/// Plans what primitives make of a draft: stage by stage, then tidied, then judged.
fn plan(draft: &mut TrackedDraft, alloc: Global, primitives: &[Primitive]) -> Result<(), ApplyFault>
    requires distinct { (i : ℕ) → count i (append draft.old.draft.after (new_trees (map primitive_term primitives.now))) ≤ 1 }
    requires below { (i : ℕ) → 0 < count i (new_trees (map primitive_term primitives.now)) → i < draft.old.draft.next }
    requires apart { (i : ℕ) → 0 < count i (new_trees (map primitive_term primitives.now)) → count i (hidden draft.old.draft) ≡ 0 }
    ensures planned { OnOk result (judged (changed (map primitive_term primitives.now) draft.old.draft.after) ≡ Ok draft.new.draft.after) }
    ensures same { OnOk result (draft.new.draft ≡ record draft.old.draft { after = draft.new.draft.after }) }
    ensures code { IfErr result (λ e. (c : CodeTerm) → e ≡ ApplyFault.Code c → judged (changed (map primitive_term primitives.now) draft.old.draft.after) ≡ Err c) }
    ensures before { draft.new.draft.before ≡ draft.old.draft.before }
{
    run_stages(draft, alloc, primitives)?;
    tidy(draft, alloc)?;
    match judge(draft, alloc)? {
        Some(code) => Err(ApplyFault::Code(code)),
        None => Ok(()),
    }
}
