//! The stages of an update (XQuery Update Facility 1.0, section 3.2.2).

ghost use Rattle.std.specs.Prelude.{◌≡◌, ℕ, ◌<◌, ◌≤◌, ◌+◌, map, OnOk, OnErr};
ghost use Rattle.chosen_drafts.specs.Terms.{hidden};
ghost use Rattle.data_model.specs.Trees.{append, count};
ghost use Rattle.pending.specs.Primitives.{primitive_term};
ghost use Rattle.update_meaning.specs.Effects.{effects, of_stage, staged};
ghost use Rattle.update_stages.specs.Brought.{IsReadyFor};
ghost use Rattle.update_meaning.specs.Brought.{new_trees};

use super::primitives::{run, stage_of};
use pending::Primitive;
use std::alloc::{AllocError, Global};
use tracked_drafts::TrackedDraft;

/// Makes the changes of those primitives that are of a stage, in their order. Where memory is refused, the draft is left half changed.
fn run_stage(
    draft: &mut TrackedDraft,
    alloc: Global,
    stage: u8,
    primitives: &[Primitive],
) -> Result<(), AllocError>
    requires { IsReadyFor stage (map primitive_term primitives.now) draft.old.draft }
    ensures run { OnOk result
        (draft.new.draft
        ≡ record draft.old.draft { after = effects (of_stage stage (map primitive_term primitives.now)) draft.old.draft.after }) }
    ensures ready { OnOk result (IsReadyFor (stage + 1) (map primitive_term primitives.now) draft.new.draft) }
    ensures before { OnErr result (draft.new.draft.before ≡ draft.old.draft.before) }
{
    for primitive in primitives {
        if stage_of(primitive) == stage {
            run(draft, alloc, primitive)?;
        }
    }
    Ok(())
}

/// Changes a draft by primitives, stage by stage (XQuery Update Facility 1.0, section 3.2.2).
///
/// A primitive whose target is not to be seen changes nothing. Where memory is refused, the draft is left half changed.
pub fn run_stages(
    draft: &mut TrackedDraft,
    alloc: Global,
    primitives: &[Primitive],
) -> Result<(), AllocError>
    requires distinct { (i : ℕ) → count i (append draft.old.draft.after (new_trees (map primitive_term primitives.now))) ≤ 1 }
    requires below { (i : ℕ) → 0 < count i (new_trees (map primitive_term primitives.now)) → i < draft.old.draft.next }
    requires apart { (i : ℕ) → 0 < count i (new_trees (map primitive_term primitives.now)) → count i (hidden draft.old.draft) ≡ 0 }
    ensures staged { OnOk result
        (draft.new.draft
        ≡ record draft.old.draft { after = staged (map primitive_term primitives.now) draft.old.draft.after }) }
    ensures before { OnErr result (draft.new.draft.before ≡ draft.old.draft.before) }
{
    run_stage(draft, alloc, 1, primitives)?;
    run_stage(draft, alloc, 2, primitives)?;
    run_stage(draft, alloc, 3, primitives)?;
    run_stage(draft, alloc, 4, primitives)?;
    run_stage(draft, alloc, 5, primitives)
}
