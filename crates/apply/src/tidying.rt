//! All of it: texts are merged, then empty ones go.

ghost use Rattle.std.specs.Prelude.{◌≡◌, OnOk, OnErr};
ghost use Rattle.update_meaning.specs.Changed.{tidied_below};

use super::emptying::empty_all;
use super::merging::merge_all;
use std::alloc::{AllocError, Global};
use tracked_drafts::TrackedDraft;

/// Merges adjacent texts and takes out empty ones below the roots, wherever nodes were touched (XQuery Update Facility 1.0, section 3.2.2). A text
/// with no parent has no neighbours, and stays where it is empty. Where memory is refused, the draft is left half tidied.
pub(super) fn tidy(draft: &mut TrackedDraft, alloc: Global) -> Result<(), AllocError>
    ensures tidied { OnOk result (draft.new.draft ≡ record draft.old.draft { after = tidied_below draft.old.draft.after }) }
    ensures before { OnErr result (draft.new.draft.before ≡ draft.old.draft.before) }
{
    merge_all(draft, alloc)?;
    empty_all(draft, alloc)
}
