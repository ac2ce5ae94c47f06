//! The verdict.

ghost use Rattle.std.specs.Prelude.{◌≡◌, IfOk};
ghost use Rattle.apply.specs.Verdicts.{by_verdict};
ghost use Rattle.update_meaning.specs.Results.{judged};

use super::{names, places, sizes};
use data_model::limits::MOST_NODES;
use fault_codes::Code;
use std::alloc::{AllocError, Global};
use tracked_drafts::TrackedDraft;

/// The code by which a tidied draft may not be stored, if there is one: `XUDY0021` where an element has two attributes of one name (XQuery Update
/// Facility 1.0, section 3.2.2), and else `PXQ0003` where a limit of a store is passed. It looks at the nodes that were touched alone, and fails where
/// memory is refused.
pub(super) fn judge(draft: &TrackedDraft, alloc: Global) -> Result<Option<Code>, AllocError>
    ensures { IfOk result (λ code. judged draft.now.draft.after ≡ by_verdict code draft.now.draft.after) }
{
    if !names::are_named(draft, alloc)? {
        return Ok(Some(Code::XUDY0021));
    }
    if draft.len() <= MOST_NODES && places::are_within(draft) && sizes::are_limited(draft) {
        return Ok(None);
    }
    Ok(Some(Code::PXQ0003))
}
