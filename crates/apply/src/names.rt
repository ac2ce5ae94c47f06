//! Names of attributes.

ghost use Rattle.std.specs.Prelude.{◌≡◌, IfOk};
ghost use Rattle.tracked_drafts.proofs.Exits.{passes_at};
ghost use Rattle.tracked_drafts.specs.Tests.{is_named};
ghost use Rattle.update_meaning.specs.Results.{has_distinct_attributes};

use name_sets::NameSet;
use std::alloc::{AllocError, Global};
use tracked_drafts::TrackedDraft;
use trees::NodeId;

/// Whether no element of the draft has two attributes of one name. It fails where memory is refused.
pub(super) fn are_named(draft: &TrackedDraft, alloc: Global) -> Result<bool, AllocError>
    ensures { IfOk result (λ is_so. is_so ≡ has_distinct_attributes draft.now.draft.after) }
{
    draft.facts();
    for at in 0..draft.touched_len() {
        if let Some(id) = draft.touched_at(at) {
            if !is_named(draft, alloc, id)? {
                return Ok(false);
            }
        }
    }
    Ok(true)
}

/// Whether the attributes of a node, if it stands in the draft, have distinct names.
fn is_named(draft: &TrackedDraft, alloc: Global, id: NodeId) -> Result<bool, AllocError>
    ensures { IfOk result (λ is_so. is_so ≡ passes_at id is_named 0 draft.now.draft.after) }
{
    draft.facts();
    let node = match draft.node(id) {
        Some(node) => node,
        None => return Ok(true),
    };
    // Most nodes have no two attributes, and then no set is made.
    if node.attributes.len() < 2 {
        return Ok(true);
    }
    let mut names = NameSet::new(alloc);
    for attribute in node.attributes {
        if let Some(attribute) = draft.node(*attribute) {
            let is_new = names.add(attribute.name)?;
            if !is_new {
                return Ok(false);
            }
        }
    }
    Ok(true)
}
