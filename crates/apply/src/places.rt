//! Places of nodes.

ghost use Rattle.std.specs.Prelude.{◌≡◌, nat_le};
ghost use Rattle.data_model.specs.Trees.{height, parent_of};
ghost use Rattle.tracked_drafts.proofs.Exits.{passes_at};
ghost use Rattle.tracked_drafts.specs.Tests.{is_within};

use tracked_drafts::TrackedDraft;
use trees::NodeId;

/// The most levels of a tree (our own limit).
const MOST_LEVELS: u32 = 60;

/// Whether each tree of the draft is within the limit of its height.
pub(super) fn are_within(draft: &TrackedDraft) -> bool
    ensures { result ≡ nat_le (height draft.now.draft.after) 60 }
{
    draft.facts();
    for at in 0..draft.touched_len() {
        if let Some(id) = draft.touched_at(at) {
            if !is_within(draft, id) {
                return false;
            }
        }
    }
    true
}

/// Whether a node, if it stands in the draft, stands within that limit.
fn is_within(draft: &TrackedDraft, id: NodeId) -> bool
    ensures { result ≡ passes_at id is_within 0 draft.now.draft.after }
{
    draft.facts();
    if draft.node(id).is_none() {
        return true;
    }
    let mut at = id;
    let mut above = 0;
    while above < MOST_LEVELS {
        match parent_of(draft, at) {
            Some(parent) => at = parent,
            None => return true,
        }
        above += 1;
    }
    false
}

/// The parent that a node is to have.
fn parent_of(draft: &TrackedDraft, id: NodeId) -> Option<NodeId>
    ensures { result ≡ parent_of id draft.now.draft.after }
{
    match draft.node(id) {
        Some(node) => node.parent,
        None => None,
    }
}
