//! Sizes of nodes.

ghost use Rattle.std.specs.Prelude.{◌≡◌};
ghost use Rattle.tracked_drafts.proofs.Exits.{passes_at};
ghost use Rattle.tracked_drafts.specs.Tests.{is_limited};
ghost use Rattle.update_meaning.specs.Results.{all_nodes, is_small};

use data_model::limits::{MOST_BYTES, MOST_LISTED};
use tracked_drafts::TrackedDraft;
use trees::NodeId;

/// Whether each node of the draft is within the limits of a node.
pub(super) fn are_limited(draft: &TrackedDraft) -> bool
    ensures { result ≡ all_nodes is_small draft.now.draft.after }
{
    draft.facts();
    for at in 0..draft.touched_len() {
        if let Some(id) = draft.touched_at(at) {
            if !is_limited(draft, id) {
                return false;
            }
        }
    }
    true
}

/// Whether a node, if it stands in the draft, is within the limits of a node.
fn is_limited(draft: &TrackedDraft, id: NodeId) -> bool
    ensures { result ≡ passes_at id is_limited 0 draft.now.draft.after }
{
    draft.facts();
    match draft.node(id) {
        Some(node) => {
            node.attributes.len() + node.children.len() <= MOST_LISTED
                && node.text.len() <= MOST_BYTES
        }
        None => true,
    }
}
