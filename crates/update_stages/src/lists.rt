//! Trees that come into a list of a node.

ghost use Rattle.std.specs.Prelude.{◌≡◌, ℕ, ◌<◌, ◌≤◌, OnOk, OnErr};
ghost use Rattle.data_model.specs.Changes.{with_part};
ghost use Rattle.chosen_drafts.specs.Terms.{hidden};
ghost use Rattle.data_model.specs.Tree.{all_of};
ghost use Rattle.data_model.specs.Trees.{append, count};
ghost use Rattle.update_stages.specs.Places.{shared, from_of, to_of, IsLengthOf};

use data_model::{NodeId, Part, Tree};
use std::alloc::{AllocError, Global};
use tracked_drafts::TrackedDraft;

/// Which share of a list trees come to be.
#[derive(Clone, Copy)]
pub(super) enum Share {
    /// Its first trees.
    Front,
    /// Its last ones.
    Back,
    /// All of them.
    Whole,
}

impl Share {
    /// How many nodes of a list of so many stay before the trees, and how many of them come before those that stay after these.
    fn span(self, len: usize) -> (usize, usize)
        ensures from { result.0 ≡ from_of self len }
        ensures to { result.1 ≡ to_of self len }
    {
        match self {
            Share::Front => (0, 0),
            Share::Back => (len, len),
            Share::Whole => (0, len),
        }
    }
}

/// How many nodes stand in a list of a node; `None` where there is no such node.
fn list_len(draft: &TrackedDraft, part: Part, id: NodeId) -> Option<usize>
    ensures { IsLengthOf result part id draft.now.draft.after }
{
    match draft.node(id) {
        Some(view) => match part {
            Part::Attributes => Some(view.attributes.len()),
            Part::Children => Some(view.children.len()),
        },
        None => None,
    }
}

/// Puts trees into a list of a node. A node that stands nowhere changes nothing.
///
/// Where memory is refused, the draft stays as it was.
pub(super) fn put_into(
    draft: &mut TrackedDraft,
    alloc: Global,
    part: Part,
    id: NodeId,
    share: Share,
    trees: &[Tree],
) -> Result<(), AllocError>
    requires distinct { (i : ℕ) → count i (append draft.old.draft.after (all_of trees.now)) ≤ 1 }
    requires below { (i : ℕ) → 0 < count i (all_of trees.now) → i < draft.old.draft.next }
    requires apart { (i : ℕ) → 0 < count i (all_of trees.now) → count i (hidden draft.old.draft) ≡ 0 }
    ensures put { OnOk result
        (draft.new.draft
        ≡ record draft.old.draft { after = with_part part id (shared share (all_of trees.now)) draft.old.draft.after }) }
    ensures refused { OnErr result (draft.new.draft ≡ draft.old.draft) }
{
    let Some(len) = list_len(draft, part, id) else {
        return Ok(());
    };
    let (from, to) = share.span(len);
    draft.splice(alloc, part, id, from, to, trees)
}
