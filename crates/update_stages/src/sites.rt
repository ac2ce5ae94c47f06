//! Where a node stands in a list of its parent, and trees that come to stand there.

ghost use Rattle.std.specs.Prelude.{◌≡◌, ℕ, ◌<◌, ◌≤◌, ◌==◌, position, IfSome, OnOk, OnErr};
ghost use Rattle.chosen_drafts.specs.Terms.{hidden};
ghost use Rattle.data_model.specs.Tree.{all_of};
ghost use Rattle.data_model.specs.Trees.{append, count, parent_of};
ghost use Rattle.update_meaning.specs.Effects.{with_tree_below};
ghost use Rattle.update_stages.specs.Places.{beside, start_of, end_of, IsSiteOf};

use data_model::{NodeId, Part, Tree};
use std::alloc::{AllocError, Global};
use tracked_drafts::TrackedDraft;

/// Where trees come to stand, seen from a node.
#[derive(Clone, Copy)]
pub(super) enum Side {
    /// Right before it.
    Before,
    /// Right after it.
    After,
    /// In its place.
    Instead,
}

impl Side {
    /// How many nodes of a list stay before the trees, and how many of them come before those that stay after these, where the node has so many
    /// before it.
    fn span(self, at: usize) -> (usize, usize)
        requires { at < usize.MAX }
        ensures from { result.0 ≡ start_of self at }
        ensures to { result.1 ≡ end_of self at }
    {
        match self {
            Side::Before => (at, at),
            Side::After => (at + 1, at + 1),
            Side::Instead => (at, at + 1),
        }
    }
}

/// A place in a list of a node.
#[derive(Clone, Copy)]
pub(super) struct Site {
    part: Part,
    parent: NodeId,
    at: usize,
}

/// The first place of a node in a list.
fn place_in(ids: &[NodeId], id: NodeId) -> Option<usize>
    ensures first { result ≡ position (λ other. other == id) ids.now }
    ensures fits { IfSome result (λ at. at < usize.MAX) }
{
    ids.iter().position(|other| *other == id)
}

/// The parent of a node; `None` where it has none, or stands nowhere.
fn parent_of(draft: &TrackedDraft, id: NodeId) -> Option<NodeId>
    ensures { result ≡ parent_of id draft.now.draft.after }
{
    match draft.node(id) {
        Some(view) => view.parent,
        None => None,
    }
}

/// Where a node stands below its parent; `None` where it stands nowhere, or has no parent.
fn site_of(draft: &TrackedDraft, id: NodeId) -> Option<Site>
    ensures site { IsSiteOf result id draft.now.draft.after }
    ensures fits { IfSome result (λ site. site.at < usize.MAX) }
{
    draft.facts();
    let parent = parent_of(draft, id)?;
    let Some(above) = draft.node(parent) else {
        return None;
    };
    if let Some(at) = place_in(above.attributes, id) {
        return Some(Site {
            part: Part::Attributes,
            parent,
            at,
        });
    }
    let at = place_in(above.children, id)?;
    Some(Site {
        part: Part::Children,
        parent,
        at,
    })
}

/// Puts trees beside a node, into the list in which it stands, or into its place there. A node that stands in no list changes nothing.
///
/// Where memory is refused, the draft stays as it was.
pub(super) fn put_beside(
    draft: &mut TrackedDraft,
    alloc: Global,
    id: NodeId,
    side: Side,
    trees: &[Tree],
) -> Result<(), AllocError>
    requires distinct { (i : ℕ) → count i (append draft.old.draft.after (all_of trees.now)) ≤ 1 }
    requires below { (i : ℕ) → 0 < count i (all_of trees.now) → i < draft.old.draft.next }
    requires apart { (i : ℕ) → 0 < count i (all_of trees.now) → count i (hidden draft.old.draft) ≡ 0 }
    ensures put { OnOk result
        (draft.new.draft
        ≡ record draft.old.draft { after = with_tree_below id (beside side (all_of trees.now)) draft.old.draft.after }) }
    ensures refused { OnErr result (draft.new.draft ≡ draft.old.draft) }
{
    let Some(site) = site_of(draft, id) else {
        return Ok(());
    };
    let (from, to) = side.span(site.at);
    draft.splice(alloc, site.part, site.parent, from, to, trees)
}
