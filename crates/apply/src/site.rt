//! Where texts stand.

ghost use Rattle.std.specs.Prelude.{◌≡◌, ◌==◌, true, false, Some, MatchOption};
ghost use Rattle.std.specs.List.{position};
ghost use Rattle.data_model.specs.Changes.{part_of};
ghost use Rattle.data_model.specs.Trees.{find, parent_of};
ghost use Rattle.apply.specs.Texts.{is_text_at, IsNoTextBelow, IsTextAt, IsTextBelow};

use data_model::{NodeId, Part};
use tracked_drafts::TrackedDraft;

/// A place below a node: in which of its lists it is, and how many come before it there.
#[derive(Clone, Copy)]
pub(super) struct Site {
    /// The list.
    pub part: Part,
    /// The node.
    pub parent: NodeId,
    /// How many come before it.
    pub at: usize,
}

/// Whether a node is to stand there and is a text.
pub(super) fn is_text(draft: &TrackedDraft, id: NodeId) -> bool
    ensures { result ≡ is_text_at (find id draft.now.draft.after) }
{
    match draft.node(id) {
        Some(view) => view.kind.is_text(),
        None => false,
    }
}

/// The attributes or the children that a node is to have.
pub(super) fn siblings<'a>(draft: &'a TrackedDraft, part: Part, parent: NodeId) -> &'a [NodeId]
    ensures { result.now ≡ part_of part parent draft.now.draft.after }
{
    match draft.node(parent) {
        Some(view) => match part {
            Part::Attributes => view.attributes,
            Part::Children => view.children,
        },
        None => &[],
    }
}

/// How many come before a node in a list.
fn position(ids: &[NodeId], id: NodeId) -> Option<usize>
    ensures { result ≡ position (λ i. i == id) ids.now }
{
    ids.iter().position(|it| *it == id)
}

/// The parent of a text, if it has one. What is no text has none here.
fn parent_of_text(draft: &TrackedDraft, id: NodeId) -> Option<NodeId>
    ensures { MatchOption result (IsNoTextBelow id draft.now.draft.after) (λ p. IsTextBelow p id draft.now.draft.after) }
{
    draft.facts();
    match draft.node(id) {
        Some(view) if view.kind.is_text() => view.parent,
        _ => None,
    }
}

/// Where a text stands below its parent; `None` for what is no text, and for a text that has none.
pub(super) fn site_of(draft: &TrackedDraft, id: NodeId) -> Option<Site>
    ensures { MatchOption result (IsNoTextBelow id draft.now.draft.after) (λ site. IsTextAt site id draft.now.draft.after) }
{
    draft.facts();
    let Some(parent) = parent_of_text(draft, id) else {
        return None;
    };
    if let Some(at) = position(siblings(draft, Part::Children, parent), id) {
        return Some(Site {
            part: Part::Children,
            parent,
            at,
        });
    }
    match position(siblings(draft, Part::Attributes, parent), id) {
        Some(at) => Some(Site {
            part: Part::Attributes,
            parent,
            at,
        }),
        None => None,
    }
}
