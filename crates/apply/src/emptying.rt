//! Empty texts go.

ghost use Rattle.std.specs.Prelude.{◌≡◌, ◌&&◌, [], OnOk, bytes_eq};
ghost use Rattle.data_model.specs.Trees.{find};
ghost use Rattle.tracked_drafts.specs.Tests.{Begins};
ghost use Rattle.apply.specs.Texts.{filled_below, is_text_at, text_at, IsNoTextBelow, IsTextAt, Empties};

use super::site::{Site, site_of};
use data_model::NodeId;
use std::alloc::{AllocError, Global};
use tracked_drafts::TrackedDraft;

/// Whether a node is to be a text that says nothing. Most nodes are no texts, and for them this is the one look-up.
fn is_empty_text(draft: &TrackedDraft, id: NodeId) -> bool
    ensures { result ≡ (is_text_at (find id draft.now.draft.after) && bytes_eq (text_at (find id draft.now.draft.after)) []) }
{
    match draft.node(id) {
        Some(view) => view.kind.is_text() && view.text.is_empty(),
        None => false,
    }
}

/// Takes out a node, where it is a text below another node that says nothing.
fn empty(draft: &mut TrackedDraft, alloc: Global, id: NodeId) -> Result<(), AllocError>
    ensures empties { OnOk result (Empties id draft.old.draft.after draft.new.draft.after) }
    ensures same { draft.new.draft ≡ record draft.old.draft { after = draft.new.draft.after } }
    ensures touched { Begins draft.old.touched draft.new.touched }
{
    draft.facts();
    if !is_empty_text(draft, id) {
        return Ok(());
    }
    match site_of(draft, id) {
        Some(site) => draft.splice(alloc, site.part, site.parent, site.at, site.at + 1, &[]),
        None => Ok(()),
    }
}

/// Takes out empty texts below the roots, wherever nodes were touched. Where memory is refused, the draft is left half tidied.
pub(super) fn empty_all(draft: &mut TrackedDraft, alloc: Global) -> Result<(), AllocError>
    ensures filled { OnOk result (draft.new.draft ≡ record draft.old.draft { after = filled_below draft.old.draft.after }) }
    ensures same { draft.new.draft ≡ record draft.old.draft { after = draft.new.draft.after } }
{
    draft.facts();
    for at in 0..draft.touched_len() {
        let Some(id) = draft.touched_at(at) else {
            unreachable!();
        };
        empty(draft, alloc, id)?;
    }
    Ok(())
}
