//! Adjacent texts become one.

ghost use Rattle.std.specs.Prelude.{◌≡◌, ℕ, [], ◌∷◌, true, IfOk, OnOk, string_bytes};
ghost use Rattle.data_model.specs.Trees.{find};
ghost use Rattle.tracked_drafts.specs.Tests.{Begins};
ghost use Rattle.apply.specs.Texts.{first_texts, merged_below, texts_of, IsNoTextBelow, IsTextAt, Merges};

use super::site::{Site, is_text, siblings, site_of};
use data_model::NodeId;
use std::alloc::{AllocError, Global};
use tracked_drafts::TrackedDraft;

/// With how many texts a list of nodes begins.
fn first_texts(draft: &TrackedDraft, ids: &[NodeId]) -> usize
    ensures { result ≡ first_texts draft.now.draft.after ids.now }
{
    let mut count = 0;
    for id in ids {
        if !is_text(draft, *id) {
            return count;
        }
        count += 1;
    }
    count
}

/// What nodes say, one after the other.
fn joined(draft: &TrackedDraft, alloc: Global, ids: &[NodeId]) -> Result<String, AllocError>
    ensures { IfOk result (λ text. string_bytes text ≡ texts_of draft.now.draft.after ids.now) }
{
    let mut text = String::new(alloc);
    for id in ids {
        if let Some(view) = draft.node(*id) {
            text.push_str(view.text)?;
        }
    }
    Ok(text)
}

/// Merges the texts that come right after a text into it. The first keeps its identity.
fn merge_at(
    draft: &mut TrackedDraft,
    alloc: Global,
    site: Site,
    id: NodeId,
) -> Result<(), AllocError>
    requires { IsTextAt site id draft.old.draft.after }
    ensures merges { OnOk result (Merges id draft.old.draft.after draft.new.draft.after) }
    ensures same { draft.new.draft ≡ record draft.old.draft { after = draft.new.draft.after } }
    ensures touched { Begins draft.old.touched draft.new.touched }
{
    draft.facts();
    let ids = siblings(draft, site.part, site.parent);
    let from = site.at + 1;
    let to = from + first_texts(draft, &ids[from..]);
    if to == from {
        return Ok(());
    }
    let text = joined(draft, alloc, &ids[site.at..to])?;
    draft.splice(alloc, site.part, site.parent, from, to, &[])?;
    draft.set_text(id, text)
}

/// Merges the texts that come right after a node into it, where it is a text below another node.
fn merge(draft: &mut TrackedDraft, alloc: Global, id: NodeId) -> Result<(), AllocError>
    ensures merges { OnOk result (Merges id draft.old.draft.after draft.new.draft.after) }
    ensures same { draft.new.draft ≡ record draft.old.draft { after = draft.new.draft.after } }
    ensures touched { Begins draft.old.touched draft.new.touched }
{
    draft.facts();
    match site_of(draft, id) {
        Some(site) => merge_at(draft, alloc, site, id),
        None => Ok(()),
    }
}

/// Merges adjacent texts below the roots, wherever nodes were touched. Where memory is refused, the draft is left half tidied.
pub(super) fn merge_all(draft: &mut TrackedDraft, alloc: Global) -> Result<(), AllocError>
    ensures merged { OnOk result (draft.new.draft ≡ record draft.old.draft { after = merged_below draft.old.draft.after }) }
    ensures same { draft.new.draft ≡ record draft.old.draft { after = draft.new.draft.after } }
{
    draft.facts();
    for at in 0..draft.touched_len() {
        let Some(id) = draft.touched_at(at) else {
            unreachable!();
        };
        merge(draft, alloc, id)?;
    }
    Ok(())
}
