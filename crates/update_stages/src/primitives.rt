//! The change of one primitive.

ghost use Rattle.std.specs.Prelude.{◌≡◌, ℕ, ◌<◌, ◌≤◌, OnOk, OnErr, string_bytes};
ghost use Rattle.chosen_drafts.specs.Terms.{hidden};
ghost use Rattle.data_model.specs.Changes.{with_content};
ghost use Rattle.data_model.specs.Trees.{append, count};
ghost use Rattle.pending.specs.Primitives.{primitive_term};
ghost use Rattle.update_meaning.specs.Effects.{effect, stage_of};
ghost use Rattle.update_meaning.specs.Brought.{trees_of};

use super::lists::{Share, put_into};
use super::sites::{Side, put_beside};
use data_model::{NodeId, Part};
use pending::Primitive;
use std::alloc::{AllocError, Global};
use tracked_drafts::TrackedDraft;

/// The stage in which a primitive takes effect, from 1 to 5.
pub(super) fn stage_of(primitive: &Primitive) -> u8
    ensures { result ≡ stage_of (primitive_term primitive.now) }
{
    match primitive {
        Primitive::InsertInto(_, _)
        | Primitive::InsertAttributes(_, _)
        | Primitive::ReplaceValue(_, _)
        | Primitive::Rename(_, _) => 1,
        Primitive::InsertBefore(_, _)
        | Primitive::InsertAfter(_, _)
        | Primitive::InsertIntoAsFirst(_, _)
        | Primitive::InsertIntoAsLast(_, _) => 2,
        Primitive::ReplaceNode(_, _) => 3,
        Primitive::ReplaceElementContent(_, _) => 4,
        Primitive::Delete(_) => 5,
    }
}

/// Sets the text of a node. A node that stands nowhere changes nothing.
fn set_text(
    draft: &mut TrackedDraft,
    alloc: Global,
    id: NodeId,
    text: &str,
) -> Result<(), AllocError>
    ensures set { OnOk result
        (draft.new.draft
        ≡ record draft.old.draft { after = with_content id (λ c. record c { text = text.now }) draft.old.draft.after }) }
    ensures refused { OnErr result (draft.new.draft ≡ draft.old.draft) }
{
    if draft.node(id).is_none() {
        return Ok(());
    }
    let text = String::from_str(alloc, text)?;
    draft.set_text(id, text)
}

/// Sets the name of a node. A node that stands nowhere changes nothing.
fn set_name(
    draft: &mut TrackedDraft,
    alloc: Global,
    id: NodeId,
    name: &str,
) -> Result<(), AllocError>
    ensures set { OnOk result
        (draft.new.draft
        ≡ record draft.old.draft { after = with_content id (λ c. record c { name = name.now }) draft.old.draft.after }) }
    ensures refused { OnErr result (draft.new.draft ≡ draft.old.draft) }
{
    if draft.node(id).is_none() {
        return Ok(());
    }
    let name = String::from_str(alloc, name)?;
    draft.set_name(id, name)
}

/// Makes the change of a primitive. Where memory is refused, the draft stays as it was.
pub(super) fn run(
    draft: &mut TrackedDraft,
    alloc: Global,
    primitive: &Primitive,
) -> Result<(), AllocError>
    requires distinct { (i : ℕ) → count i (append draft.old.draft.after (trees_of (primitive_term primitive.now))) ≤ 1 }
    requires below { (i : ℕ) → 0 < count i (trees_of (primitive_term primitive.now)) → i < draft.old.draft.next }
    requires apart { (i : ℕ) → 0 < count i (trees_of (primitive_term primitive.now)) → count i (hidden draft.old.draft) ≡ 0 }
    ensures run { OnOk result
        (draft.new.draft ≡ record draft.old.draft { after = effect (primitive_term primitive.now) draft.old.draft.after }) }
    ensures refused { OnErr result (draft.new.draft ≡ draft.old.draft) }
{
    match primitive {
        Primitive::InsertBefore(id, trees) => put_beside(draft, alloc, *id, Side::Before, trees),
        Primitive::InsertAfter(id, trees) => put_beside(draft, alloc, *id, Side::After, trees),
        Primitive::InsertInto(id, trees) | Primitive::InsertIntoAsLast(id, trees) => {
            put_into(draft, alloc, Part::Children, *id, Share::Back, trees)
        }
        Primitive::InsertIntoAsFirst(id, trees) => {
            put_into(draft, alloc, Part::Children, *id, Share::Front, trees)
        }
        Primitive::InsertAttributes(id, trees) => {
            put_into(draft, alloc, Part::Attributes, *id, Share::Back, trees)
        }
        Primitive::Delete(id) => put_beside(draft, alloc, *id, Side::Instead, &[]),
        Primitive::ReplaceNode(id, trees) => put_beside(draft, alloc, *id, Side::Instead, trees),
        Primitive::ReplaceValue(id, text) => set_text(draft, alloc, *id, text),
        Primitive::ReplaceElementContent(id, trees) => {
            put_into(draft, alloc, Part::Children, *id, Share::Whole, trees)
        }
        Primitive::Rename(id, name) => set_name(draft, alloc, *id, name),
    }
}
