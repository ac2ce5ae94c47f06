//! Texts of typed values, where they lie.

ghost use Rattle.std.specs.Prelude.{IfSome};
ghost use Rattle.shelves.specs.Shelf.{shelf_trees};
ghost use Rattle.values.specs.Items.{IsThere};
ghost use Rattle.values.specs.LentTexts.{IsLentText};

use super::atom::{Atom, Item};
use data_model::limits::MOST_BYTES;
use shared_texts::Text;
use shelves::Shelf;

/// The text of a typed value, where it lies.
#[derive(Clone, Copy)]
pub struct LentText<'s> {
    /// The text.
    pub text: &'s Text,
    /// How many nodes the tree of a node has; none where it is that of an atomic value.
    pub nodes: u64,
}

/// The text of the typed value of an item (XQuery 1.0, section 2.4.2), where it lies: that of a string or an untyped value, and of a node whose
/// string value stands in one text of at most 65,536 bytes. `None` elsewhere. It takes no memory.
#[tactic(auto, using(crate::proofs::LentTexts::as_plain))]
pub fn lent_text<'s>(shelf: &'s Shelf<'_>, item: &'s Item) -> Option<LentText<'s>>
    requires there { IsThere (shelf_trees shelf.now) item.now }
    ensures { IfSome result (IsLentText (shelf_trees shelf.now) item.now) }
{
    match item {
        Item::Node(node) => {
            let plain = shelf.plain_value(*node)?;
            if plain.text.as_str().len() > MOST_BYTES {
                return None;
            }
            Some(LentText {
                text: plain.text,
                nodes: plain.size,
            })
        }
        Item::Atomic(Atom::String(text) | Atom::Untyped(text)) => Some(LentText { text, nodes: 0 }),
        Item::Atomic(_) => None,
    }
}
