//! Texts that are compared with another one where they lie.

ghost use Rattle.std.specs.Prelude.{◌≡◌, ◌+◌, ◌∷◌, [], Some, IfSome};
ghost use Rattle.shelves.specs.Shelf.{shelf_trees};
ghost use Rattle.values.specs.Items.{AreThere};
ghost use Rattle.values.specs.Work.{text_work};
ghost use Rattle.read_items.specs.Pairs.{and_text, and_texts, no_pairs, pairs_of, shorter};
ghost use Rattle.read_items.specs.Read.{IsRead};

use crate::read_item::ReadItem;
use shelves::Shelf;
use values::{Comparison, Item, LentText, compare_texts, lent_text, text_work};

/// What the comparisons of some texts with another one come to, and what they cost.
#[derive(Clone, Copy)]
pub(crate) struct TextPairs {
    /// Whether one of them holds.
    pub(crate) holds: bool,
    /// How many pairs are tried until then.
    pub(crate) turns: usize,
    /// The work of all values, and of the pairs that are tried.
    pub(crate) work: u64,
}

impl TextPairs {
    /// The text of an item's typed value, compared with that of another one; `None` where one is no string and not untyped, or its text has to be put
    /// together. It takes no memory.
    #[tactic(auto, using(crate::proofs::TextPairs::one_pair))]
    pub(crate) fn of_one(
        shelf: &Shelf,
        op: Comparison,
        left: &ReadItem,
        right: &ReadItem,
    ) -> Option<TextPairs>
        requires left { IsRead (shelf_trees shelf.now) left.now }
        requires right { IsRead (shelf_trees shelf.now) right.now }
        ensures { IfSome result (λ p. pairs_of (shelf_trees shelf.now) op (left.now.item.now ∷ []) right.now.item.now ≡ Some p) }
    {
        let other = right.lent(shelf)?;
        let text = left.lent(shelf)?;
        let values = value_work(&other)?.checked_add(value_work(&text)?)?;
        let (text, other) = (text.text.as_str(), other.text.as_str());
        Some(TextPairs {
            holds: compare_texts(op, text, other),
            turns: 1,
            work: values.checked_add(pair_work(text, other))?,
        })
    }

    /// The texts of items' typed values, each compared with that of another one; `None` where one is no string and not untyped, or its text has to be
    /// put together. It takes no memory.
    #[tactic(auto, using(crate::proofs::TextPairs::each_pair))]
    pub(crate) fn of_each(
        shelf: &Shelf,
        op: Comparison,
        left: &[Item],
        right: &ReadItem,
    ) -> Option<TextPairs>
        requires left { AreThere (shelf_trees shelf.now) left.now }
        requires right { IsRead (shelf_trees shelf.now) right.now }
        ensures { IfSome result (λ p. pairs_of (shelf_trees shelf.now) op left.now right.now.item.now ≡ Some p) }
    {
        let other = right.lent(shelf)?;
        TextPairs::none(&other)?.and_each(shelf, op, left, &other)
    }

    /// No pairs, and the work of the value that texts are compared with.
    fn none(other: &LentText) -> Option<TextPairs>
        ensures { IfSome result (λ p. p ≡ no_pairs other.now.nodes other.now.text.now) }
    {
        Some(TextPairs {
            holds: false,
            turns: 0,
            work: value_work(other)?,
        })
    }

    /// More texts on the left: those of these items' typed values.
    fn and_each<'s>(
        self,
        shelf: &'s Shelf<'_>,
        op: Comparison,
        left: &'s [Item],
        other: &LentText,
    ) -> Option<TextPairs>
        requires left { AreThere (shelf_trees shelf.now) left.now }
        ensures { IfSome result (λ p. and_texts (shelf_trees shelf.now) op other.now.text.now left.now self ≡ Some p) }
    {
        let mut pairs = self;
        for item in left {
            let text = lent_text(shelf, item)?;
            pairs = pairs.and(op, &text, other)?;
        }
        Some(pairs)
    }

    /// One more text on the left: its work, and where no comparison holds yet a turn, and the work of the shorter text.
    fn and(self, op: Comparison, left: &LentText, other: &LentText) -> Option<TextPairs>
        ensures { IfSome result (λ p. p ≡ and_text op other.now.text.now left.now.nodes left.now.text.now self) }
    {
        let work = self.work.checked_add(value_work(left)?)?;
        if self.holds {
            return Some(TextPairs { work, ..self });
        }
        let (text, other) = (left.text.as_str(), other.text.as_str());
        Some(TextPairs {
            holds: compare_texts(op, text, other),
            turns: self.turns.checked_add(1)?,
            work: work.checked_add(pair_work(text, other))?,
        })
    }
}

/// The work of a value with that text; `None` where 64 bits do not hold it.
fn value_work(lent: &LentText) -> Option<u64>
    ensures { IfSome result (λ work. work ≡ lent.now.nodes + text_work lent.now.text.now) }
{
    lent.nodes.checked_add(text_work(lent.text.as_str()))
}

/// The work of a pair of texts: that of the shorter one.
fn pair_work(left: &str, right: &str) -> u64
    ensures { result ≡ shorter left.now right.now }
{
    if left.len() <= right.len() {
        text_work(left)
    } else {
        text_work(right)
    }
}
