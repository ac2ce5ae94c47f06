//! Items, with the texts of their typed values at hand.

ghost use Rattle.std.specs.Prelude.{◌≡◌, Some, IfOk, IfSome, OnOk};
ghost use Rattle.shelves.specs.Shelf.{shelf_trees};
ghost use Rattle.values.specs.Items.{IsThere};
ghost use Rattle.values.specs.LentTexts.{IsLentText};
ghost use Rattle.query_meaning.specs.Running.{trees_of};
ghost use Rattle.evaluation.specs.Gives.{Any, GivesIn};
ghost use Rattle.read_items.specs.Read.{IsRead, IsTaken};
ghost use Rattle.read_items.specs.Texts.{GivesText, text_paid};

use evaluation::Evaluation;
use shelves::Shelf;
use std::alloc::AllocError;
use values::{Item, LentText, Text, ValueFault, lent_text, text_work};

/// The text of a typed value as it was taken out of the trees.
#[derive(Drop)]
pub struct TakenText {
    /// The text, which is shared.
    pub text: Text,
    /// How many nodes the tree of a node has; none where it is that of an atomic value.
    pub nodes: u64,
}

/// An item, and the text of its typed value where that has been taken out of the trees. It is looked up each time where it has not.
#[derive(Drop)]
pub struct ReadItem<'i> {
    /// The item.
    pub item: &'i Item,
    /// The text, where the typed value is a string or untyped.
    pub text: Option<TakenText>,
}

impl<'i> ReadItem<'i> {
    /// An item of which nothing has been taken out.
    pub fn unread(item: &'i Item) -> ReadItem<'i>
        ensures item { result.item.now ≡ item.now }
        ensures read { (ts : _) → IsThere ts item.now → IsRead ts result }
    {
        ReadItem { item, text: None }
    }

    /// An item with its text, where that lies somewhere. It fails where memory is refused.
    pub fn of(run: &Evaluation, item: &'i Item) -> Result<ReadItem<'i>, AllocError>
        requires there { IsThere (trees_of run.now) item.now }
        ensures { IfOk result (λ r. (r.item.now ≡ item.now) × IsRead (trees_of run.now) r) }
    {
        Ok(ReadItem {
            item,
            text: taken_text(run, item)?,
        })
    }

    /// The text of its typed value, where it lies: `None` where that is no string and not untyped, or has to be put together.
    #[tactic(auto, using(crate::proofs::TextPairs::taken_lent))]
    pub fn lent<'s>(&'s self, shelf: &'s Shelf<'_>) -> Option<LentText<'s>>
        requires read { IsRead (shelf_trees shelf.now) self.now }
        ensures { IfSome result (IsLentText (shelf_trees shelf.now) self.now.item.now) }
    {
        match &self.text {
            Some(taken) => Some(LentText {
                text: &taken.text,
                nodes: taken.nodes,
            }),
            None => lent_text(shelf, self.item),
        }
    }

    /// The text of its typed value, for the work of that value, where it lies somewhere; elsewhere `None`, and nothing is taken. The text is shared.
    /// Faults: `Memory`; `Code` with PXQ0002 where less work is left.
    #[tactic(auto, using(crate::proofs::TextPairs::text_gives, crate::proofs::TextPairs::text_fails))]
    pub fn take_text(&self, run: &mut Evaluation) -> Result<Option<Text>, ValueFault>
        requires read { IsRead (trees_of run.old) self.now }
        ensures text { GivesText self.now.item.now run.old result run.new }
        ensures same { run.new ≡ record run.old { work = run.new.work } }
    {
        let Some(lent) = self.lent(run.shelf()) else {
            return Ok(None);
        };
        let (nodes, text) = (lent.nodes, lent.text.clone()?);
        pay_text(run, nodes, text_work(text.as_str()))?;
        Ok(Some(text))
    }
}

/// The text of an item's typed value, where it lies somewhere. It fails where memory is refused.
#[tactic(auto, using(crate::proofs::TextPairs::lent_taken))]
fn taken_text(run: &Evaluation, item: &Item) -> Result<Option<TakenText>, AllocError>
    requires there { IsThere (trees_of run.now) item.now }
    ensures { IfOk result (λ o. IfSome o (IsTaken (trees_of run.now) item.now)) }
{
    match lent_text(run.shelf(), item) {
        Some(lent) => Ok(Some(TakenText {
            text: lent.text.clone()?,
            nodes: lent.nodes,
        })),
        None => Ok(None),
    }
}

/// Takes the work of a value with a text: so many nodes, and then that of the text. Code: PXQ0002 where there is less.
pub fn pay_text(run: &mut Evaluation, nodes: u64, units: u64) -> Result<(), ValueFault>
    ensures paid { GivesIn Any (text_paid nodes units) run.old result run.new }
    ensures same { run.new ≡ record run.old { work = run.new.work } }
{
    run.spend(nodes)?;
    run.spend(units)
}
