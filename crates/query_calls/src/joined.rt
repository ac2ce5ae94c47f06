//! `string-join` (Functions and Operators, section 7.4.2).

ghost use Rattle.std.specs.Prelude.{◌≡◌, ◌+◌, ◌∷◌, [], map, Some, Ok, IfErr, IfOk, IfSome};
ghost use Rattle.shelves.specs.Shelf.{shelf_trees};
ghost use Rattle.values.specs.Items.{AreThere, IsThere};
ghost use Rattle.values.specs.Work.{text_work};
ghost use Rattle.query_meaning.specs.Functions as functions;
ghost use Rattle.query_meaning.specs.Operators.{between_atoms};
ghost use Rattle.query_meaning.specs.Running.{Run, trees_of};
ghost use Rattle.evaluation.specs.Gives.{Fails, Gives, Stand};
ghost use Rattle.query_calls.specs.Joined.{IsJoined, joined_paid, texts_of};
ghost use Rattle.query_strings.specs.Texts.{text_at};

use crate::sequences::string_of;
use evaluation::{Evaluation, Sequence};
use query_strings::{LimitedString, one_text, separated, text_in};
use shelves::Shelf;
use std::alloc::{AllocError, Global};
use values::{Atom, Item, LentText, ValueFault, lent_text, text_work};

/// `string-join`: the texts of values, with a separator between each two (Functions and Operators, section 7.4.2). It takes the work of the
/// typed values, and that of the result. Codes: PXQ0002 where a string value or the result is too long, or too little work is left;
/// XPTY0004 where there is an integer or a boolean, or not just one separator.
pub fn string_join(
    run: &mut Evaluation,
    items: &Sequence,
    separator: &Sequence,
) -> Result<Sequence, ValueFault>
    requires items { Stand items.now run.old }
    requires separator { Stand separator.now run.old }
    ensures { Gives (between_atoms functions.string_join items.now separator.now) run.old result run.new }
{
    if let [only] = separator.as_slice() {
        if let Some(joined) = lent_joined(run, items.as_slice(), only)? {
            return paid(run, joined);
        }
    }
    let values = run.atoms(items)?;
    let separators = run.atoms(separator)?;
    joined_of(run, &values, &separators)
}

/// Texts that were joined where they lie.
#[derive(Drop)]
struct Joined {
    /// What they come to.
    text: LimitedString,
    /// The work of all values, that of the separator among them.
    work: u64,
}

/// The texts of items, joined where they lie; `None` where one does not lie anywhere, or they are too long together. Fault: `Memory`.
fn lent_joined(
    run: &Evaluation,
    items: &[Item],
    separator: &Item,
) -> Result<Option<Joined>, ValueFault>
    requires items { Stand items.now run.now }
    requires separator { IsThere (trees_of run.now) separator.now }
    ensures joined { IfOk result (λ found. IfSome found (IsJoined (trees_of run.now) items.now separator.now)) }
    ensures memory { IfErr result (λ fault. fault ≡ ValueFault.Memory) }
{
    let Some(separator) = lent_text(run.shelf(), separator) else {
        return Ok(None);
    };
    let Some(lent) = lent_texts(run.alloc(), run.shelf(), items)? else {
        return Ok(None);
    };
    let Some(work) = and_value(lent.work, &separator) else {
        return Ok(None);
    };
    match separated(run.alloc(), separator.text.as_str(), &lent.texts) {
        Ok(text) => Ok(Some(Joined { text, work })),
        Err(ValueFault::Code(_)) => Ok(None),
        Err(ValueFault::Memory) => Err(ValueFault::Memory),
    }
}

/// Texts where they lie, and the work of the values that have them.
#[derive(Drop)]
struct LentTexts<'s> {
    texts: Vec<&'s str>,
    work: u64,
}

/// The texts of items' typed values; `None` where one does not lie anywhere. It fails where memory is refused.
fn lent_texts<'s>(
    alloc: Global,
    shelf: &'s Shelf<'_>,
    items: &'s [Item],
) -> Result<Option<LentTexts<'s>>, AllocError>
    requires there { AreThere (shelf_trees shelf.now) items.now }
    ensures { IfOk result (λ found. IfSome found (λ t. texts_of (shelf_trees shelf.now) items.now [] 0 ≡ Some (map text_at t.texts.items, t.work))) }
{
    let mut texts = Vec::with_capacity(alloc, items.len())?;
    let mut work = 0;
    for item in items {
        let Some(lent) = lent_text(shelf, item) else {
            return Ok(None);
        };
        let Some(more) = and_value(work, &lent) else {
            return Ok(None);
        };
        texts.push(lent.text.as_str())?;
        work = more;
    }
    Ok(Some(LentTexts { texts, work }))
}

/// So much work, and that of a value with a text; `None` where 64 bits do not hold it.
fn and_value(work: u64, lent: &LentText) -> Option<u64>
    ensures { IfSome result (λ sum. sum ≡ work + (lent.now.nodes + text_work lent.now.text.now)) }
{
    let units = lent.nodes.checked_add(text_work(lent.text.as_str()))?;
    work.checked_add(units)
}

/// Texts that were joined, for the work of all values and of the result.
fn paid(run: &mut Evaluation, joined: Joined) -> Result<Sequence, ValueFault>
    ensures { Gives (joined_paid joined.text joined.work) run.old result run.new }
{
    run.spend(joined.work)?;
    let text = joined.text.into_text(run.alloc())?;
    string_of(run, text)
}

fn joined_of(
    run: &mut Evaluation,
    values: &[Atom],
    separators: &[Atom],
) -> Result<Sequence, ValueFault>
    ensures { Gives (functions.string_join values.now separators.now) run.old result run.new }
{
    let texts = all_texts(run.alloc(), values)?;
    let separator = one_text(separators)?;
    let text = separated(run.alloc(), separator, &texts)?;
    let text = text.into_text(run.alloc())?;
    string_of(run, text)
}

/// The texts of strings and untyped values. Faults: `Memory`; `Code` with XPTY0004 at an integer or a boolean.
fn all_texts<'a>(alloc: Global, values: &'a [Atom]) -> Result<Vec<&'a str>, ValueFault>
    ensures ok { IfOk result (λ v. (run : Run) → functions.all_texts values.now run ≡ Ok (map text_at v.items, run)) }
    ensures code { IfErr result (λ fault. (run : Run) → Fails (functions.all_texts values.now run) fault) }
{
    let mut texts = Vec::with_capacity(alloc, values.len())?;
    for value in values {
        texts.push(text_in(value)?)?;
    }
    Ok(texts)
}
