//! Texts of typed values.

ghost use Rattle.std.specs.Prelude.{◌≡◌, OnOk};
ghost use Rattle.query_meaning.specs.Running.{trees_of};
ghost use Rattle.evaluation.specs.Gives.{Any, GivesIn};
ghost use Rattle.read_items.specs.Read.{IsRead};
ghost use Rattle.query_strings.specs.ItemTexts.{GivesLength, item_length, item_text, printed_item};

use crate::texts::{characters, printed};
use evaluation::Evaluation;
use fault_codes::Code;
use read_items::{ReadItem, pay_text};
use values::{Atom, Text, ValueFault, text_work};

/// The typed value of an item as a string (Functions and Operators, section 17.1.2), for the work of that value. Faults: `Memory`; `Code` with PXQ0002
/// where a string value is too long or too little work is left.
#[tactic(auto, using(crate::proofs::ItemTexts::printed_gives, crate::proofs::ItemTexts::printed_fails))]
pub fn printed_item(run: &mut Evaluation, item: &ReadItem) -> Result<Text, ValueFault>
    requires read { IsRead (trees_of run.old) item.now }
    ensures text { GivesIn Any (printed_item item.now.item.now) run.old result run.new }
    ensures same { run.new ≡ record run.old { work = run.new.work } }
{
    if let Some(text) = item.take_text(run)? {
        return Ok(text);
    }
    let value = run.atom(item.item)?;
    Ok(printed(run.alloc(), &value)?)
}

/// The text of the typed value of an item, for the work of that value. Faults: those of the value, and `Code` with XPTY0004 where it is an integer or a
/// boolean.
#[tactic(auto, using(crate::proofs::ItemTexts::text_gives, crate::proofs::ItemTexts::text_fails))]
pub fn item_text(run: &mut Evaluation, item: &ReadItem) -> Result<Text, ValueFault>
    requires read { IsRead (trees_of run.old) item.now }
    ensures text { GivesIn Any (item_text item.now.item.now) run.old result run.new }
    ensures same { run.new ≡ record run.old { work = run.new.work } }
{
    if let Some(text) = item.take_text(run)? {
        return Ok(text);
    }
    match run.atom(item.item)? {
        Atom::String(text) | Atom::Untyped(text) => Ok(text),
        Atom::Boolean(_) | Atom::Integer(_) => Err(ValueFault::Code(Code::XPTY0004)),
    }
}

/// How many characters that text has, which are counted where it lies. Faults: those of the text.
#[tactic(auto, using(crate::proofs::ItemTexts::length_gives, crate::proofs::ItemTexts::length_fails))]
pub fn item_length(run: &mut Evaluation, item: &ReadItem) -> Result<usize, ValueFault>
    requires read { IsRead (trees_of run.old) item.now }
    ensures length { GivesIn Any (item_length item.now.item.now) run.old result run.new }
    ensures same { run.new ≡ record run.old { work = run.new.work } }
{
    if let Some(count) = lent_length(run, item)? {
        return Ok(count);
    }
    let text = item_text(run, item)?;
    Ok(characters(text.as_str()))
}

/// The same where it lies somewhere; elsewhere `None`, and nothing is taken.
#[tactic(auto, using(crate::proofs::ItemTexts::lent_length, crate::proofs::ItemTexts::unpaid))]
fn lent_length(run: &mut Evaluation, item: &ReadItem) -> Result<Option<usize>, ValueFault>
    requires read { IsRead (trees_of run.old) item.now }
    ensures length { GivesLength item.now.item.now run.old result run.new }
    ensures same { run.new ≡ record run.old { work = run.new.work } }
{
    let Some(lent) = item.lent(run.shelf()) else {
        return Ok(None);
    };
    let nodes = lent.nodes;
    let units = text_work(lent.text.as_str());
    let count = characters(lent.text.as_str());
    pay_text(run, nodes, units)?;
    Ok(Some(count))
}
