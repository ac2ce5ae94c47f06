//! Sequences of atomic values, as functions give them.

ghost use Rattle.std.specs.Prelude.{◌≡◌, ◌<◌, ◌≤◌, ◌∷◌, ◌++◌, [], length, Ok};
ghost use Rattle.query_meaning.specs.Functions as functions;
ghost use Rattle.query_meaning.specs.Running.{most_items};
ghost use Rattle.evaluation.specs.Gives.{Gives, Judged, Says};
ghost use Rattle.values.specs.declared.atom.Item.TheVariants as item;

use evaluation::{Evaluation, Sequence};
use std::alloc::Global;
use values::{Atom, Item, Text, ValueFault, text_work};

/// One boolean. It fails only where memory is refused.
pub(crate) fn boolean_of(run: &mut Evaluation, value: bool) -> Result<Sequence, ValueFault>
    ensures { Gives (functions.boolean value) run.old result run.new }
{
    Ok(Sequence::one(run.alloc(), Item::Atomic(Atom::Boolean(value)))?)
}

/// One integer. It fails only where memory is refused.
pub(crate) fn integer_of(run: &mut Evaluation, value: i64) -> Result<Sequence, ValueFault>
    ensures { Gives (functions.integer value) run.old result run.new }
{
    Ok(Sequence::one(run.alloc(), Item::Atomic(Atom::Integer(value)))?)
}

/// One string that is made, which takes its work. Code: PXQ0002 where less work is left.
pub(crate) fn string_of(run: &mut Evaluation, text: Text) -> Result<Sequence, ValueFault>
    ensures given { Gives (functions.string text) run.old result run.new }
    ensures judged { Judged (functions.string text run.old) result }
{
    run.spend(text_work(text.as_str()))?;
    Ok(Sequence::one(run.alloc(), Item::Atomic(Atom::String(text)))?)
}

/// Items, and one more. It fails only where memory is refused.
#[tactic(auto, unfolding(query_meaning::specs::Running::most_items))]
pub(crate) fn and_item(given: Sequence, item: Item) -> Result<Sequence, ValueFault>
    requires room { length given < most_items }
    ensures { Says (Ok (given ++ item ∷ [])) result }
{
    given.and(item)
}

/// The sequence of atomic values. It fails only where memory is refused.
#[tactic(auto, unfolding(query_meaning::specs::Running::most_items))]
pub(crate) fn sequence_of(alloc: Global, values: Vec<Atom>) -> Result<Sequence, ValueFault>
    requires most { length values.items ≤ most_items }
    ensures { Says (Ok (functions.items_of values.items)) result }
{
    if let [_] = values.as_slice() {
        return alone(alloc, values);
    }
    let mut items = Vec::with_capacity(alloc, values.len())?;
    for value in values {
        items.push(Item::Atomic(value))?;
    }
    Ok(Sequence::of(items)?)
}

/// The sequence of one value at the most, which takes no memory.
fn alone(alloc: Global, values: Vec<Atom>) -> Result<Sequence, ValueFault>
    requires most { length values.items ≤ 1 }
    ensures { Says (Ok (functions.items_of values.items)) result }
{
    let mut values = values;
    match values.pop() {
        Some(value) => Ok(Sequence::one(alloc, Item::Atomic(value))?),
        None => Ok(Sequence::new(alloc)),
    }
}
