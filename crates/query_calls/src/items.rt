//! Functions of sequences of any items (Functions and Operators, sections 2.4, 15.1 and 15.4.1).

ghost use Rattle.std.specs.Prelude.{◌≡◌, ◌≤◌, length, reverse, IfOk, Ok};
ghost use Rattle.query_meaning.specs.Functions as functions;
ghost use Rattle.query_meaning.specs.Running.{most_items};
ghost use Rattle.evaluation.specs.Gives.{Gives, Says, Stand};

use crate::sequences::{and_item, boolean_of, integer_of, sequence_of};
use evaluation::{Evaluation, Sequence};
use std::alloc::Global;
use values::{Item, ValueFault};

/// `count` (Functions and Operators, section 15.4.1). It fails only where memory is refused.
#[tactic(auto, unfolding(query_meaning::specs::Running::most_items))]
pub fn count(run: &mut Evaluation, items: &Sequence) -> Result<Sequence, ValueFault>
    ensures { Gives (functions.count items.now) run.old result run.new }
{
    let count = items.as_slice().len();
    integer_of(run, count as i64)
}

/// `empty` (Functions and Operators, section 15.1.4). It fails only where memory is refused.
pub fn empty(run: &mut Evaluation, items: &Sequence) -> Result<Sequence, ValueFault>
    ensures { Gives (functions.empty items.now) run.old result run.new }
{
    let is_none = is_none(items.as_slice());
    boolean_of(run, is_none)
}

/// `exists` (Functions and Operators, section 15.1.5). It fails only where memory is refused.
pub fn exists(run: &mut Evaluation, items: &Sequence) -> Result<Sequence, ValueFault>
    ensures { Gives (functions.exists items.now) run.old result run.new }
{
    let is_none = is_none(items.as_slice());
    boolean_of(run, !is_none)
}

/// Whether there are no items.
fn is_none(items: &[Item]) -> bool
    ensures { result ≡ functions.is_none items.now }
{
    match items {
        [] => true,
        _ => false,
    }
}

/// `reverse` (Functions and Operators, section 15.1.9). It fails only where memory is refused.
pub fn reverse(run: &mut Evaluation, items: &Sequence) -> Result<Sequence, ValueFault>
    requires stand { Stand items.now run.old }
    ensures { Gives (functions.reversed items.now) run.old result run.new }
{
    reversed(run.alloc(), items.as_slice())
}

/// The items from the last to the first.
fn reversed(alloc: Global, items: &[Item]) -> Result<Sequence, ValueFault>
    requires most { length items.now ≤ most_items }
    ensures { Says (Ok (reverse items.now)) result }
{
    let mut given = Sequence::new(alloc);
    let mut rest = items;
    while let Some((item, before)) = rest.split_last() {
        given = and_item(given, item.clone()?)?;
        rest = before;
    }
    Ok(given)
}

/// `data`: the typed values, which take their work (Functions and Operators, section 2.4). Code: PXQ0002 where the string value of a node is
/// too long or too little work is left.
pub fn data(run: &mut Evaluation, items: &Sequence) -> Result<Sequence, ValueFault>
    requires stand { Stand items.now run.old }
    ensures { Gives (functions.data_of items.now) run.old result run.new }
{
    // There are at most 10,000 of them.
    let _most = items.as_slice();
    let values = run.atom_list(items)?;
    sequence_of(run.alloc(), values)
}
