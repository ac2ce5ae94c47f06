//! General comparisons of items with another one (XQuery 1.0, section 3.5.2).

ghost use Rattle.std.specs.Prelude.{◌≡◌, ◌∷◌, [], OnOk};
ghost use Rattle.query_meaning.specs.Running.{trees_of};
ghost use Rattle.evaluation.specs.Gives.{Any, GivesIn, Stand};
ghost use Rattle.read_items.specs.Pairs.{compared, each_compared, items_compared, pairs_taken};
ghost use Rattle.read_items.specs.Read.{IsRead};

use crate::read_item::ReadItem;
use crate::text_pairs::TextPairs;
use evaluation::{Evaluation, Sequence};
use std::slice;
use values::{Atom, Comparison, ValueFault};

/// Whether a general comparison holds of the typed values of two items, which are taken first, the left one before the right one; the pair takes a turn,
/// and its work. Faults: `Memory`; `Code` with that of the first value that has one, of the pair, or with PXQ0002 where no turn is left, or less work.
#[tactic(auto, using(crate::proofs::TextPairs::one_compared))]
pub fn compare_items(
    run: &mut Evaluation,
    op: Comparison,
    left: &ReadItem,
    right: &ReadItem,
) -> Result<bool, ValueFault>
    requires left { IsRead (trees_of run.old) left.now }
    requires right { IsRead (trees_of run.old) right.now }
    ensures holds { GivesIn Any (items_compared op left.now.item.now right.now.item.now) run.old result run.new }
    ensures same { OnOk result (run.new ≡ record run.old { turns = run.new.turns; work = run.new.work }) }
{
    match TextPairs::of_one(run.shelf(), op, left, right) {
        Some(pairs) => take(run, pairs),
        None => {
            let value = run.atom(left.item)?;
            let other = run.atom(right.item)?;
            compare_with(run, op, slice::from_ref(&value), &other)
        }
    }
}

/// Whether a general comparison holds of the typed value of some item on the left and that of the one on the right. All values are taken first, from the
/// left; each pair that is tried takes a turn, and its work. Faults: `Memory`; `Code` with that of the first value that has one, of the first such pair,
/// or with PXQ0002 where no turn is left, or less work.
#[tactic(auto, using(crate::proofs::TextPairs::all_compared))]
pub fn compare_each(
    run: &mut Evaluation,
    op: Comparison,
    left: &Sequence,
    right: &ReadItem,
) -> Result<bool, ValueFault>
    requires left { Stand left.now run.old }
    requires right { IsRead (trees_of run.old) right.now }
    ensures holds { GivesIn Any (each_compared op left.now right.now.item.now) run.old result run.new }
    ensures same { OnOk result (run.new ≡ record run.old { turns = run.new.turns; work = run.new.work }) }
{
    match TextPairs::of_each(run.shelf(), op, left.as_slice(), right) {
        Some(pairs) => take(run, pairs),
        None => {
            let values = run.atoms(left)?;
            let other = run.atom(right.item)?;
            compare_with(run, op, &values, &other)
        }
    }
}

/// The same of texts, once what their values and pairs cost is taken.
fn take(run: &mut Evaluation, pairs: TextPairs) -> Result<bool, ValueFault>
    ensures holds { GivesIn Any (pairs_taken pairs) run.old result run.new }
    ensures same { OnOk result (run.new ≡ record run.old { turns = run.new.turns; work = run.new.work }) }
{
    run.take_turns(pairs.turns)?;
    run.spend(pairs.work)?;
    Ok(pairs.holds)
}

/// Whether a general comparison holds of some value on the left and the one on the right.
fn compare_with(
    run: &mut Evaluation,
    op: Comparison,
    left: &[Atom],
    right: &Atom,
) -> Result<bool, ValueFault>
    ensures holds { GivesIn Any (compared op left.now (right.now ∷ [])) run.old result run.new }
    ensures same { OnOk result (run.new ≡ record run.old { turns = run.new.turns; work = run.new.work }) }
{
    run.compare(op, left, slice::from_ref(right))
}
