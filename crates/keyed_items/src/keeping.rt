//! Tuples of items that pass a test, which are kept with their keys.

ghost use Rattle.std.specs.Prelude.{◌≡◌, List, Option, length, OnOk};
ghost use Rattle.std.specs.List.{All};
ghost use Rattle.values.specs.Items.{IsThere};
ghost use Rattle.query_grammar.specs.declared.ast.Expr.{Expr};
ghost use Rattle.query_grammar.specs.declared.ast.SortKey.{SortKey};
ghost use Rattle.query_meaning.specs.Running.{trees_of};
ghost use Rattle.evaluation.specs.Gives.{GivesIn, IsReady, Stand};
ghost use Rattle.sorted_tuples.specs.Keys.{AreKept};
ghost use Rattle.item_expressions.specs.Looped.{leaving};
ghost use Rattle.item_expressions.specs.Others.{CanTest, IsTest};
ghost use Rattle.item_expressions.specs.Subjects.{IsVariable};
ghost use Rattle.keyed_items.specs.Keyed.{AreKeys, kept_of, kept_of_each};

use crate::keys::keys_of;
use evaluation::{Environment, Evaluation};
use item_expressions::{ItemFunction, ItemTest, read_if};
use sorted_tuples::{Binding, Place, Tuples};
use std::rc::Rc;
use values::{Item, Text, ValueFault};

/// Keeps the tuple of each of some items that pass a test, after those before: a variable is bound to the item after all others. Each item takes a turn.
/// Codes: that of the first test or key that has one; PXQ0002 where no turn is left, or at the 10,001st tuple. What is left of the tuples before after a
/// fault is not said.
pub fn keep_of_each<'f>(
    run: &mut Evaluation,
    test: &ItemTest,
    functions: &[ItemFunction],
    items: &[Item],
    variable: &Text,
    others: &Environment<'f, '_>,
    given: &mut Tuples<'f>,
) -> Result<(), ValueFault>
    requires can { CanTest (trees_of run.old) test.now }
    requires items { Stand items.now run.old }
    requires ready { IsReady others.now run.old }
    requires kept { AreKept (length functions.now) given.old run.old }
    ensures { (condition : Option Expr) (keys : List (SortKey Expr)) → IsTest (trees_of run.old) condition variable.now others.now.variables test.now → AreKeys keys functions.now
        → All (λ f. IsVariable variable.now f.subject) functions.now
        → GivesIn (AreKept (length functions.now)) (kept_of_each condition keys variable.now others.now items.now given.old) run.old (leaving result given.new) run.new }
{
    // What is looked at more than once is looked up once.
    let reads = test.reads_text();
    let binding = Binding::shared(run.alloc(), others.keep()?, variable.clone()?)?;
    for item in items {
        keep_of(run, test, functions, reads, item, &binding, given)?;
    }
    Ok(())
}

/// One item.
fn keep_of<'f>(
    run: &mut Evaluation,
    test: &ItemTest,
    functions: &[ItemFunction],
    reads: bool,
    item: &Item,
    binding: &Rc<Binding<'f>>,
    given: &mut Tuples<'f>,
) -> Result<(), ValueFault>
    requires can { CanTest (trees_of run.old) test.now }
    requires item { IsThere (trees_of run.old) item.now }
    requires ready { IsReady binding.now.value.others run.old }
    requires kept { AreKept (length functions.now) given.old run.old }
    ensures gives { (condition : Option Expr) (keys : List (SortKey Expr)) → IsTest (trees_of run.old) condition binding.now.value.variable binding.now.value.others.variables test.now → AreKeys keys functions.now
        → All (λ f. IsVariable binding.now.value.variable f.subject) functions.now
        → GivesIn (AreKept (length functions.now)) (kept_of condition keys binding.now.value.variable binding.now.value.others given.old item.now) run.old (leaving result given.new) run.new }
    ensures kept { OnOk result (AreKept (length functions.now) given.new run.new) }
    ensures same { OnOk result (run.new ≡ record run.old { turns = run.new.turns; work = run.new.work }) }
{
    run.turn()?;
    let read = read_if(run, reads, item)?;
    if test.holds(run, &read)? {
        let keys = keys_of(run, functions, &read)?;
        let place = Place::bound(binding.clone()?, item.clone()?);
        given.push(place, keys)
    } else {
        Ok(())
    }
}
