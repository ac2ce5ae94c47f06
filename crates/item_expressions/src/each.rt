//! `return` at each item of a `for` clause, where it is a function of the item (XQuery 1.0, section 3.8).

ghost use Rattle.std.specs.Prelude.{◌≡◌, ℕ, List, [], ◌∷◌, Option, IfOk, OnOk};
ghost use Rattle.values.specs.Items.{IsThere};
ghost use Rattle.query_grammar.specs.declared.ast.Expr.{Expr};
ghost use Rattle.query_meaning.specs.Environment.{Bound, Environment, with_variable};
ghost use Rattle.query_meaning.specs.Meaning.{mean};
ghost use Rattle.query_meaning.specs.Running.{trees_of};
ghost use Rattle.query_meaning.specs.Sequences as meaning;
ghost use Rattle.evaluation.specs.Gives.{GivesIn, Stand};
ghost use Rattle.read_items.specs.Read.{IsRead};
ghost use Rattle.item_expressions.specs.Looped.{leaving, returned_of, returned_of_each};
ghost use Rattle.item_expressions.specs.Others.{CanTest, IsTest};
ghost use Rattle.item_expressions.specs.Subjects.{IsVariable};

use crate::item_function::ItemFunction;
use crate::item_test::ItemTest;
use evaluation::{Evaluation, Sequence};
use read_items::ReadItem;
use std::alloc::AllocError;
use values::{Item, ValueFault};

/// Adds what a function gives for each of some items that pass a test, to items before. Each takes a turn. Codes: that of the first test or value that
/// has one; PXQ0002 where no turn is left, or at the 10,001st item. What is left of those before after a fault is not said.
pub fn add_of_each(
    run: &mut Evaluation,
    test: &ItemTest,
    function: &ItemFunction,
    items: &[Item],
    given: &mut Sequence,
) -> Result<(), ValueFault>
    requires can { CanTest (trees_of run.old) test.now }
    requires items { Stand items.now run.old }
    requires stand { Stand given.old run.old }
    ensures { (condition : Option Expr) (variable : List ℕ) (others : List Bound) (env : Environment) → IsTest (trees_of run.old) condition variable others test.now
        → IsVariable variable function.now.subject → env.variables ≡ others
        → GivesIn Stand (returned_of_each condition function.now.expression variable env items.now given.old) run.old (leaving result given.new) run.new }
{
    // What both look at is looked up once.
    let reads = test.reads_text() && function.reads_text();
    for item in items {
        add_of(run, test, function, reads, item, given)?;
    }
    Ok(())
}

/// One item.
fn add_of(
    run: &mut Evaluation,
    test: &ItemTest,
    function: &ItemFunction,
    reads: bool,
    item: &Item,
    given: &mut Sequence,
) -> Result<(), ValueFault>
    requires can { CanTest (trees_of run.old) test.now }
    requires item { IsThere (trees_of run.old) item.now }
    requires stand { Stand given.old run.old }
    ensures gives { (condition : Option Expr) (variable : List ℕ) (others : List Bound) (env : Environment) → IsTest (trees_of run.old) condition variable others test.now
        → IsVariable variable function.now.subject → env.variables ≡ others
        → GivesIn Stand (returned_of condition function.now.expression variable env given.old item.now) run.old (leaving result given.new) run.new }
    ensures stand { OnOk result (Stand given.new run.new) }
    ensures same { OnOk result (run.new ≡ record run.old { turns = run.new.turns; work = run.new.work }) }
{
    run.turn()?;
    let read = read_if(run, reads, item)?;
    if test.holds(run, &read)? {
        add_value(run, function, &read, given)
    } else {
        Ok(())
    }
}

/// Adds what a function gives for an item, to items before. Codes: those of the function; PXQ0002 at the 10,001st item. What is left of those before after
/// a fault is not said.
#[tactic(auto, using(crate::proofs::Returned::pushed_stand))]
pub fn add_value(
    run: &mut Evaluation,
    function: &ItemFunction,
    item: &ReadItem,
    given: &mut Sequence,
) -> Result<(), ValueFault>
    requires read { IsRead (trees_of run.old) item.now }
    requires stand { Stand given.old run.old }
    ensures gives { (variable : List ℕ) (env : Environment) → IsVariable variable function.now.subject
        → GivesIn Stand (meaning.and_items (with_variable variable (item.now.item.now ∷ []) env) given.old (mean function.now.expression)) run.old (leaving result given.new) run.new }
    ensures stand { OnOk result (Stand given.new run.new) }
    ensures same { OnOk result (run.new ≡ record run.old { work = run.new.work }) }
{
    let made = function.value(run, item)?;
    given.push(made)
}

/// An item, with its text where that is wanted. It fails where memory is refused.
pub fn read_if<'i>(
    run: &Evaluation,
    reads: bool,
    item: &'i Item,
) -> Result<ReadItem<'i>, AllocError>
    requires there { IsThere (trees_of run.now) item.now }
    ensures { IfOk result (λ r. (r.item.now ≡ item.now) × IsRead (trees_of run.now) r) }
{
    if reads {
        ReadItem::of(run, item)
    } else {
        Ok(ReadItem::unread(item))
    }
}
