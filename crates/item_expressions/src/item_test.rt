//! The test of `where` at each item of one `for` clause.

ghost use Rattle.std.specs.Prelude.{◌≡◌, ℕ, List, [], ◌∷◌, Option, Some, option_map, OnOk};
ghost use Rattle.query_grammar.specs.declared.ast.Expr.{Expr};
ghost use Rattle.query_meaning.specs.Environment.{Bound, Environment, with_variable};
ghost use Rattle.query_meaning.specs.Meaning.{mean};
ghost use Rattle.query_meaning.specs.Running.{trees_of};
ghost use Rattle.query_meaning.specs.Sequences as meaning;
ghost use Rattle.evaluation.specs.Gives.{Any, GivesIn};
ghost use Rattle.read_items.specs.Read.{IsRead};
ghost use Rattle.item_expressions.specs.Others.{CanTest, IsTest};
ghost use Rattle.item_expressions.specs.Subjects.{StandsFor};

use crate::item_comparison::ItemComparison;
use crate::item_function::ItemFunction;
use crate::variable_comparison::{OtherItem, VariableComparison};
use evaluation::Evaluation;
use read_items::ReadItem;
use std::slice;
use values::{ValueFault, truth};

/// The test of `where` as one of the item that a variable is bound to, after some others that stay the same.
#[derive(Drop)]
pub enum ItemTest<'c, 'v, 'x, 'o> {
    /// There is none, so it holds.
    Holds,
    /// A comparison with a literal.
    Compared(&'c ItemComparison<'v>),
    /// A comparison with another variable, which has that item.
    Joined(&'c VariableComparison<'v, 'x>, OtherItem<'o>),
    /// The effective boolean value of what a function gives.
    Told(&'c ItemFunction<'v>),
}

impl<'c, 'v, 'x, 'o> ItemTest<'c, 'v, 'x, 'o> {
    /// Whether it holds where the variable is bound to an item after those others. Codes: those of the comparison or the function; FORG0006 where what
    /// that gives has no effective boolean value.
    #[tactic(auto, using(crate::proofs::Tested::always))]
    pub fn holds(&self, run: &mut Evaluation, item: &ReadItem) -> Result<bool, ValueFault>
        requires can { CanTest (trees_of run.old) self.now }
        requires read { IsRead (trees_of run.old) item.now }
        ensures holds { (test : Option Expr) (variable : List ℕ) (others : List Bound) (env : Environment) → IsTest (trees_of run.old) test variable others self.now
            → env.variables ≡ others → GivesIn Any (meaning.tested (option_map mean test) (with_variable variable (item.now.item.now ∷ []) env)) run.old result run.new }
        ensures same { OnOk result (run.new ≡ record run.old { turns = run.new.turns; work = run.new.work }) }
    {
        match self {
            ItemTest::Holds => Ok(true),
            ItemTest::Compared(comparison) => comparison.holds(run, item),
            ItemTest::Joined(comparison, other) => comparison.holds(run, item, other),
            ItemTest::Told(function) => is_true(run, function, item),
        }
    }

    /// Whether it looks at the item's text.
    pub fn reads_text(&self) -> bool {
        match self {
            ItemTest::Holds => false,
            ItemTest::Compared(_) | ItemTest::Joined(_, _) => true,
            ItemTest::Told(function) => function.reads_text(),
        }
    }
}

/// The effective boolean value of what a function gives for an item (XQuery 1.0, section 2.4.3). Codes: those of the function; FORG0006 where that has none.
fn is_true(
    run: &mut Evaluation,
    function: &ItemFunction,
    item: &ReadItem,
) -> Result<bool, ValueFault>
    requires read { IsRead (trees_of run.old) item.now }
    ensures holds { (env : Environment) → StandsFor function.now.subject item.now.item.now env → GivesIn Any (meaning.tested (Some (mean function.now.expression)) env) run.old result run.new }
    ensures same { OnOk result (run.new ≡ record run.old { work = run.new.work }) }
{
    let value = function.value(run, item)?;
    Ok(truth(slice::from_ref(&value))?)
}
