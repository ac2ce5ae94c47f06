//! Keys that are functions of an item.

ghost use Rattle.std.specs.Prelude.{◌≡◌, ◌+◌, length, Some, IfOk, IfSome, IsTrue, OnOk};
ghost use Rattle.std.specs.List.{All};
ghost use Rattle.values.specs.Comparisons.{as_string};
ghost use Rattle.values.specs.Items.{IsThere};
ghost use Rattle.query_meaning.specs.Environment.{Environment};
ghost use Rattle.query_meaning.specs.Meaning.{mean};
ghost use Rattle.query_meaning.specs.Running.{atom, trees_of};
ghost use Rattle.evaluation.specs.Gives.{Any, GivesIn};
ghost use Rattle.read_items.specs.Read.{IsRead};
ghost use Rattle.item_expressions.specs.Subjects.{IsVariable, StandsFor};
ghost use Rattle.keyed_items.specs.Keyed.{AreKeys, and_key, keys_of};

use evaluation::Evaluation;
use item_expressions::ItemFunction;
use query_grammar::{Clause, Expr, SortKey};
use read_items::{ReadItem, pay_text};
use sorted_tuples::Keys;
use std::alloc::{AllocError, Global};
use values::{Atom, Item, Text, ValueFault, atom_work};

/// The keys as functions of the item that the last clause binds its variable to; `None` where one is no such function. It fails where memory is refused.
pub fn key_functions<'x>(
    alloc: Global,
    clauses: &'x [Clause<Expr>],
    keys: &[SortKey<Expr>],
) -> Result<Option<Vec<ItemFunction<'x>>>, AllocError>
    ensures { IfOk result (λ found. IfSome found (λ v. AreKeys keys.now v.items)) }
{
    let mut functions = Vec::with_capacity(alloc, keys.len())?;
    for key in keys {
        let Some(function) = ItemFunction::after(clauses, &key.key)? else {
            return Ok(None);
        };
        functions.push(function)?;
    }
    Ok(Some(functions))
}

/// Whether what stands for an item is the variable of that name in all of them.
pub fn are_of(functions: &[ItemFunction], variable: &Text) -> bool
    ensures { IsTrue result → All (λ f. IsVariable variable.now f.subject) functions.now }
{
    for function in functions {
        if !function.is_of(variable) {
            return false;
        }
    }
    true
}

/// The keys of an item. Codes: those of its functions, and of the typed value of what they give.
pub(crate) fn keys_of(
    run: &mut Evaluation,
    functions: &[ItemFunction],
    item: &ReadItem,
) -> Result<Keys, ValueFault>
    requires read { IsRead (trees_of run.old) item.now }
    ensures keys { (env : Environment) → All (λ f. StandsFor f.subject item.now.item.now env) functions.now → GivesIn Any (keys_of env functions.now) run.old result run.new }
    ensures width { IfOk result (λ found. length found ≡ length functions.now) }
    ensures same { OnOk result (run.new ≡ record run.old { work = run.new.work }) }
{
    let mut found = Keys::new(run.alloc());
    for function in functions {
        found = with_key_of(run, found, function, item)?;
    }
    Ok(found)
}

/// The keys before, and then that of a function.
fn with_key_of(
    run: &mut Evaluation,
    given: Keys,
    function: &ItemFunction,
    item: &ReadItem,
) -> Result<Keys, ValueFault>
    requires read { IsRead (trees_of run.old) item.now }
    ensures key { (env : Environment) → StandsFor function.now.subject item.now.item.now env → GivesIn Any (and_key env given (mean function.now.expression)) run.old result run.new }
    ensures width { IfOk result (λ found. length found ≡ length given + 1) }
    ensures same { OnOk result (run.new ≡ record run.old { work = run.new.work }) }
{
    let made = function.value(run, item)?;
    let typed = own_atom(run, made)?;
    let key = as_string(typed);
    Ok(given.and(Some(key))?)
}

/// The typed value of an item that nobody else has, for the work of that value. Faults: those of `Evaluation::atom`.
#[tactic(auto, using(crate::proofs::Making::own_gives, crate::proofs::Making::own_fails))]
fn own_atom(run: &mut Evaluation, item: Item) -> Result<Atom, ValueFault>
    requires there { IsThere (trees_of run.old) item }
    ensures value { GivesIn Any (atom item) run.old result run.new }
    ensures same { run.new ≡ record run.old { work = run.new.work } }
{
    match item {
        Item::Atomic(value) => {
            pay_text(run, 0, atom_work(&value))?;
            Ok(value)
        }
        Item::Node(node) => run.atom(&Item::Node(node)),
    }
}

/// An atomic value, untyped as a string.
fn as_string(value: Atom) -> Atom
    ensures { result ≡ as_string value }
{
    match value {
        Atom::Untyped(text) => Atom::String(text),
        _ => value,
    }
}
