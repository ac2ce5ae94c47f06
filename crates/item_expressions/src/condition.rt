//! What `where` tests, read once for all tuples (XQuery 1.0, section 3.8.2).

ghost use Rattle.std.specs.Prelude.{◌≡◌, Some, option_copied, IfOk, IfSome};
ghost use Rattle.std.specs.List.{All};
ghost use Rattle.query_meaning.specs.Running.{trees_of};
ghost use Rattle.evaluation.specs.Gives.{Stand};
ghost use Rattle.item_expressions.specs.Others.{IsTest};

use crate::item_comparison::ItemComparison;
use crate::item_function::ItemFunction;
use crate::item_test::ItemTest;
use crate::subject::Subject;
use crate::variable_comparison::VariableComparison;
use evaluation::{Evaluation, Variables};
use query_grammar::{Clause, Expr};
use sqlite_items::Boxed;
use std::alloc::AllocError;
use std::marker::Model;
use values::Text;

/// The test of `where`, where there is one. Contracts see it as the expression.
#[derive(Drop)]
pub struct Condition<'t, 'v> {
    test: &'t Option<Boxed<Expr>>,
    /// The same as a comparison of the item that the last clause binds its variable to, where it is one.
    comparison: Option<ItemComparison<'v>>,
    /// The same as a comparison of that variable with another one, where it is one.
    joining: Option<VariableComparison<'v, 't>>,
    /// The same as a function of that item, where it is one.
    function: Option<ItemFunction<'v>>,
}

impl<'t, 'v> Model for Condition<'t, 'v> {
    ghost use Rattle.std.specs.Prelude.{◌≡◌, Option, Some};
    ghost use Rattle.std.specs.Coded.{coded_option};
    ghost use Rattle.std.specs.Option.{ForSome};
    ghost use Rattle.query_grammar.specs.declared.ast.Expr.{Expr};
    ghost use Rattle.query_grammar.specs.contracts.ast.Expr as of_expr;

    ghost Value = { Option Expr };

    ghost coded = { coded_option of_expr.the_row.coded };

    ghost view = { λ c. c.test.now };

    ghost invariant = { λ c. ForSome c.comparison (λ m. Some m.expression ≡ c.test.now)
        × (ForSome c.joining (λ m. Some m.expression ≡ c.test.now) × ForSome c.function (λ f. Some f.expression ≡ c.test.now)) };
}

impl<'t, 'v> Condition<'t, 'v> {
    /// The test of a FLWOR expression with these clauses. It fails where memory is refused.
    pub fn of(
        clauses: &'v [Clause<Expr>],
        test: &'t Option<Boxed<Expr>>,
    ) -> Result<Condition<'t, 'v>, AllocError>
        ensures { IfOk result (λ c. c ≡ test.now) }
    {
        Ok(Condition {
            test,
            comparison: comparison_of(clauses, test)?,
            joining: joining_of(clauses, test),
            function: function_of(clauses, test)?,
        })
    }

    /// The test, where there is one.
    pub fn test(&self) -> Option<&'t Expr>
        ensures { option_copied result ≡ self.now }
    {
        match self.test {
            Some(test) => Some(test.get()),
            None => None,
        }
    }

    /// The same as a test of the item that a variable is bound to after those others, where it can be told without binding it: where there is no test, or it
    /// compares that variable with a literal, or with another one that has one item, or is a function of it. Elsewhere `None`. It fails where memory is
    /// refused.
    pub fn item_test<'c, 'o>(
        &'c self,
        run: &Evaluation,
        variable: &Text,
        others: &'o Variables,
    ) -> Result<Option<ItemTest<'c, 'v, 't, 'o>>, AllocError>
        requires others { All (λ b. Stand b.items run.now) others.now }
        ensures { IfOk result (λ o. IfSome o (IsTest (trees_of run.now) self.now variable.now others.now)) }
    {
        let Some(_) = self.test else {
            return Ok(Some(ItemTest::Holds));
        };
        if let Some(comparison) = &self.comparison {
            if comparison.is_of(variable) {
                return Ok(Some(ItemTest::Compared(comparison)));
            }
        }
        if let Some(joining) = &self.joining {
            if joining.is_of(variable) {
                return joined_test(run, joining, others);
            }
        }
        match &self.function {
            Some(function) if function.is_of(variable) => Ok(Some(ItemTest::Told(function))),
            _ => Ok(None),
        }
    }
}

/// The test that a comparison with another variable is, where that has one item. It fails where memory is refused.
fn joined_test<'c, 'v, 'x, 'o>(
    run: &Evaluation,
    joining: &'c VariableComparison<'v, 'x>,
    others: &'o Variables,
) -> Result<Option<ItemTest<'c, 'v, 'x, 'o>>, AllocError>
    requires others { All (λ b. Stand b.items run.now) others.now }
    ensures { IfOk result (λ o. IfSome o (IsTest (trees_of run.now) (Some joining.now.expression) joining.now.variable others.now)) }
{
    match joining.other(run, others)? {
        Some(other) => Ok(Some(ItemTest::Joined(joining, other))),
        None => Ok(None),
    }
}

/// The test as a comparison of the item that the last clause binds its variable to, where it is one. It fails where memory is refused.
fn comparison_of<'v>(
    clauses: &'v [Clause<Expr>],
    test: &Option<Boxed<Expr>>,
) -> Result<Option<ItemComparison<'v>>, AllocError>
    ensures { IfOk result (λ found. IfSome found (λ m. Some m.expression ≡ test.now)) }
{
    match (clauses.split_last(), test) {
        (Some((Clause::For(binding), _)), Some(test)) => {
            ItemComparison::of(test.get(), Subject::Variable(&binding.variable))
        }
        _ => Ok(None),
    }
}

/// The test as a comparison of the variable of the last clause with another one, where it is one.
fn joining_of<'t, 'v>(
    clauses: &'v [Clause<Expr>],
    test: &'t Option<Boxed<Expr>>,
) -> Option<VariableComparison<'v, 't>>
    ensures { IfSome result (λ m. Some m.expression ≡ test.now) }
{
    match (clauses.split_last(), test) {
        (Some((Clause::For(binding), _)), Some(test)) => {
            VariableComparison::of(test.get(), &binding.variable)
        }
        _ => None,
    }
}

/// The test as a function of the item that the last clause binds its variable to, where it is one. It fails where memory is refused.
fn function_of<'v>(
    clauses: &'v [Clause<Expr>],
    test: &Option<Boxed<Expr>>,
) -> Result<Option<ItemFunction<'v>>, AllocError>
    ensures { IfOk result (λ found. IfSome found (λ f. Some f.expression ≡ test.now)) }
{
    match test {
        Some(test) => ItemFunction::after(clauses, test.get()),
        None => Ok(None),
    }
}
