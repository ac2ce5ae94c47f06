//! General comparisons of two variables, read once for many items (XQuery 1.0, section 3.5.2).

ghost use Rattle.std.specs.Prelude.{◌≡◌, ◌+◌, ◌<◌, ◌^◌, ◌∷◌, [], List, Some, IfOk, IfSome, IsTrue, OnOk};
ghost use Rattle.std.specs.List.{All};
ghost use Rattle.query_meaning.specs.Environment.{Bound, Environment, looked_at, value_in};
ghost use Rattle.query_meaning.specs.Meaning.{mean};
ghost use Rattle.query_meaning.specs.Running.{trees_of};
ghost use Rattle.evaluation.specs.Gives.{Any, Gives, GivesIn, Stand};
ghost use Rattle.read_items.specs.Read.{IsRead};
ghost use Rattle.item_expressions.specs.Compared.{said};
ghost use Rattle.item_expressions.specs.Joined.{both_hold};
ghost use Rattle.item_expressions.specs.Others.{IsOtherItem};

use evaluation::{Evaluation, Variables, is_same_name};
use query_grammar::{Binary, Expr};
use read_items::{ReadItem, compare_items};
use std::alloc::AllocError;
use std::marker::Model;
use values::{Comparison, Text, ValueFault};

/// A general comparison of the variable that was bound last with another one. Contracts see it as the expression that it was read from.
#[derive(Drop)]
pub struct VariableComparison<'v, 'x> {
    /// The variable that was bound last.
    variable: &'v Text,
    operator: Comparison,
    /// The other variable.
    other: &'x Text,
    /// Whether the variable that was bound last stands on the left.
    is_left: bool,
}

impl<'v, 'x> Model for VariableComparison<'v, 'x> {
    ghost use Rattle.item_expressions.specs.Joined.{OfVariables, IsOther, joined_of};
    ghost use Rattle.std.specs.Coded.{codes};
    ghost use Rattle.query_grammar.specs.contracts.ast.Expr as of_expr;

    ghost Value = { OfVariables };

    ghost coded = { Prim.hlevel (codes, of_expr.the_row.coded) };

    ghost view = { joined_of };

    ghost invariant = { λ c. IsOther c.other.now c.variable.now };
}

/// The item of a variable that has one alone, which many are compared with.
#[derive(Drop)]
pub struct OtherItem<'o> {
    /// The item.
    pub item: ReadItem<'o>,
    /// How many variables are looked at for it, before the one that was bound last.
    pub looked: u64,
}

impl<'v, 'x> VariableComparison<'v, 'x> {
    /// The comparison that an expression is, if it is one of that variable with another one.
    #[tactic(auto, using(crate::proofs::Joining::names_same))]
    pub fn of(x: &'x Expr, variable: &'v Text) -> Option<VariableComparison<'v, 'x>>
        ensures { IfSome result (λ c. c.expression ≡ x.now) }
    {
        let Expr::Chain(first, operations) = x else {
            return None;
        };
        let [operation] = operations.as_slice() else {
            return None;
        };
        let Binary::General(operator) = operation.operator else {
            return None;
        };
        let (Expr::Variable(left), Expr::Variable(right)) = (first.get(), &operation.operand) else {
            return None;
        };
        let is_left = is_same_name(left.as_str(), variable.as_str());
        if is_left == is_same_name(right.as_str(), variable.as_str()) {
            return None;
        }
        Some(VariableComparison {
            variable,
            operator,
            other: if is_left { right } else { left },
            is_left,
        })
    }

    /// Whether the variable that was bound last is that of that name.
    #[tactic(auto, using(crate::proofs::Joining::names_same))]
    pub(crate) fn is_of(&self, variable: &Text) -> bool
        ensures { IsTrue result → self.now.variable ≡ variable.now }
    {
        is_same_name(self.variable.as_str(), variable.as_str())
    }

    /// The item of the other variable, with its text; `None` where it has not just one. It fails where memory is refused.
    #[tactic(auto, using(crate::proofs::Joining::item_there))]
    pub(crate) fn other<'o>(
        &self,
        run: &Evaluation,
        others: &'o Variables,
    ) -> Result<Option<OtherItem<'o>>, AllocError>
        requires others { All (λ b. Stand b.items run.now) others.now }
        ensures { IfOk result (λ o. IfSome o (IsOtherItem (trees_of run.now) self.now.other others.now)) }
    {
        match others.one_item(self.other.as_str()) {
            Some(other) => Ok(Some(OtherItem {
                item: ReadItem::of(run, other.item)?,
                looked: other.looked,
            })),
            None => Ok(None),
        }
    }

    /// Whether the comparison holds where the variable is bound to an item after those others: what the expression gives then, for the same turn and
    /// work. Faults: those of a comparison of two items.
    #[tactic(auto, using(crate::proofs::Joining::left_gives, crate::proofs::Joining::right_gives))]
    pub(crate) fn holds(
        &self,
        run: &mut Evaluation,
        item: &ReadItem,
        other: &OtherItem,
    ) -> Result<bool, ValueFault>
        requires item { IsRead (trees_of run.old) item.now }
        requires other { IsRead (trees_of run.old) other.now.item }
        requires few { other.now.looked + 1 < 2 ^ 64 }
        ensures holds { (others : List Bound) (env : Environment) → value_in self.now.other others ≡ Some (other.now.item.item.now ∷ []) → other.now.looked ≡ looked_at self.now.other others
            → env.variables ≡ record { variable = self.now.variable; items = item.now.item.now ∷ [] } ∷ others → Gives (mean self.now.expression env) run.old (said result) run.new }
        ensures same { OnOk result (run.new ≡ record run.old { turns = run.new.turns; work = run.new.work }) }
    {
        let looked = other.looked + 1; // the variable that was bound last is looked at before it
        if self.is_left {
            both_hold(run, self.operator, item, 1, &other.item, looked)
        } else {
            both_hold(run, self.operator, &other.item, looked, item, 1)
        }
    }
}

/// Whether a comparison holds of the items of two variables, for which so many variables each are looked at.
fn both_hold(
    run: &mut Evaluation,
    operator: Comparison,
    left: &ReadItem,
    left_looked: u64,
    right: &ReadItem,
    right_looked: u64,
) -> Result<bool, ValueFault>
    requires left { IsRead (trees_of run.old) left.now }
    requires right { IsRead (trees_of run.old) right.now }
    ensures holds { GivesIn Any (both_hold operator left.now.item.now left_looked right.now.item.now right_looked) run.old result run.new }
    ensures same { OnOk result (run.new ≡ record run.old { turns = run.new.turns; work = run.new.work }) }
{
    run.spend(left_looked)?;
    run.spend(2)?;
    run.spend(right_looked)?;
    run.spend(2)?;
    let holds = compare_items(run, operator, left, right)?;
    run.spend(2)?; // for what the operator gives
    run.spend(2)?; // for what the expression gives
    Ok(holds)
}
