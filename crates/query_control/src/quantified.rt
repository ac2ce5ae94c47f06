//! Quantified expressions, over a function that evaluates their parts (XQuery 1.0, section 3.11).

ghost use Rattle.std.specs.Prelude.{◌≡◌, ℕ, List, ◌∷◌, [], map, Some};
ghost use Rattle.std.specs.Option.{ForSome};
ghost use Rattle.values.specs.Items.{IsThere};
ghost use Rattle.query_meaning.specs.Environment.{with_variable};
ghost use Rattle.query_meaning.specs.Meaning.{mean};
ghost use Rattle.query_meaning.specs.Running.{trees_of, turn};
ghost use Rattle.query_meaning.specs.Sequences as meaning;
ghost use Rattle.clause_walks.specs.Walked as walked;
ghost use Rattle.query_control.specs.Evaluates.{EvaluatesQuantified};
ghost use Rattle.item_expressions.specs.Subjects.{IsVariable, StandsFor};
ghost use Rattle.evaluation.specs.Gives.{Any, Gives, GivesIn, IsReady, Stand};
ghost use Rattle.evaluation.specs.Bindings.{binding_of};
ghost use Rattle.query_control.specs.Parts as part;

use crate::forms::Forms;
use clause_walks::and_item;
use evaluation::{Environment, Evaluation, Sequence, Variables};
use item_expressions::{ItemComparison, Subject};
use query_grammar::{Binding, Expr, Quantifier};
use query_operators::boolean;
use read_items::ReadItem;
use sqlite_items::{Boxed, Items};
use values::{Item, Text, ValueFault};

impl<F: Fn(&mut Evaluation, &Expr, &Environment) -> Result<Sequence, ValueFault>> Forms<F> {
    /// `some` and `every` (XQuery 1.0, section 3.11). Each item that a variable is bound to takes a turn, until one decides. Codes: that of the first part
    /// that has one; FORG0006 where what is to be satisfied has no truth value; PXQ0002 where no turn is left.
    pub fn quantified(
        &self,
        run: &mut Evaluation,
        quantifier: Quantifier,
        bindings: &Items<Binding<Expr>>,
        test: &Boxed<Expr>,
        env: &Environment,
    ) -> Result<Sequence, ValueFault>
        requires quantified { EvaluatesQuantified (F.pre self.now.value_of) (F.post self.now.value_of) bindings.now test.now }
        requires ready { IsReady env.now run.old }
        ensures { Gives (meaning.quantified quantifier (map (binding_of mean) bindings.now) (mean test.now) env.now) run.old result run.new }
    {
        let value = self.satisfied(run, quantifier, bindings.as_slice(), test, env)?;
        Ok(boolean(run, value)?)
    }

    #[cycle(satisfied)]
    #[tactic(auto, using(crate::proofs::Calls::quantified_rest, clause_walks::proofs::Values::ready_with))]
    fn satisfied(
        &self,
        run: &mut Evaluation,
        quantifier: Quantifier,
        bindings: &[Binding<Expr>],
        test: &Boxed<Expr>,
        env: &Environment,
    ) -> Result<bool, ValueFault>
        requires quantified { EvaluatesQuantified (F.pre self.now.value_of) (F.post self.now.value_of) bindings.now test.now }
        requires ready { IsReady env.now run.old }
        ensures { GivesIn Any (meaning.satisfied quantifier (map (binding_of mean) bindings.now) (mean test.now) env.now) run.old result run.new }
    {
        let Some((binding, rest)) = bindings.split_first() else {
            return self.holds(run, test.get(), env);
        };
        let items = self.value_of(run, &binding.source, env)?;
        self.until_decided(
            run,
            quantifier,
            &binding.variable,
            items.as_slice(),
            rest,
            test,
            env,
        )
    }

    #[cycle(satisfied)]
    #[tactic(auto, using(crate::proofs::Calls::quantified_rest, clause_walks::proofs::Values::ready_with))]
    fn until_decided(
        &self,
        run: &mut Evaluation,
        quantifier: Quantifier,
        variable: &Text,
        items: &[Item],
        bindings: &[Binding<Expr>],
        test: &Boxed<Expr>,
        env: &Environment,
    ) -> Result<bool, ValueFault>
        requires quantified { EvaluatesQuantified (F.pre self.now.value_of) (F.post self.now.value_of) bindings.now test.now }
        requires ready { IsReady env.now run.old }
        requires items { Stand items.now run.old }
        ensures { GivesIn Any (meaning.until_decided quantifier (part.satisfied_by quantifier variable.now (map (binding_of mean) bindings.now) (mean test.now) env.now) items.now) run.old result run.new }
    {
        if bindings.is_empty() {
            if let Some(comparison) = ItemComparison::of(test.get(), Subject::Variable(variable))? {
                return compared_until_decided(run, quantifier, &comparison, items);
            }
        }
        let mut former = None;
        for item in items {
            let value = self.satisfied_by(
                run,
                quantifier,
                variable,
                item,
                &mut former,
                bindings,
                test,
                env,
            )?;
            if decides(quantifier, value) {
                return Ok(value);
            }
        }
        Ok(undecided(quantifier))
    }

    /// One item. The variables of the item before it serve again; then its own are left for the next.
    #[cycle(satisfied)]
    #[tactic(auto, using(crate::proofs::Calls::quantified_rest, clause_walks::proofs::Values::ready_with))]
    fn satisfied_by(
        &self,
        run: &mut Evaluation,
        quantifier: Quantifier,
        variable: &Text,
        item: &Item,
        former: &mut Option<Variables>,
        bindings: &[Binding<Expr>],
        test: &Boxed<Expr>,
        env: &Environment,
    ) -> Result<bool, ValueFault>
        requires quantified { EvaluatesQuantified (F.pre self.now.value_of) (F.post self.now.value_of) bindings.now test.now }
        requires ready { IsReady env.now run.old }
        requires item { IsThere (trees_of run.old) item.now }
        requires former { ForSome former.old (walked.Rebinds variable.now env.now.variables) }
        ensures gives { GivesIn Any (part.satisfied_by quantifier variable.now (map (binding_of mean) bindings.now) (mean test.now) env.now item.now) run.old result run.new }
        ensures former { ForSome former.new (walked.Rebinds variable.now env.now.variables) }
    {
        run.turn()?;
        let variables = and_item(run, variable, item, env.variables(), former.take())?;
        let value = self.satisfied(run, quantifier, bindings, test, &env.with(&variables));
        *former = Some(variables);
        value
    }
}

/// What `until_decided` comes to where no bindings are left and the test compares an item of the variable: that need not be bound.
fn compared_until_decided(
    run: &mut Evaluation,
    quantifier: Quantifier,
    comparison: &ItemComparison,
    items: &[Item],
) -> Result<bool, ValueFault>
    requires items { Stand items.now run.old }
    ensures { (variable : List ℕ) (env : Environment) → IsVariable variable comparison.now.subject
        → GivesIn Any (meaning.until_decided quantifier (part.satisfied_by quantifier variable [] (mean comparison.now.expression) env) items.now) run.old result run.new }
{
    for item in items {
        let value = compared_in_turn(run, comparison, item)?;
        if decides(quantifier, value) {
            return Ok(value);
        }
    }
    Ok(undecided(quantifier))
}

/// One item.
fn compared_in_turn(
    run: &mut Evaluation,
    comparison: &ItemComparison,
    item: &Item,
) -> Result<bool, ValueFault>
    requires item { IsThere (trees_of run.old) item.now }
    ensures { (env : Environment) → StandsFor comparison.now.subject item.now env
        → GivesIn Any (turn (meaning.tested (Some (mean comparison.now.expression)) env)) run.old result run.new }
{
    run.turn()?;
    comparison.holds(run, &ReadItem::unread(item))
}

/// Whether the value of one item decides.
fn decides(quantifier: Quantifier, value: bool) -> bool
    ensures { result ≡ meaning.decides quantifier value }
{
    match quantifier {
        Quantifier::Some => value,
        Quantifier::Every => !value,
    }
}

/// What it comes to where none decides.
fn undecided(quantifier: Quantifier) -> bool
    ensures { result ≡ meaning.undecided quantifier }
{
    match quantifier {
        Quantifier::Some => false,
        Quantifier::Every => true,
    }
}
