//! FLWOR expressions, over a function that evaluates their parts (XQuery 1.0, section 3.8).

ghost use Rattle.std.specs.Prelude.{◌∷◌, [], map, option_map};
ghost use Rattle.std.specs.Option.{ForSome};
ghost use Rattle.values.specs.Items.{IsThere};
ghost use Rattle.query_meaning.specs.Environment.{with_variable};
ghost use Rattle.query_meaning.specs.Meaning.{mean};
ghost use Rattle.query_meaning.specs.Running.{trees_of};
ghost use Rattle.query_meaning.specs.Sequences as meaning;
ghost use Rattle.evaluation.specs.Evaluates.{Evaluates, EvaluatesEach};
ghost use Rattle.clause_walks.specs.Walked as walked;
ghost use Rattle.query_control.specs.Evaluates.{EvaluatesFlwor};
ghost use Rattle.evaluation.specs.Gives.{Any, Gives, GivesIn, IsReady, Stand};
ghost use Rattle.sorted_tuples.specs.Keys.{sort_key_of};
ghost use Rattle.item_expressions.specs.Looped.{leaving};
ghost use Rattle.query_control.specs.Parts as part;
ghost use Rattle.query_control.specs.Functions.{IsFunctionOf};
ghost use Rattle.item_expressions.specs.Lasting.{stand_on};

use crate::forms::Forms;
use clause_walks::{AtTuple, Walk, and_item};
use evaluation::{Environment, Evaluation, Sequence, Variables};
use item_expressions::{Condition, ItemFunction, add_of_each};
use query_grammar::{Clause, Expr, SortKey};
use read_items::ReadItem;
use sqlite_items::{Boxed, Items};
use values::{Item, Text, ValueFault};

impl<F: Fn(&mut Evaluation, &Expr, &Environment) -> Result<Sequence, ValueFault>> Forms<F> {
    /// Clauses, `where`, `order by` and `return` (XQuery 1.0, section 3.8). Each item of a `for` clause takes a turn. Codes: that of the first part that has
    /// one; FORG0006 where `where` has no truth value; PXQ0002 where no turn is left, at the tuple that brings the 10,001st item, with `order by` at the
    /// 10,001st tuple, or where a key's string is too long; XPTY0004 where a key is more than one value, or two at one position differ in type.
    pub fn flwor(
        &self,
        run: &mut Evaluation,
        clauses: &Items<Clause<Expr>>,
        condition: &Option<Boxed<Expr>>,
        keys: &Items<SortKey<Expr>>,
        body: &Boxed<Expr>,
        env: &Environment,
    ) -> Result<Sequence, ValueFault>
        requires flwor { EvaluatesFlwor (F.pre self.now.value_of) (F.post self.now.value_of) clauses.now condition.now body.now }
        requires keys { EvaluatesEach (F.pre self.now.value_of) (F.post self.now.value_of) part.key_in keys.now }
        requires ready { IsReady env.now run.old }
        ensures { Gives (meaning.flwor (map (walked.clause_of mean) clauses.now) (option_map mean condition.now) (map (sort_key_of mean) keys.now) (mean body.now) env.now) run.old result run.new }
    {
        let clauses = clauses.as_slice();
        let condition = Condition::of(clauses, condition)?;
        let function = ItemFunction::after(clauses, body.get())?;
        if keys.is_empty() {
            return self.unordered(run, clauses, &condition, body, &function, env);
        }
        self.ordered(
            run,
            clauses,
            &condition,
            keys.as_slice(),
            body,
            &function,
            env,
        )
    }

    /// Clauses, `where` and `return`, tuple by tuple. Codes: those of `flwor`.
    #[tactic(auto, using(crate::proofs::Calls::each_alone))]
    fn unordered(
        &self,
        run: &mut Evaluation,
        clauses: &[Clause<Expr>],
        condition: &Condition,
        body: &Boxed<Expr>,
        function: &Option<ItemFunction>,
        env: &Environment,
    ) -> Result<Sequence, ValueFault>
        requires flwor { EvaluatesFlwor (F.pre self.now.value_of) (F.post self.now.value_of) clauses.now condition.now body.now }
        requires function { IsFunctionOf body.now function.now }
        requires ready { IsReady env.now run.old }
        ensures { Gives (meaning.tuples (map (walked.clause_of mean) clauses.now) (meaning.returned (option_map mean condition.now) (mean body.now)) env.now []) run.old result run.new }
    {
        let mut given = Sequence::new(run.alloc());
        let at_tuple = &Returning {
            forms: self,
            env,
            condition,
            body,
            function,
        };
        let walk = Walk {
            at_tuple,
            clauses,
            variables: env.variables(),
        };
        walk.tuples(run, &mut given)?;
        Ok(given)
    }

    /// The same as `and_items` where a variable is bound to an item after those of an environment. The variables of the item before it may serve again.
    pub(crate) fn and_bound(
        &self,
        run: &mut Evaluation,
        given: &mut Sequence,
        x: &Expr,
        variable: &Text,
        item: &Item,
        others: &Environment,
        former: &mut Option<Variables>,
    ) -> Result<(), ValueFault>
        requires evaluates { Evaluates (F.pre self.now.value_of) (F.post self.now.value_of) (x.now ∷ []) }
        requires ready { IsReady others.now run.old }
        requires item { IsThere (trees_of run.old) item.now }
        requires former { ForSome former.old (walked.Rebinds variable.now others.now.variables) }
        requires stand { Stand given.old run.old }
        ensures gives { GivesIn Stand (meaning.and_items (with_variable variable.now (item.now ∷ []) others.now) given.old (mean x.now)) run.old (leaving result given.new) run.new }
        ensures former { ForSome former.new (walked.Rebinds variable.now others.now.variables) }
    {
        let variables = and_item(run, variable, item, others.variables(), former.take())?;
        let added = self.and_items(run, given, x, &others.with(&variables));
        *former = Some(variables);
        added
    }

    /// `where`: the effective boolean value of the test, and true where there is none. Codes: those of `holds`.
    pub(crate) fn tested(
        &self,
        run: &mut Evaluation,
        condition: &Condition,
        env: &Environment,
    ) -> Result<bool, ValueFault>
        requires condition { ForSome condition.now (λ x. Evaluates (F.pre self.now.value_of) (F.post self.now.value_of) (x ∷ [])) }
        requires ready { IsReady env.now run.old }
        ensures { GivesIn Any (meaning.tested (option_map mean condition.now) env.now) run.old result run.new }
    {
        let Some(test) = condition.test() else {
            return Ok(true);
        };
        self.holds(run, test, env)
    }
}

/// `where` and `return` at each tuple: the items of the tuples before it, and its own.
#[derive_where(Clone, Copy)]
struct Returning<'w, 'f, F> {
    forms: &'w Forms<F>,
    env: &'w Environment<'f, 'w>,
    condition: &'w Condition<'w, 'w>,
    body: &'w Boxed<Expr>,
    /// The same as a function of the item that the last clause binds its variable to, where it is one.
    function: &'w Option<ItemFunction<'w>>,
}

impl<'w, 'f, F: Fn(&mut Evaluation, &Expr, &Environment) -> Result<Sequence, ValueFault>> AtTuple
    for Returning<'w, 'f, F> {
    type Given = Sequence;

    type Left = Option<Variables>;

    ghost env = { λ s. s.env.now };

    ghost can_evaluate = { λ s x. Evaluates (F.pre s.forms.now.value_of) (F.post s.forms.now.value_of) (x ∷ []) };

    ghost can_take = { λ s. ForSome s.condition.now (λ x. Evaluates (F.pre s.forms.now.value_of) (F.post s.forms.now.value_of) (x ∷ []))
        × (Evaluates (F.pre s.forms.now.value_of) (F.post s.forms.now.value_of) (s.body.now ∷ []) × IsFunctionOf s.body.now s.function.now) };

    ghost fits = { λ s. Stand };

    ghost means = { λ s. meaning.returned (option_map mean s.condition.now) (mean s.body.now) };

    ghost serves = { λ s variable others left. ForSome left (walked.Rebinds variable others) };

    fn value_of(
        &self,
        run: &mut Evaluation,
        x: &Expr,
        variables: &Variables,
    ) -> Result<Sequence, ValueFault> {
        self.forms.value_of(run, x, &self.env.with(variables))
    }

    fn take(
        &self,
        run: &mut Evaluation,
        variables: &Variables,
        given: &mut Sequence,
    ) -> Result<(), ValueFault> {
        let env = self.env.with(variables);
        if self.forms.tested(run, self.condition, &env)? {
            self.forms.and_items(run, given, self.body.get(), &env)
        } else {
            Ok(())
        }
    }

    fn nothing_left(&self) -> Option<Variables> {
        None
    }

    fn take_item(
        &self,
        run: &mut Evaluation,
        variable: &Text,
        item: &Item,
        others: &Variables,
        left: &mut Option<Variables>,
        given: &mut Sequence,
    ) -> Result<(), ValueFault> {
        let Some(test) = self.condition.item_test(run, variable, others)? else {
            let variables = and_item(run, variable, item, others, left.take())?;
            let taken = self.take(run, &variables, given);
            *left = Some(variables);
            return taken;
        };
        if test.holds(run, &ReadItem::unread(item))? {
            let (body, others) = (self.body.get(), self.env.with(others));
            self.forms
                .and_bound(run, given, body, variable, item, &others, left)
        } else {
            Ok(())
        }
    }

    fn take_each(
        &self,
        run: &mut Evaluation,
        variable: &Text,
        items: &[Item],
        others: &Variables,
        given: &mut Sequence,
    ) -> Result<bool, ValueFault> {
        let Some(function) = self.function else {
            return Ok(false);
        };
        match self.condition.item_test(run, variable, others)? {
            Some(test) if function.is_of(variable) => {
                add_of_each(run, &test, function, items, given)?;
                Ok(true)
            }
            _ => Ok(false),
        }
    }

    ghost lasts = { λ s items old new g h. stand_on items old new g h };
}
