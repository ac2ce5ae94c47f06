//! The walk over the clauses of a FLWOR expression, whatever is done at each tuple (XQuery 1.0, section 3.8).

ghost use Rattle.std.specs.Prelude.{◌<◌, ◌≤◌, ℕ, List, [], None, length, map, option_copied};
ghost use Rattle.std.specs.Option.{ForSome};
ghost use Rattle.std.specs.List.{All};
ghost use Rattle.values.specs.Items.{IsThere};
ghost use Rattle.query_grammar.specs.declared.ast.Expr.{Expr};
ghost use Rattle.query_meaning.specs.Environment.{Bound, Environment, with_variable};
ghost use Rattle.query_meaning.specs.Meaning.{mean};
ghost use Rattle.query_meaning.specs.Running.{M, Run, trees_of, most_items};
ghost use Rattle.query_meaning.specs.Sequences as meaning;
ghost use Rattle.evaluation.specs.Gives.{Gives, GivesIn, Grows, IsReady, Stand};
ghost use Rattle.item_expressions.specs.Looped.{leaving};
ghost use Rattle.clause_walks.specs.Walked as walked;

use crate::bound::{and_item_at, source_of};
use evaluation::{Evaluation, Sequence, Variables};
use query_grammar::{Clause, Expr};
use values::{Item, Text, ValueFault};

/// What follows the clauses: what is done at each tuple, over what the tuples before it came to. Tuples differ in their variables alone.
pub trait AtTuple {
    /// What tuples come to.
    type Given: Drop;

    /// What the tuple of an item leaves for that of the next one.
    type Left: Drop;

    /// What the whole expression is evaluated in.
    ghost env: { Self → Environment };

    /// This expression of a clause can be evaluated.
    ghost can_evaluate: { Self → Expr → Type 0 };

    /// A tuple can be taken.
    ghost can_take: { Self → Type 0 };

    /// What stands of what tuples come to.
    ghost fits: { Self → Self.Given → Run → Type 0 };

    /// What one tuple more comes to.
    ghost means: { Self → Environment → Self.Given → M Self.Given };

    /// What a tuple left serves where that variable is bound after those others.
    ghost serves: { Self → (variable : List ℕ) → (others : List Bound) → Self.Left → Type 0 };

    /// The value of an expression of a clause. Codes: its own.
    fn value_of(
        &self,
        run: &mut Evaluation,
        x: &Expr,
        variables: &Variables,
    ) -> Result<Sequence, ValueFault>
        requires can { can_evaluate self.now x.now }
        requires ready { IsReady (walked.with_variables variables.now (env self.now)) run.old }
        ensures { Gives (mean x.now (walked.with_variables variables.now (env self.now))) run.old result run.new };

    /// One tuple more. Codes: its own. What is left of what the tuples come to after a fault is not said.
    fn take(
        &self,
        run: &mut Evaluation,
        variables: &Variables,
        given: &mut Self::Given,
    ) -> Result<(), ValueFault>
        requires can { can_take self.now }
        requires ready { IsReady (walked.with_variables variables.now (env self.now)) run.old }
        requires fits { fits self.now given.old run.old }
        ensures { GivesIn (fits self.now) (means self.now (walked.with_variables variables.now (env self.now)) given.old) run.old (leaving result given.new) run.new };

    /// Nothing is left before the first item.
    fn nothing_left(&self) -> Self::Left
        ensures { (variable : List ℕ) (others : List Bound) → serves self.now variable others result };

    /// The same as `take` where a variable is bound to an item after all others. What the tuple of the item before it left serves again, and is then left
    /// for the next.
    fn take_item(
        &self,
        run: &mut Evaluation,
        variable: &Text,
        item: &Item,
        others: &Variables,
        left: &mut Self::Left,
        given: &mut Self::Given,
    ) -> Result<(), ValueFault>
        requires can { can_take self.now }
        requires ready { IsReady (walked.with_variables others.now (env self.now)) run.old }
        requires item { IsThere (trees_of run.old) item.now }
        requires serves { serves self.now variable.now others.now left.old }
        requires fits { fits self.now given.old run.old }
        ensures gives { GivesIn (fits self.now) (means self.now (walked.with_variables (walked.bound variable.now item.now others.now) (env self.now)) given.old) run.old (leaving result given.new) run.new }
        ensures serves { serves self.now variable.now others.now left.new };

    /// The same for each of some items in its turn, as far as that can be done for all at once: whether it was done. Where it was not, nothing changes. Codes:
    /// its own; PXQ0002 where no turn is left for an item. What is left of what the tuples come to after a fault is not said.
    fn take_each(
        &self,
        run: &mut Evaluation,
        variable: &Text,
        items: &[Item],
        others: &Variables,
        given: &mut Self::Given,
    ) -> Result<bool, ValueFault>
        requires can { can_take self.now }
        requires ready { IsReady (walked.with_variables others.now (env self.now)) run.old }
        requires items { Stand items.now run.old }
        requires fits { fits self.now given.old run.old }
        ensures { walked.TakesEach (fits self.now) (walked.for_each variable.now None [] (means self.now) (walked.with_variables others.now (env self.now)) items.now given.old) given.old run.old result given.new run.new };

    /// It stands as long as no node is lost.
    ghost lasts: { (s : Self) (given : Self.Given) (old new : Run) → Grows old new → fits s given old → fits s given new };
}

/// A walk over the clauses that are left, with the variables that those before them bound.
#[derive_where(Clone, Copy)]
pub struct Walk<'w, A> {
    pub at_tuple: &'w A,
    pub clauses: &'w [Clause<Expr>],
    pub variables: &'w Variables,
}

impl<'w, A: AtTuple> Walk<'w, A> {
    /// What all tuples come to. Codes: that of the first clause or tuple that has one; PXQ0002 where no turn is left for an item.
    #[cycle(tuples)]
    pub fn tuples(&self, run: &mut Evaluation, given: &mut A::Given) -> Result<(), ValueFault>
        requires clauses { All (λ c. A.can_evaluate self.now.at_tuple.now (walked.source_of c)) self.now.clauses.now }
        requires can { A.can_take self.now.at_tuple.now }
        requires ready { IsReady (walked.with_variables self.now.variables.now (A.env self.now.at_tuple.now)) run.old }
        requires fits { A.fits self.now.at_tuple.now given.old run.old }
        ensures { GivesIn (A.fits self.now.at_tuple.now)
            (meaning.tuples (map (walked.clause_of mean) self.now.clauses.now) (A.means self.now.at_tuple.now)
            (walked.with_variables self.now.variables.now (A.env self.now.at_tuple.now)) given.old)
            run.old (leaving result given.new) run.new }
    {
        let Some((clause, clauses)) = self.clauses.split_first() else {
            return self.at_tuple.take(run, self.variables, given);
        };
        let items = self
            .at_tuple
            .value_of(run, source_of(clause), self.variables)?;
        let rest = Walk { clauses, ..*self };
        match clause {
            Clause::Let(binding) => rest.let_all(run, &binding.variable, items, given),
            Clause::For(binding) => {
                rest.for_each(run, &binding.variable, None, items.as_slice(), given)
            }
            Clause::ForAt(binding, at) => {
                rest.for_each(run, &binding.variable, Some(at), items.as_slice(), given)
            }
        }
    }

    #[cycle(tuples)]
    #[tactic(auto, using(crate::proofs::Values::ready_with))]
    fn let_all(
        &self,
        run: &mut Evaluation,
        variable: &Text,
        items: Sequence,
        given: &mut A::Given,
    ) -> Result<(), ValueFault>
        requires clauses { All (λ c. A.can_evaluate self.now.at_tuple.now (walked.source_of c)) self.now.clauses.now }
        requires can { A.can_take self.now.at_tuple.now }
        requires ready { IsReady (walked.with_variables self.now.variables.now (A.env self.now.at_tuple.now)) run.old }
        requires items { Stand items run.old }
        requires fits { A.fits self.now.at_tuple.now given.old run.old }
        ensures { GivesIn (A.fits self.now.at_tuple.now)
            (meaning.tuples (map (walked.clause_of mean) self.now.clauses.now) (A.means self.now.at_tuple.now)
            (with_variable variable.now items (walked.with_variables self.now.variables.now (A.env self.now.at_tuple.now))) given.old)
            run.old (leaving result given.new) run.new }
    {
        let variables = Variables::and(run.alloc(), variable, items, self.variables)?;
        let with_all = Walk {
            variables: &variables,
            ..*self
        };
        with_all.tuples(run, given)
    }

    /// Each item of a `for` clause, and its position where a variable is there for it.
    #[cycle(tuples)]
    fn for_each(
        &self,
        run: &mut Evaluation,
        variable: &Text,
        at: Option<&Text>,
        items: &[Item],
        given: &mut A::Given,
    ) -> Result<(), ValueFault>
        requires clauses { All (λ c. A.can_evaluate self.now.at_tuple.now (walked.source_of c)) self.now.clauses.now }
        requires can { A.can_take self.now.at_tuple.now }
        requires ready { IsReady (walked.with_variables self.now.variables.now (A.env self.now.at_tuple.now)) run.old }
        requires most { length items.now ≤ most_items }
        requires items { Stand items.now run.old }
        requires fits { A.fits self.now.at_tuple.now given.old run.old }
        ensures { GivesIn (A.fits self.now.at_tuple.now)
            (walked.for_each variable.now (option_copied at.entry) (map (walked.clause_of mean) self.now.clauses.now) (A.means self.now.at_tuple.now)
            (walked.with_variables self.now.variables.now (A.env self.now.at_tuple.now)) items.now given.old)
            run.old (leaving result given.new) run.new }
    {
        if let (None, []) = (at, self.clauses) {
            let (at_tuple, others) = (self.at_tuple, self.variables);
            if at_tuple.take_each(run, variable, items, others, given)? {
                return Ok(());
            }
            return take_in_turn(at_tuple, run, variable, items, others, given);
        }
        let mut former = None;
        let mut index = 0;
        for item in items {
            self.for_one(run, variable, at, index, item, &mut former, given)?;
            index += 1;
        }
        Ok(())
    }

    /// One item. The variables of the item before it serve again; then its own are left for the next.
    #[cycle(tuples)]
    fn for_one(
        &self,
        run: &mut Evaluation,
        variable: &Text,
        at: Option<&Text>,
        index: usize,
        item: &Item,
        former: &mut Option<Variables>,
        given: &mut A::Given,
    ) -> Result<(), ValueFault>
        requires clauses { All (λ c. A.can_evaluate self.now.at_tuple.now (walked.source_of c)) self.now.clauses.now }
        requires can { A.can_take self.now.at_tuple.now }
        requires ready { IsReady (walked.with_variables self.now.variables.now (A.env self.now.at_tuple.now)) run.old }
        requires most { index < most_items }
        requires item { IsThere (trees_of run.old) item.now }
        requires former { ForSome former.old (walked.RebindsAt variable.now (option_copied at) self.now.variables.now) }
        requires fits { A.fits self.now.at_tuple.now given.old run.old }
        ensures gives { GivesIn (A.fits self.now.at_tuple.now)
            (walked.for_one variable.now (option_copied at.entry) (map (walked.clause_of mean) self.now.clauses.now) (A.means self.now.at_tuple.now)
            (walked.with_variables self.now.variables.now (A.env self.now.at_tuple.now)) index given.old item.now)
            run.old (leaving result given.new) run.new }
        ensures former { ForSome former.new (walked.RebindsAt variable.now (option_copied at.entry) self.now.variables.now) }
    {
        run.turn()?;
        let variables = and_item_at(
            run,
            variable,
            at,
            index,
            item,
            self.variables,
            former.take(),
        )?;
        let with_item = Walk {
            variables: &variables,
            ..*self
        };
        let found = with_item.tuples(run, given);
        *former = Some(variables);
        found
    }
}

/// One tuple after the other, where a variable is bound to items after all others.
fn take_in_turn<A: AtTuple>(
    at_tuple: &A,
    run: &mut Evaluation,
    variable: &Text,
    items: &[Item],
    others: &Variables,
    given: &mut A::Given,
) -> Result<(), ValueFault>
    requires can { A.can_take at_tuple.now }
    requires ready { IsReady (walked.with_variables others.now (A.env at_tuple.now)) run.old }
    requires items { Stand items.now run.old }
    requires fits { A.fits at_tuple.now given.old run.old }
    ensures { GivesIn (A.fits at_tuple.now) (walked.for_each variable.now None [] (A.means at_tuple.now) (walked.with_variables others.now (A.env at_tuple.now)) items.now given.old) run.old (leaving result given.new) run.new }
{
    let mut left = at_tuple.nothing_left();
    for item in items {
        take_in_its_turn(at_tuple, run, variable, item, others, &mut left, given)?;
    }
    Ok(())
}

/// One item. What the tuple of the item before it left serves again, and is then left for the next.
fn take_in_its_turn<A: AtTuple>(
    at_tuple: &A,
    run: &mut Evaluation,
    variable: &Text,
    item: &Item,
    others: &Variables,
    left: &mut A::Left,
    given: &mut A::Given,
) -> Result<(), ValueFault>
    requires can { A.can_take at_tuple.now }
    requires ready { IsReady (walked.with_variables others.now (A.env at_tuple.now)) run.old }
    requires item { IsThere (trees_of run.old) item.now }
    requires serves { A.serves at_tuple.now variable.now others.now left.old }
    requires fits { A.fits at_tuple.now given.old run.old }
    ensures gives { (index : ℕ) → GivesIn (A.fits at_tuple.now) (walked.for_one variable.now None [] (A.means at_tuple.now) (walked.with_variables others.now (A.env at_tuple.now)) index given.old item.now) run.old (leaving result given.new) run.new }
    ensures serves { A.serves at_tuple.now variable.now others.now left.new }
{
    run.turn()?;
    at_tuple.take_item(run, variable, item, others, left, given)
}
