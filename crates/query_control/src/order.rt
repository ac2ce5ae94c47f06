//! `order by`, over a function that evaluates the parts of a FLWOR expression (XQuery 1.0, section 3.8.3).

ghost use Rattle.std.specs.Prelude.{◌≡◌, ◌+◌, ◌∷◌, [], length, map, option_map, IfOk};
ghost use Rattle.std.specs.Option.{ForSome};
ghost use Rattle.evaluation.specs.Gives.{Any, Gives, GivesIn, IsReady, Says, Stand};
ghost use Rattle.query_meaning.specs.Meaning.{mean};
ghost use Rattle.query_meaning.specs.Sequences as meaning;
ghost use Rattle.evaluation.specs.Evaluates.{Evaluates, EvaluatesEach};
ghost use Rattle.clause_walks.specs.Walked as walked;
ghost use Rattle.query_control.specs.Evaluates.{EvaluatesFlwor};
ghost use Rattle.sorted_tuples.specs.Keys.{AreKept, AreReady, sort_key_of};
ghost use Rattle.item_expressions.specs.Looped.{leaving};
ghost use Rattle.query_control.specs.Parts as part;
ghost use Rattle.query_control.specs.Shared.{Binds};
ghost use Rattle.query_control.specs.Functions.{IsFunctionOf};
ghost use Rattle.keyed_items.specs.Keyed.{AreKeys, and_key, and_tuple_of};
ghost use Rattle.keyed_items.specs.Lasting.{kept_grows};

use crate::forms::Forms;
use clause_walks::{AtTuple, Walk, and_item};
use evaluation::{Environment, Evaluation, Sequence, Variables};
use item_expressions::{Condition, ItemFunction, add_value};
use keyed_items::{are_of, keep_of_each, key_functions};
use query_grammar::{Clause, Expr, SortKey};
use read_items::ReadItem;
use sorted_tuples::{Binding, Keys, Place, Placed, Tuple, Tuples, key_of};
use sqlite_items::Boxed;
use std::alloc::AllocError;
use std::rc::Rc;
use values::{Item, Text, ValueFault};

impl<F: Fn(&mut Evaluation, &Expr, &Environment) -> Result<Sequence, ValueFault>> Forms<F> {
    /// Clauses, `where`, `order by` and `return`: all tuples with their keys, then the sort, then `return` in sorted order. Codes: those of `flwor`; FORG0006 where
    /// what `where` tests has no effective boolean value. Two keys at one position that are of different types are judged before `return`.
    pub(crate) fn ordered(
        &self,
        run: &mut Evaluation,
        clauses: &[Clause<Expr>],
        condition: &Condition,
        keys: &[SortKey<Expr>],
        body: &Boxed<Expr>,
        function: &Option<ItemFunction>,
        env: &Environment,
    ) -> Result<Sequence, ValueFault>
        requires function { IsFunctionOf body.now function.now }
        requires flwor { EvaluatesFlwor (F.pre self.now.value_of) (F.post self.now.value_of) clauses.now condition.now body.now }
        requires keys { EvaluatesEach (F.pre self.now.value_of) (F.post self.now.value_of) part.key_in keys.now }
        requires ready { IsReady env.now run.old }
        ensures { Gives (meaning.ordered (map (walked.clause_of mean) clauses.now) (option_map mean condition.now) (map (sort_key_of mean) keys.now) (mean body.now) env.now) run.old result run.new }
    {
        let functions = key_functions(run.alloc(), clauses, keys)?;
        let tuples = self.in_order(run, clauses, condition, keys, &functions, env)?;
        self.returned_in_order(run, tuples.as_slice(), body, function)
    }

    /// The tuples in their order.
    #[tactic(auto, using(crate::proofs::Calls::each_alone))]
    fn in_order<'f>(
        &self,
        run: &mut Evaluation,
        clauses: &[Clause<Expr>],
        condition: &Condition,
        keys: &[SortKey<Expr>],
        functions: &Option<Vec<ItemFunction>>,
        env: &Environment<'f, '_>,
    ) -> Result<Tuples<'f>, ValueFault>
        requires functions { ForSome functions.now (λ v. AreKeys keys.now v.items) }
        requires clauses { EvaluatesEach (F.pre self.now.value_of) (F.post self.now.value_of) walked.source_of clauses.now }
        requires condition { ForSome condition.now (λ x. Evaluates (F.pre self.now.value_of) (F.post self.now.value_of) (x ∷ [])) }
        requires keys { EvaluatesEach (F.pre self.now.value_of) (F.post self.now.value_of) part.key_in keys.now }
        requires ready { IsReady env.now run.old }
        ensures { GivesIn AreReady (part.in_order (map (walked.clause_of mean) clauses.now) (option_map mean condition.now) (map (sort_key_of mean) keys.now) env.now) run.old result run.new }
    {
        let at_tuple = &Keeping {
            forms: self,
            env,
            condition,
            keys,
            functions,
        };
        let walk = Walk {
            at_tuple,
            clauses,
            variables: env.variables(),
        };
        let mut found = Tuples::new(run.alloc());
        walk.tuples(run, &mut found)?;
        found.sorted(keys)
    }

    fn returned_in_order(
        &self,
        run: &mut Evaluation,
        tuples: &[Tuple],
        body: &Boxed<Expr>,
        function: &Option<ItemFunction>,
    ) -> Result<Sequence, ValueFault>
        requires function { IsFunctionOf body.now function.now }
        requires body { Evaluates (F.pre self.now.value_of) (F.post self.now.value_of) (body.now ∷ []) }
        requires ready { AreReady tuples.now run.old }
        ensures { Gives (part.returned_in_order (mean body.now) tuples.now) run.old result run.new }
    {
        let mut given = Sequence::new(run.alloc());
        for tuple in tuples {
            self.returned_at(run, &mut given, tuple, body, function)?;
        }
        Ok(given)
    }

    /// Adds the items of `return` at a tuple to those before.
    fn returned_at(
        &self,
        run: &mut Evaluation,
        given: &mut Sequence,
        tuple: &Tuple,
        body: &Boxed<Expr>,
        function: &Option<ItemFunction>,
    ) -> Result<(), ValueFault>
        requires function { IsFunctionOf body.now function.now }
        requires body { Evaluates (F.pre self.now.value_of) (F.post self.now.value_of) (body.now ∷ []) }
        requires ready { IsReady tuple.now.environment run.old }
        requires stand { Stand given.old run.old }
        ensures { Gives (part.returned_at (mean body.now) given.old tuple.now) run.old (leaving result given.new) run.new }
    {
        match tuple.place().get() {
            Placed::Kept(env) => self.and_items(run, given, body.get(), &env.get()),
            Placed::Bound(binding, item) => {
                let binding = binding.as_ref();
                if let Some(function) = function {
                    if function.is_of(&binding.variable) {
                        return add_value(run, function, &ReadItem::unread(item), given);
                    }
                }
                let (body, others) = (body.get(), binding.others.get());
                self.and_bound(
                    run,
                    given,
                    body,
                    &binding.variable,
                    item,
                    &others,
                    &mut None,
                )
            }
        }
    }

    /// One tuple more, whose environment is held as that place.
    fn and_tuple<'f>(
        &self,
        run: &mut Evaluation,
        keys: &[SortKey<Expr>],
        env: &Environment,
        place: Place<'f>,
        given: &mut Tuples<'f>,
    ) -> Result<(), ValueFault>
        requires place { place ≡ env.now }
        requires keys { EvaluatesEach (F.pre self.now.value_of) (F.post self.now.value_of) part.key_in keys.now }
        requires ready { IsReady env.now run.old }
        requires kept { AreKept (length keys.now) given.old run.old }
        ensures { GivesIn (AreKept (length keys.now)) (and_tuple_of (map (sort_key_of mean) keys.now) env.now given.old) run.old (leaving result given.new) run.new }
    {
        let keys = self.keys_in(run, keys, env)?;
        given.push(place, keys)
    }

    /// The keys of a tuple.
    #[tactic(auto, using(crate::proofs::Calls::evaluates_at))]
    fn keys_in(
        &self,
        run: &mut Evaluation,
        keys: &[SortKey<Expr>],
        env: &Environment,
    ) -> Result<Keys, ValueFault>
        requires keys { EvaluatesEach (F.pre self.now.value_of) (F.post self.now.value_of) part.key_in keys.now }
        requires ready { IsReady env.now run.old }
        ensures keys { GivesIn Any (meaning.keys_in (map (sort_key_of mean) keys.now) env.now) run.old result run.new }
        ensures width { IfOk result (λ found. length found ≡ length keys.now) }
    {
        let mut found = Keys::new(run.alloc());
        for key in keys {
            found = self.and_key(run, found, &key.key, env)?;
        }
        Ok(found)
    }

    /// The keys before, and then that of an expression.
    fn and_key(
        &self,
        run: &mut Evaluation,
        given: Keys,
        key: &Expr,
        env: &Environment,
    ) -> Result<Keys, ValueFault>
        requires evaluates { Evaluates (F.pre self.now.value_of) (F.post self.now.value_of) (key.now ∷ []) }
        requires ready { IsReady env.now run.old }
        ensures key { GivesIn Any (and_key env.now given (mean key.now)) run.old result run.new }
        ensures width { IfOk result (λ found. length found ≡ length given + 1) }
    {
        let items = self.value_of(run, key, env)?;
        let values = run.atoms(&items)?;
        Ok(given.and(key_of(&values)?)?)
    }
}

/// `where` and the keys at each tuple: the tuples that were kept before it, and this one.
#[derive_where(Clone, Copy)]
struct Keeping<'w, 'f, F> {
    forms: &'w Forms<F>,
    env: &'w Environment<'f, 'w>,
    condition: &'w Condition<'w, 'w>,
    keys: &'w [SortKey<Expr>],
    /// The same as functions of the item that the last clause binds its variable to, where all are.
    functions: &'w Option<Vec<ItemFunction<'w>>>,
}

impl<'w, 'f, F: Fn(&mut Evaluation, &Expr, &Environment) -> Result<Sequence, ValueFault>> AtTuple
    for Keeping<'w, 'f, F> {
    type Given = Tuples<'f>;

    type Left = Left<'f>;

    ghost env = { λ s. s.env.now };

    ghost can_evaluate = { λ s x. Evaluates (F.pre s.forms.now.value_of) (F.post s.forms.now.value_of) (x ∷ []) };

    ghost can_take = { λ s. ForSome s.condition.now (λ x. Evaluates (F.pre s.forms.now.value_of) (F.post s.forms.now.value_of) (x ∷ []))
        × (EvaluatesEach (F.pre s.forms.now.value_of) (F.post s.forms.now.value_of) part.key_in s.keys.now × ForSome s.functions.now (λ v. AreKeys s.keys.now v.items)) };

    ghost fits = { λ s. AreKept (length s.keys.now) };

    ghost means = { λ s. meaning.kept_tuple (option_map mean s.condition.now) (map (sort_key_of mean) s.keys.now) };

    ghost serves = { λ s variable others left. ForSome left.variables (walked.Rebinds variable others) × ForSome left.binding (λ b. Binds variable (walked.with_variables others s.env.now) b.value) };

    fn value_of(
        &self,
        run: &mut Evaluation,
        x: &Expr,
        variables: &Variables,
    ) -> Result<Sequence, ValueFault> {
        self.forms.value_of(run, x, &self.env.with(variables))
    }

    #[tactic(auto, using(keyed_items::specs::Lasting::kept_grows))]
    fn take(
        &self,
        run: &mut Evaluation,
        variables: &Variables,
        given: &mut Tuples<'f>,
    ) -> Result<(), ValueFault> {
        let env = self.env.with(variables);
        if self.forms.tested(run, self.condition, &env)? {
            let place = Place::kept(env.keep()?);
            self.forms.and_tuple(run, self.keys, &env, place, given)
        } else {
            Ok(())
        }
    }

    fn nothing_left(&self) -> Left<'f> {
        Left {
            variables: None,
            binding: None,
        }
    }

    fn take_item(
        &self,
        run: &mut Evaluation,
        variable: &Text,
        item: &Item,
        others: &Variables,
        left: &mut Left<'f>,
        given: &mut Tuples<'f>,
    ) -> Result<(), ValueFault> {
        let variables = and_item(run, variable, item, others, left.variables.take())?;
        let binding = &mut left.binding;
        let taken = self.take_bound(run, &variables, variable, item, others, binding, given);
        left.variables = Some(variables);
        taken
    }

    fn take_each(
        &self,
        run: &mut Evaluation,
        variable: &Text,
        items: &[Item],
        others: &Variables,
        given: &mut Tuples<'f>,
    ) -> Result<bool, ValueFault> {
        let Some(functions) = self.functions else {
            return Ok(false);
        };
        match self.condition.item_test(run, variable, others)? {
            Some(test) if are_of(functions, variable) => {
                let others = self.env.with(others);
                keep_of_each(run, &test, functions, items, variable, &others, given)?;
                Ok(true)
            }
            _ => Ok(false),
        }
    }

    ghost lasts = { λ s tuples old new g h. kept_grows (length s.keys.now) tuples old new g h };
}

/// What the tuple of an item leaves for that of the next one.
#[derive(Drop)]
struct Left<'f> {
    /// Its variables, to be written over.
    variables: Option<Variables>,
    /// What it shares with other tuples.
    binding: Option<Rc<Binding<'f>>>,
}

impl<'w, 'f, F: Fn(&mut Evaluation, &Expr, &Environment) -> Result<Sequence, ValueFault>> Keeping<
    'w,
    'f,
    F,
> {
    /// One tuple more, where a variable is bound to an item after all others. It shares the others and the variable with the tuples before it.
    #[tactic(auto, using(keyed_items::specs::Lasting::kept_grows))]
    fn take_bound(
        &self,
        run: &mut Evaluation,
        variables: &Variables,
        variable: &Text,
        item: &Item,
        others: &Variables,
        binding: &mut Option<Rc<Binding<'f>>>,
        given: &mut Tuples<'f>,
    ) -> Result<(), ValueFault>
        requires condition { ForSome self.now.condition.now (λ x. Evaluates (F.pre self.now.forms.now.value_of) (F.post self.now.forms.now.value_of) (x ∷ [])) }
        requires keys { EvaluatesEach (F.pre self.now.forms.now.value_of) (F.post self.now.forms.now.value_of) part.key_in self.now.keys.now }
        requires bound { variables.now ≡ walked.bound variable.now item.now others.now }
        requires ready { IsReady (walked.with_variables variables.now self.now.env.now) run.old }
        requires binding { ForSome binding.old (λ b. Binds variable.now (walked.with_variables others.now self.now.env.now) b.value) }
        requires kept { AreKept (length self.now.keys.now) given.old run.old }
        ensures gives { GivesIn (AreKept (length self.now.keys.now)) (meaning.kept_tuple (option_map mean self.now.condition.now) (map (sort_key_of mean) self.now.keys.now) (walked.with_variables variables.now self.now.env.now) given.old) run.old (leaving result given.new) run.new }
        ensures binding { ForSome binding.new (λ b. Binds variable.now (walked.with_variables others.now self.now.env.now) b.value) }
    {
        let env = self.env.with(variables);
        if self.forms.tested(run, self.condition, &env)? {
            let others = self.env.with(others);
            let place = Place::bound(shared(run, variable, &others, binding)?, item.clone()?);
            self.forms.and_tuple(run, self.keys, &env, place, given)
        } else {
            Ok(())
        }
    }
}

/// What tuples share where a variable is bound after others: what is shared already, or one more. It fails where memory is refused.
fn shared<'f>(
    run: &Evaluation,
    variable: &Text,
    others: &Environment<'f, '_>,
    binding: &mut Option<Rc<Binding<'f>>>,
) -> Result<Rc<Binding<'f>>, AllocError>
    requires binding { ForSome binding.old (λ b. Binds variable.now others.now b.value) }
    ensures shared { IfOk result (λ b. Binds variable.now others.now b.value) }
    ensures binding { ForSome binding.new (λ b. Binds variable.now others.now b.value) }
{
    if let Some(binding) = binding {
        return binding.clone();
    }
    let made = Binding::shared(run.alloc(), others.keep()?, variable.clone()?)?;
    *binding = Some(made.clone()?);
    Ok(made)
}
