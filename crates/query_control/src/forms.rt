//! Forms over a function that evaluates their parts, so that each is proved by itself: literals, variables, the context item, the comma and `if`.

ghost use Rattle.std.specs.Prelude.{◌≡◌, ◌∷◌, [], map, Some, None, Ok, IfOk, IfErr};
ghost use Rattle.fault_codes.specs.declared.code.Code.TheVariants.{XPST0008};
ghost use Rattle.query_meaning.specs.Environment.{value_in};
ghost use Rattle.query_meaning.specs.Running.{counted};
ghost use Rattle.query_meaning.specs.Meaning.{mean};
ghost use Rattle.query_meaning.specs.Sequences as meaning;
ghost use Rattle.evaluation.specs.Evaluates.{Evaluates};
ghost use Rattle.evaluation.specs.Gives.{Any, Fails, Gives, GivesIn, IsReady, Stand};
ghost use Rattle.item_expressions.specs.Looped.{leaving};

use evaluation::{Environment, Evaluation, Sequence};
use fault_codes::Code;
use query_grammar::{Expr, IntegerLiteral};
use sqlite_items::{Boxed, Items};
use values::{Atom, Item, Text, ValueFault, truth};

/// The forms of expressions, over a function that evaluates their parts.
#[derive(Clone, Copy)]
pub struct Forms<F> {
    /// The function.
    pub value_of: F,
}

impl<F: Fn(&mut Evaluation, &Expr, &Environment) -> Result<Sequence, ValueFault>> Forms<F> {
    /// The value of a part. Codes: those of the part.
    pub(crate) fn value_of(
        &self,
        run: &mut Evaluation,
        x: &Expr,
        env: &Environment,
    ) -> Result<Sequence, ValueFault>
        requires evaluates { Evaluates (F.pre self.now.value_of) (F.post self.now.value_of) (x.now ∷ []) }
        requires ready { IsReady env.now run.old }
        ensures { Gives (mean x.now env.now) run.old result run.new }
    {
        (self.value_of)(run, x, env)
    }

    /// The effective boolean value of a part (XQuery 1.0, section 2.4.3). The items of a variable are not copied. Codes: those of the part; FORG0006 where
    /// the first of several items is an atomic value.
    pub(crate) fn holds(
        &self,
        run: &mut Evaluation,
        x: &Expr,
        env: &Environment,
    ) -> Result<bool, ValueFault>
        requires evaluates { Evaluates (F.pre self.now.value_of) (F.post self.now.value_of) (x.now ∷ []) }
        requires ready { IsReady env.now run.old }
        ensures { GivesIn Any (meaning.tested (Some (mean x.now)) env.now) run.old result run.new }
    {
        if let Expr::Variable(name) = x {
            return truth_of_variable(run, name, env);
        }
        let items = self.value_of(run, x, env)?;
        Ok(truth(items.as_slice())?)
    }

    /// `if (a) then b else c` (XQuery 1.0, section 3.10). Codes: those of `a`; FORG0006 where the first of several items that it gives is an atomic value;
    /// then those of the branch that is taken.
    pub fn conditional(
        &self,
        run: &mut Evaluation,
        test: &Boxed<Expr>,
        then: &Boxed<Expr>,
        otherwise: &Boxed<Expr>,
        env: &Environment,
    ) -> Result<Sequence, ValueFault>
        requires evaluates { Evaluates (F.pre self.now.value_of) (F.post self.now.value_of) (test.now ∷ then.now ∷ otherwise.now ∷ []) }
        requires ready { IsReady env.now run.old }
        ensures { Gives (meaning.conditional (mean test.now) (mean then.now) (mean otherwise.now) env.now) run.old result run.new }
    {
        if self.holds(run, test.get(), env)? {
            self.value_of(run, then.get(), env)
        } else {
            self.value_of(run, otherwise.get(), env)
        }
    }

    /// `a, b, ..` (XQuery 1.0, section 3.3.1). Code: that of the first part that has one, or PXQ0002 at the part that brings the 10,001st item.
    pub fn sequence(
        &self,
        run: &mut Evaluation,
        parts: &Items<Expr>,
        env: &Environment,
    ) -> Result<Sequence, ValueFault>
        requires evaluates { Evaluates (F.pre self.now.value_of) (F.post self.now.value_of) parts.now }
        requires ready { IsReady env.now run.old }
        ensures { Gives (meaning.sequence (map mean parts.now) env.now) run.old result run.new }
    {
        self.in_turn(run, parts.as_slice(), env)
    }

    fn in_turn(
        &self,
        run: &mut Evaluation,
        parts: &[Expr],
        env: &Environment,
    ) -> Result<Sequence, ValueFault>
        requires evaluates { Evaluates (F.pre self.now.value_of) (F.post self.now.value_of) parts.now }
        requires ready { IsReady env.now run.old }
        ensures { Gives (meaning.sequence (map mean parts.now) env.now) run.old result run.new }
    {
        let mut given = Sequence::new(run.alloc());
        for part in parts {
            self.and_items(run, &mut given, part, env)?;
        }
        Ok(given)
    }

    /// Adds the items of an expression to those before. Codes: those of the expression; PXQ0002 where there are more than 10,000 items. What is left of those
    /// before after a fault is not said.
    pub(crate) fn and_items(
        &self,
        run: &mut Evaluation,
        given: &mut Sequence,
        x: &Expr,
        env: &Environment,
    ) -> Result<(), ValueFault>
        requires evaluates { Evaluates (F.pre self.now.value_of) (F.post self.now.value_of) (x.now ∷ []) }
        requires ready { IsReady env.now run.old }
        requires stand { Stand given.old run.old }
        ensures { Gives (meaning.and_items env.now given.old (mean x.now)) run.old (leaving result given.new) run.new }
    {
        let items = self.value_of(run, x, env)?;
        given.append(items)
    }
}

/// A number (XQuery 1.0, section 3.1.1). It fails where memory is refused alone.
pub fn number(
    run: &mut Evaluation,
    literal: IntegerLiteral,
    env: &Environment,
) -> Result<Sequence, ValueFault>
    ensures { Gives (meaning.number literal env.now) run.old result run.new }
{
    let value = literal.value();
    Ok(Sequence::one(run.alloc(), Item::Atomic(Atom::Integer(value)))?)
}

/// A string (XQuery 1.0, section 3.1.1). It fails where memory is refused alone.
pub fn string(run: &mut Evaluation, text: &Text, env: &Environment) -> Result<Sequence, ValueFault>
    ensures { Gives (meaning.string text.now env.now) run.old result run.new }
{
    Ok(Sequence::one(run.alloc(), Item::Atomic(Atom::String(text.clone()?)))?)
}

/// `$name` (XQuery 1.0, section 3.1.2). Codes: PXQ0002 where too little work is left to look for it; XPST0008 where no variable has that name.
pub fn variable(
    run: &mut Evaluation,
    name: &Text,
    env: &Environment,
) -> Result<Sequence, ValueFault>
    requires ready { IsReady env.now run.old }
    ensures { Gives (meaning.variable name.now env.now) run.old result run.new }
{
    Ok(run.lend(name, env)?.copy(run.alloc())?)
}

/// The effective boolean value of `$name`, whose work is counted. Codes: PXQ0002 where too little work is left; XPST0008 where no variable has that name;
/// FORG0006 where the first of several items is an atomic value.
fn truth_of_variable(
    run: &mut Evaluation,
    name: &Text,
    env: &Environment,
) -> Result<bool, ValueFault>
    requires ready { IsReady env.now run.old }
    ensures { GivesIn Any (meaning.tested (Some (λ env. counted (meaning.variable name.now env))) env.now) run.old result run.new }
{
    let items = run.lend(name, env)?;
    run.count(items)?;
    Ok(truth(items.as_slice())?)
}

/// `.` (XQuery 1.0, section 3.1.4). Code: XPDY0002 where there is no context item.
pub fn context_item(run: &mut Evaluation, env: &Environment) -> Result<Sequence, ValueFault>
    requires ready { IsReady env.now run.old }
    ensures { Gives (meaning.context_item env.now) run.old result run.new }
{
    match env.item() {
        Some(item) => Ok(Sequence::one(run.alloc(), item.clone()?)?),
        None => Err(ValueFault::Code(Code::XPDY0002)),
    }
}
