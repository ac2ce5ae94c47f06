//! Values of parts, which a variable may lend.

ghost use Rattle.std.specs.Prelude.{◌≡◌, ◌∷◌, [], IfOk};
ghost use Rattle.query_meaning.specs.Meaning.{mean};
ghost use Rattle.query_meaning.specs.Running.{counted};
ghost use Rattle.query_meaning.specs.Sequences as meaning;
ghost use Rattle.evaluation.specs.Evaluates.{Evaluates};
ghost use Rattle.evaluation.specs.Gives.{Gives, IsReady};

use crate::environment::Environment;
use crate::run::Evaluation;
use crate::sequence::Sequence;
use query_grammar::Expr;
use std::alloc::{AllocError, Global};
use std::marker::Model;
use values::{Text, ValueFault};

/// The value of a part: items that were made for it, or those of a variable, which lends them. Contracts see it as a list.
pub struct Value<'v> {
    items: Given<'v>,
}

// By one call, whose contract is all that a caller's proof sees of it.
impl Drop for Value<'_> {
    fn drop(self) {
        let Value { items: _ } = self;
    }
}

/// Whose the items are.
#[derive(Drop)]
enum Given<'v> {
    /// The value's own.
    Made(Sequence),
    /// A variable's.
    Lent(&'v Sequence),
}

impl<'v> Model for Value<'v> {
    ghost use Rattle.std.specs.Prelude.{List};
    ghost use Rattle.std.specs.Coded.{coded_list};
    ghost use Rattle.values.specs.declared.atom.Item.{Item};
    ghost use Rattle.values.specs.contracts.atom.Item as item;

    ghost Value = { List Item };

    ghost coded = { coded_list item.the_row.coded };

    ghost use Rattle.evaluation.specs.Lent.{given_items};

    ghost view = { λ v. given_items v.items };
}

impl<'v> Value<'v> {
    /// Items that were made.
    pub fn made(items: Sequence) -> Value<'v>
        ensures { result ≡ items }
    {
        Value {
            items: Given::Made(items),
        }
    }

    /// Items that a variable lends.
    fn lent(items: &'v Sequence) -> Value<'v>
        ensures { result ≡ items.now }
    {
        Value {
            items: Given::Lent(items),
        }
    }

    /// The items.
    pub fn items(&self) -> &Sequence
        ensures { result.now ≡ self.now }
    {
        match &self.items {
            Given::Made(items) => items,
            Given::Lent(items) => items,
        }
    }

    /// The items, for whoever keeps them: those of a variable are copied. It fails where memory is refused.
    pub fn into_items(self, alloc: Global) -> Result<Sequence, AllocError>
        ensures { IfOk result (λ s. s ≡ self.entry) }
    {
        let Value { items } = self;
        match items {
            Given::Made(items) => Ok(items),
            Given::Lent(items) => items.copy(alloc),
        }
    }
}

/// The value of a part, over a function that evaluates. That of a variable is lent, so that to look at it costs no copy. Codes: those of the part.
pub fn value_of_part<'v, F>(
    value_of: &F,
    run: &mut Evaluation,
    x: &Expr,
    env: &Environment<'_, 'v>,
) -> Result<Value<'v>, ValueFault>
where
    F: Fn(&mut Evaluation, &Expr, &Environment) -> Result<Sequence, ValueFault>,
    requires evaluates { Evaluates (F.pre value_of.now) (F.post value_of.now) (x.now ∷ []) }
    requires ready { IsReady env.now run.old }
    ensures { Gives (mean x.now env.now) run.old result run.new }
{
    if let Expr::Variable(name) = x {
        return value_of_variable(run, name, env);
    }
    let items = value_of(run, x, env)?;
    Ok(Value::made(items))
}

/// The value of a variable, whose work is counted. Codes: PXQ0002 where too little work is left; XPST0008 where no variable has that name.
fn value_of_variable<'v>(
    run: &mut Evaluation,
    name: &Text,
    env: &Environment<'_, 'v>,
) -> Result<Value<'v>, ValueFault>
    requires ready { IsReady env.now run.old }
    ensures { Gives (counted (meaning.variable name.now env.now)) run.old result run.new }
{
    let items = run.lend(name, env)?;
    run.count(items)?;
    Ok(Value::lent(items))
}
