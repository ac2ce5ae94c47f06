//! Calls of functions (XQuery 1.0, section 3.1.5).

ghost use Rattle.std.specs.Prelude.{◌≡◌, ◌∷◌, [], map};
ghost use Rattle.query_meaning.specs.Functions as functions;
ghost use Rattle.query_meaning.specs.Meaning.{mean};
ghost use Rattle.evaluation.specs.Evaluates.{Evaluates};
ghost use Rattle.evaluation.specs.Gives.{Gives, GivesIn, IsReady};
ghost use Rattle.query_calls.specs.Arguments.{AllStand, and_argument};

use crate::argument_values::Values;
use crate::table::applied;
use evaluation::{Environment, Evaluation, Sequence, value_of_part};
use query_grammar::{Expr, Function};
use sqlite_items::Items;
use std::slice;
use values::ValueFault;

/// Calls of functions, over a function value that evaluates their arguments.
#[derive(Clone, Copy)]
pub struct Calls<F> {
    /// The function value.
    pub value_of: F,
}

impl<F: Fn(&mut Evaluation, &Expr, &Environment) -> Result<Sequence, ValueFault>> Calls<F> {
    /// `f(a, b, ..)`: what the function makes of its arguments' values, which are evaluated from the left (XQuery 1.0, section 3.1.5).
    /// Codes: that of the first argument that has one; XPST0017 where there is none that takes so many arguments; those of the
    /// function.
    pub fn call(
        &self,
        run: &mut Evaluation,
        function: Option<Function>,
        arguments: &Items<Expr>,
        env: &Environment,
    ) -> Result<Sequence, ValueFault>
        requires evaluates { Evaluates (F.pre self.now.value_of) (F.post self.now.value_of) arguments.now }
        requires ready { IsReady env.now run.old }
        ensures { Gives (functions.call function (map mean arguments.now) env.now) run.old result run.new }
    {
        let arguments = arguments.as_slice();
        if let [only] = arguments {
            return self.call_with_one(run, function, only, env);
        }
        let values = self.values_of(run, arguments, env)?;
        applied(run, function, values.as_slice(), env)
    }

    /// The same with one argument. The items of a variable are not copied.
    fn call_with_one(
        &self,
        run: &mut Evaluation,
        function: Option<Function>,
        argument: &Expr,
        env: &Environment,
    ) -> Result<Sequence, ValueFault>
        requires evaluates { Evaluates (F.pre self.now.value_of) (F.post self.now.value_of) (argument.now ∷ []) }
        requires ready { IsReady env.now run.old }
        ensures { Gives (functions.call function (mean argument.now ∷ []) env.now) run.old result run.new }
    {
        let value = value_of_part(&self.value_of, run, argument, env)?;
        applied(run, function, slice::from_ref(value.items()), env)
    }

    /// The values of arguments.
    fn values_of(
        &self,
        run: &mut Evaluation,
        arguments: &[Expr],
        env: &Environment,
    ) -> Result<Values, ValueFault>
        requires evaluates { Evaluates (F.pre self.now.value_of) (F.post self.now.value_of) arguments.now }
        requires ready { IsReady env.now run.old }
        ensures { GivesIn AllStand (functions.arguments env.now (map mean arguments.now)) run.old result run.new }
    {
        let mut values = Values::with_capacity(run.alloc(), arguments.len())?;
        for argument in arguments {
            values = self.and_value(run, values, argument, env)?;
        }
        Ok(values)
    }

    /// The values before, and that of one argument more.
    fn and_value(
        &self,
        run: &mut Evaluation,
        given: Values,
        argument: &Expr,
        env: &Environment,
    ) -> Result<Values, ValueFault>
        requires evaluates { Evaluates (F.pre self.now.value_of) (F.post self.now.value_of) (argument.now ∷ []) }
        requires ready { IsReady env.now run.old }
        requires stand { AllStand given run.old }
        ensures { GivesIn AllStand (and_argument env.now given (mean argument.now)) run.old result run.new }
    {
        let value = (self.value_of)(run, argument, env)?;
        Ok(given.and(value)?)
    }
}
