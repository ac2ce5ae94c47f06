//! `and` and `or` (XQuery 1.0, section 3.6).

ghost use Rattle.std.specs.Prelude.{◌≡◌, ◌∷◌, [], IfOk, Some};
ghost use Rattle.query_meaning.specs.Meaning.{mean};
ghost use Rattle.query_meaning.specs.Operators as meaning;
ghost use Rattle.evaluation.specs.Evaluates.{Evaluates};
ghost use Rattle.evaluation.specs.Gives.{Gives, IsReady, Stand};

use crate::forms::Forms;
use evaluation::{Environment, Evaluation, Sequence};
use query_grammar::Expr;
use query_operators::boolean;
use values::{ValueFault, truth};

impl<F: Fn(&mut Evaluation, &Expr, &Environment) -> Result<Sequence, ValueFault>> Forms<F> {
    /// `and`, which `false` decides, and `or`, which `true` decides, after their left side (XQuery 1.0, section 3.6). The right side is evaluated only where
    /// the left one doesn't decide. Codes: FORG0006 where the first of several items on the left is an atomic value; then, where that side doesn't decide,
    /// those of the right one, and FORG0006 as on the left.
    pub fn either_side(
        &self,
        run: &mut Evaluation,
        deciding: bool,
        left: &Sequence,
        right: &Expr,
        env: &Environment,
    ) -> Result<Sequence, ValueFault>
        requires evaluates { Evaluates (F.pre self.now.value_of) (F.post self.now.value_of) (right.now ∷ []) }
        requires ready { IsReady env.now run.old }
        ensures { Gives (meaning.either_side deciding left.now (mean right.now env.now)) run.old result run.new }
    {
        if truth(left.as_slice())? == deciding {
            Ok(boolean(run, deciding)?)
        } else {
            self.truth_of(run, right, env)
        }
    }

    /// The effective boolean value of an expression.
    fn truth_of(
        &self,
        run: &mut Evaluation,
        x: &Expr,
        env: &Environment,
    ) -> Result<Sequence, ValueFault>
        requires evaluates { Evaluates (F.pre self.now.value_of) (F.post self.now.value_of) (x.now ∷ []) }
        requires ready { IsReady env.now run.old }
        ensures { Gives (meaning.truth_of (mean x.now env.now)) run.old result run.new }
    {
        let value = self.holds(run, x, env)?;
        Ok(boolean(run, value)?)
    }
}
