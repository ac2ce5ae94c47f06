//! Updating expressions (XQuery Update Facility 1.0, section 2.4) over a function, and the targets that it gives.

ghost use Rattle.std.specs.Prelude.{◌≡◌, ◌∷◌, []};
ghost use Rattle.query_meaning.specs.Meaning.{mean};
ghost use Rattle.evaluation.specs.Evaluates.{Evaluates};
ghost use Rattle.evaluation.specs.Gives.{Any, Gives, GivesIn, IsReady};
ghost use Rattle.query_updates.specs.Targets.{target};

use crate::targets::{Role, Target, target_in};
use evaluation::{Environment, Evaluation, Sequence};
use query_grammar::Expr;
use sqlite_items::Boxed;
use values::ValueFault;

/// Updating expressions, over a function value that evaluates their parts.
#[derive(Clone, Copy)]
pub struct Updates<F> {
    /// The function value.
    pub value_of: F,
}

impl<F: Fn(&mut Evaluation, &Expr, &Environment) -> Result<Sequence, ValueFault>> Updates<F> {
    /// The value of a part. Codes: those of the part.
    pub(crate) fn value_of(
        &self,
        run: &mut Evaluation,
        x: &Boxed<Expr>,
        env: &Environment,
    ) -> Result<Sequence, ValueFault>
        requires evaluates { Evaluates (F.pre self.now.value_of) (F.post self.now.value_of) (x.now ∷ []) }
        requires ready { IsReady env.now run.old }
        ensures { Gives (mean x.now env.now) run.old result run.new }
    {
        (self.value_of)(run, x.get(), env)
    }

    /// The target that a part gives. Codes: those of the part; XUDY0027 where it gives nothing; that of the role where it gives anything
    /// else than one node of a kind that the role allows.
    pub(crate) fn target(
        &self,
        run: &mut Evaluation,
        x: &Boxed<Expr>,
        role: Role,
        env: &Environment,
    ) -> Result<Target, ValueFault>
        requires evaluates { Evaluates (F.pre self.now.value_of) (F.post self.now.value_of) (x.now ∷ []) }
        requires ready { IsReady env.now run.old }
        ensures { GivesIn Any (target role (mean x.now) env.now) run.old result run.new }
    {
        let items = self.value_of(run, x, env)?;
        Ok(target_in(run, &items, role)?)
    }
}
