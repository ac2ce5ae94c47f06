//! `rename` (XQuery Update Facility 1.0, section 2.4.4).

ghost use Rattle.std.specs.Prelude.{◌≡◌, ◌∷◌, []};
ghost use Rattle.query_meaning.specs.Meaning.{mean};
ghost use Rattle.query_meaning.specs.Updates as meaning;
ghost use Rattle.evaluation.specs.Evaluates.{Evaluates};
ghost use Rattle.evaluation.specs.Gives.{Gives, IsReady};
ghost use Rattle.query_updates.specs.Parts.{renamed};

use crate::targets::{Role, Target};
use crate::updates::Updates;
use evaluation::{Environment, Evaluation, Sequence};
use pending::Primitive;
use query_constructors::named_by_values;
use query_grammar::Expr;
use sqlite_items::Boxed;
use values::ValueFault;

impl<F: Fn(&mut Evaluation, &Expr, &Environment) -> Result<Sequence, ValueFault>> Updates<F> {
    /// `rename node a as b`: its element, attribute or processing instruction is to have that name (XQuery Update Facility 1.0, section
    /// 2.4.4). Codes: those of the target; XUDY0027 where it is empty; XUTY0012 where it is anything else than one such node; then those of
    /// the name; PXQ0002 where a string value is too long or too little work is left; XPTY0004 where there is not one string or untyped
    /// value; XQDY0041 and XQDY0064 for a processing instruction, and XQDY0074 for other kinds, where it is no name for one; PXQ0002 where
    /// there would be more than 10,000 primitives.
    pub fn rename(
        &self,
        run: &mut Evaluation,
        target: &Boxed<Expr>,
        name: &Boxed<Expr>,
        env: &Environment,
    ) -> Result<Sequence, ValueFault>
        requires target { Evaluates (F.pre self.now.value_of) (F.post self.now.value_of) (target.now ∷ []) }
        requires name { Evaluates (F.pre self.now.value_of) (F.post self.now.value_of) (name.now ∷ []) }
        requires ready { IsReady env.now run.old }
        ensures { Gives (meaning.rename (mean target.now) (mean name.now) env.now) run.old result run.new }
    {
        let target = self.target(run, target, Role::Renamed, env)?;
        self.renamed(run, target, name, env)
    }

    /// A target that takes the name which an expression gives.
    fn renamed(
        &self,
        run: &mut Evaluation,
        target: Target,
        name: &Boxed<Expr>,
        env: &Environment,
    ) -> Result<Sequence, ValueFault>
        requires evaluates { Evaluates (F.pre self.now.value_of) (F.post self.now.value_of) (name.now ∷ []) }
        requires ready { IsReady env.now run.old }
        ensures { Gives (renamed (mean name.now) env.now target) run.old result run.new }
    {
        let items = self.value_of(run, name, env)?;
        let values = run.atoms(&items)?;
        let name = named_by_values(run.alloc(), target.kind, &values)?;
        let name = String::from_str(run.alloc(), name.as_str())?;
        run.add(Primitive::Rename(target.identity, name))?;
        Ok(Sequence::new(run.alloc()))
    }
}
