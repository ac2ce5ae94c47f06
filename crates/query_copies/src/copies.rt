//! `copy .. modify .. return` (XQuery Update Facility 1.0, section 2.4.5) over a function value.

ghost use Rattle.std.specs.Prelude.{◌≡◌, ◌∷◌, [], map, OnOk};
ghost use Rattle.query_meaning.specs.Copies as meaning;
ghost use Rattle.query_meaning.specs.Meaning.{mean};
ghost use Rattle.evaluation.specs.Evaluates.{Evaluates, EvaluatesEach};
ghost use Rattle.evaluation.specs.Gives.{Gives, IsReady};
ghost use Rattle.evaluation.specs.Bindings.{binding_of, bound_source};
ghost use Rattle.query_copies.specs.Kept.{Adds};

use evaluation::{Environment, Evaluation, Sequence};
use meaning_laws::laws::nothing_is_lost;
use query_grammar::{Binding, Expr};
use sqlite_items::{Boxed, Items};
use values::ValueFault;

/// The form, over a function value that evaluates its parts.
#[derive(Clone, Copy)]
pub struct Copies<F> {
    /// The function value.
    pub value_of: F,
}

impl<F: Fn(&mut Evaluation, &Expr, &Environment) -> Result<Sequence, ValueFault>> Copies<F> {
    /// `copy $x := a, .. modify b return c`: copies of the nodes that the sources give are changed by the primitives that `b` gives, and then `c` is
    /// evaluated (XQuery Update Facility 1.0, section 2.4.5). The sources see what is bound outside, `b` and `c` all variables of the form too;
    /// of equal names the last counts. The primitives of `b` are a list of their own.
    ///
    /// Codes, in this order: those of each source; XUTY0013 where it gives anything else than one node; PXQ0003 where the evaluation would have made more
    /// than 100,000 nodes; then those of `b`; XUDY0014 where a target is no node of a copy; XUDY0015, XUDY0016 and XUDY0017 where the
    /// primitives are not compatible; XUDY0021 where an element of a copy would have two attributes of one name; PXQ0003 where the copies together
    /// would pass a limit of a store; then those of `c`.
    pub fn copy(
        &self,
        run: &mut Evaluation,
        bindings: &Items<Binding<Expr>>,
        changes: &Boxed<Expr>,
        returned: &Boxed<Expr>,
        env: &Environment,
    ) -> Result<Sequence, ValueFault>
        requires bindings { EvaluatesEach (F.pre self.now.value_of) (F.post self.now.value_of) bound_source bindings.now }
        requires changes { Evaluates (F.pre self.now.value_of) (F.post self.now.value_of) (changes.now ∷ []) }
        requires returned { Evaluates (F.pre self.now.value_of) (F.post self.now.value_of) (returned.now ∷ []) }
        requires ready { IsReady env.now run.old }
        ensures { Gives
            (meaning.copy (map (binding_of mean) bindings.now) (mean changes.now) (mean returned.now) env.now)
            run.old
            result
            run.new }
    {
        let copies = self.copies(run, bindings.as_slice(), env)?;
        let variables = copies.bound(run.alloc(), env.variables())?;
        let roots = copies.roots(run.alloc())?;
        let inside = env.with(&variables);
        self.modify(run, changes.get(), &roots, &inside)?;
        self.value_of(run, returned.get(), &inside)
    }

    /// The value of a part. Codes: those of the part.
    pub(crate) fn value_of(
        &self,
        run: &mut Evaluation,
        x: &Expr,
        env: &Environment,
    ) -> Result<Sequence, ValueFault>
        requires evaluates { Evaluates (F.pre self.now.value_of) (F.post self.now.value_of) (x.now ∷ []) }
        requires ready { IsReady env.now run.old }
        ensures value { Gives (mean x.now env.now) run.old result run.new }
        ensures adds { OnOk result (Adds run.old run.new) }
    {
        run.shelf().facts();
        nothing_is_lost();
        (self.value_of)(run, x, env)
    }
}
