//! Changes of copies (XQuery Update Facility 1.0, section 2.4.5).

ghost use Rattle.std.specs.Prelude.{◌≡◌, ◌∷◌, [], false, map, Ok, IfOk, IfErr, OnOk};
ghost use Rattle.std.specs.List.{All};
ghost use Rattle.chosen_drafts.specs.Chosen.{IsRoot};
ghost use Rattle.pending.specs.Compatible.{conflict, has_repeat};
ghost use Rattle.pending.specs.Primitives.{primitive_term};
ghost use Rattle.query_meaning.specs.Copies as meaning;
ghost use Rattle.query_meaning.specs.Meaning.{mean};
ghost use Rattle.query_meaning.specs.Running.{Run};
ghost use Rattle.evaluation.specs.Evaluates.{Evaluates};
ghost use Rattle.evaluation.specs.Gives.{Fails, IsReady};
ghost use Rattle.query_copies.specs.Kept.{Adds, AreCopies, Bring, Comes, Survive};
ghost use Rattle.query_copies.specs.Steps.{changed_by, updated};

use crate::copies::Copies;
use crate::roots::CopyRoots;
use crate::targets::are_in_copies;
use apply::{ApplyFault, apply_copies};
use evaluation::{Environment, Evaluation, Sequence};
use fault_codes::Code;
use meaning_laws::laws::own_lists_bring_new_nodes;
use pending::{CheckFault, PendingList};
use query_grammar::Expr;
use std::alloc::Global;
use values::ValueFault;

impl<F: Fn(&mut Evaluation, &Expr, &Environment) -> Result<Sequence, ValueFault>> Copies<F> {
    /// Changes the copies with these roots by the primitives that an expression gives. Codes: those of the expression; XUDY0014 where a target is no node of a
    /// copy; XUDY0015, XUDY0016 and XUDY0017 where the primitives are not compatible; XUDY0021 and PXQ0003 where the copies may not become so.
    pub(crate) fn modify(
        &self,
        run: &mut Evaluation,
        changes: &Expr,
        roots: &CopyRoots,
        env: &Environment,
    ) -> Result<(), ValueFault>
        requires evaluates { Evaluates (F.pre self.now.value_of) (F.post self.now.value_of) (changes.now ∷ []) }
        requires ready { IsReady env.now run.old }
        requires apart { has_repeat roots.now ≡ false }
        requires roots { All (IsRoot run.old.shelf.own.trees) roots.now }
        ensures comes { Comes (changed_by (mean changes.now env.now) roots.now) run.old result run.new }
        ensures survive { OnOk result ((start : Run) → AreCopies start roots.now run.old → Survive start roots.now run.new) }
    {
        let list = self.own_list(run, changes, env)?;
        modified(run, roots, &list)
    }

    /// The primitives that an expression gives, in a list of their own. Codes: those of the expression.
    fn own_list(
        &self,
        run: &mut Evaluation,
        changes: &Expr,
        env: &Environment,
    ) -> Result<PendingList, ValueFault>
        requires evaluates { Evaluates (F.pre self.now.value_of) (F.post self.now.value_of) (changes.now ∷ []) }
        requires ready { IsReady env.now run.old }
        ensures list { IfOk result (λ ps. meaning.own_list (mean changes.now env.now) run.old ≡ Ok (map primitive_term ps, run.new)) }
        ensures bring { IfOk result (λ ps. Bring (map primitive_term ps) run.new) }
        ensures adds { OnOk result (Adds run.old run.new) }
        ensures fault { IfErr result (λ fault. Fails (meaning.own_list (mean changes.now env.now) run.old) fault) }
    {
        own_lists_bring_new_nodes();
        run.shelf().facts();
        env.facts();
        let outer = run.take_primitives();
        self.value_of(run, changes, env)?;
        let own = run.take_primitives();
        run.put_primitives(outer);
        Ok(own)
    }
}

/// Changes the copies with these roots by primitives. Codes: as `modify`, but for those of the expression.
fn modified(run: &mut Evaluation, roots: &CopyRoots, list: &PendingList) -> Result<(), ValueFault>
    requires apart { has_repeat roots.now ≡ false }
    requires roots { All (IsRoot run.old.shelf.own.trees) roots.now }
    requires bring { Bring (map primitive_term list.now) run.old }
    ensures { Comes (meaning.modified roots.now (map primitive_term list.now)) run.old result run.new }
{
    if !are_in_copies(run.shelf(), roots, list.as_slice()) {
        return Err(ValueFault::Code(Code::XUDY0014));
    }
    check(run.alloc(), list)?;
    update(run, roots, list)
}

/// Whether primitives are compatible. Codes: XUDY0015, XUDY0016, XUDY0017.
fn check(alloc: Global, list: &PendingList) -> Result<(), ValueFault>
    ensures { (run : Run) → Comes (meaning.compatible (conflict (map primitive_term list.now))) run result run }
{
    match list.check(alloc) {
        Ok(()) => Ok(()),
        Err(CheckFault::Memory) => Err(ValueFault::Memory),
        Err(CheckFault::Code(code)) => Err(ValueFault::Code(code)),
    }
}

/// Applies compatible primitives to the copies with these roots. Codes: XUDY0021, PXQ0003.
fn update(run: &mut Evaluation, roots: &CopyRoots, list: &PendingList) -> Result<(), ValueFault>
    requires apart { has_repeat roots.now ≡ false }
    requires roots { All (IsRoot run.old.shelf.own.trees) roots.now }
    requires bring { Bring (map primitive_term list.now) run.old }
    ensures { Comes (updated roots.now (map primitive_term list.now)) run.old result run.new }
{
    run.shelf().facts();
    let mut own = run.take_own();
    own.bounds();
    let next = own.next();
    match apply_copies(&mut own, run.alloc(), roots.as_slice(), list, next) {
        Ok(()) => {
            run.put_own(own);
            Ok(())
        }
        Err(ApplyFault::Memory) => Err(ValueFault::Memory),
        Err(ApplyFault::Code(code)) => Err(ValueFault::Code(code)),
    }
}
