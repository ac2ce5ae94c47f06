//! `delete` (XQuery Update Facility 1.0, section 2.4.2).

ghost use Rattle.std.specs.Prelude.{◌≡◌, ◌∷◌, []};
ghost use Rattle.query_meaning.specs.Meaning.{mean};
ghost use Rattle.query_meaning.specs.Updates as meaning;
ghost use Rattle.evaluation.specs.Evaluates.{Evaluates};
ghost use Rattle.evaluation.specs.Gives.{Gives, IsReady};
ghost use Rattle.query_updates.specs.Parts.{all_deleted, items_deleted};

use crate::updates::Updates;
use evaluation::{Environment, Evaluation, Sequence};
use fault_codes::Code;
use pending::Primitive;
use query_grammar::Expr;
use query_steps::all_nodes;
use sqlite_items::Boxed;
use trees::NodeId;
use values::ValueFault;

impl<F: Fn(&mut Evaluation, &Expr, &Environment) -> Result<Sequence, ValueFault>> Updates<F> {
    /// `delete node a`: each of its nodes is to go, in their order (XQuery Update Facility 1.0, section 2.4.2). Codes: those of the
    /// target; XUTY0007 where an item of it is no node; PXQ0002 where there would be more than 10,000 primitives.
    pub fn delete(
        &self,
        run: &mut Evaluation,
        target: &Boxed<Expr>,
        env: &Environment,
    ) -> Result<Sequence, ValueFault>
        requires target { Evaluates (F.pre self.now.value_of) (F.post self.now.value_of) (target.now ∷ []) }
        requires ready { IsReady env.now run.old }
        ensures { Gives (meaning.delete (mean target.now) env.now) run.old result run.new }
    {
        let items = self.value_of(run, target, env)?;
        deleted(run, &items)
    }
}

/// Adds a primitive for each item. Code: XUTY0007 where one is no node; then none is added.
fn deleted(run: &mut Evaluation, items: &Sequence) -> Result<Sequence, ValueFault>
    ensures { Gives (items_deleted items.now) run.old result run.new }
{
    let nodes = all_nodes(run.alloc(), items.as_slice(), Code::XUTY0007)?;
    delete_all(run, &nodes)
}

/// Adds a primitive for each node, in one pass.
fn delete_all(run: &mut Evaluation, nodes: &[NodeId]) -> Result<Sequence, ValueFault>
    ensures { Gives (all_deleted nodes.now) run.old result run.new }
{
    for node in nodes {
        run.add(Primitive::Delete(*node))?;
    }
    Ok(Sequence::new(run.alloc()))
}
