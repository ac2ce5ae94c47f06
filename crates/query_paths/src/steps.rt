//! Axis steps with predicates (XQuery 1.0, section 3.2.1).

ghost use Rattle.std.specs.Prelude.{◌≡◌, ◌∷◌, map, IfOk, IsSome, Ok};
ghost use Rattle.data_model.specs.Trees.{find};
ghost use Rattle.query_meaning.specs.Meaning.{mean};
ghost use Rattle.query_meaning.specs.Operators.{nodes};
ghost use Rattle.query_meaning.specs.Paths as meaning;
ghost use Rattle.query_meaning.specs.Running.{trees_of};
ghost use Rattle.evaluation.specs.Evaluates.{Evaluates};
ghost use Rattle.evaluation.specs.Gives.{Gives, IsReady, Says, Stand};
ghost use Rattle.query_paths.specs.Steps.{chosen_from, context_node, step_at};

use crate::filters::Paths;
use crate::kept::Kept;
use evaluation::{Environment, Evaluation, Sequence};
use fault_codes::Code;
use query_grammar::{Expr, NodeTest};
use query_steps::nodes_of_step;
use sqlite_items::Items;
use std::alloc::{AllocError, Global};
use trees::{Axis, NodeId};
use values::{Item, ValueFault};

impl<F: Fn(&mut Evaluation, &Expr, &Environment) -> Result<Sequence, ValueFault>> Paths<F> {
    /// `axis::test[a][b]`: the nodes on the axis from the context item that pass the test and that each predicate keeps, in document
    /// order (XQuery 1.0, section 3.2.1). It takes a unit of work for each node that it looks at, before any predicate. Codes: XPDY0002 where
    /// there is no context item; XPTY0020 where it is no node; that of the first predicate that has one; PXQ0002 where no turn or less work is
    /// left, or where more than 10,000 nodes are left.
    pub fn step(
        &self,
        run: &mut Evaluation,
        axis: Axis,
        test: &NodeTest,
        predicates: &Items<Expr>,
        env: &Environment,
    ) -> Result<Sequence, ValueFault>
        requires evaluates { Evaluates (F.pre self.now.value_of) (F.post self.now.value_of) predicates.now }
        requires ready { IsReady env.now run.old }
        ensures { Gives (meaning.step axis test.now (map mean predicates.now) env.now) run.old result run.new }
    {
        let node = context_node(env)?;
        self.step_from(run, axis, test, predicates.as_slice(), node, env)
    }

    /// The step from a node: one walk lists the nodes and tells the work of looking. Codes: PXQ0002 where less is left, and those of `step`.
    fn step_from(
        &self,
        run: &mut Evaluation,
        axis: Axis,
        test: &NodeTest,
        predicates: &[Expr],
        node: NodeId,
        env: &Environment,
    ) -> Result<Sequence, ValueFault>
        requires evaluates { Evaluates (F.pre self.now.value_of) (F.post self.now.value_of) predicates.now }
        requires ready { IsReady env.now run.old }
        requires stands { IsSome (find node (trees_of run.old)) }
        ensures { Gives (step_at axis test.now (map mean predicates.now) node env.now) run.old result run.new }
    {
        let listing = nodes_of_step(run, axis, test, node)?;
        run.spend(listing.looked_at)?;
        self.chosen_from(run, axis, &listing.nodes, predicates, env)
    }

    /// Those of the nodes that it finds, however many, that each predicate keeps.
    fn chosen_from(
        &self,
        run: &mut Evaluation,
        axis: Axis,
        found: &[NodeId],
        predicates: &[Expr],
        env: &Environment,
    ) -> Result<Sequence, ValueFault>
        requires evaluates { Evaluates (F.pre self.now.value_of) (F.post self.now.value_of) predicates.now }
        requires ready { IsReady env.now run.old }
        requires stand { Stand (nodes found.now) run.old }
        ensures { Gives (chosen_from axis (map mean predicates.now) found.now env.now) run.old result run.new }
    {
        // Nothing is left of nothing, and no predicate is evaluated.
        if found.is_empty() {
            return Ok(Sequence::new(run.alloc()));
        }
        if predicates.is_empty() {
            return Sequence::of_nodes(run.alloc(), found);
        }
        let items = in_direction(run.alloc(), axis, found)?;
        let left = self.filtered_by_all(run, items, predicates, env)?;
        turned(axis, left).into_sequence()
    }
}

/// The context item as a node. Codes: XPDY0002 where there is none; XPTY0020 where it is no node.
fn context_node(env: &Environment) -> Result<NodeId, Code>
    ensures { result ≡ context_node env.now }
{
    match env.item() {
        None => Err(Code::XPDY0002),
        Some(Item::Atomic(_)) => Err(Code::XPTY0020),
        Some(Item::Node(node)) => Ok(*node),
    }
}

/// Nodes as the items whose positions an axis counts. It fails where memory is refused.
fn in_direction(alloc: Global, axis: Axis, found: &[NodeId]) -> Result<Kept, AllocError>
    ensures { IfOk result (λ items. items ≡ meaning.in_direction axis (nodes found.now)) }
{
    Ok(turned(axis, Kept::of_nodes(alloc, found)?))
}

/// Items in the other order, where the axis is a reverse one.
fn turned(axis: Axis, items: Kept) -> Kept
    ensures { result ≡ meaning.in_direction axis items }
{
    if is_reverse(axis) {
        items.reversed()
    } else {
        items
    }
}

/// Whether positions on an axis count backward (XQuery 1.0, section 3.2.1.1).
fn is_reverse(axis: Axis) -> bool
    ensures { result ≡ meaning.is_reverse axis }
{
    matches!(axis, Axis::Parent | Axis::Ancestor | Axis::PrecedingSibling)
}
