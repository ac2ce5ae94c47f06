//! Copies of what sources give.

ghost use Rattle.std.specs.Prelude.{◌≡◌, ◌∷◌, ℕ, List, [], map, IfOk, IsSome};
ghost use Rattle.data_model.specs.Trees.{find};
ghost use Rattle.values.specs.declared.atom.Item.TheVariants as item;
ghost use Rattle.query_meaning.specs.Copies as meaning;
ghost use Rattle.query_meaning.specs.Meaning.{mean};
ghost use Rattle.query_meaning.specs.Running.{Run, come_to, trees_of};
ghost use Rattle.evaluation.specs.Evaluates.{Evaluates, EvaluatesEach};
ghost use Rattle.evaluation.specs.Gives.{Any, GivesIn, IsReady};
ghost use Rattle.evaluation.specs.Bindings.{binding_of, bound_source};
ghost use Rattle.query_copies.specs.Kept.{AreCopies, IsCopy};
ghost use Rattle.query_copies.specs.Steps.{copied};

use crate::copies::Copies;
use crate::made::MadeCopies;
use evaluation::{Environment, Evaluation, Sequence};
use fault_codes::Code;
use query_grammar::{Binding, Expr};
use trees::NodeId;
use values::{Item, ValueFault};

impl<F: Fn(&mut Evaluation, &Expr, &Environment) -> Result<Sequence, ValueFault>> Copies<F> {
    /// Copies of the nodes that sources give, each made as soon as its source is evaluated. Codes: those of the sources; XUTY0013 where one gives anything
    /// else than one node; PXQ0003 where the evaluation would have made more than 100,000 nodes.
    pub(crate) fn copies(
        &self,
        run: &mut Evaluation,
        bindings: &[Binding<Expr>],
        env: &Environment,
    ) -> Result<MadeCopies, ValueFault>
        requires bindings { EvaluatesEach (F.pre self.now.value_of) (F.post self.now.value_of) bound_source bindings.now }
        requires ready { IsReady env.now run.old }
        ensures { GivesIn
            (λ cs. AreCopies run.old (meaning.roots_of cs))
            (meaning.copies (map (binding_of mean) bindings.now) env.now)
            run.old
            result
            run.new }
    {
        let mut copies = MadeCopies::new(run.alloc());
        for binding in bindings {
            copies = self.and_copy(run, copies, binding, env)?;
        }
        Ok(copies)
    }

    /// One copy more.
    fn and_copy(
        &self,
        run: &mut Evaluation,
        copies: MadeCopies,
        binding: &Binding<Expr>,
        env: &Environment,
    ) -> Result<MadeCopies, ValueFault>
        requires source { Evaluates (F.pre self.now.value_of) (F.post self.now.value_of) (bound_source binding.now ∷ []) }
        requires ready { IsReady env.now run.old }
        ensures gives { GivesIn Any (meaning.and_copy env.now copies (binding_of mean binding.now)) run.old result run.new }
        ensures copies { IfOk result
            (λ cs. (start : Run)
            → AreCopies start (meaning.roots_of copies) run.old
            → AreCopies start (meaning.roots_of cs) run.new) }
    {
        let root = self.copied(run, &binding.source, env)?;
        Ok(copies.and(&binding.variable, root)?)
    }

    /// The root of a copy of the node that a source gives.
    fn copied(
        &self,
        run: &mut Evaluation,
        source: &Expr,
        env: &Environment,
    ) -> Result<NodeId, ValueFault>
        requires source { Evaluates (F.pre self.now.value_of) (F.post self.now.value_of) (source.now ∷ []) }
        requires ready { IsReady env.now run.old }
        ensures gives { GivesIn Any (copied (mean source.now env.now)) run.old result run.new }
        ensures copies { IfOk result
            (λ root. (start : Run) (others : List ℕ)
            → AreCopies start others run.old
            → AreCopies start (root ∷ others) run.new) }
    {
        let items = self.value_of(run, source, env)?;
        let node = one_node(&items)?;
        copy_of(run, node)
    }
}

/// The node that items are. Code: XUTY0013 where they are anything else than one node.
fn one_node(items: &Sequence) -> Result<NodeId, Code>
    ensures says { (run : Run) → come_to result run ≡ meaning.one_node items.now run }
    ensures is { IfOk result (λ i. items.now ≡ item.Node i ∷ []) }
{
    match items.as_slice() {
        [Item::Node(node)] => Ok(*node),
        _ => Err(Code::XUTY0013),
    }
}

/// A copy of the tree of a node.
fn copy_of(run: &mut Evaluation, node: NodeId) -> Result<NodeId, ValueFault>
    requires there { IsSome (find node (trees_of run.old)) }
    ensures { GivesIn (IsCopy run.old) (meaning.copy_of node) run.old result run.new }
{
    run.shelf().facts();
    run.copy(node)
}
