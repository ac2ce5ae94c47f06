//! Copies of nodes.

ghost use Rattle.std.specs.Prelude.{◌≡◌, ◌<◌, ◌≤◌, ◌^◌, false, IsSome, IsTrue, IsOk, IsErrOf, Err};
ghost use Rattle.data_model.specs.Tree.{all_of, tree_size, trees_of_tree};
ghost use Rattle.data_model.specs.Trees.{find, size};
ghost use Rattle.shelves.specs.Shelf.{shelf_trees};
ghost use Rattle.query_meaning.specs.Content as meaning;
ghost use Rattle.query_meaning.specs.Running.{trees_of};
ghost use Rattle.evaluation.specs.Gives.{Any, GivesIn, Judged};
ghost use Rattle.copied_content.specs.Copying.{IsPlain, after, copied_as_new, leaving, numbered, source_of};

use crate::copied::CopiedContent;
use data_model::renumber;
use evaluation::Evaluation;
use fault_codes::Code;
use shelves::Shelf;
use std::slice;
use trees::{Kind, NodeId, Tree};
use values::ValueFault;

impl CopiedContent {
    /// Adds a copy of the tree of a node, or of a document's children, whose nodes take the next identities in document order. It takes the
    /// work of the node's texts. Codes: PXQ0002 where too little work is left, and then nothing is copied; PXQ0003 where the evaluation would
    /// have made more than 100,000 nodes, and then no more than these are.
    pub(crate) fn add_copy(&mut self, run: &mut Evaluation, node: NodeId) -> Result<(), ValueFault>
        requires there { IsSome (find node (trees_of run.old)) }
        ensures added { GivesIn Any (after self.old (meaning.copied node)) run.old (leaving result self.new) run.new }
        ensures judged { IsPlain node (trees_of run.old) → Judged (meaning.copied node run.old) result }
    {
        run.pay_copy(node)?;
        self.add_copy_as_new(run, node)
    }

    /// The same, but for its work.
    fn add_copy_as_new(&mut self, run: &mut Evaluation, node: NodeId) -> Result<(), ValueFault>
        requires there { IsSome (find node (trees_of run.old)) }
        ensures added { GivesIn Any (after self.old (copied_as_new node)) run.old (leaving result self.new) run.new }
        ensures judged { IsPlain node (trees_of run.old) → Judged (copied_as_new node run.old) result }
    {
        if is_refused(run, node) {
            return Err(ValueFault::Code(Code::PXQ0003));
        }
        let shelf = run.shelf();
        shelf.facts();
        let tree = shelf.tree(run.alloc(), node)?;
        self.add_numbered(run, tree)
    }

    /// Adds a tree, or a document's children, whose nodes take the next identities in document order. Faults: `Memory`; `Code` with PXQ0003
    /// where the evaluation would have made more than 100,000 nodes.
    fn add_numbered(&mut self, run: &mut Evaluation, tree: Tree) -> Result<(), ValueFault>
        requires few { tree_size tree ≤ run.old.shelf.own.next }
        ensures added { GivesIn Any (after self.old (numbered (source_of tree))) run.old (leaving result self.new) run.new }
        ensures judged { Judged (numbered (source_of tree) run.old) result }
    {
        match tree.content().kind {
            Kind::Document => self.add_children(run, tree.into_children()),
            _ => self.add_tree(run, tree),
        }
    }

    /// The same of a tree that is added whole.
    fn add_tree(&mut self, run: &mut Evaluation, tree: Tree) -> Result<(), ValueFault>
        requires few { tree_size tree ≤ run.old.shelf.own.next }
        ensures added { GivesIn Any (after self.old (numbered (trees_of_tree tree))) run.old (leaving result self.new) run.new }
        ensures judged { Judged (numbered (trees_of_tree tree) run.old) result }
    {
        let mut tree = tree;
        number(run, slice::from_mut(&mut tree))?;
        Ok(self.add(tree)?)
    }

    /// The same of a document's children.
    fn add_children(&mut self, run: &mut Evaluation, children: Vec<Tree>) -> Result<(), ValueFault>
        requires few { size (all_of children.items) ≤ run.old.shelf.own.next }
        ensures added { GivesIn Any (after self.old (numbered (all_of children.items))) run.old (leaving result self.new) run.new }
        ensures judged { Judged (numbered (all_of children.items) run.old) result }
    {
        let mut children = children;
        number(run, &mut children)?;
        Ok(self.add_all(children)?)
    }
}

/// Whether a copy of a node is known to have more nodes than the evaluation may still make.
fn is_refused(run: &Evaluation, node: NodeId) -> bool
    requires there { IsSome (find node (trees_of run.now)) }
    ensures refused { IsTrue result → copied_as_new node run.now ≡ Err Code.PXQ0003 }
    ensures known { IsPlain node (trees_of run.now) → result ≡ false → IsOk (copied_as_new node run.now) }
{
    match run.nodes_left() {
        Some(left) => is_too_large(run.shelf(), node, left),
        None => true,
    }
}

/// Whether a copy of a node is known to have more than so many nodes.
fn is_too_large(shelf: &Shelf, node: NodeId, most: u64) -> bool
    requires there { IsSome (find node (shelf_trees shelf.now)) }
    requires most { most < 2 ^ 63 }
    ensures more { IsTrue result
        → most < size (meaning.source_at node (shelf_trees shelf.now) (find node (shelf_trees shelf.now))) }
    ensures known { IsPlain node (shelf_trees shelf.now)
        → most < size (meaning.source_at node (shelf_trees shelf.now) (find node (shelf_trees shelf.now)))
        → IsTrue result }
{
    shelf.facts();
    if shelf.is_within(node, most) {
        return false;
    }
    match shelf.kind(node) {
        // The document itself is not copied, nor would its attributes be.
        Kind::Document => { shelf.attributes(node).is_empty() && !shelf.is_within(node, most + 1) }
        _ => true,
    }
}

/// Gives the nodes of some trees the next identities in document order. Code: PXQ0003 where the evaluation would have made more than 100,000
/// nodes.
fn number(run: &mut Evaluation, trees: &mut [Tree]) -> Result<(), ValueFault>
    requires few { size (all_of trees.old) ≤ run.old.shelf.own.next }
    ensures numbered { GivesIn Any (numbered (all_of trees.old)) run.old (leaving result (all_of trees.new)) run.new }
    ensures judged { IsErrOf result ValueFault.Memory → ⊥ }
{
    // No identity is taken yet: the walk that gives the nodes theirs counts them too.
    let first = run.new_nodes(0)?.number();
    let next = renumber(trees, first);
    run.new_nodes(next - first)?;
    Ok(())
}
