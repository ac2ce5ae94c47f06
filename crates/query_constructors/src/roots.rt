//! New trees.

ghost use Rattle.std.specs.Prelude.{◌≡◌, ◌≤◌, ◌<◌, ◌∷◌, [], ℕ, IfOk};
ghost use Rattle.data_model.specs.Tree.{trees_of_tree};
ghost use Rattle.data_model.specs.Trees.{count, leaf};
ghost use Rattle.query_meaning.specs.Constructors as meaning;
ghost use Rattle.evaluation.specs.Gives.{Gives};

use evaluation::{Evaluation, Sequence};
use std::alloc::{AllocError, Global};
use trees::{Content, Kind, NodeId, Tree};
use values::{Item, Text, ValueFault};

/// Lets a new tree stand among the others, and gives its root. Its nodes have been numbered from its root on since the last tree was.
/// Fault: `Memory`.
pub fn rooted(run: &mut Evaluation, tree: &Tree) -> Result<Sequence, ValueFault>
    requires distinct { (i : ℕ) → count i (trees_of_tree tree.now) ≤ 1 }
    requires first { (i : ℕ) → 0 < count i (trees_of_tree tree.now) → tree.now.content.identity ≤ i }
    requires below { (i : ℕ) → 0 < count i (trees_of_tree tree.now) → i < run.old.shelf.own.next }
    requires after { (i : ℕ) → 0 < count i run.old.shelf.own.trees → i < tree.now.content.identity }
    requires lent { run.old.shelf.lent.next ≤ tree.now.content.identity }
    ensures { Gives (meaning.rooted tree.now.content.identity (trees_of_tree tree.now)) run.old result run.new }
{
    let root = tree.content().identity;
    run.stand(tree)?;
    Ok(Sequence::one(run.alloc(), Item::Node(root))?)
}

/// A new node with a text. Code: PXQ0003 where the evaluation would have made more than 100,000 nodes.
pub(crate) fn with_text(
    run: &mut Evaluation,
    kind: Kind,
    name: &str,
    text: &str,
) -> Result<Sequence, ValueFault>
    ensures { Gives (meaning.with_text kind name.now text.now) run.old result run.new }
{
    run.shelf().facts();
    let identity = run.new_nodes(1)?;
    let tree = leaf(run.alloc(), identity, kind, name, text)?;
    rooted(run, &tree)
}

/// The tree of a node with nothing below it. It fails where memory is refused.
fn leaf(
    alloc: Global,
    identity: NodeId,
    kind: Kind,
    name: &str,
    text: &str,
) -> Result<Tree, AllocError>
    ensures { IfOk result
        (λ tree. trees_of_tree tree ≡ leaf (record { identity = identity; kind = kind; name = name.now; text = text.now })) }
{
    let content = Content {
        identity,
        kind,
        name: Text::of(alloc, name)?,
        text: Text::of(alloc, text)?,
    };
    Ok(Tree::new(content, Vec::new(alloc), Vec::new(alloc)))
}
