//! The nodes of some trees of a forest.

ghost use Rattle.std.specs.Prelude.{◌≡◌, ◌∷◌, ◌++◌, [], false, IfOk, OnOk};
ghost use Rattle.std.specs.List.{All};
ghost use Rattle.chosen_drafts.specs.Chosen.{IsRoot, AreNodesOf};
ghost use Rattle.data_model.specs.Trees.{attributes_of, children_of};
ghost use Rattle.pending.specs.Compatible.{is_among, has_repeat};
ghost use Rattle.tracked_drafts.specs.Walked.{AreApart};
ghost use Rattle.update_meaning.specs.Changed.{rooted_at, chosen};

use data_model::NodeId;
use indexmap::IndexSet;
use std::alloc::{AllocError, Global};
use trees::Forest;

/// The identities of all nodes of the trees of some roots, each once. A node's lists are noted when its turn comes, so what is noted is at the same time
/// the list of what is left to do, and no tree of a node's own is made.
pub(super) fn nodes_of(
    alloc: Global,
    forest: &Forest,
    roots: &[NodeId],
) -> Result<IndexSet<u64>, AllocError>
    requires distinct { has_repeat roots.now ≡ false }
    requires roots { All (IsRoot forest.now.trees) roots.now }
    ensures { IfOk result (λ nodes. AreNodesOf nodes.keys (chosen (rooted_at roots.now) forest.now.trees)) }
{
    forest.facts();
    let mut nodes = IndexSet::new(alloc);
    note(&mut nodes, roots)?;
    let mut at = 0;
    while at < nodes.len() {
        let id = NodeId::new(nodes.as_slice()[at]);
        note_lists(&mut nodes, forest, id)?;
        at += 1;
    }
    Ok(nodes)
}

/// Notes the attributes and the children of a node.
fn note_lists(nodes: &mut IndexSet<u64>, forest: &Forest, id: NodeId) -> Result<(), AllocError>
    requires { AreApart (nodes.old.keys ++ attributes_of id forest.now.trees ++ children_of id forest.now.trees) }
    ensures { OnOk result (nodes.new.keys ≡ nodes.old.keys ++ attributes_of id forest.now.trees ++ children_of id forest.now.trees) }
{
    match forest.node(id) {
        Some(node) => {
            note(nodes, node.attributes)?;
            note(nodes, node.children)
        }
        None => Ok(()),
    }
}

/// Notes nodes that are not noted yet, in their order.
fn note(nodes: &mut IndexSet<u64>, ids: &[NodeId]) -> Result<(), AllocError>
    requires { AreApart (nodes.old.keys ++ ids.now) }
    ensures { OnOk result (nodes.new.keys ≡ nodes.old.keys ++ ids.now) }
{
    for id in ids {
        add(nodes, *id)?;
    }
    Ok(())
}

/// Notes a node that is not noted yet.
fn add(nodes: &mut IndexSet<u64>, id: NodeId) -> Result<(), AllocError>
    requires { is_among nodes.old.keys id ≡ false }
    ensures { OnOk result (nodes.new.keys ≡ nodes.old.keys ++ id ∷ []) }
{
    nodes.insert(id.number())?;
    Ok(())
}
