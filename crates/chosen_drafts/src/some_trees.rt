//! A draft of some trees of a forest, by their roots.

ghost use Rattle.std.specs.Prelude.{◌≡◌, ◌⊎◌, ℕ, ◌<◌, ◌≤◌, ◌^◌, true, Some, IfOk, IfErr, OnOk, OnErr, IsSome, length, string_bytes};
ghost use Rattle.data_model.specs.Changes.{with_content, with_part, part_of};
ghost use Rattle.data_model.specs.Tree.{all_of};
ghost use Rattle.node_plans.specs.Splices.{spliced};
ghost use Rattle.data_model.specs.Trees.{find, count, size, append};
ghost use Rattle.data_model.specs.Views.{Views};
ghost use Rattle.pending.specs.Compatible.{is_among};
ghost use Rattle.update_meaning.specs.Changed.{rooted_at, chosen};
ghost use Rattle.chosen_drafts.specs.Chosen.{AreNodesOf};
ghost use Rattle.chosen_drafts.specs.Terms.{hidden, whole_draft};
ghost use Rattle.chosen_drafts.specs.Noting.{Notes};

use data_model::{NodeId, NodeView, Part, Tree};
use indexmap::IndexSet;
use std::alloc::{AllocError, Global};
use std::marker::Model;
use trees::{Draft, Forest, Prepared};

/// A draft of some trees of a forest. The other trees aren't to be seen in it, and stay as they are.
#[derive(Drop)]
pub(super) struct SomeTrees {
    draft: Draft,
    /// The roots of these trees.
    roots: Vec<NodeId>,
    /// All nodes of these trees, and some that went.
    nodes: IndexSet<u64>,
    /// How many nodes the other trees have.
    others: u64,
}

impl Model for SomeTrees {
    ghost use Rattle.chosen_drafts.specs.Terms.{ChosenTerm, chosen_code};

    ghost Value = { ChosenTerm };

    ghost coded = { chosen_code };

    ghost use Rattle.chosen_drafts.specs.Inside.{some_of, IsOfTrees};

    ghost view = { some_of };

    ghost invariant = { IsOfTrees };
}

impl SomeTrees {
    /// A draft of the trees of these roots, in which nothing is changed yet. `nodes` are the identities of all nodes of these trees, each once and in
    /// any order, and `next` is the identity that the next node takes once the draft is settled. It takes no memory.
    pub(super) fn new(
        alloc: Global,
        forest: Forest,
        roots: Vec<NodeId>,
        nodes: IndexSet<u64>,
        next: NodeId,
    ) -> SomeTrees
        requires nodes { AreNodesOf nodes.keys (chosen (rooted_at roots.items) forest.trees) }
        requires later { forest.next ≤ next }
        requires bound { next ≤ 2 ^ 62 }
        ensures { result ≡ record { before = forest; after = chosen (rooted_at roots.items) forest.trees; next = next; roots = Some roots.items } }
    {
        forest.facts();
        forest.bounds();
        let others = forest.len() - nodes.len() as u64;
        SomeTrees {
            draft: Draft::new(alloc, forest, next),
            roots,
            nodes,
            others,
        }
    }

    /// What a node of these trees is to say of itself and which nodes are to stand round it; `None` where none of that identity is to stand in them.
    pub(super) fn node(&self, id: NodeId) -> Option<NodeView<'_>>
        ensures { Views result (find id self.now.after) }
    {
        if self.nodes.contains(&id.number()) {
            self.draft.node(id)
        } else {
            None
        }
    }

    /// How many nodes these trees are to have. It does not count them.
    pub(super) fn len(&self) -> u64
        ensures { result ≡ size self.now.after }
    {
        self.draft.len() - self.others
    }

    /// Identities are to be distinct and below the next one, which is at most 2^62. It does nothing.
    pub(super) fn facts(&self)
        ensures distinct { (i : ℕ) → count i self.now.after ≤ 1 }
        ensures below { (i : ℕ) → 0 < count i self.now.after → i < self.now.next }
        ensures few { size self.now.after ≤ self.now.next }
        ensures bound { self.now.next ≤ 2 ^ 62 }
    {
        self.draft.facts();
    }

    /// Plans another text for a node. Where memory is refused, the draft stays as it was.
    pub(super) fn set_text(&mut self, id: NodeId, text: String) -> Result<(), AllocError>
        requires { IsSome (find id self.old.after) }
        ensures set { OnOk result
            (self.new
            ≡ record self.old { after = with_content id (λ c. record c { text = string_bytes text }) self.old.after }) }
        ensures refused { OnErr result (self.new ≡ self.old) }
    {
        self.draft.set_text(id, text)
    }

    /// Plans another name for a node. Where memory is refused, the draft stays as it was.
    pub(super) fn set_name(&mut self, id: NodeId, name: String) -> Result<(), AllocError>
        requires { IsSome (find id self.old.after) }
        ensures set { OnOk result
            (self.new
            ≡ record self.old { after = with_content id (λ c. record c { name = string_bytes name }) self.old.after }) }
        ensures refused { OnErr result (self.new ≡ self.old) }
    {
        self.draft.set_name(id, name)
    }

    /// Plans that copies of some trees, with the identities that these have, come into the place of the attributes or children of a node that have
    /// at least `from` and fewer than `to` others before them; those go with all that is below them.
    ///
    /// Where memory is refused, the draft stays as it was.
    pub(super) fn splice(
        &mut self,
        alloc: Global,
        part: Part,
        parent: NodeId,
        from: usize,
        to: usize,
        trees: &[Tree],
    ) -> Result<(), AllocError>
        requires has { IsSome (find parent self.old.after) }
        requires ordered { from ≤ to }
        requires within { to ≤ length (part_of part parent self.old.after) }
        requires distinct { (i : ℕ) → count i (append self.old.after (all_of trees.now)) ≤ 1 }
        requires below { (i : ℕ) → 0 < count i (all_of trees.now) → i < self.old.next }
        requires apart { (i : ℕ) → 0 < count i (all_of trees.now) → count i (hidden self.old) ≡ 0 }
        ensures spliced { OnOk result
            (self.new
            ≡ record self.old { after = with_part part parent (spliced from to (all_of trees.now)) self.old.after }) }
        ensures refused { OnErr result (self.new ≡ self.old) }
    {
        self.draft.facts();
        note_all(&mut self.nodes, trees)?;
        self.draft.splice(alloc, part, parent, from, to, trees)
    }

    /// Takes the memory that it takes to settle the draft, with these trees in the places in which they stood. Where it is refused, it gives the forest
    /// as it was.
    pub(super) fn prepare(self) -> Result<Prepared, Forest>
        ensures prepared { IfOk result (λ p. p ≡ whole_draft self) }
        ensures refused { IfErr result (λ f. f ≡ self.before) }
    {
        let SomeTrees { draft, .. } = self;
        draft.prepare()
    }

    /// The forest as it was. It takes no memory.
    pub(super) fn discard(self) -> Forest
        ensures { result ≡ self.before }
    {
        self.draft.discard()
    }
}

/// Notes a node.
fn note(nodes: &mut IndexSet<u64>, id: NodeId) -> Result<(), AllocError>
    ensures noted { OnOk result (is_among nodes.new.keys id ≡ true) }
    ensures grows { (i : ℕ) → is_among nodes.old.keys i ≡ true → is_among nodes.new.keys i ≡ true }
    ensures only { (i : ℕ) → is_among nodes.new.keys i ≡ true → (is_among nodes.old.keys i ≡ true) ⊎ (i ≡ id) }
{
    nodes.insert(id.number())?;
    Ok(())
}

/// Notes all nodes of some trees, and no others.
fn note_all(nodes: &mut IndexSet<u64>, trees: &[Tree]) -> Result<(), AllocError>
    ensures noted { OnOk result ((i : ℕ) → 0 < count i (all_of trees.now) → is_among nodes.new.keys i ≡ true) }
    ensures notes { Notes nodes.old.keys nodes.new.keys (all_of trees.now) }
{
    for tree in trees {
        note(nodes, tree.content().identity)?;
        note_all(nodes, tree.attributes())?;
        note_all(nodes, tree.children())?;
    }
    Ok(())
}
