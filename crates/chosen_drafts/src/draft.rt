//! A draft of a forest, or of some trees of it.

ghost use Rattle.std.specs.Prelude.{◌≡◌, ℕ, ◌<◌, ◌≤◌, ◌^◌, Some, None, IfOk, IfErr, OnOk, OnErr, IsSome, length, string_bytes};
ghost use Rattle.data_model.specs.Changes.{with_content, with_part, part_of};
ghost use Rattle.data_model.specs.Tree.{all_of};
ghost use Rattle.node_plans.specs.Splices.{spliced};
ghost use Rattle.data_model.specs.Trees.{find, count, size, append};
ghost use Rattle.data_model.specs.Views.{Views};
ghost use Rattle.update_meaning.specs.Changed.{rooted_at, chosen};
ghost use Rattle.chosen_drafts.specs.Chosen.{AreNodesOf};
ghost use Rattle.chosen_drafts.specs.Terms.{hidden, whole_draft};

use super::some_trees::SomeTrees;
use data_model::{NodeId, NodeView, Part, Tree};
use indexmap::IndexSet;
use std::alloc::{AllocError, Global};
use std::marker::Model;
use trees::{Draft, Forest, Prepared};

/// What is to be seen in a draft.
#[derive(Drop)]
enum Shown {
    /// All trees.
    Whole(Draft),
    /// Some trees alone.
    Chosen(SomeTrees),
}

/// A draft of a forest, in which all of its trees are to be seen, or those of some roots alone. The other trees stay as they are.
pub struct ChosenDraft {
    shown: Shown,
}

// By one call, whose contract is all that a caller's proof sees of it.
impl Drop for ChosenDraft {
    fn drop(self) {
        let ChosenDraft { shown: _ } = self;
    }
}

impl Model for ChosenDraft {
    ghost use Rattle.chosen_drafts.specs.Terms.{ChosenTerm, chosen_code};

    ghost Value = { ChosenTerm };

    ghost coded = { chosen_code };

    ghost use Rattle.chosen_drafts.specs.Shown.{chosen_of};

    ghost view = { chosen_of };
}

impl ChosenDraft {
    /// A draft of all trees of a forest, in which nothing is changed yet. `next` is the identity that the next node takes once the draft is settled.
    pub fn new(alloc: Global, forest: Forest, next: NodeId) -> ChosenDraft
        requires later { forest.next ≤ next }
        requires bound { next ≤ 2 ^ 62 }
        ensures { result ≡ record { before = forest; after = forest.trees; next = next; roots = None } }
    {
        ChosenDraft {
            shown: Shown::Whole(Draft::new(alloc, forest, next)),
        }
    }

    /// A draft of the trees of these roots alone, in which nothing is changed yet. `nodes` are the identities of all nodes of these trees, each once and
    /// in any order, and `next` is the identity that the next node takes once the draft is settled. It takes no memory.
    pub fn of_roots(
        alloc: Global,
        forest: Forest,
        roots: Vec<NodeId>,
        nodes: IndexSet<u64>,
        next: NodeId,
    ) -> ChosenDraft
        requires nodes { AreNodesOf nodes.keys (chosen (rooted_at roots.items) forest.trees) }
        requires later { forest.next ≤ next }
        requires bound { next ≤ 2 ^ 62 }
        ensures { result ≡ record { before = forest; after = chosen (rooted_at roots.items) forest.trees; next = next; roots = Some roots.items } }
    {
        ChosenDraft {
            shown: Shown::Chosen(SomeTrees::new(alloc, forest, roots, nodes, next)),
        }
    }

    /// What a node is to say of itself and which nodes are to stand round it; `None` where none of that identity is to be seen.
    pub fn node(&self, id: NodeId) -> Option<NodeView<'_>>
        ensures { Views result (find id self.now.after) }
    {
        match &self.shown {
            Shown::Whole(draft) => draft.node(id),
            Shown::Chosen(draft) => draft.node(id),
        }
    }

    /// How many nodes are to be seen. It does not count them.
    pub fn len(&self) -> u64
        ensures { result ≡ size self.now.after }
    {
        match &self.shown {
            Shown::Whole(draft) => draft.len(),
            Shown::Chosen(draft) => draft.len(),
        }
    }

    /// Identities are to be distinct and below the next one, which is at most 2^62. It does nothing.
    pub fn facts(&self)
        ensures distinct { (i : ℕ) → count i self.now.after ≤ 1 }
        ensures below { (i : ℕ) → 0 < count i self.now.after → i < self.now.next }
        ensures few { size self.now.after ≤ self.now.next }
        ensures bound { self.now.next ≤ 2 ^ 62 }
    {
        match &self.shown {
            Shown::Whole(draft) => draft.facts(),
            Shown::Chosen(draft) => draft.facts(),
        }
    }

    /// Plans another text for a node. Where memory is refused, the draft stays as it was.
    pub fn set_text(&mut self, id: NodeId, text: String) -> Result<(), AllocError>
        requires { IsSome (find id self.old.after) }
        ensures set { OnOk result
            (self.new
            ≡ record self.old { after = with_content id (λ c. record c { text = string_bytes text }) self.old.after }) }
        ensures refused { OnErr result (self.new ≡ self.old) }
    {
        match &mut self.shown {
            Shown::Whole(draft) => draft.set_text(id, text),
            Shown::Chosen(draft) => draft.set_text(id, text),
        }
    }

    /// Plans another name for a node. Where memory is refused, the draft stays as it was.
    pub fn set_name(&mut self, id: NodeId, name: String) -> Result<(), AllocError>
        requires { IsSome (find id self.old.after) }
        ensures set { OnOk result
            (self.new
            ≡ record self.old { after = with_content id (λ c. record c { name = string_bytes name }) self.old.after }) }
        ensures refused { OnErr result (self.new ≡ self.old) }
    {
        match &mut self.shown {
            Shown::Whole(draft) => draft.set_name(id, name),
            Shown::Chosen(draft) => draft.set_name(id, name),
        }
    }

    /// Plans that copies of some trees, with the identities that these have, come into the place of the attributes or children of a node that have
    /// at least `from` and fewer than `to` others before them; those go with all that is below them. No hidden node has an identity of theirs.
    ///
    /// Where memory is refused, the draft stays as it was.
    pub fn splice(
        &mut self,
        alloc: Global,
        part: Part,
        parent: NodeId,
        from: usize,
        to: usize,
        trees: &[Tree],
    ) -> Result<(), AllocError>
        requires has { IsSome (find parent self.old.after) }
        requires ordered { from ≤ to }
        requires within { to ≤ length (part_of part parent self.old.after) }
        requires distinct { (i : ℕ) → count i (append self.old.after (all_of trees.now)) ≤ 1 }
        requires below { (i : ℕ) → 0 < count i (all_of trees.now) → i < self.old.next }
        requires apart { (i : ℕ) → 0 < count i (all_of trees.now) → count i (hidden self.old) ≡ 0 }
        ensures spliced { OnOk result
            (self.new
            ≡ record self.old { after = with_part part parent (spliced from to (all_of trees.now)) self.old.after }) }
        ensures refused { OnErr result (self.new ≡ self.old) }
    {
        match &mut self.shown {
            Shown::Whole(draft) => draft.splice(alloc, part, parent, from, to, trees),
            Shown::Chosen(draft) => draft.splice(alloc, part, parent, from, to, trees),
        }
    }

    /// Takes the memory that it takes to settle the draft, with hidden trees as they are and all trees in the places in which they stood. Where it is
    /// refused, it gives the forest as it was.
    pub fn prepare(self) -> Result<Prepared, Forest>
        ensures prepared { IfOk result (λ p. p ≡ whole_draft self) }
        ensures refused { IfErr result (λ f. f ≡ self.before) }
    {
        let ChosenDraft { shown } = self;
        match shown {
            Shown::Whole(draft) => draft.prepare(),
            Shown::Chosen(draft) => draft.prepare(),
        }
    }

    /// The forest as it was. It takes no memory.
    pub fn discard(self) -> Forest
        ensures { result ≡ self.before }
    {
        let ChosenDraft { shown } = self;
        match shown {
            Shown::Whole(draft) => draft.discard(),
            Shown::Chosen(draft) => draft.discard(),
        }
    }
}
