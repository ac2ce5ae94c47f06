//! A draft and the nodes that its changes touch.

ghost use Rattle.std.specs.Prelude.{◌≡◌, ℕ, ◌<◌, ◌≤◌, ◌^◌, [], true, false, Some, None, IfOk, IfErr, IfSome, OnOk, OnErr, IsSome, length, slice_get, string_bytes};
ghost use Rattle.std.specs.List.{All};
ghost use Rattle.data_model.specs.Changes.{with_content, with_part, part_of};
ghost use Rattle.data_model.specs.Trees.{find, count, size, append, parent_of};
ghost use Rattle.data_model.specs.Tree.{all_of};
ghost use Rattle.data_model.specs.Views.{Views};
ghost use Rattle.node_plans.specs.Splices.{spliced};
ghost use Rattle.node_table.specs.Labels.{get_before};
ghost use Rattle.pending.specs.Compatible.{is_among, has_repeat};
ghost use Rattle.chosen_drafts.specs.Chosen.{IsRoot, AreNodesOf};
ghost use Rattle.chosen_drafts.specs.Terms.{hidden, whole_draft};
ghost use Rattle.tracked_drafts.specs.Tests.{AllAmong, Begins, IsStoredBut};
ghost use Rattle.update_meaning.specs.Changed.{rooted_at, chosen};
ghost use Rattle.update_meaning.specs.Results.{IsStored};

use crate::nodes::nodes_of;
use chosen_drafts::ChosenDraft;
use data_model::{NodeId, NodeView, Part, Tree};
use indexmap::IndexSet;
use std::alloc::{AllocError, Global};
use std::marker::Model;
use trees::{Forest, Prepared};

/// A draft of a stored forest, or of some trees of any forest, with the nodes that were touched since.
///
/// What was not touched stays as an update leaves it: below the roots no texts are adjacent or empty there, names are distinct, and the limits of a store
/// are kept. What was touched is to be seen to before the draft is settled.
pub struct TrackedDraft {
    draft: ChosenDraft,
    touched: IndexSet<u64>,
}

// By one call, whose contract is all that a caller's proof sees of it.
impl Drop for TrackedDraft {
    fn drop(self) {
        let TrackedDraft {
            draft: _,
            touched: _,
        } = self;
    }
}

impl Model for TrackedDraft {
    ghost use Rattle.tracked_drafts.specs.Tracked.{TrackedTerm, tracked_code};

    ghost Value = { TrackedTerm };

    ghost coded = { tracked_code };

    ghost use Rattle.tracked_drafts.specs.Inside.{tracked_of, IsTracked};

    ghost view = { tracked_of };

    ghost invariant = { IsTracked };
}

impl TrackedDraft {
    /// A draft of all trees of a forest, in which nothing is changed yet. `next` is the identity that the next node takes once the draft is settled.
    pub fn new(alloc: Global, forest: Forest, next: NodeId) -> TrackedDraft
        requires stored { IsStored forest.trees }
        requires later { forest.next ≤ next }
        requires bound { next ≤ 2 ^ 62 }
        ensures { result ≡ record { draft = record { before = forest; after = forest.trees; next = next; roots = None }; touched = [] } }
    {
        TrackedDraft {
            draft: ChosenDraft::new(alloc, forest, next),
            touched: IndexSet::new(alloc),
        }
    }

    /// A draft of the trees of these roots alone, in which nothing is changed yet and all nodes count as touched, so nothing is asked of what the
    /// trees say. `next` is the identity that the next node takes once the draft is settled.
    ///
    /// Where memory is refused, it gives the forest as it was.
    pub fn of_roots(
        alloc: Global,
        forest: Forest,
        roots: &[NodeId],
        next: NodeId,
    ) -> Result<TrackedDraft, Forest>
        requires distinct { has_repeat roots.now ≡ false }
        requires roots { All (IsRoot forest.trees) roots.now }
        requires later { forest.next ≤ next }
        requires bound { next ≤ 2 ^ 62 }
        ensures drafted { IfOk result
            (λ d. d.draft
            ≡ record { before = forest; after = chosen (rooted_at roots.now) forest.trees; next = next; roots = Some roots.now }) }
        ensures refused { IfErr result (λ f. f ≡ forest) }
    {
        let Ok(marked) = marked_nodes(alloc, &forest, roots) else {
            return Err(forest);
        };
        let Marked {
            roots,
            nodes,
            touched,
        } = marked;
        let draft = ChosenDraft::of_roots(alloc, forest, roots, nodes, next);
        Ok(TrackedDraft { draft, touched })
    }

    /// What a node is to say of itself and which nodes are to stand round it; `None` where none of that identity is to be seen.
    pub fn node(&self, id: NodeId) -> Option<NodeView<'_>>
        ensures { Views result (find id self.now.draft.after) }
    {
        self.draft.node(id)
    }

    /// How many nodes are to be seen. It does not count them.
    pub fn len(&self) -> u64
        ensures { result ≡ size self.now.draft.after }
    {
        self.draft.len()
    }

    /// How many nodes were touched.
    pub fn touched_len(&self) -> usize
        ensures { result ≡ length self.now.touched }
    {
        self.touched.len()
    }

    /// The touched node that has so many before it, in the order in which they were first touched.
    pub fn touched_at(&self, at: usize) -> Option<NodeId>
        ensures { result ≡ slice_get self.now.touched at }
    {
        match self.touched.as_slice().get(at) {
            Some(id) => Some(NodeId::new(*id)),
            None => None,
        }
    }

    /// Identities are distinct and below the next one, which is at most 2^62; what was not touched is as an update leaves it. It does nothing.
    pub fn facts(&self)
        ensures distinct { (i : ℕ) → count i self.now.draft.after ≤ 1 }
        ensures below { (i : ℕ) → 0 < count i self.now.draft.after → i < self.now.draft.next }
        ensures few { size self.now.draft.after ≤ self.now.draft.next }
        ensures bound { self.now.draft.next ≤ 2 ^ 62 }
        ensures stored { IsStoredBut self.now.touched self.now.draft.after }
    {
        self.draft.facts();
    }

    /// Plans another text for a node. Where memory is refused, the draft stays as it was.
    pub fn set_text(&mut self, id: NodeId, text: String) -> Result<(), AllocError>
        requires { IsSome (find id self.old.draft.after) }
        ensures set { OnOk result
            (self.new.draft
            ≡ record self.old.draft { after = with_content id (λ c. record c { text = string_bytes text }) self.old.draft.after }) }
        ensures refused { OnErr result (self.new.draft ≡ self.old.draft) }
        ensures touched { Begins self.old.touched self.new.touched }
    {
        mark(&mut self.touched, id)?;
        self.draft.set_text(id, text)
    }

    /// Plans another name for a node. Where memory is refused, the draft stays as it was.
    pub fn set_name(&mut self, id: NodeId, name: String) -> Result<(), AllocError>
        requires { IsSome (find id self.old.draft.after) }
        ensures set { OnOk result
            (self.new.draft
            ≡ record self.old.draft { after = with_content id (λ c. record c { name = string_bytes name }) self.old.draft.after }) }
        ensures refused { OnErr result (self.new.draft ≡ self.old.draft) }
        ensures touched { Begins self.old.touched self.new.touched }
    {
        self.draft.facts();
        mark(&mut self.touched, id)?;
        mark_parent(&mut self.touched, &self.draft, id)?;
        self.draft.set_name(id, name)
    }

    /// Plans that copies of some trees, with the identities that these have, come into the place of the attributes or children of a node that have
    /// at least `from` and fewer than `to` others before them; those go with all that is below them. No hidden node has an identity of theirs.
    ///
    /// Where memory is refused, the draft stays as it was.
    pub fn splice(
        &mut self,
        alloc: Global,
        part: Part,
        parent: NodeId,
        from: usize,
        to: usize,
        trees: &[Tree],
    ) -> Result<(), AllocError>
        requires has { IsSome (find parent self.old.draft.after) }
        requires ordered { from ≤ to }
        requires within { to ≤ length (part_of part parent self.old.draft.after) }
        requires distinct { (i : ℕ) → count i (append self.old.draft.after (all_of trees.now)) ≤ 1 }
        requires below { (i : ℕ) → 0 < count i (all_of trees.now) → i < self.old.draft.next }
        requires apart { (i : ℕ) → 0 < count i (all_of trees.now) → count i (hidden self.old.draft) ≡ 0 }
        ensures spliced { OnOk result
            (self.new.draft
            ≡ record self.old.draft { after = with_part part parent (spliced from to (all_of trees.now)) self.old.draft.after }) }
        ensures refused { OnErr result (self.new.draft ≡ self.old.draft) }
        ensures touched { Begins self.old.touched self.new.touched }
    {
        self.draft.facts();
        mark(&mut self.touched, parent)?;
        mark_sibling(&mut self.touched, &self.draft, part, parent, from)?;
        mark_all(&mut self.touched, trees)?;
        self.draft.splice(alloc, part, parent, from, to, trees)
    }

    /// The forest as it was. It takes no memory.
    pub fn discard(self) -> Forest
        ensures { result ≡ self.draft.before }
    {
        let TrackedDraft { draft, touched: _ } = self;
        draft.discard()
    }

    /// Takes the memory that it takes to settle the draft, with hidden trees as they are. Where it is refused, it gives the forest as it was.
    pub fn prepare(self) -> Result<Prepared, Forest>
        ensures prepared { IfOk result (λ p. p ≡ whole_draft self.draft) }
        ensures refused { IfErr result (λ f. f ≡ self.draft.before) }
    {
        let TrackedDraft { draft, touched: _ } = self;
        draft.prepare()
    }
}

/// Roots of a forest, and twice the nodes of their trees: those that are to be seen, and those that count as touched.
#[derive(Drop)]
struct Marked {
    roots: Vec<NodeId>,
    nodes: IndexSet<u64>,
    touched: IndexSet<u64>,
}

/// The nodes of the trees of some roots, all of them marked.
fn marked_nodes(alloc: Global, forest: &Forest, roots: &[NodeId]) -> Result<Marked, AllocError>
    requires distinct { has_repeat roots.now ≡ false }
    requires roots { All (IsRoot forest.now.trees) roots.now }
    ensures roots { IfOk result (λ m. m.roots.items ≡ roots.now) }
    ensures nodes { IfOk result (λ m. AreNodesOf m.nodes.keys (chosen (rooted_at roots.now) forest.now.trees)) }
    ensures marked { IfOk result (λ m. m.touched.keys ≡ m.nodes.keys) }
{
    let nodes = nodes_of(alloc, forest, roots)?;
    let touched = nodes.clone()?;
    let roots = roots.to_vec(alloc)?;
    Ok(Marked {
        roots,
        nodes,
        touched,
    })
}

/// Notes that a node is touched.
fn mark(touched: &mut IndexSet<u64>, id: NodeId) -> Result<(), AllocError>
    ensures marked { OnOk result (is_among touched.new.keys id ≡ true) }
    ensures grows { Begins touched.old.keys touched.new.keys }
{
    touched.insert(id.number())?;
    Ok(())
}

/// Notes that all nodes of some trees are touched.
fn mark_all(touched: &mut IndexSet<u64>, trees: &[Tree]) -> Result<(), AllocError>
    ensures marked { OnOk result (AllAmong touched.new.keys (all_of trees.now)) }
    ensures grows { Begins touched.old.keys touched.new.keys }
{
    for tree in trees {
        mark(touched, tree.content().identity)?;
        mark_all(touched, tree.attributes())?;
        mark_all(touched, tree.children())?;
    }
    Ok(())
}

/// Notes that the parent of a node is touched, where it has one.
fn mark_parent(
    touched: &mut IndexSet<u64>,
    draft: &ChosenDraft,
    id: NodeId,
) -> Result<(), AllocError>
    ensures marked { OnOk result (IfSome (parent_of id draft.now.after) (λ p. is_among touched.new.keys p ≡ true)) }
    ensures grows { Begins touched.old.keys touched.new.keys }
{
    match parent_of(draft, id) {
        Some(parent) => mark(touched, parent),
        None => Ok(()),
    }
}

/// Notes that what stands right before a place among a node's attributes or children is touched, where anything does.
fn mark_sibling(
    touched: &mut IndexSet<u64>,
    draft: &ChosenDraft,
    part: Part,
    parent: NodeId,
    at: usize,
) -> Result<(), AllocError>
    ensures marked { OnOk result (IfSome (get_before (part_of part parent draft.now.after) at) (λ i. is_among touched.new.keys i ≡ true)) }
    ensures grows { Begins touched.old.keys touched.new.keys }
{
    match sibling_before(draft, part, parent, at) {
        Some(sibling) => mark(touched, sibling),
        None => Ok(()),
    }
}

/// The parent that a node is to have.
fn parent_of(draft: &ChosenDraft, id: NodeId) -> Option<NodeId>
    ensures { result ≡ parent_of id draft.now.after }
{
    match draft.node(id) {
        Some(node) => node.parent,
        None => None,
    }
}

/// What is to stand right before the place `at` among a node's attributes or children.
fn sibling_before(draft: &ChosenDraft, part: Part, parent: NodeId, at: usize) -> Option<NodeId>
    ensures { result ≡ get_before (part_of part parent draft.now.after) at }
{
    match draft.node(parent) {
        Some(node) if 0 < at => {
            let list = match part {
                Part::Attributes => node.attributes,
                Part::Children => node.children,
            };
            list.get(at - 1).copied()
        }
        _ => None,
    }
}
