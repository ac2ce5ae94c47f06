//! Drafts of forests: changes that are planned, then made all at once or not at all.

ghost use Rattle.std.specs.Prelude.{◌≡◌, ℕ, ◌<◌, ◌≤◌, ◌^◌, IfOk, IfErr, OnOk, OnErr, IsSome, length, string_bytes};
ghost use Rattle.data_model.specs.Trees.{find, count, size, append, parent_of};
ghost use Rattle.data_model.specs.Tree.{all_of};
ghost use Rattle.data_model.specs.Changes.{with_content, with_part, part_of};
ghost use Rattle.node_plans.specs.Splices.{spliced};
ghost use Rattle.data_model.specs.Views.{Views};
ghost use Rattle.trees.specs.Drafts.{DraftTerm, drafted_forest};
ghost use Rattle.trees.specs.Inside.{term_of, IsSound};
ghost use Rattle.trees.specs.Drafted.{forest_of};
ghost use Rattle.row_pages.specs.Rows.{entries, spare};
ghost use Rattle.node_table.specs.Rows.{row_of, table_of};
ghost use Rattle.node_plans.specs.Planned.{table_with};
ghost use Rattle.forest_index.specs.Named.{Covers};
ghost use Rattle.forest_index.specs.Sized.{kept_sizes};
ghost use Rattle.data_model.specs.Walks.{depth_of, root_of};

use super::forest::Forest;
use data_model::{NodeId, NodeView, Part, Tree};
use forest_index::{ForestIndex, Sizes};
use indexmap::IndexMap;
use node_plans::plan::Plan;
use node_plans::splice::Span;
use node_plans::{plan, splice};
use node_table::table::Rows;
use row_pages::RowPages;
use shared_texts::Names;
use std::alloc::{AllocError, Global};
use std::marker::Model;

/// The fields of a forest, and the plan of what is to become of them.
#[derive(Drop)]
pub struct Drafted {
    pub(crate) rows: Rows,
    pub(crate) documents: IndexMap<String, NodeId>,
    pub(crate) first: u64,
    pub(crate) nodes: u64,
    pub(crate) index: Option<ForestIndex>,
    pub(crate) names: Names,
    pub(crate) plan: Plan,
    /// The sizes of the trees that are to get another.
    pub(crate) resized: Sizes,
    pub(crate) next: u64,
    pub(crate) count: u64,
}

/// A forest together with rows that are planned in the place of some of its own.
///
/// The forest is not touched before the draft is settled, so a draft that is discarded leaves no trace. Its documents stay those of the forest.
pub struct Draft {
    parts: Drafted,
}

// By one call, whose contract is all that a caller's proof sees of it.
impl Drop for Draft {
    fn drop(self) {
        let Draft { parts: _ } = self;
    }
}

impl Model for Draft {
    ghost use Rattle.trees.specs.Drafts.{DraftTerm, draft_code};

    ghost Value = { DraftTerm };

    ghost coded = { draft_code };

    ghost use Rattle.trees.specs.Drafted.{draft_of, IsDrafted};

    ghost view = { λ a. draft_of a.parts };

    ghost invariant = { λ a. IsDrafted a.parts };
}

/// A draft for which all memory is there that it takes to settle it.
#[derive(Drop)]
pub struct Prepared {
    pub(crate) parts: Drafted,
}

impl Model for Prepared {
    ghost use Rattle.trees.specs.Drafts.{DraftTerm, draft_code};

    ghost Value = { DraftTerm };

    ghost coded = { draft_code };

    ghost use Rattle.trees.specs.Drafted.{draft_of, IsPrepared};

    ghost view = { λ a. draft_of a.parts };

    ghost invariant = { λ a. IsPrepared a.parts };
}

impl Draft {
    /// A draft of a forest, in which nothing is changed yet. `next` is the identity that the next node takes once the draft is settled.
    pub fn new(alloc: Global, forest: Forest, next: NodeId) -> Draft
        requires later { forest.next ≤ next }
        requires bound { next ≤ 2 ^ 62 }
        ensures { result ≡ record { before = forest; after = forest.trees; next = next } }
    {
        Draft {
            parts: forest.drafted(alloc, next),
        }
    }

    /// What a node is to say of itself and which nodes are to stand round it; `None` where none of that identity is to stand there.
    pub fn node(&self, id: NodeId) -> Option<NodeView<'_>>
        ensures { Views result (find id self.now.after) }
    {
        match plan::find(&self.parts.rows, &self.parts.plan, id) {
            Some(row) => Some(NodeView {
                kind: row.kind,
                name: row.name.as_str(),
                text: row.text.as_str(),
                parent: row.parent(),
                attributes: row.attributes.as_slice(),
                children: row.children.as_slice(),
            }),
            None => None,
        }
    }

    /// How many nodes there are to be. It does not count them.
    pub fn len(&self) -> u64
        ensures { result ≡ size self.now.after }
    {
        self.parts.count
    }

    /// Identities are to be distinct and below the next one, which is at most 2^62. It does nothing.
    pub fn facts(&self)
        ensures distinct { (i : ℕ) → count i self.now.after ≤ 1 }
        ensures below { (i : ℕ) → 0 < count i self.now.after → i < self.now.next }
        ensures few { size self.now.after ≤ self.now.next }
        ensures bound { self.now.next ≤ 2 ^ 62 }
    {
        let _next = &self.parts.next;
    }

    /// The parent that a node is to have.
    fn parent(&self, id: NodeId) -> Option<NodeId>
        requires { IsSome (find id self.now.after) }
        ensures { result ≡ parent_of id self.now.after }
    {
        match plan::find(&self.parts.rows, &self.parts.plan, id) {
            Some(row) => row.parent(),
            None => None,
        }
    }

    /// How many nodes are to stand above a node.
    pub fn depth(&self, id: NodeId) -> u64
        requires { IsSome (find id self.now.after) }
        ensures { result ≡ depth_of id self.now.after }
    {
        self.facts();
        let mut at = id;
        let mut levels = 0;
        while let Some(parent) = self.parent(at) {
            at = parent;
            levels += 1;
        }
        levels
    }

    /// The root of the tree in which a node is to stand.
    fn root(&self, id: NodeId) -> NodeId
        requires { IsSome (find id self.now.after) }
        ensures { result ≡ root_of id self.now.after }
    {
        self.facts();
        let mut at = id;
        while let Some(parent) = self.parent(at) {
            at = parent;
        }
        at
    }

    /// Plans another text for a node. Where memory is refused, the draft stays as it was.
    pub fn set_text(&mut self, id: NodeId, text: String) -> Result<(), AllocError>
        requires { IsSome (find id self.old.after) }
        ensures set { OnOk result
            (self.new
            ≡ record self.old { after = with_content id (λ c. record c { text = string_bytes text }) self.old.after }) }
        ensures refused { OnErr result (self.new ≡ self.old) }
    {
        plan::set_text(&self.parts.rows, &mut self.parts.plan, id, text)
    }

    /// Plans another name for a node. Where memory is refused, the draft stays as it was.
    pub fn set_name(&mut self, id: NodeId, name: String) -> Result<(), AllocError>
        requires { IsSome (find id self.old.after) }
        ensures set { OnOk result
            (self.new
            ≡ record self.old { after = with_content id (λ c. record c { name = string_bytes name }) self.old.after }) }
        ensures refused { OnErr result (self.new ≡ self.old) }
    {
        plan::set_name(&self.parts.rows, &mut self.parts.plan, id, name)
    }

    /// Plans that copies of some trees, with the identities that these have, come into the place of the attributes or children of a node that have
    /// at least `from` and fewer than `to` others before them; those go with all that is below them.
    ///
    /// Where memory is refused, the draft stays as it was.
    pub fn splice(
        &mut self,
        alloc: Global,
        part: Part,
        parent: NodeId,
        from: usize,
        to: usize,
        trees: &[Tree],
    ) -> Result<(), AllocError>
        requires has { IsSome (find parent self.old.after) }
        requires ordered { from ≤ to }
        requires within { to ≤ length (part_of part parent self.old.after) }
        requires distinct { (i : ℕ) → count i (append self.old.after (all_of trees.now)) ≤ 1 }
        requires below { (i : ℕ) → 0 < count i (all_of trees.now) → i < self.old.next }
        ensures spliced { OnOk result
            (self.new
            ≡ record self.old { after = with_part part parent (spliced from to (all_of trees.now)) self.old.after }) }
        ensures refused { OnErr result (self.new ≡ self.old) }
    {
        let span = Span {
            part,
            parent,
            from,
            to,
        };
        let root = self.root(parent);
        let added = data_model::node_count(trees);
        let rows = &self.parts.rows;
        let levels = self.parts.next;
        self.parts.resized.reserve(1)?;
        let names = &mut self.parts.names;
        let removed = splice::splice(
            rows,
            &mut self.parts.plan,
            names,
            alloc,
            span,
            trees,
            levels,
        )?;
        self.parts.count = self.parts.count + added - removed;
        let resized = &mut self.parts.resized;
        forest_index::plan_size(&self.parts.index, resized, root, added, removed);
        Ok(())
    }

    /// The forest as it was. It takes no memory.
    pub fn discard(self) -> Forest
        ensures { result ≡ self.before }
    {
        let Draft { parts } = self;
        undrafted(parts)
    }

    /// Takes the memory that it takes to settle the draft. Where it is refused, it gives the forest as it was.
    pub fn prepare(self) -> Result<Prepared, Forest>
        ensures prepared { IfOk result (λ p. p ≡ self) }
        ensures refused { IfErr result (λ f. f ≡ self.before) }
    {
        let Draft { mut parts } = self;
        match make_room(&mut parts.rows, &mut parts.index, &parts.plan, parts.nodes) {
            Ok(()) => Ok(Prepared { parts }),
            Err(_) => Err(undrafted(parts)),
        }
    }
}

impl Prepared {
    /// The forest as drafted. It takes no memory.
    pub fn settle(self) -> Forest
        ensures { result ≡ drafted_forest self }
    {
        let Drafted {
            mut rows,
            documents,
            mut index,
            names,
            plan,
            resized,
            next,
            count,
            ..
        } = self.parts;
        plan::settle(&mut rows, plan);
        forest_index::settle(&mut index, resized);
        Forest {
            rows,
            documents,
            next,
            nodes: count,
            index,
            names,
        }
    }

    /// The forest as it was. It takes no memory.
    pub fn discard(self) -> Forest
        ensures { result ≡ self.before }
    {
        undrafted(self.parts)
    }
}

/// Makes room in a table of so many nodes for the rows of a plan, and lists the elements that it adds by their names. The table's rows stay as they were,
/// and its elements listed, also where memory is refused.
fn make_room(
    rows: &mut Rows,
    index: &mut Option<ForestIndex>,
    plan: &Plan,
    nodes: u64,
) -> Result<(), AllocError>
    requires { Covers index.old (table_of rows.old) }
    ensures same { row_of rows.new ≡ row_of rows.old }
    ensures before { Covers index.new (table_of rows.old) }
    ensures room { OnOk result (length (entries plan.now.rows) ≤ spare rows.new) }
    ensures after { OnOk result (Covers index.new (table_with plan.now rows.old)) }
    ensures sizes { kept_sizes index.new ≡ kept_sizes index.old }
{
    forest_index::prepare(index, rows, plan, nodes)?;
    plan::reserve(rows, plan)
}

/// The forest as it was.
fn undrafted(parts: Drafted) -> Forest
    requires { IsSound (forest_of parts) }
    ensures { result ≡ term_of (forest_of parts) }
{
    Forest {
        rows: parts.rows,
        documents: parts.documents,
        next: parts.first,
        nodes: parts.nodes,
        index: parts.index,
        names: parts.names,
    }
}
