//! What changes a forest: nodes and copies that are made, and lists, names and texts that change. Each lets the index go.

ghost use Rattle.std.specs.Prelude.{◌≡◌, ℕ, ◌+◌, ◌<◌, ◌≤◌, ◌^◌, ◌↔◌, ◌-◌, Some, None, IfOk, OnOk, OnErr, IsErrOf, IsSome, string_bytes, IsTrue, max};
ghost use Rattle.data_model.specs.Trees.{append, leaf, find, count, height, size, parent_of};
ghost use Rattle.data_model.specs.Changes.{with_content, taken_out, all_moved_below, CanAllMoveBelow, pick, renumbered, ranked};
ghost use Rattle.data_model.specs.declared.node.Part.TheVariants.{Attributes, Children};
ghost use Rattle.data_model.specs.Tree.{trees_of_tree};
ghost use Rattle.data_model.specs.Planted.{past};
ghost use Rattle.copied_rows.specs.Copies.{WhereMade, WhereNot};
ghost use Rattle.trees.specs.Grown.{AllStand, picked, texts_work, with_node};

use super::forest::{Forest, MakeFault};
use copied_rows::{CopyLimits, Copying, NewNode};
use data_model::{Kind, NodeId, Part, Tree};
use node_table::list::NodeList;
use node_table::plant::Planted;
use node_table::table::Row;
use node_table::{order, plant, table};
use shared_texts::{Name, Text};
use std::alloc::{AllocError, Global};
use std::slice;

/// No identity reaches this number.
const LIMIT: u64 = 1 << 62;

impl Forest {
    /// Makes a node with no parent, which takes the next identity.
    ///
    /// Where memory is refused (`Memory`) or the next identity would pass 2^62 (`Limit`), all stays as it was.
    pub fn make(
        &mut self,
        alloc: Global,
        kind: Kind,
        name: String,
        text: String,
    ) -> Result<NodeId, MakeFault>
        ensures made { IfOk result
            (λ i. (i ≡ self.old.next)
            × (self.new
            ≡ record self.old { trees = append self.old.trees (leaf (record { identity = i; kind = kind; name = string_bytes name; text = string_bytes text })); next = i + 1 })) }
        ensures limit { IsErrOf result MakeFault.Limit ↔ (2 ^ 62 ≤ self.old.next) }
        ensures refused { OnErr result (self.new ≡ self.old) }
    {
        if self.next >= LIMIT {
            return Err(MakeFault::Limit);
        }
        match self.names.name(name.as_str()) {
            Ok(name) => self.make_named(alloc, kind, name, Text::new(text)),
            Err(_) => Err(MakeFault::Memory),
        }
    }

    /// The same, with a name as rows share it, where the next identity is below 2^62.
    fn make_named(
        &mut self,
        alloc: Global,
        kind: Kind,
        name: Name,
        text: Text,
    ) -> Result<NodeId, MakeFault>
        requires room { self.old.next < 2 ^ 62 }
        ensures made { IfOk result
            (λ i. (i ≡ self.old.next)
            × (self.new
            ≡ record self.old { trees = append self.old.trees (leaf (record { identity = i; kind = kind; name = name; text = text })); next = i + 1 })) }
        ensures limit { IsErrOf result MakeFault.Limit → ⊥ }
        ensures refused { OnErr result (self.new ≡ self.old) }
    {
        let id = self.next;
        let (has_parent, parent) = table::as_in_row(None);
        let row = Row {
            kind,
            has_parent,
            name,
            text,
            parent,
            attributes: NodeList::new(alloc),
            children: NodeList::new(alloc),
            place: id,
        };
        let Ok(_before) = self.rows.insert(id, row) else {
            return Err(MakeFault::Memory);
        };
        self.next = id + 1;
        self.nodes += 1;
        self.index = None;
        Ok(NodeId::new(id))
    }

    /// Makes the tree of a node that has a parent a tree of its own.
    pub fn take_out(&mut self, id: NodeId)
        requires has { IsSome (find id self.old.trees) }
        requires below { IsSome (parent_of id self.old.trees) }
        ensures { self.new ≡ record self.old { trees = taken_out id self.old.trees } }
    {
        let row = self.row(id);
        let part = if row.kind == Kind::Attribute {
            Part::Attributes
        } else {
            Part::Children
        };
        if let Some(parent) = row.parent() {
            table::drop_child(&mut self.rows, part, parent, id);
            table::set_parent(&mut self.rows, id, None);
        }
        self.index = None;
    }

    /// Puts trees of their own into a list below a node, one after the other.
    fn put_below(
        &mut self,
        part: Part,
        parent: NodeId,
        index: usize,
        nodes: &[NodeId],
    ) -> Result<(), AllocError>
        requires { CanAllMoveBelow part parent index nodes.now self.old.trees }
        ensures put { OnOk result (self.new ≡ record self.old { trees = all_moved_below part parent index nodes.now self.old.trees }) }
        ensures refused { OnErr result (self.new ≡ self.old) }
    {
        table::reserve(&mut self.rows, part, parent, nodes.len())?;
        self.index = None;
        let mut at = index;
        for node in nodes {
            table::move_below(&mut self.rows, part, parent, at, *node);
            order::settle(&mut self.rows, part, parent, at);
            at += 1;
        }
        Ok(())
    }

    /// Puts trees of their own below a node, one after the other, as children before which `index` others stand.
    ///
    /// Where memory is refused, all stays as it was.
    pub fn put_children(
        &mut self,
        parent: NodeId,
        index: usize,
        nodes: &[NodeId],
    ) -> Result<(), AllocError>
        requires { CanAllMoveBelow Children parent index nodes.now self.old.trees }
        ensures put { OnOk result (self.new ≡ record self.old { trees = all_moved_below Children parent index nodes.now self.old.trees }) }
        ensures refused { OnErr result (self.new ≡ self.old) }
    {
        self.put_below(Part::Children, parent, index, nodes)
    }

    /// Puts trees of their own below a node, one after the other, as attributes before which `index` others stand.
    ///
    /// Where memory is refused, all stays as it was.
    pub fn put_attributes(
        &mut self,
        parent: NodeId,
        index: usize,
        nodes: &[NodeId],
    ) -> Result<(), AllocError>
        requires { CanAllMoveBelow Attributes parent index nodes.now self.old.trees }
        ensures put { OnOk result (self.new ≡ record self.old { trees = all_moved_below Attributes parent index nodes.now self.old.trees }) }
        ensures refused { OnErr result (self.new ≡ self.old) }
    {
        self.put_below(Part::Attributes, parent, index, nodes)
    }

    /// Gives a node another text.
    pub fn set_text(&mut self, id: NodeId, text: String)
        requires { IsSome (find id self.old.trees) }
        ensures { self.new ≡ record self.old { trees = with_content id (λ c. record c { text = string_bytes text }) self.old.trees } }
    {
        table::set_text(&mut self.rows, id, Text::new(text));
        self.index = None;
    }

    /// Gives a node another name. Where memory is refused, all stays as it was.
    pub fn set_name(&mut self, id: NodeId, name: String) -> Result<(), AllocError>
        requires { IsSome (find id self.old.trees) }
        ensures named { OnOk result
            (self.new ≡ record self.old { trees = with_content id (λ c. record c { name = string_bytes name }) self.old.trees }) }
        ensures refused { OnErr result (self.new ≡ self.old) }
    {
        let name = Name::new(name)?;
        table::set_name(&mut self.rows, id, name);
        self.index = None;
        Ok(())
    }

    /// Whether a copy of the tree of a node of this forest or of a lent one can be numbered.
    fn has_room(&self, lent: &Forest, id: NodeId) -> bool
        requires has { IsSome (find id (append lent.now.trees self.now.trees)) }
        requires apart { (i : ℕ) → 0 < count i self.now.trees → lent.now.next ≤ i }
        ensures { IsTrue result ↔ (self.now.next + size (pick id (append lent.now.trees self.now.trees)) ≤ 2 ^ 62) }
    {
        lent.facts();
        let room = LIMIT - self.next;
        if lent.has(id) {
            lent.is_within(id, room)
        } else {
            self.is_within(id, room)
        }
    }

    /// Makes a copy of the tree of a node of this forest or of a lent one, with no parent. Its nodes take the identities from the next one on, in document
    /// order. The identities of this forest's nodes come after all of the lent one's.
    ///
    /// It gives the copy's root. Where memory is refused (`Memory`) or the next identity would pass 2^62 (`Limit`), all stays as it was.
    pub fn copy_from(
        &mut self,
        alloc: Global,
        lent: &Forest,
        id: NodeId,
    ) -> Result<NodeId, MakeFault>
        requires has { IsSome (find id (append lent.now.trees self.old.trees)) }
        requires later { lent.now.next ≤ self.old.next }
        requires apart { (i : ℕ) → 0 < count i self.old.trees → lent.now.next ≤ i }
        ensures made { IfOk result
            (λ i. (i ≡ self.old.next)
            × (self.new
            ≡ record self.old { trees = append self.old.trees (renumbered self.old.next (pick id (append lent.now.trees self.old.trees))); next = self.old.next + size (pick id (append lent.now.trees self.old.trees)) })) }
        ensures limit { IsErrOf result MakeFault.Limit ↔ (2 ^ 62 < self.old.next + size (pick id (append lent.now.trees self.old.trees))) }
        ensures refused { OnErr result (self.new ≡ self.old) }
    {
        if !self.has_room(lent, id) {
            return Err(MakeFault::Limit);
        }
        let first = self.next;
        let mut copying = Copying::unlimited(&lent.rows, lent.next, first);
        let rows = &mut self.rows;
        match copied_rows::copy_all(&mut copying, rows, alloc, &[id], None, first) {
            Ok(Some(_)) => {
                self.nodes += copying.next - first;
                self.next = copying.next;
                self.index = None;
                Ok(NodeId::new(first))
            }
            _ => {
                copied_rows::remove_range(&mut self.rows, first, copying.next);
                Err(MakeFault::Memory)
            }
        }
    }

    /// Makes a node of that kind and name with no parent, no attributes and no text, which takes the next identity, and whose children are copies of the
    /// trees of some nodes of this forest or of a lent one. The copies have the identities after it, in document order; each tree is gone through once.
    ///
    /// It gives how much work is left. `None` where they would take more than they may; then, and where memory is refused, all stays as it was.
    pub fn grow(
        &mut self,
        alloc: Global,
        lent: &Forest,
        kind: Kind,
        name: &str,
        nodes: &[NodeId],
        limits: CopyLimits,
    ) -> Result<Option<u64>, AllocError>
        requires stand { AllStand nodes.now (append lent.now.trees self.old.trees) }
        requires later { lent.now.next ≤ self.old.next }
        requires apart { (i : ℕ) → 0 < count i self.old.trees → lent.now.next ≤ i }
        requires end { limits.end ≤ 2 ^ 62 }
        requires work { limits.work < 2 ^ 59 }
        ensures made { WhereMade result
            (λ _. self.new ≡ with_node kind name.now (picked nodes.now (append lent.now.trees self.old.trees)) self.old) }
        ensures work { WhereMade result (λ left. left + texts_work nodes.now (append lent.now.trees self.old.trees) ≡ limits.work) }
        ensures end { WhereMade result (λ _. self.new.next ≤ limits.end) }
        ensures high { WhereMade result (λ _. height (picked nodes.now (append lent.now.trees self.old.trees)) ≤ limits.levels) }
        ensures refused { WhereNot result (self.new ≡ self.old) }
    {
        let name = self.names.name(name)?;
        let identity = NodeId::new(self.next);
        let node = NewNode {
            identity,
            kind,
            name,
        };
        let rows = &mut self.rows;
        let grown = copied_rows::grow(&lent.rows, lent.next, rows, alloc, node, nodes, limits)?;
        let Some(grown) = grown else {
            return Ok(None);
        };
        self.nodes += grown.next - self.next;
        self.next = grown.next;
        self.index = None;
        Ok(Some(grown.work))
    }

    /// Makes a tree of its own a tree of the forest, with no parent and with the identities that it has, before the trees of larger ones.
    ///
    /// The next identity comes after all of them. Where memory is refused, all stays as it was.
    pub fn plant(&mut self, alloc: Global, tree: &Tree) -> Result<(), AllocError>
        requires distinct { (i : ℕ) → count i (append self.old.trees (trees_of_tree tree.now)) ≤ 1 }
        requires below { (i : ℕ) → 0 < count i (trees_of_tree tree.now) → i < 2 ^ 62 }
        ensures planted { OnOk result
            (self.new
            ≡ record self.old { trees = ranked tree.now.content.identity (trees_of_tree tree.now) self.old.trees; next = max self.old.next (past (trees_of_tree tree.now)) }) }
        ensures refused { OnErr result (self.new ≡ self.old) }
    {
        let trees = slice::from_ref(tree);
        let rows = &mut self.rows;
        let names = &mut self.names;
        let mut planted = Planted::nothing();
        match plant::plant_all(rows, names, alloc, trees, None, 0, &mut planted) {
            Ok(_) => {
                self.nodes += planted.nodes;
                self.next = self.next.max(planted.largest + 1);
                self.index = None;
                Ok(())
            }
            Err(_) => {
                plant::remove_all(&mut self.rows, trees);
                Err(AllocError)
            }
        }
    }

    /// An equal forest of its own.
    ///
    /// It fails where memory is refused.
    pub fn duplicate(&self) -> Result<Forest, AllocError>
        ensures { IfOk result (λ f. f ≡ self.now) }
    {
        Ok(Forest {
            rows: self.rows.clone()?,
            documents: self.documents.clone()?,
            next: self.next,
            nodes: self.nodes,
            index: None,
            names: self.names.emptied(),
        })
    }
}
