//! What changes a shelf: nodes of its own forest are made, copied, moved, taken out, and have another name or text.

ghost use Rattle.std.specs.Prelude.{◌≡◌, ℕ, ◌+◌, ◌<◌, ◌≤◌, ◌^◌, ◌↔◌, IfOk, OnOk, OnErr, IsErrOf, IsSome, string_bytes};
ghost use Rattle.data_model.specs.Trees.{append, leaf, find, count, height, size, parent_of};
ghost use Rattle.data_model.specs.Changes.{with_content, taken_out, all_moved_below, CanAllMoveBelow, pick, renumbered};
ghost use Rattle.data_model.specs.declared.node.Part.TheVariants.{Attributes, Children};
ghost use Rattle.shelves.specs.Shelf.{shelf_trees};
ghost use Rattle.data_model.specs.Tree.{trees_of_tree};
ghost use Rattle.copied_rows.specs.Copies.{WhereMade, WhereNot};
ghost use Rattle.trees.specs.Grown.{AllStand, picked, texts_work, with_node};

use super::shelf::Shelf;
use std::alloc::{AllocError, Global};
use trees::{CopyLimits, Kind, MakeFault, NodeId, Tree};

impl<'a> Shelf<'a> {
    /// Makes an own node with no parent, which takes the next identity.
    ///
    /// Where memory is refused (`Memory`) or the next identity would pass 2^62 (`Limit`), all stays as it was.
    pub fn make(
        &mut self,
        alloc: Global,
        kind: Kind,
        name: String,
        text: String,
    ) -> Result<NodeId, MakeFault>
        ensures made { IfOk result
            (λ i. (i ≡ self.old.own.next)
            × (self.new
            ≡ record self.old {
              own =
                  record self.old.own {
                    trees =
                        append
                        self.old.own.trees
                        (leaf
                        (record {
                          identity = i;
                          kind = kind;
                          name = string_bytes name;
                          text = string_bytes text;
                        }));
                    next = i + 1;
                  };
            })) }
        ensures limit { IsErrOf result MakeFault.Limit ↔ (2 ^ 62 ≤ self.old.own.next) }
        ensures refused { OnErr result (self.new ≡ self.old) }
    {
        self.own.make(alloc, kind, name, text)
    }

    /// Makes the tree of an own node that has a parent a tree of its own.
    pub fn take_out(&mut self, id: NodeId)
        requires has { IsSome (find id self.old.own.trees) }
        requires below { IsSome (parent_of id self.old.own.trees) }
        ensures { self.new ≡ record self.old { own = record self.old.own { trees = taken_out id self.old.own.trees } } }
    {
        self.own.take_out(id);
    }

    /// Puts own trees below an own node, one after the other, as children before which `index` others stand.
    ///
    /// Where memory is refused, all stays as it was.
    pub fn put_children(
        &mut self,
        parent: NodeId,
        index: usize,
        nodes: &[NodeId],
    ) -> Result<(), AllocError>
        requires { CanAllMoveBelow Children parent index nodes.now self.old.own.trees }
        ensures put { OnOk result
            (self.new
            ≡ record self.old {
              own =
                  record self.old.own {
                    trees = all_moved_below Children parent index nodes.now self.old.own.trees;
                  };
            }) }
        ensures refused { OnErr result (self.new ≡ self.old) }
    {
        self.own.facts();
        self.own.put_children(parent, index, nodes)
    }

    /// Puts own trees below an own node, one after the other, as attributes before which `index` others stand.
    ///
    /// Where memory is refused, all stays as it was.
    pub fn put_attributes(
        &mut self,
        parent: NodeId,
        index: usize,
        nodes: &[NodeId],
    ) -> Result<(), AllocError>
        requires { CanAllMoveBelow Attributes parent index nodes.now self.old.own.trees }
        ensures put { OnOk result
            (self.new
            ≡ record self.old {
              own =
                  record self.old.own {
                    trees = all_moved_below Attributes parent index nodes.now self.old.own.trees;
                  };
            }) }
        ensures refused { OnErr result (self.new ≡ self.old) }
    {
        self.own.facts();
        self.own.put_attributes(parent, index, nodes)
    }

    /// Gives an own node another text.
    pub fn set_text(&mut self, id: NodeId, text: String)
        requires { IsSome (find id self.old.own.trees) }
        ensures { self.new
            ≡ record self.old {
              own =
                  record self.old.own {
                    trees = with_content id (λ c. record c { text = string_bytes text }) self.old.own.trees;
                  };
            } }
    {
        self.own.set_text(id, text);
    }

    /// Gives an own node another name. Where memory is refused, all stays as it was.
    pub fn set_name(&mut self, id: NodeId, name: String) -> Result<(), AllocError>
        requires { IsSome (find id self.old.own.trees) }
        ensures named { OnOk result
            (self.new
            ≡ record self.old {
              own =
                  record self.old.own {
                    trees = with_content id (λ c. record c { name = string_bytes name }) self.old.own.trees;
                  };
            }) }
        ensures refused { OnErr result (self.new ≡ self.old) }
    {
        self.own.set_name(id, name)
    }

    /// Makes a copy of the tree of a node of either forest, as an own tree with no parent. Its nodes take the identities from the next one on, in document order.
    ///
    /// It gives the copy's root. Where memory is refused (`Memory`) or the next identity would pass 2^62 (`Limit`), all stays as it was.
    pub fn copy(&mut self, alloc: Global, id: NodeId) -> Result<NodeId, MakeFault>
        requires { IsSome (find id (shelf_trees self.old)) }
        ensures made { IfOk result
            (λ i. (i ≡ self.old.own.next)
            × (self.new
            ≡ record self.old {
              own =
                  record self.old.own {
                    trees = append self.old.own.trees (renumbered self.old.own.next (pick id (shelf_trees self.old)));
                    next = self.old.own.next + size (pick id (shelf_trees self.old));
                  };
            })) }
        ensures limit { IsErrOf result MakeFault.Limit ↔ (2 ^ 62 < self.old.own.next + size (pick id (shelf_trees self.old))) }
        ensures refused { OnErr result (self.new ≡ self.old) }
    {
        self.own.copy_from(alloc, self.lent, id)
    }

    /// Makes an own node of that kind and name with no parent, no attributes and no text, which takes the next identity, and whose children are copies of the
    /// trees of some nodes of either forest. The copies have the identities after it, in document order; each tree is gone through once.
    ///
    /// It gives how much work is left. `None` where they would take more than they may; then, and where memory is refused, all stays as it was.
    pub fn grow(
        &mut self,
        alloc: Global,
        kind: Kind,
        name: &str,
        nodes: &[NodeId],
        limits: CopyLimits,
    ) -> Result<Option<u64>, AllocError>
        requires stand { AllStand nodes.now (shelf_trees self.old) }
        requires end { limits.end ≤ 2 ^ 62 }
        requires work { limits.work < 2 ^ 59 }
        ensures made { WhereMade result
            (λ _. self.new ≡ record self.old { own = with_node kind name.now (picked nodes.now (shelf_trees self.old)) self.old.own }) }
        ensures work { WhereMade result (λ left. left + texts_work nodes.now (shelf_trees self.old) ≡ limits.work) }
        ensures end { WhereMade result (λ _. self.new.own.next ≤ limits.end) }
        ensures high { WhereMade result (λ _. height (picked nodes.now (shelf_trees self.old)) ≤ limits.levels) }
        ensures refused { WhereNot result (self.new ≡ self.old) }
    {
        self.own.grow(alloc, self.lent, kind, name, nodes, limits)
    }

    /// Makes a tree of its own an own tree after all others, with no parent and with the identities that it has, which have been
    /// set aside: they lie below the next one, and the root's comes first of them and after those of all nodes that stand here.
    ///
    /// Where memory is refused, all stays as it was.
    pub fn plant(&mut self, alloc: Global, tree: &Tree) -> Result<(), AllocError>
        requires distinct { (i : ℕ) → count i (trees_of_tree tree.now) ≤ 1 }
        requires first { (i : ℕ) → 0 < count i (trees_of_tree tree.now) → tree.now.content.identity ≤ i }
        requires below { (i : ℕ) → 0 < count i (trees_of_tree tree.now) → i < self.old.own.next }
        requires after { (i : ℕ) → 0 < count i self.old.own.trees → i < tree.now.content.identity }
        requires lent { self.old.lent.next ≤ tree.now.content.identity }
        ensures planted { OnOk result
            (self.new
            ≡ record self.old {
              own =
                  record self.old.own {
                    trees = append self.old.own.trees (trees_of_tree tree.now);
                  };
            }) }
        ensures refused { OnErr result (self.new ≡ self.old) }
    {
        self.own.facts();
        self.own.bounds();
        self.own.plant(alloc, tree)
    }
}
