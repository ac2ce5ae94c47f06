//! Trees of their own, which own what is below them.

ghost use Rattle.std.specs.Prelude.{◌≡◌, ◌<◌, ◌^◌, ◌+◌, ◌++◌, nat_le, OnOk, OnErr};
ghost use Rattle.data_model.specs.Changes.{renumbered};
ghost use Rattle.data_model.specs.Tree.{all_of, tree_size, trees_of_tree};
ghost use Rattle.data_model.specs.Trees.{height, size};

use super::node::{Content, NodeId};
use std::alloc::{AllocError, Global};
use std::marker::Model;

/// A node with its attributes and its children, each a tree of its own.
#[derive(Drop)]
pub struct Tree {
    content: Content,
    attributes: Vec<Tree>,
    children: Vec<Tree>,
}

impl Model for Tree {
    ghost use Rattle.data_model.specs.Tree.{TreeTerm, tree_code, tree_size};

    ghost Value = { TreeTerm };

    ghost coded = { tree_code };

    ghost use Rattle.data_model.specs.Nested.{tree_of};

    ghost view = { tree_of };

    ghost size = { tree_size };

    ghost use Rattle.data_model.specs.Nested.{size-falls};

    ghost size_decreases = { λ a h. size-falls a };
}

impl Tree {
    /// The tree of a node with these attributes and these children, in their order.
    pub fn new(content: Content, attributes: Vec<Tree>, children: Vec<Tree>) -> Tree
        ensures { result
            ≡ record {
              content = content;
              attributes = all_of attributes.items;
              children = all_of children.items;
            } }
    {
        Tree {
            content,
            attributes,
            children,
        }
    }

    /// What its node says of itself.
    pub fn content(&self) -> &Content
        ensures { result.now ≡ self.now.content }
    {
        &self.content
    }

    /// The trees of its attributes, in their list's order.
    pub fn attributes(&self) -> &[Tree]
        ensures { all_of result.now ≡ self.now.attributes }
    {
        &self.attributes
    }

    /// The trees of its children, in document order.
    pub fn children(&self) -> &[Tree]
        ensures { all_of result.now ≡ self.now.children }
    {
        &self.children
    }

    /// The trees of its children alone, in document order.
    pub fn into_children(self) -> Vec<Tree>
        ensures { all_of result.items ≡ self.children }
    {
        let Tree { children, .. } = self;
        children
    }

    /// Adds to the text of its node. Where memory is refused, it stays as it was.
    pub fn push_text(&mut self, alloc: Global, text: &str) -> Result<(), AllocError>
        ensures pushed { OnOk result
            (self.new
            ≡ record self.old { content = record self.old.content { text = self.old.content.text ++ text.now } }) }
        ensures refused { OnErr result (self.new ≡ self.old) }
    {
        self.content.text.push_str(alloc, text)
    }

    /// Gives its nodes the identities `first`, `first + 1` and so on in document order, and gives the one after them.
    #[cycle(renumbering)]
    fn renumber(&mut self, first: u64) -> u64
        requires { first + tree_size self.old < 2 ^ 64 }
        ensures numbered { trees_of_tree self.new ≡ renumbered first (trees_of_tree self.old) }
        ensures next { result ≡ first + tree_size self.old }
    {
        self.content.identity = NodeId::new(first);
        let next = renumber(&mut self.attributes, first + 1);
        renumber(&mut self.children, next)
    }
}

/// Gives the nodes of some trees the identities `first`, `first + 1` and so on in document order, and gives the one after them.
#[cycle(renumbering)]
pub fn renumber(trees: &mut [Tree], first: u64) -> u64
    requires { first + size (all_of trees.old) < 2 ^ 64 }
    ensures numbered { all_of trees.new ≡ renumbered first (all_of trees.old) }
    ensures next { result ≡ first + size (all_of trees.old) }
{
    let mut next = first;
    for tree in trees.iter_mut() {
        next = tree.renumber(next);
    }
    next
}

/// Whether no node of some trees stands more than so many levels down, where a root is on the first.
pub fn are_within_levels(trees: &[Tree], levels: u64) -> bool
    ensures { result ≡ nat_le (height (all_of trees.now)) levels }
{
    if levels == 0 {
        return trees.is_empty();
    }
    for tree in trees {
        if !are_within_levels(tree.attributes(), levels - 1) {
            return false;
        }
        if !are_within_levels(tree.children(), levels - 1) {
            return false;
        }
    }
    true
}

/// How many nodes some trees have.
pub fn node_count(trees: &[Tree]) -> u64
    requires { size (all_of trees.now) < 2 ^ 64 }
    ensures { result ≡ size (all_of trees.now) }
{
    let mut nodes = 0;
    for tree in trees {
        nodes += 1 + node_count(tree.attributes());
        nodes += node_count(tree.children());
    }
    nodes
}
