//! New trees.

ghost use Rattle.std.specs.Prelude.{◌≡◌, OnOk};
ghost use Rattle.data_model.specs.Tree.{all_of, trees_of_tree};
ghost use Rattle.data_model.specs.Trees.{no_trees, append};

use std::alloc::{AllocError, Global};
use std::marker::Model;
use trees::Tree;

/// New trees in their order, which stand nowhere yet. Contracts see them as trees.
#[derive(Drop)]
pub struct CopiedContent {
    trees: Vec<Tree>,
}

impl Model for CopiedContent {
    ghost use Rattle.data_model.specs.Tree.{all_of};
    ghost use Rattle.data_model.specs.Trees.{Trees, coded_trees};

    ghost Value = { Trees };

    ghost coded = { coded_trees };

    ghost view = { λ a. all_of a.trees.items };
}

impl CopiedContent {
    /// No trees. It takes no memory.
    pub fn new(alloc: Global) -> CopiedContent
        ensures { result ≡ no_trees }
    {
        CopiedContent {
            trees: Vec::new(alloc),
        }
    }

    /// These trees.
    pub(crate) fn of(trees: Vec<Tree>) -> CopiedContent
        ensures { result ≡ all_of trees.items }
    {
        CopiedContent { trees }
    }

    /// Adds a tree. It fails where memory is refused.
    pub(crate) fn add(&mut self, tree: Tree) -> Result<(), AllocError>
        ensures { OnOk result (self.new ≡ append self.old (trees_of_tree tree)) }
    {
        self.trees.push(tree)?;
        Ok(())
    }

    /// Adds trees, whose list is kept where there are none before them. It fails where memory is refused.
    pub(crate) fn add_all(&mut self, trees: Vec<Tree>) -> Result<(), AllocError>
        ensures { OnOk result (self.new ≡ append self.old (all_of trees.items)) }
    {
        if self.trees.is_empty() {
            self.trees = trees;
            return Ok(());
        }
        let mut trees = trees;
        self.trees.append(&mut trees)?;
        Ok(())
    }

    /// The trees.
    pub fn as_slice(&self) -> &[Tree]
        ensures { all_of result.now ≡ self.now }
    {
        &self.trees
    }

    /// The trees alone, to be kept.
    pub fn into_trees(self) -> Vec<Tree>
        ensures { all_of result.items ≡ self }
    {
        let CopiedContent { trees } = self;
        trees
    }
}
