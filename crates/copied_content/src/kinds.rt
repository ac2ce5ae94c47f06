//! Attributes, and what is none, among new trees.

ghost use Rattle.std.specs.Prelude.{◌≡◌, ◌∷◌, ◌++◌, [], if◌then◌else◌, IfOk};
ghost use Rattle.data_model.specs.Tree.{all_of};
ghost use Rattle.query_meaning.specs.Content as meaning;

use crate::copied::CopiedContent;
use std::alloc::{AllocError, Global};
use trees::{Kind, Tree};

/// New trees by what they are, each list in their order.
#[derive(Drop)]
pub struct SplitContent {
    /// The attributes.
    pub attributes: Vec<Tree>,
    /// What is no attribute.
    pub others: Vec<Tree>,
}

impl CopiedContent {
    /// Whether no attribute comes after what is none.
    pub fn has_attributes_first(&self) -> bool
        ensures { result ≡ meaning.has_attributes_first self.now }
    {
        are_all_others(after_attributes(self.as_slice()))
    }

    /// Whether all are attributes.
    pub fn are_all_attributes(&self) -> bool
        ensures { result ≡ meaning.are_all meaning.is_attribute self.now }
    {
        self.as_slice().iter().all(|tree| is_attribute(tree))
    }

    /// Whether none is an attribute.
    pub fn are_all_others(&self) -> bool
        ensures { result ≡ meaning.are_all meaning.is_other self.now }
    {
        are_all_others(self.as_slice())
    }

    /// The attributes, and what is none, which takes no memory where nothing is an attribute. It fails where memory is refused.
    pub fn split(self, alloc: Global) -> Result<SplitContent, AllocError>
        ensures attributes { IfOk result (λ split. all_of split.attributes.items ≡ meaning.attributes self) }
        ensures others { IfOk result (λ split. all_of split.others.items ≡ meaning.others self) }
    {
        if self.are_all_others() {
            return Ok(SplitContent {
                attributes: Vec::new(alloc),
                others: self.into_trees(),
            });
        }
        let mut split = SplitContent::new(alloc);
        for tree in self.into_trees() {
            split = split.and(tree)?;
        }
        Ok(split)
    }
}

impl SplitContent {
    fn new(alloc: Global) -> SplitContent
        ensures attributes { result.attributes.items ≡ [] }
        ensures others { result.others.items ≡ [] }
    {
        SplitContent {
            attributes: Vec::new(alloc),
            others: Vec::new(alloc),
        }
    }

    /// One tree more. It fails where memory is refused.
    fn and(self, tree: Tree) -> Result<SplitContent, AllocError>
        ensures attributes { IfOk result
            (λ split. split.attributes.items ≡ (if meaning.is_attribute tree.content.kind then self.attributes.items ++ tree ∷ [] else self.attributes.items)) }
        ensures others { IfOk result
            (λ split. split.others.items ≡ (if meaning.is_other tree.content.kind then self.others.items ++ tree ∷ [] else self.others.items)) }
    {
        let SplitContent {
            mut attributes,
            mut others,
        } = self;
        if is_attribute(&tree) {
            attributes.push(tree)?;
        } else {
            others.push(tree)?;
        }
        Ok(SplitContent { attributes, others })
    }
}

/// Whether the root of a tree is an attribute.
fn is_attribute(tree: &Tree) -> bool
    ensures { result ≡ meaning.is_attribute tree.now.content.kind }
{
    match tree.content().kind {
        Kind::Attribute => true,
        _ => false,
    }
}

/// Whether none is an attribute.
fn are_all_others(trees: &[Tree]) -> bool
    ensures { result ≡ meaning.are_all meaning.is_other (all_of trees.now) }
{
    trees.iter().all(|tree| !is_attribute(tree))
}

/// The trees from the first that is no attribute on.
fn after_attributes(trees: &[Tree]) -> &[Tree]
    ensures { meaning.are_all meaning.is_other (all_of result.now) ≡ meaning.has_attributes_first (all_of trees.now) }
{
    let mut rest = trees;
    while let Some((first, others)) = rest.split_first() {
        if !is_attribute(first) {
            return rest;
        }
        rest = others;
    }
    rest
}
