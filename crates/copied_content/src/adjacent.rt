//! Adjacent texts become one, and empty ones go (XQuery 1.0, section 3.7.1.3).

ghost use Rattle.std.specs.Prelude.{◌≡◌, ◌≤◌, ◌&&◌, ◌∷◌, ◌++◌, [], ℕ, true, false, Ok, IfOk, IfErr, length};
ghost use Rattle.data_model.specs.Tree.{all_of};
ghost use Rattle.data_model.specs.Trees.{count, is_text};
ghost use Rattle.pending.specs.Texts.{is_empty_text, texts_within, without_empty_texts};
ghost use Rattle.data_model.specs.Limits.{most_bytes};
ghost use Rattle.query_meaning.specs.Content as meaning;
ghost use Rattle.evaluation.specs.Gives.{Fails, Judged, Says};
ghost use Rattle.copied_content.specs.Merging.{and_merged, are_apart, is_apart, within_bytes};

use crate::copied::CopiedContent;
use data_model::limits::MOST_BYTES;
use fault_codes::Code;
use std::alloc::{AllocError, Global};
use trees::Tree;
use values::ValueFault;

impl CopiedContent {
    /// The same, but adjacent texts are merged, and empty ones are gone: a text takes in those after it, and keeps its identity. Each
    /// text is copied once at most. Faults: `Memory`; `Code` with PXQ0002 where a text would be longer than 65,536 bytes.
    pub fn without_adjacent_texts(self, alloc: Global) -> Result<CopiedContent, ValueFault>
        ensures parts { Says (meaning.without_adjacent_texts self) result }
        ensures few { IfOk result (λ parts. (i : ℕ) → count i parts ≤ count i self) }
    {
        // Most content has nothing to be merged.
        if are_apart(self.as_slice()) {
            return Ok(self);
        }
        let mut merged = Vec::new(alloc);
        for tree in self.into_trees() {
            merged = and_merged(merged, tree)?;
        }
        Ok(CopiedContent::of(without_empty_texts(merged)))
    }
}

/// Whether no text comes right after another, none is empty, and none is longer than 65,536 bytes.
fn are_apart(trees: &[Tree]) -> bool
    ensures { result ≡ are_apart false (all_of trees.now) }
{
    let mut was_text = false;
    let mut rest = trees;
    while let Some((tree, others)) = rest.split_first() {
        if !is_apart(was_text, tree) {
            return false;
        }
        was_text = is_text(tree);
        rest = others;
    }
    true
}

/// Whether a tree stays as it is after another, of which it is known whether it is a text.
fn is_apart(was_text: bool, tree: &Tree) -> bool
    ensures { result ≡ is_apart was_text tree.now.content }
{
    text_len(tree) <= MOST_BYTES
        && !(is_text(tree) && (was_text || tree.content().text.as_str().is_empty()))
}

/// One tree more: the last before it takes in its text, if both are texts. Faults: `Memory`; `Code` with PXQ0002 where a text would be
/// longer than 65,536 bytes, whatever memory there is.
fn and_merged(merged: Vec<Tree>, tree: Tree) -> Result<Vec<Tree>, ValueFault>
    requires within { texts_within most_bytes (all_of merged.items) ≡ true }
    ensures ok { IfOk result (λ more. within_bytes (and_merged (all_of merged.items) tree) ≡ Ok (all_of more.items)) }
    ensures err { IfErr result (λ fault. Fails (within_bytes (and_merged (all_of merged.items) tree)) fault) }
    ensures judged { Judged (within_bytes (and_merged (all_of merged.items) tree)) result }
{
    if !is_within(&merged, &tree) {
        return Err(ValueFault::Code(Code::PXQ0002));
    }
    Ok(merged_with(merged, tree)?)
}

/// Whether no text is longer than 65,536 bytes once a tree is merged with those before it.
fn is_within(merged: &[Tree], tree: &Tree) -> bool
    requires within { texts_within most_bytes (all_of merged.now) ≡ true }
    ensures { result ≡ texts_within most_bytes (and_merged (all_of merged.now) tree.now) }
{
    let length = text_len(tree);
    match merged.split_last() {
        None => length <= MOST_BYTES,
        Some((last, _)) => {
            if are_texts(last, tree) {
                return length <= MOST_BYTES - text_len(last);
            }
            length <= MOST_BYTES
        }
    }
}

/// How many bytes the text of the root of a tree has.
fn text_len(tree: &Tree) -> usize
    ensures { result ≡ length tree.now.content.text }
{
    tree.content().text.as_str().len()
}

/// One tree more, merged with those before it. It fails where memory is refused.
fn merged_with(merged: Vec<Tree>, tree: Tree) -> Result<Vec<Tree>, AllocError>
    ensures { IfOk result (λ more. all_of more.items ≡ and_merged (all_of merged.items) tree) }
{
    let mut merged = merged;
    match merged.pop() {
        None => and_last(merged, tree),
        Some(last) => {
            if are_texts(&last, &tree) {
                let alloc = *merged.allocator();
                return and_last(merged, with_text_of(alloc, last, &tree)?);
            }
            merged.push(last)?;
            and_last(merged, tree)
        }
    }
}

/// One tree more. It fails where memory is refused.
fn and_last(trees: Vec<Tree>, tree: Tree) -> Result<Vec<Tree>, AllocError>
    ensures { IfOk result (λ more. all_of more.items ≡ all_of (trees.items ++ tree ∷ [])) }
{
    let mut trees = trees;
    trees.push(tree)?;
    Ok(trees)
}

/// The tree with the other's text after its own. It fails where memory is refused.
fn with_text_of(alloc: Global, tree: Tree, other: &Tree) -> Result<Tree, AllocError>
    ensures { IfOk result
        (λ joined. joined ≡ record tree { content = record tree.content { text = tree.content.text ++ other.now.content.text } }) }
{
    let mut tree = tree;
    tree.push_text(alloc, other.content().text.as_str())?;
    Ok(tree)
}

/// Whether the roots of both trees are texts.
fn are_texts(tree: &Tree, other: &Tree) -> bool
    ensures { result ≡ (is_text tree.now.content.kind && is_text other.now.content.kind) }
{
    is_text(tree) && is_text(other)
}

/// Whether the root of a tree is a text.
fn is_text(tree: &Tree) -> bool
    ensures { result ≡ is_text tree.now.content.kind }
{
    tree.content().kind.is_text()
}

/// Whether the root of a tree is an empty text.
fn is_empty_text(tree: &Tree) -> bool
    ensures { result ≡ is_empty_text tree.now.content }
{
    is_text(tree) && tree.content().text.as_str().is_empty()
}

/// The same, but empty texts are gone.
fn without_empty_texts(trees: Vec<Tree>) -> Vec<Tree>
    ensures { all_of result.items ≡ without_empty_texts (all_of trees.items) }
{
    let mut trees = trees;
    trees.retain(|tree| !is_empty_text(tree));
    trees
}
