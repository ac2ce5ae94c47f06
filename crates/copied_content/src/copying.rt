//! Content that is copied item by item.

ghost use Rattle.std.specs.Prelude.{◌≡◌, ◌∷◌, ◌++◌, [], IsSome, OnOk};
ghost use Rattle.data_model.specs.Trees.{find};
ghost use Rattle.values.specs.Items.{IsThere};
ghost use Rattle.query_meaning.specs.Content as meaning;
ghost use Rattle.query_meaning.specs.Running.{each, trees_of};
ghost use Rattle.evaluation.specs.Gives.{Any, GivesIn, Stand};
ghost use Rattle.copied_content.specs.Copying.{and_item, and_node, closed, leaving, nothing};
ghost use Rattle.copied_content.specs.New.{IsNew};

use crate::copied::CopiedContent;
use evaluation::{Evaluation, Sequence};
use query_strings::spaced;
use std::alloc::{AllocError, Global};
use std::marker::Model;
use trees::NodeId;
use values::{Atom, Item, ValueFault};

/// Copied content: of each node a copy, of a document its children, and of atomic values that stand next to each other one text, in which
/// they are joined by single spaces. Its nodes take the next identities in document order. Codes: PXQ0002 where such a text is too long;
/// PXQ0003 where the evaluation would have made more than 100,000 nodes; no more of them are copied.
pub fn content(run: &mut Evaluation, items: &Sequence) -> Result<CopiedContent, ValueFault>
    requires stand { Stand items.now run.old }
    ensures { GivesIn (IsNew run.old) (meaning.content items.now) run.old result run.new }
{
    let partial = copied_items(run, items.as_slice())?;
    partial.into_content(run)
}

/// What is copied of items.
fn copied_items(run: &mut Evaluation, items: &[Item]) -> Result<PartialContent, ValueFault>
    requires stand { Stand items.now run.old }
    ensures { GivesIn Any (each (λ _. and_item) 0 items.now nothing) run.old result run.new }
{
    let mut partial = PartialContent::new(run.alloc());
    for item in items {
        partial.add_item(run, item)?;
    }
    Ok(partial)
}

/// Copied content, and the atomic values after it, which become a text once a node or the end follows them.
#[derive(Drop)]
struct PartialContent {
    trees: CopiedContent,
    values: Vec<Atom>,
}

impl Model for PartialContent {
    ghost use Rattle.copied_content.specs.Copying.{Partial, partial_code};

    ghost Value = { Partial };

    ghost coded = { partial_code };

    ghost view = { λ a. record { trees = a.trees; values = a.values.items } };
}

impl PartialContent {
    /// Nothing. It takes no memory.
    fn new(alloc: Global) -> PartialContent
        ensures { result ≡ nothing }
    {
        PartialContent {
            trees: CopiedContent::new(alloc),
            values: Vec::new(alloc),
        }
    }

    /// Adds an item.
    fn add_item(&mut self, run: &mut Evaluation, item: &Item) -> Result<(), ValueFault>
        requires there { IsThere (trees_of run.old) item.now }
        ensures { GivesIn Any (and_item self.old item.now) run.old (leaving result self.new) run.new }
    {
        match item {
            Item::Node(node) => self.add_node(run, *node),
            Item::Atomic(value) => Ok(self.add_value(value)?),
        }
    }

    /// Adds a value. It fails where memory is refused.
    fn add_value(&mut self, value: &Atom) -> Result<(), AllocError>
        ensures { OnOk result (self.new ≡ record self.old { values = self.old.values ++ value.now ∷ [] }) }
    {
        self.values.push(value.clone()?)?;
        Ok(())
    }

    /// Adds a node.
    fn add_node(&mut self, run: &mut Evaluation, node: NodeId) -> Result<(), ValueFault>
        requires there { IsSome (find node (trees_of run.old)) }
        ensures { GivesIn Any (and_node self.old node) run.old (leaving result self.new) run.new }
    {
        self.close(run)?;
        self.trees.add_copy(run, node)
    }

    /// Makes a text of the values, if there are any; none are left.
    fn close(&mut self, run: &mut Evaluation) -> Result<(), ValueFault>
        ensures closed { GivesIn Any (closed self.old) run.old (leaving result self.new.trees) run.new }
        ensures none { OnOk result (self.new.values ≡ []) }
    {
        if self.values.is_empty() {
            return Ok(());
        }
        let text = spaced(run.alloc(), &self.values)?;
        self.values.clear();
        self.trees.add_text(run, text)
    }

    /// The whole content, where nothing more follows.
    fn into_content(self, run: &mut Evaluation) -> Result<CopiedContent, ValueFault>
        ensures { GivesIn Any (closed self) run.old result run.new }
    {
        let mut partial = self;
        partial.close(run)?;
        let PartialContent { trees, .. } = partial;
        Ok(trees)
    }
}
