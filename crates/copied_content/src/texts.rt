//! New texts.

ghost use Rattle.std.specs.Prelude.{◌≡◌};
ghost use Rattle.data_model.specs.Tree.{trees_of_tree};
ghost use Rattle.query_meaning.specs.Content as meaning;
ghost use Rattle.evaluation.specs.Gives.{Any, GivesIn, Judged};
ghost use Rattle.copied_content.specs.Copying.{after, leaving};
ghost use Rattle.copied_content.specs.New.{IsNew};

use crate::copied::CopiedContent;
use evaluation::Evaluation;
use std::alloc::Global;
use trees::{Content, Kind, NodeId, Tree};
use values::{Text, ValueFault, text_work};

/// A new text, which takes its work. Codes: PXQ0002 where too little work is left; PXQ0003 where the evaluation would have made more than
/// 100,000 nodes.
pub fn new_text(run: &mut Evaluation, text: Text) -> Result<CopiedContent, ValueFault>
    ensures made { GivesIn (IsNew run.old) (meaning.new_text text) run.old result run.new }
    ensures judged { Judged (meaning.new_text text run.old) result }
{
    let mut content = CopiedContent::new(run.alloc());
    content.add_text(run, text)?;
    Ok(content)
}

impl CopiedContent {
    /// Adds a new text, as `new_text` makes it.
    pub(crate) fn add_text(&mut self, run: &mut Evaluation, text: Text) -> Result<(), ValueFault>
        ensures added { GivesIn Any (after self.old (meaning.new_text text)) run.old (leaving result self.new) run.new }
        ensures judged { Judged (meaning.new_text text run.old) result }
    {
        run.spend(text_work(text.as_str()))?;
        let identity = run.new_nodes(1)?;
        Ok(self.add(text_node(run.alloc(), text, identity))?)
    }
}

/// A text as a tree of its own.
fn text_node(alloc: Global, text: Text, identity: NodeId) -> Tree
    ensures { trees_of_tree result ≡ meaning.text_node text identity }
{
    let content = Content {
        identity,
        kind: Kind::Text,
        name: Text::empty(),
        text,
    };
    Tree::new(content, Vec::new(alloc), Vec::new(alloc))
}
