//! New nodes with copied content.

ghost use Rattle.std.specs.Prelude.{◌≡◌, ◌∷◌, [], Ok, IfNone, IfOk, IfSome, IsErrOf};
ghost use Rattle.data_model.specs.Tree.{trees_of_tree};
ghost use Rattle.values.specs.declared.atom.Item.TheVariants as item;
ghost use Rattle.query_meaning.specs.Constructors as meaning;
ghost use Rattle.query_meaning.specs.Content.{unless_fault};
ghost use Rattle.evaluation.specs.Gives.{Gives, GivesIn, Says, Stand};
ghost use Rattle.copied_content.specs.New.{IsNew};
ghost use Rattle.query_elements.specs.Assembling.{IsBeside, closed, fault_of, kind_of, parts, tree_with};

use crate::judged::{check_children, check_content};
use crate::whole::whole_nodes;
use copied_content::{CopiedContent, SplitContent, content};
use evaluation::{Evaluation, Sequence};
use query_constructors::rooted;
use std::alloc::{AllocError, Global};
use trees::{Content, Kind, NodeId, Tree};
use values::{Item, Text, ValueFault};

/// What may have children.
#[derive(Clone, Copy)]
pub(crate) enum Parent {
    /// A document.
    Document,
    /// An element.
    Element,
}

impl Parent {
    /// The kind of the node.
    fn kind(self) -> Kind
        ensures { result ≡ kind_of self }
    {
        match self {
            Parent::Document => Kind::Document,
            Parent::Element => Kind::Element,
        }
    }
}

/// A new node with copied content: it takes its identity, then the content is copied, merged and judged. Whole nodes alone are copied at once.
/// Codes: PXQ0003 where the evaluation would have made more than 100,000 nodes; PXQ0002 where a text is too long; those of `check_content` for
/// an element, and those of `check_children` for a document.
pub(crate) fn assembled(
    run: &mut Evaluation,
    parent: Parent,
    name: &str,
    items: &Sequence,
) -> Result<Sequence, ValueFault>
    requires stand { Stand items.now run.old }
    ensures { Gives (meaning.assembled (kind_of parent) name.now (fault_of parent) items.now) run.old result run.new }
{
    match grown(run, parent, name, items) {
        Some(root) => Ok(Sequence::one(run.alloc(), Item::Node(root))?),
        None => assembled_of_parts(run, parent, name, items),
    }
}

/// The same of whole nodes alone, where none is refused, and no memory; elsewhere `None`, and nothing changes: the longer way tells why.
fn grown(run: &mut Evaluation, parent: Parent, name: &str, items: &Sequence) -> Option<NodeId>
    ensures made { IfSome result
        (λ root. Gives (meaning.assembled (kind_of parent) name.now (fault_of parent) items.now) run.old (Ok (item.Node root ∷ [])) run.new) }
    ensures same { IfNone result (run.new ≡ run.old) }
{
    let Ok(Some(nodes)) = whole_nodes(run, items.as_slice()) else {
        return None;
    };
    run.shelf().facts();
    match run.grow(parent.kind(), name, &nodes) {
        Ok(root) => root,
        Err(_) => None,
    }
}

/// The same of any content, which is copied item by item.
fn assembled_of_parts(
    run: &mut Evaluation,
    parent: Parent,
    name: &str,
    items: &Sequence,
) -> Result<Sequence, ValueFault>
    requires stand { Stand items.now run.old }
    ensures { Gives (meaning.assembled (kind_of parent) name.now (fault_of parent) items.now) run.old result run.new }
{
    run.shelf().facts();
    let identity = run.new_nodes(1)?;
    let parts = parts(run, items)?;
    closed(run, parent, name, identity, parts)
}

/// Copied content, whose adjacent texts are merged.
fn parts(run: &mut Evaluation, items: &Sequence) -> Result<CopiedContent, ValueFault>
    requires stand { Stand items.now run.old }
    ensures { GivesIn (IsNew run.old) (parts items.now) run.old result run.new }
{
    let content = content(run, items)?;
    content.without_adjacent_texts(run.alloc())
}

/// A node with these parts, which have been numbered after it.
fn closed(
    run: &mut Evaluation,
    parent: Parent,
    name: &str,
    identity: NodeId,
    parts: CopiedContent,
) -> Result<Sequence, ValueFault>
    requires beside { IsBeside identity parts run.old }
    ensures { Gives (closed parent name.now identity parts) run.old result run.new }
{
    check(run.alloc(), parent, &parts)?;
    let tree = tree_with(run.alloc(), parent, name, identity, parts)?;
    rooted(run, &tree)
}

/// Whether the parts may be the content of such a node. Codes: those of `check_content` and `check_children`.
fn check(alloc: Global, parent: Parent, parts: &CopiedContent) -> Result<(), ValueFault>
    ensures said { Says (unless_fault (fault_of parent parts.now) tt) result }
    ensures document { parent ≡ Parent.Document → IsErrOf result ValueFault.Memory → ⊥ }
{
    match parent {
        Parent::Document => Ok(check_children(parts)?),
        Parent::Element => check_content(alloc, parts),
    }
}

/// The tree of a node with these parts. It fails where memory is refused.
fn tree_with(
    alloc: Global,
    parent: Parent,
    name: &str,
    identity: NodeId,
    parts: CopiedContent,
) -> Result<Tree, AllocError>
    ensures { IfOk result (λ t. trees_of_tree t ≡ tree_with parent name.now identity parts) }
{
    let content = Content {
        identity,
        kind: parent.kind(),
        name: Text::of(alloc, name)?,
        text: Text::empty(),
    };
    let SplitContent { attributes, others } = parts.split(alloc)?;
    Ok(Tree::new(content, attributes, others))
}
