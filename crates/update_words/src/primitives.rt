//! Update primitives as rows spell them: the kind, the target (`targets.rt`), and then the nodes of its trees (`nodes.rt`) or, of `replaceValue` and `rename`, a
//! text. The kinds are `insertBefore`, `insertAfter`, `insertInto`, `insertIntoAsFirst`, `insertIntoAsLast`, `insertAttributes`, `delete`,
//! `replaceNode`, `replaceValue`, `replaceElementContent` and `rename`.

ghost use Rattle.std.specs.Prelude.{◌≡◌, ◌≤◌, ◌^◌, IfOk};
ghost use Rattle.data_model.specs.Tree.{all_of};
ghost use Rattle.pending.specs.Primitives.{primitive_term};
ghost use Rattle.update_meaning.specs.Brought.{trees_of};
ghost use Rattle.update_words.specs.New.{Brings};

use super::nodes::read_nodes;
use super::targets::read_target;
use pending::Primitive;
use rows::{RowFault, Words};
use std::alloc::Global;
use trees::{Forest, NodeId, Tree};

/// The most levels of the trees.
const MOST_LEVELS: u64 = 70;

/// A primitive, and the identity after those of its nodes.
#[derive(Drop)]
pub struct Brought {
    pub primitive: Primitive,
    pub next: u64,
}

/// The primitive that the words spell, whose nodes take identities from `next` on. `turn` is the turn of a `repeat`. Faults: `NotARow` and `Memory`.
pub fn read_primitive(
    alloc: Global,
    words: &mut Words<'_>,
    forest: &Forest,
    turn: u64,
    next: u64,
) -> Result<Brought, RowFault>
    requires { next ≤ 2 ^ 62 }
    ensures { IfOk result (λ brought. Brings next brought) }
{
    let kind = words.plain()?;
    let target = read_target(words, forest, turn)?;
    let primitive = match kind {
        "delete" => Primitive::Delete(target),
        "replaceValue" => Primitive::ReplaceValue(target, words.text(alloc)?),
        "rename" => Primitive::Rename(target, words.text(alloc)?),
        _ => return with_trees(alloc, words, kind, target, next),
    };
    Ok(Brought { primitive, next })
}

/// The primitive of that kind with trees that the words spell.
fn with_trees(
    alloc: Global,
    words: &mut Words<'_>,
    kind: &str,
    target: NodeId,
    next: u64,
) -> Result<Brought, RowFault>
    requires { next ≤ 2 ^ 62 }
    ensures { IfOk result (λ brought. Brings next brought) }
{
    let grown = read_nodes(alloc, words, next, MOST_LEVELS)?;
    let next = grown.next;
    let primitive = of_trees(kind, target, grown.into_trees()?)?;
    Ok(Brought { primitive, next })
}

/// The primitive of that kind with these trees.
fn of_trees(kind: &str, target: NodeId, trees: Vec<Tree>) -> Result<Primitive, RowFault>
    ensures { IfOk result (λ primitive. trees_of (primitive_term primitive) ≡ all_of trees.items) }
{
    match kind {
        "insertBefore" => Ok(Primitive::InsertBefore(target, trees)),
        "insertAfter" => Ok(Primitive::InsertAfter(target, trees)),
        "insertInto" => Ok(Primitive::InsertInto(target, trees)),
        "insertIntoAsFirst" => Ok(Primitive::InsertIntoAsFirst(target, trees)),
        "insertIntoAsLast" => Ok(Primitive::InsertIntoAsLast(target, trees)),
        "insertAttributes" => Ok(Primitive::InsertAttributes(target, trees)),
        "replaceNode" => Ok(Primitive::ReplaceNode(target, trees)),
        "replaceElementContent" => Ok(Primitive::ReplaceElementContent(target, trees)),
        _ => Err(RowFault::NotARow),
    }
}
