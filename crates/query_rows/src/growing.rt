//! Forests that rows describe: the empty document `db`, of identity 1, and then node after node, whose identities are 2, 3, ..

ghost use Rattle.std.specs.Prelude.{◌≢◌, IsSome};
ghost use Rattle.data_model.specs.Trees.{find};

use document_names::{Names, NamesFault};
use rows::{RowFault, Words};
use std::alloc::Global;
use trees::{Forest, Kind, MakeFault, NodeId};

/// The most nodes that a row describes.
const MOST_NODES: u32 = 200_000;

/// The forest of the nodes that the words describe: `PARENT KIND NAME TEXT` for each, or `PARENT times N KIND NAME TEXT` for N equal ones,
/// which come last among the children or attributes of their parent. Faults: `Memory`; `NotARow` where a parent isn't there, or a kind is none or that of documents.
pub(super) fn grown(alloc: Global, words: Words<'_>) -> Result<Forest, RowFault> {
    let mut forest = opening(alloc)?;
    put_all(alloc, &mut forest, words)?;
    Ok(forest)
}

/// Puts the nodes that the words describe.
fn put_all(alloc: Global, forest: &mut Forest, words: Words<'_>) -> Result<(), RowFault> {
    let mut words = words;
    for _ in 0..MOST_NODES {
        if words.is_empty() {
            return Ok(());
        }
        put_next(alloc, forest, &mut words)?;
    }
    Err(RowFault::NotARow)
}

/// A forest of the empty document `db`.
fn opening(alloc: Global) -> Result<Forest, RowFault> {
    let mut texts = Vec::new(alloc);
    texts.push(String::from_str(alloc, "db")?)?;
    match Names::new(alloc, &texts) {
        Ok(names) => Ok(Forest::new(alloc, &names)?),
        Err(NamesFault::Memory) => Err(RowFault::Memory),
        Err(NamesFault::Wrong) => Err(RowFault::NotARow),
    }
}

/// Puts the next node, or so many equal ones where `times N` stands after the parent.
fn put_next(alloc: Global, forest: &mut Forest, words: &mut Words<'_>) -> Result<(), RowFault> {
    let parent = NodeId::new(words.number()?);
    let count = times(words)?;
    let kind = kind_of(words.plain()?)?;
    let name = words.text(alloc)?;
    let text = words.text(alloc)?;
    for _ in 0..count {
        if !forest.has(parent) || kind == Kind::Document {
            return Err(RowFault::NotARow);
        }
        put_last(alloc, forest, parent, kind, name.clone()?, text.clone()?)?;
    }
    Ok(())
}

/// `times N`, or once where it doesn't stand there.
fn times(words: &mut Words<'_>) -> Result<u64, RowFault> {
    let mut ahead = *words;
    if ahead.plain()? != "times" {
        return Ok(1);
    }
    *words = ahead;
    words.number()
}

/// Makes a node and puts it below another, as its last attribute or child.
fn put_last(
    alloc: Global,
    forest: &mut Forest,
    parent: NodeId,
    kind: Kind,
    name: String,
    text: String,
) -> Result<(), RowFault>
    requires there { IsSome (find parent forest.old.trees) }
    requires other { kind ≢ Kind.Document }
{
    forest.facts();
    let attributes = forest.attributes(parent).len();
    let children = forest.children(parent).len();
    let id = match forest.make(alloc, kind, name, text) {
        Ok(id) => id,
        Err(MakeFault::Limit) => return Err(RowFault::NotARow),
        Err(MakeFault::Memory) => return Err(RowFault::Memory),
    };
    if kind == Kind::Attribute {
        forest.put_attributes(parent, attributes, &[id])?;
    } else {
        forest.put_children(parent, children, &[id])?;
    }
    Ok(())
}

/// The kind of that name. Fault: `NotARow`.
pub(super) fn kind_of(name: &str) -> Result<Kind, RowFault> {
    match name {
        "document" => Ok(Kind::Document),
        "element" => Ok(Kind::Element),
        "attribute" => Ok(Kind::Attribute),
        "text" => Ok(Kind::Text),
        "comment" => Ok(Kind::Comment),
        "instruction" => Ok(Kind::Instruction),
        _ => Err(RowFault::NotARow),
    }
}

/// The name of a kind.
pub(super) fn name_of_kind(kind: Kind) -> &'static str {
    match kind {
        Kind::Document => "document",
        Kind::Element => "element",
        Kind::Attribute => "attribute",
        Kind::Text => "text",
        Kind::Comment => "comment",
        Kind::Instruction => "instruction",
    }
}
