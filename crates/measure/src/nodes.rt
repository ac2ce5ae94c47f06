//! Trees that are printed and compared.

ghost use Rattle.std.specs.Prelude.{◌≢◌, ◌≤◌, length, IsSome};
ghost use Rattle.data_model.specs.Trees.{children_of, find};
ghost use Rattle.shelves.specs.Shelf.{shelf_trees};

use document_names::Names;
use shelves::Shelf;
use std::alloc::Global;
use trees::{Forest, Kind, NodeId};
use values::{Atom, Comparison, Item, LimitedText, Text, atomize, compare_general, push_item};

/// The bytes that a printed document has at most.
const MOST_PRINTED: usize = 1 << 30;

/// The bytes of each text.
const TEXT: &str = "some text";

/// How many nodes are put between siblings, one after the other.
const PUTS: u32 = 100_000;

/// How many pairs of nodes are compared.
const PAIRS: u32 = 1_000_000;

/// How many levels a deep tree has below its document.
const LEVELS: u32 = 59;

/// How often nodes are put in order, one in how many children.
const TURNS: u32 = 10;

const APART: usize = 5;

/// A forest of one empty document.
fn opening(alloc: Global) -> Option<Forest> {
    let mut names = Vec::new(alloc);
    names.push(String::from_str(alloc, "db").ok()?).ok()?;
    Forest::new(alloc, &Names::new(alloc, &names).ok()?).ok()
}

/// A document with elements that have a text each, so many nodes beside the document.
pub fn made(alloc: Global, count: u32) -> Option<Forest> {
    let mut forest = opening(alloc)?;
    fill(alloc, &mut forest, count)?;
    Some(forest)
}

/// Makes elements that have a text each, children of the document: so many nodes.
fn fill(alloc: Global, forest: &mut Forest, count: u32) -> Option<()> {
    for _ in 0..count / 2 {
        let document = forest.document("db")?;
        let element = put(alloc, forest, document, usize::MAX, Kind::Element)?;
        if forest.has(element) {
            put(alloc, forest, element, usize::MAX, Kind::Text)?;
        }
    }
    Some(())
}

/// Makes so many elements, children of the document.
fn put_siblings(alloc: Global, forest: &mut Forest, count: u32) -> Option<()> {
    for _ in 0..count {
        let document = forest.document("db")?;
        put(alloc, forest, document, usize::MAX, Kind::Element)?;
    }
    Some(())
}

/// The index, or how many children the node has, where those are fewer.
fn index_among(forest: &Forest, parent: NodeId, index: usize) -> usize
    requires { IsSome (find parent forest.now.trees) }
    ensures { result ≤ length (children_of parent forest.now.trees) }
{
    index.min(forest.children(parent).len())
}

/// Makes an element or a text, a child of another node before which `index` children stand, or all where there are fewer.
fn put(
    alloc: Global,
    forest: &mut Forest,
    parent: NodeId,
    index: usize,
    kind: Kind,
) -> Option<NodeId>
    requires there { IsSome (find parent forest.old.trees) }
    requires other { kind ≢ Kind.Document }
{
    let index = index_among(forest, parent, index);
    let (name, text) = if kind == Kind::Text {
        ("", TEXT)
    } else {
        ("item", "")
    };
    let name = String::from_str(alloc, name).ok()?;
    let text = String::from_str(alloc, text).ok()?;
    forest.facts();
    let node = match forest.make(alloc, kind, name, text) {
        Ok(node) => node,
        Err(_) => return None,
    };
    forest.put_children(parent, index, &[node]).ok()?;
    Some(node)
}

/// How many elements were put in the middle of so many siblings and taken out again; or else only made, with no parent.
pub fn put_between(alloc: Global, siblings: u32, are_put: bool) -> Option<u32> {
    let mut forest = opening(alloc)?;
    put_in(alloc, &mut forest, siblings, are_put)
}

/// The same in a forest of one empty document.
fn put_in(alloc: Global, forest: &mut Forest, siblings: u32, are_put: bool) -> Option<u32> {
    put_siblings(alloc, forest, siblings)?;
    let middle = siblings as usize / 2;
    for _ in 0..PUTS {
        let document = forest.document("db")?;
        let node = if are_put {
            put(alloc, forest, document, middle, Kind::Element)?
        } else {
            make(alloc, forest)?
        };
        if forest.has(node) && forest.parent(node).is_some() {
            forest.take_out(node);
        }
    }
    Some(PUTS)
}

/// Makes an element with no parent.
fn make(alloc: Global, forest: &mut Forest) -> Option<NodeId> {
    let name = String::from_str(alloc, "item").ok()?;
    let text = String::new(alloc);
    forest.make(alloc, Kind::Element, name, text).ok()
}

/// How many of so many siblings, one after the other and again from the first, come before the last one; or else only whether each stands there.
pub fn siblings_compared(alloc: Global, siblings: u32, are_compared: bool) -> Option<u32> {
    let mut forest = opening(alloc)?;
    compare_in(alloc, &mut forest, siblings, are_compared)
}

/// The same in a forest of one empty document.
fn compare_in(
    alloc: Global,
    forest: &mut Forest,
    siblings: u32,
    are_compared: bool,
) -> Option<u32> {
    put_siblings(alloc, forest, siblings)?;
    compare_children(forest, forest.document("db")?, are_compared)
}

/// The same of so many siblings as far down as a tree may be.
pub fn deep_compared(alloc: Global, siblings: u32, are_compared: bool) -> Option<u32> {
    let mut forest = opening(alloc)?;
    compare_deep(alloc, &mut forest, siblings, are_compared)
}

/// The same in a forest of one empty document.
fn compare_deep(
    alloc: Global,
    forest: &mut Forest,
    siblings: u32,
    are_compared: bool,
) -> Option<u32> {
    let mut parent = forest.document("db")?;
    for _ in 1..LEVELS {
        parent = put_last(alloc, forest, parent)?;
    }
    for _ in 0..siblings {
        put_last(alloc, forest, parent)?;
    }
    compare_children(forest, parent, are_compared)
}

/// Makes an element, the last child of another node.
fn put_last(alloc: Global, forest: &mut Forest, parent: NodeId) -> Option<NodeId> {
    if !forest.has(parent) {
        return None;
    }
    put(alloc, forest, parent, usize::MAX, Kind::Element)
}

/// How many children of a node come before its last one, one after the other and again from the first.
fn compare_children(forest: &Forest, parent: NodeId, are_compared: bool) -> Option<u32> {
    if !forest.has(parent) {
        return None;
    }
    let children = forest.children(parent);
    let last = *children.last()?;
    if !forest.has(last) {
        return None;
    }
    let mut earlier: u32 = 0;
    for turn in 0..PAIRS {
        let node = *children.get(turn as usize % children.len())?;
        if forest.has(node) && (!are_compared || forest.before(node, last)) {
            earlier = earlier.saturating_add(1);
        }
    }
    Some(earlier)
}

/// How many nodes of a document were put in order some times, the last one first; or else only copied.
pub fn ordered(alloc: Global, count: u32, are_ordered: bool) -> Option<u32> {
    let forest = made(alloc, count)?;
    order_in(alloc, &forest, are_ordered)
}

/// The same in a forest that is made.
fn order_in(alloc: Global, forest: &Forest, are_ordered: bool) -> Option<u32> {
    let nodes = apart(alloc, forest)?;
    let mut total: u32 = 0;
    for _ in 0..TURNS {
        total = total.saturating_add(order_once(alloc, forest, &nodes, are_ordered)?);
    }
    Some(total)
}

/// One child of the document in some, the last one first.
fn apart(alloc: Global, forest: &Forest) -> Option<Vec<NodeId>> {
    let document = forest.document("db")?;
    if !forest.has(document) {
        return None;
    }
    let mut nodes = Vec::new(alloc);
    for (index, node) in forest.children(document).iter().enumerate() {
        if index % APART == 0 {
            nodes.push(*node).ok()?;
        }
    }
    nodes.reverse();
    Some(nodes)
}

/// How many nodes were put in order, or else only copied.
fn order_once(alloc: Global, forest: &Forest, nodes: &[NodeId], are_ordered: bool) -> Option<u32> {
    let mut copy = Vec::new(alloc);
    copy.extend_from_slice(nodes).ok()?;
    let copy = if are_ordered {
        forest.document_order(alloc, copy).ok()?
    } else {
        copy
    };
    u32::try_from(copy.len()).ok()
}

/// How many bytes the printed document has.
pub fn printed(alloc: Global, count: u32) -> Option<u32> {
    let forest = made(alloc, count)?;
    print_on(alloc, &Shelf::new(alloc, &forest))
}

/// The same on a shelf.
fn print_on(alloc: Global, shelf: &Shelf) -> Option<u32> {
    let document = shelf.document("db")?;
    if !shelf.has(document) {
        return None;
    }
    u32::try_from(text_of(alloc, shelf, document)?.len()).ok()
}

/// The printed text of a node.
fn text_of(alloc: Global, shelf: &Shelf, id: NodeId) -> Option<String>
    requires { IsSome (find id (shelf_trees shelf.now)) }
{
    let mut out = LimitedText::new(alloc, MOST_PRINTED);
    push_item(alloc, &mut out, shelf, &Item::Node(id)).ok()?;
    out.into_text()
}

/// How many of the document's elements have another text than they have.
pub fn compared(alloc: Global, count: u32) -> Option<u32> {
    let forest = made(alloc, count)?;
    compare_on(alloc, &Shelf::new(alloc, &forest))
}

/// The same on a shelf.
fn compare_on(alloc: Global, shelf: &Shelf) -> Option<u32> {
    let other = [Atom::String(Text::new(String::from_str(alloc, "other").ok()?))];
    let mut turns = 1_000_000;
    let mut work = 100_000_000;
    let mut equal: u32 = 0;
    let document = shelf.document("db")?;
    if !shelf.has(document) {
        return None;
    }
    for id in shelf.children(document) {
        if shelf.has(*id) {
            let atoms = typed_value(alloc, shelf, *id)?;
            if compare_general(
                alloc,
                Comparison::Equal,
                &atoms,
                &other,
                &mut turns,
                &mut work,
            )
            .ok()?
            {
                equal = equal.saturating_add(1);
            }
        }
    }
    Some(equal)
}

/// The typed value of a node.
fn typed_value(alloc: Global, shelf: &Shelf, id: NodeId) -> Option<Vec<Atom>>
    requires { IsSome (find id (shelf_trees shelf.now)) }
{
    atomize(alloc, shelf, &[Item::Node(id)]).ok()
}
