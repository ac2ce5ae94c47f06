//! The children of many nodes that are elements of a name, sought by the name and not by going through the children of each.

ghost use Rattle.std.specs.Prelude.{◌≡◌, ℕ, ◌++◌, ◌∷◌, [], cond, eqb, filter, IfOk, IfSome, OnOk};
ghost use Rattle.data_model.specs.Axes.{is_child, is_parent_at};
ghost use Rattle.shelves.specs.Shelf.{shelf_trees};
ghost use Rattle.query_grammar.specs.declared.ast.NodeTest.{NodeTest};
ghost use Rattle.query_meaning.specs.Paths.{looked_at, tested_nodes};
ghost use Rattle.query_meaning.specs.Running.{trees_of};
ghost use Rattle.query_steps.specs.ByParent.{ListsChildren, listed_of, lists_of};

use crate::listing::Listing;
use crate::node_tests::passing;
use evaluation::Evaluation;
use indexmap::IndexMap;
use query_grammar::NodeTest;
use shelves::{Shelf, ShelfCursor};
use std::alloc::{AllocError, Global};
use std::marker::Model;
use trees::{Axis, NodeId};
use values::Item;

/// The children of fewer nodes than these are gone through.
const FEWEST_NODES: usize = 8;

/// Where more elements than so many for each node are listed, no child is counted, so that what gains nothing costs next to nothing.
const ELEMENTS_A_NODE: usize = 4;

/// How many children are gone through in the time in which one element is put among those of its parent.
const CHILDREN_AN_ELEMENT: u64 = 8;

/// Nodes by the nodes whose children they are. Contracts see them as lists, each with the node that it is of.
pub struct NamedChildren {
    lists: IndexMap<u64, Vec<NodeId>>,
}

// By one call, whose contract is all that a caller's proof sees of it.
impl Drop for NamedChildren {
    fn drop(self) {
        let NamedChildren { lists: _ } = self;
    }
}

impl Model for NamedChildren {
    ghost use Rattle.std.specs.Prelude.{ℕ, List};
    ghost use Rattle.std.specs.Coded.{coded×, coded_list, coded_ℕ};
    ghost use Rattle.query_steps.specs.ByParent.{lists_of};

    ghost Value = { List (ℕ × List ℕ) };

    ghost coded = { coded_list (coded× coded_ℕ (coded_list coded_ℕ)) };

    ghost view = { λ c. lists_of c.lists.entries };
}

/// What the step `child::NAME` gives from a node.
#[derive(Clone, Copy)]
pub struct ListedChildren<'c> {
    /// The nodes, in document order.
    pub nodes: &'c [NodeId],
    /// How many nodes it looks at, whichever of them pass: its work.
    pub looked_at: u64,
}

impl NamedChildren {
    /// None of any node. It takes no memory.
    fn new(alloc: Global) -> NamedChildren
        ensures { result ≡ [] }
    {
        NamedChildren {
            lists: IndexMap::new(alloc),
        }
    }

    /// What is listed of a node.
    fn list(&self, node: NodeId) -> &[NodeId]
        ensures { result.now ≡ listed_of node self.now }
    {
        match self.lists.get(&node.number()) {
            Some(list) => list.as_slice(),
            None => &[],
        }
    }

    /// Lists a node after those of its parent, if it is a child. It fails where memory is refused; what is listed then isn't said.
    fn add(&mut self, alloc: Global, shelf: &Shelf, node: NodeId) -> Result<(), AllocError>
        ensures { OnOk result
            ((p : ℕ) → listed_of p self.new ≡ listed_of p self.old ++ filter (is_child (shelf_trees shelf.now) p) (node ∷ [])) }
    {
        match whose_child(shelf, node) {
            Some(parent) => push_under(&mut self.lists, alloc, parent, node),
            None => Ok(()),
        }
    }

    /// What the step gives from a node of the lent forest, by one look-up, where these are the children for its test; `None` for any other node.
    pub fn of<'c>(&'c self, run: &Evaluation, node: NodeId) -> Option<ListedChildren<'c>>
        ensures nodes { IfSome result
            (λ l. (test : NodeTest)
            → ListsChildren test run.now.shelf self.now
            → l.nodes.now ≡ tested_nodes Axis.Child test node (trees_of run.now)) }
        ensures looked { IfSome result (λ l. l.looked_at ≡ looked_at Axis.Child node (trees_of run.now)) }
    {
        let shelf = run.shelf();
        shelf.facts();
        if shelf.is_own(node) {
            return None;
        }
        let Some(view) = shelf.node(node) else {
            return None;
        };
        Some(ListedChildren {
            nodes: self.list(node),
            looked_at: view.children.len() as u64,
        })
    }
}

/// Puts a node at the end of the list of another. It fails where memory is refused; what is listed then isn't said.
fn push_under(
    lists: &mut IndexMap<u64, Vec<NodeId>>,
    alloc: Global,
    parent: NodeId,
    node: NodeId,
) -> Result<(), AllocError>
    ensures { OnOk result
        ((p : ℕ) → listed_of p (lists_of lists.new.entries)
        ≡ cond (eqb parent p) (listed_of p (lists_of lists.old.entries) ++ node ∷ []) (listed_of p (lists_of lists.old.entries))) }
{
    let key = parent.number();
    if let Some(list) = lists.get_mut(&key) {
        list.push(node)?;
        return Ok(());
    }
    let mut list = Vec::new(alloc);
    list.push(node)?;
    lists.insert(key, list)?;
    Ok(())
}

/// The node whose child a node is: its parent, where it is no attribute of that.
fn whose_child(shelf: &Shelf, node: NodeId) -> Option<NodeId>
    ensures { (p : ℕ) → is_parent_at result p ≡ is_child (shelf_trees shelf.now) p node }
{
    shelf.facts();
    let Some(view) = shelf.node(node) else {
        return None;
    };
    let Some(parent) = view.parent else {
        return None;
    };
    if shelf.attributes(parent).contains(&node) {
        return None;
    }
    Some(parent)
}

/// Nodes by the nodes whose children they are, in their order; those that are no children are left out. It fails where memory is refused.
fn by_parent(alloc: Global, shelf: &Shelf, nodes: &[NodeId]) -> Result<NamedChildren, AllocError>
    ensures { IfOk result (λ lists. (p : ℕ) → listed_of p lists ≡ filter (is_child (shelf_trees shelf.now) p) nodes.now) }
{
    let mut lists = NamedChildren::new(alloc);
    for node in nodes {
        lists.add(alloc, shelf, *node)?;
    }
    Ok(lists)
}

/// For each node of the lent forest its children that pass the test, where that is a name; `None` where the lent forest keeps no elements of it, or
/// where it is better to go through the children of those nodes that are given. It fails where memory is refused.
pub fn children_named(
    run: &Evaluation,
    test: &NodeTest,
    items: &[Item],
) -> Result<Option<NamedChildren>, AllocError>
    ensures { IfOk result (λ found. IfSome found (λ children. ListsChildren test.now run.now.shelf children)) }
{
    let NodeTest::Name(name) = test else {
        return Ok(None);
    };
    let (alloc, shelf) = (run.alloc(), run.shelf());
    let Some(ids) = shelf.elements_named(name.as_str()) else {
        return Ok(None);
    };
    if !is_faster(shelf, items, ids.len()) {
        return Ok(None);
    }
    shelf.facts();
    let Listing {
        nodes: named,
        looked_at: _,
    } = passing(alloc, shelf, Axis::Child, test, ids)?;
    let ordered = shelf.document_order(alloc, named)?;
    Ok(Some(by_parent(alloc, shelf, &ordered)?))
}

/// Whether so many elements are put among the children of their parents sooner than the children of some nodes are gone through.
fn is_faster(shelf: &Shelf, items: &[Item], elements: usize) -> bool {
    if items.len() < FEWEST_NODES || elements / ELEMENTS_A_NODE > items.len() {
        return false;
    }
    have_children(
        &mut shelf.cursor(),
        items,
        (elements as u64).saturating_mul(CHILDREN_AN_ELEMENT),
    )
}

/// Whether some nodes have so many children or more. It looks at no more of them than tell it.
fn have_children(cursor: &mut ShelfCursor, items: &[Item], least: u64) -> bool {
    let mut left = least;
    for item in items {
        if left == 0 {
            return true;
        }
        left = left.saturating_sub(child_count(cursor, item));
    }
    left == 0
}

/// How many children a node has.
fn child_count(cursor: &mut ShelfCursor, item: &Item) -> u64 {
    let Item::Node(node) = item else {
        return 0;
    };
    match cursor.node(*node) {
        Some(view) => view.children.len() as u64,
        None => 0,
    }
}
