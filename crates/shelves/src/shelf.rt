//! Shelves: a lent forest and an own one, seen as one.

ghost use Rattle.std.specs.Prelude.{◌≡◌, ℕ, ◌+◌, ◌<◌, ◌≤◌, ◌^◌, ◌↔◌, Option, Some, None, IfOk, IfSome, IfNone, IsSome, IsTrue, [], true, filter, is_some, string_bytes, option_map, nat_le, nat_lt};
ghost use Rattle.std.specs.List.{list_all};
ghost use Rattle.std.specs.Map.{lookup};
ghost use Rattle.std.specs.Str.{bytes_eq};
ghost use Rattle.data_model.specs.Trees.{no_trees, find, bytes_in, size, children_of, attributes_of, parent_of, string_value_of, text_within, IsAt};
ghost use Rattle.data_model.specs.Changes.{pick};
ghost use Rattle.data_model.specs.declared.node.Kind.TheVariants.{Element};
ghost use Rattle.data_model.specs.Order.{identities, precedes};
ghost use Rattle.data_model.specs.Views.{Views};
ghost use Rattle.data_model.specs.Axes.{is_in};
ghost use Rattle.node_table.specs.Plain.{IsPlainValue};
ghost use Rattle.trees.specs.Forest.{IsDocument};
ghost use Rattle.shelves.specs.Shelf.{ShelfTerm, shelf_trees, ComesAfter, IsShelf};
ghost use Rattle.data_model.specs.Tree.{trees_of_tree};

use super::cursor::ShelfCursor;
use std::alloc::{AllocError, Global};
use std::marker::Model;
use std::mem;
use trees::{Forest, Kind, NodeId, NodeView, PlainValue, Tree};

/// A lent forest that stays as it is, and an own forest of the nodes that are made beside it, seen as one.
///
/// What evaluation makes stands in the own forest, whose identities come after all of the lent one's; it has no documents.
pub struct Shelf<'a> {
    pub(super) lent: &'a Forest,
    pub(super) own: Forest,
}

// By one call, whose contract is all that a caller's proof sees of it.
impl Drop for Shelf<'_> {
    fn drop(self) {
        let Shelf { lent: _, own: _ } = self;
    }
}

impl<'a> Model for Shelf<'a> {
    ghost use Rattle.shelves.specs.Shelf.{ShelfTerm, shelf_code};

    ghost Value = { ShelfTerm };

    ghost coded = { shelf_code };

    ghost use Rattle.shelves.specs.Within.{shelf_of, IsSoundShelf};

    ghost view = { shelf_of };

    ghost invariant = { IsSoundShelf };
}

impl<'a> Shelf<'a> {
    /// A shelf of a lent forest, with no nodes of its own. The first of them takes the lent forest's next identity.
    pub fn new(alloc: Global, lent: &'a Forest) -> Shelf<'a>
        ensures { result
            ≡ record {
              lent = lent.now;
              own = record { trees = no_trees; documents = []; next = lent.now.next };
            } }
    {
        lent.bounds();
        Shelf {
            lent,
            own: Forest::empty(alloc, lent.next()),
        }
    }

    /// The own forest, alone.
    pub fn into_own(self) -> Forest
        ensures { result ≡ self.entry.own }
    {
        let Shelf { lent: _, own } = self;
        own
    }

    /// Takes the own forest out, and leaves one with no nodes in its place, whose first node takes the identity that was next. It takes no
    /// memory.
    pub fn take_own(&mut self, alloc: Global) -> Forest
        ensures taken { result ≡ self.old.own }
        ensures left { self.new ≡ record self.old { own = record { trees = no_trees; documents = []; next = self.old.own.next } } }
    {
        self.own.bounds();
        let empty = Forest::empty(alloc, self.own.next());
        mem::replace(&mut self.own, empty)
    }

    /// Puts another own forest in the place of this one, which is dropped.
    pub fn put_own(&mut self, own: Forest)
        requires { ComesAfter self.old.lent own }
        ensures { self.new ≡ record self.old { own = own } }
    {
        self.own = own;
    }

    /// Identities are distinct and below the next one, both forests are sound, and the own identities come after the lent ones. It does nothing.
    pub fn facts(&self)
        ensures { IsShelf self.now }
    {
        self.lent.facts();
        self.own.facts();
    }

    /// The document of that name, which is the lent forest's.
    pub fn document(&self, name: &str) -> Option<NodeId>
        ensures found { result ≡ lookup (λ key. bytes_eq name.now key) self.now.lent.documents }
        ensures stands { IfSome result (IsDocument (shelf_trees self.now)) }
        ensures sound { IsShelf self.now }
    {
        self.facts();
        self.lent.document(name)
    }

    /// How many nodes there are, attributes and documents counted. It does not count them anew.
    pub fn len(&self) -> u64
        ensures { result ≡ size (shelf_trees self.now) }
    {
        self.lent.bounds();
        self.own.bounds();
        self.lent.len() + self.own.len()
    }

    /// The identity that the next node takes.
    pub fn next(&self) -> NodeId
        ensures { result ≡ self.now.own.next }
    {
        self.own.next()
    }

    /// How many identities own nodes have taken, or were set aside for them.
    pub fn made(&self) -> u64
        ensures { self.now.lent.next + result ≡ self.now.own.next }
    {
        self.own.next().number() - self.lent.next().number()
    }

    /// Lets the next own node take a later identity. It takes no memory.
    pub fn raise_next(&mut self, next: NodeId)
        requires later { self.old.own.next ≤ next }
        requires bound { next ≤ 2 ^ 62 }
        ensures { self.new ≡ record self.old { own = record self.old.own { next = next } } }
    {
        self.own.raise_next(next);
    }

    /// Whether a node of that identity stands in either forest.
    pub fn has(&self, id: NodeId) -> bool
        ensures { result ≡ is_some (find id (shelf_trees self.now)) }
    {
        self.home(id).has(id)
    }

    /// Whether a node of that identity stands in the own forest.
    pub fn is_own(&self, id: NodeId) -> bool
        ensures { result ≡ is_some (find id self.now.own.trees) }
    {
        self.own.has(id)
    }

    /// The forest in which a node of that identity stands, if one does. The identity tells: those of own nodes come after all of the lent forest.
    fn home(&self, id: NodeId) -> &Forest
        ensures { find id result.now.trees ≡ find id (shelf_trees self.now) }
    {
        self.lent.facts();
        let first = self.lent.next().number();
        if id.number() < first {
            self.lent
        } else {
            &self.own
        }
    }

    /// Identities among which those of all elements of a name in the lent forest are; `None` where that forest keeps none. Others may be among them, and
    /// one may stand there twice. Own nodes need not be.
    pub fn elements_named(&self, name: &str) -> Option<&[NodeId]>
        ensures { IfSome result
            (λ ids. (i : ℕ)
            → IsAt (find i self.now.lent.trees) (λ c. (c.kind ≡ Element) × (c.name ≡ name.now))
            → is_in i ids.now ≡ true) }
    {
        self.lent.elements_named(name)
    }

    /// What a node says of itself and which nodes stand round it, by one look-up; `None` where none of that identity stands in either forest.
    pub fn node(&self, id: NodeId) -> Option<NodeView<'_>>
        ensures { Views result (find id (shelf_trees self.now)) }
    {
        self.home(id).node(id)
    }

    /// What looks nodes up one after the other.
    pub fn cursor(&self) -> ShelfCursor<'_>
        ensures { result ≡ shelf_trees self.now }
    {
        self.facts();
        ShelfCursor::new(
            self.lent.cursor(),
            self.own.cursor(),
            self.lent.next().number(),
        )
    }

    /// The kind of a node.
    pub fn kind(&self, id: NodeId) -> Kind
        requires { IsSome (find id (shelf_trees self.now)) }
        ensures { IsAt (find id (shelf_trees self.now)) (λ c. result ≡ c.kind) }
    {
        self.home(id).kind(id)
    }

    /// The name of a node, empty where its kind has none.
    pub fn name(&self, id: NodeId) -> &str
        requires { IsSome (find id (shelf_trees self.now)) }
        ensures { IsAt (find id (shelf_trees self.now)) (λ c. result.now ≡ c.name) }
    {
        self.home(id).name(id)
    }

    /// The text of an attribute, a text, a comment or a processing instruction; empty for other kinds.
    pub fn text(&self, id: NodeId) -> &str
        requires { IsSome (find id (shelf_trees self.now)) }
        ensures { IsAt (find id (shelf_trees self.now)) (λ c. result.now ≡ c.text) }
    {
        self.home(id).text(id)
    }

    /// The parent of a node.
    pub fn parent(&self, id: NodeId) -> Option<NodeId>
        requires { IsSome (find id (shelf_trees self.now)) }
        ensures { result ≡ parent_of id (shelf_trees self.now) }
    {
        self.home(id).parent(id)
    }

    /// The children of a node, in document order.
    pub fn children(&self, id: NodeId) -> &[NodeId]
        requires { IsSome (find id (shelf_trees self.now)) }
        ensures { result.now ≡ children_of id (shelf_trees self.now) }
    {
        self.home(id).children(id)
    }

    /// The attributes of a node, in their list's order.
    pub fn attributes(&self, id: NodeId) -> &[NodeId]
        requires { IsSome (find id (shelf_trees self.now)) }
        ensures { result.now ≡ attributes_of id (shelf_trees self.now) }
    {
        self.home(id).attributes(id)
    }

    /// What the typed value of a node is made of, where its string value stands in one text, as `Forest::plain_value` gives it; `None` elsewhere. It
    /// takes no memory.
    pub fn plain_value(&self, id: NodeId) -> Option<PlainValue<'_>>
        requires { IsSome (find id (shelf_trees self.now)) }
        ensures { IfSome result (IsPlainValue (shelf_trees self.now) id) }
    {
        self.facts();
        let home = self.home(id);
        home.facts();
        home.plain_value(id)
    }

    /// The string value of a node (XQuery 1.0 and XPath 2.0 Data Model, section 5.13).
    ///
    /// It fails where memory is refused.
    pub fn string_value(&self, alloc: Global, id: NodeId) -> Result<String, AllocError>
        requires { IsSome (find id (shelf_trees self.now)) }
        ensures { IfOk result (λ s. string_bytes s ≡ string_value_of id (shelf_trees self.now)) }
    {
        self.home(id).string_value(alloc, id)
    }

    /// The string value of a node where it has at most `most` bytes, and `None` where it has more.
    ///
    /// It gathers no more than `Forest::string_value_within` does (no clause here says so). It fails where memory is refused, which says
    /// nothing of the value.
    pub fn string_value_within(
        &self,
        alloc: Global,
        id: NodeId,
        most: usize,
    ) -> Result<Option<String>, AllocError>
        requires { IsSome (find id (shelf_trees self.now)) }
        ensures { IfOk result (λ s. option_map string_bytes s ≡ text_within most (string_value_of id (shelf_trees self.now))) }
    {
        self.home(id).string_value_within(alloc, id, most)
    }

    /// The tree of a node as one of its own, with the same identities.
    ///
    /// It fails where memory is refused.
    pub fn tree(&self, alloc: Global, id: NodeId) -> Result<Tree, AllocError>
        requires { IsSome (find id (shelf_trees self.now)) }
        ensures { IfOk result (λ t. trees_of_tree t ≡ pick id (shelf_trees self.now)) }
    {
        self.facts();
        let home = self.home(id);
        home.facts();
        home.tree(alloc, id)
    }

    /// How many nodes the tree of a node has, attributes counted. They are counted anew.
    pub fn size_of(&self, id: NodeId) -> u64
        requires { IsSome (find id (shelf_trees self.now)) }
        ensures { result ≡ size (pick id (shelf_trees self.now)) }
    {
        self.facts();
        let home = self.home(id);
        home.facts();
        home.size_of(id)
    }

    /// How many nodes the tree of a root of the lent forest has, itself and attributes counted; `None` where that forest does not keep it, or has no
    /// such node. It does not count them.
    pub fn tree_size(&self, root: NodeId) -> Option<u64>
        ensures size { IfSome result (λ n. n ≡ size (pick root (shelf_trees self.now))) }
        ensures lent { IfSome result (λ _. IsSome (find root self.now.lent.trees)) }
    {
        self.facts();
        match self.lent.tree_size(root) {
            Some(size) if self.lent.has(root) => Some(size),
            _ => None,
        }
    }

    /// What is left of so many bytes without those of all texts in the tree of a node; `None` where they are more.
    pub fn without_texts(&self, id: NodeId, bytes: u64) -> Option<u64>
        requires { IsSome (find id (shelf_trees self.now)) }
        ensures left { IfSome result (λ left. left + bytes_in (pick id (shelf_trees self.now)) ≡ bytes) }
        ensures more { IfNone result (bytes < bytes_in (pick id (shelf_trees self.now))) }
    {
        self.facts();
        let home = self.home(id);
        home.facts();
        home.without_texts(id, bytes)
    }

    /// Whether the tree of a node has at most so many nodes. They are counted only where its forest has more.
    pub fn is_within(&self, id: NodeId, nodes: u64) -> bool
        requires { IsSome (find id (shelf_trees self.now)) }
        ensures { IsTrue result ↔ (size (pick id (shelf_trees self.now)) ≤ nodes) }
    {
        self.facts();
        let home = self.home(id);
        home.facts();
        home.is_within(id, nodes)
    }

    /// Whether the node `a` comes before the node `b` in document order. Nodes of the lent forest come before the own ones.
    pub fn before(&self, a: NodeId, b: NodeId) -> bool
        requires has_a { IsSome (find a (shelf_trees self.now)) }
        requires has_b { IsSome (find b (shelf_trees self.now)) }
        ensures { result ≡ precedes a b (shelf_trees self.now) }
    {
        self.lent.facts();
        match (self.is_own(a), self.is_own(b)) {
            (false, false) => self.lent.before(a, b),
            (false, true) => true,
            (true, false) => false,
            (true, true) => self.own.before(a, b),
        }
    }

    /// The nodes of a list in document order, each once (XQuery 1.0 and XPath 2.0 Data Model, section 2.4): those of the lent forest,
    /// then the own ones. Those that stand in neither are left out.
    ///
    /// It takes what `Forest::document_order` does, in each forest that may have some of them, as their numbers tell. Where memory is
    /// refused, the list is gone.
    pub fn document_order(&self, alloc: Global, ids: Vec<NodeId>) -> Result<Vec<NodeId>, AllocError>
        ensures { IfOk result (λ nodes. nodes.items ≡ filter (λ i. is_in i ids.items) (identities (shelf_trees self.now))) }
    {
        if self.own.len() == 0 {
            return self.lent.document_order(alloc, ids);
        }
        self.facts();
        let first = self.lent.next();
        if are_below(&ids, first) {
            return self.lent.document_order(alloc, ids);
        }
        if are_from(&ids, first) {
            return self.own.document_order(alloc, ids);
        }
        let mut own = self.own.document_order(alloc, ids.clone()?)?;
        let mut nodes = self.lent.document_order(alloc, ids)?;
        nodes.append(&mut own)?;
        Ok(nodes)
    }
}

/// Whether all of these identities have lower numbers than that one.
fn are_below(ids: &[NodeId], first: NodeId) -> bool
    ensures { result ≡ list_all (λ i. nat_lt i first) ids.now }
{
    let first = first.number();
    ids.iter().all(|id| id.number() < first)
}

/// Whether none of these identities has a lower number than that one.
fn are_from(ids: &[NodeId], first: NodeId) -> bool
    ensures { result ≡ list_all (λ i. nat_le first i) ids.now }
{
    let first = first.number();
    ids.iter().all(|id| id.number() >= first)
}
