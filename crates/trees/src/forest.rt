//! Forests: trees of nodes, documents by name, and the next identity.

ghost use Rattle.std.specs.Prelude.{◌≡◌, ℕ, List, ◌+◌, ◌<◌, ◌≤◌, ◌^◌, ◌↔◌, ◌-◌, Option, Some, None, IfOk, OnOk, IfSome, IfNone, IsSome, [], true, ◌∷◌, ◌++◌, is_some, string_bytes, IsTrue, option_map};
ghost use Rattle.std.specs.Map.{lookup};
ghost use Rattle.std.specs.Str.{bytes_eq};
ghost use Rattle.data_model.specs.Trees.{no_trees, append, leaf, find, bytes_in, count, size, children_of, attributes_of, parent_of, string_value_of, text_within, IsAt};
ghost use Rattle.data_model.specs.Changes.{pick};
ghost use Rattle.data_model.specs.Axes.{is_in};
ghost use Rattle.data_model.specs.declared.node.Kind.TheVariants.{Document, Element};
ghost use Rattle.trees.specs.Forest.{ForestTerm, IsForest, IsDocument, document_node, opening_forest};
ghost use Rattle.data_model.specs.Views.{Views};
ghost use Rattle.data_model.specs.Tree.{trees_of_tree};
ghost use Rattle.node_table.specs.Flat.{entry_in};
ghost use Rattle.node_table.specs.Plain.{IsPlainValue};
ghost use Rattle.node_table.specs.Rows.{entry_of_row};
ghost use Rattle.forest_index.specs.Named.{IsElement};
ghost use Rattle.forest_index.specs.Sized.{size_at};
ghost use Rattle.trees.specs.Drafted.{draft_of, IsDrafted};

use super::draft::Drafted;
use data_model::{Kind, NodeId, NodeView, Tree};
use document_names::Names;
use forest_index::ForestIndex;
use forest_index::name_lists::NameLists;
use indexmap::IndexMap;
use node_plans::plan::Plan;
use node_table::cursor::NodeCursor;
use node_table::plain::PlainValue;
use node_table::table::{Row, Rows};
use node_table::{tree, walk};
use row_pages::RowPages;
use std::alloc::{AllocError, Global};
use std::marker::Model;

/// Trees of nodes with distinct identities, documents by name in order, and the next identity.
///
/// Nodes lie in one flat table; a node that has no parent is the root of a tree of its own. A forest of documents, which changes by drafts alone, has
/// an index too: its elements by name, and the sizes of its trees.
pub struct Forest {
    pub(crate) rows: Rows,
    pub(crate) documents: IndexMap<String, NodeId>,
    pub(crate) next: u64,
    pub(crate) nodes: u64,
    pub(crate) index: Option<ForestIndex>,
    pub(crate) names: shared_texts::Names,
}

// By one call, whose contract is all that a caller's proof sees of it.
impl Drop for Forest {
    fn drop(self) {
        let Forest {
            rows: _,
            documents: _,
            next: _,
            nodes: _,
            index: _,
            names: _,
        } = self;
    }
}

impl Model for Forest {
    ghost use Rattle.trees.specs.Forest.{ForestTerm, forest_code};

    ghost Value = { ForestTerm };

    ghost coded = { forest_code };

    ghost use Rattle.trees.specs.Inside.{term_of, IsSound};

    ghost view = { term_of };

    ghost invariant = { IsSound };
}

/// Why no node was made.
#[derive(Clone, Copy, PartialEq, Eq, Debug)]
pub enum MakeFault {
    /// Memory was refused (1).
    Memory,
    /// The next identity would pass 2^62 (2).
    Limit,
}

impl Forest {
    /// A forest with no nodes, whose first node takes the identity `next`.
    pub fn empty(alloc: Global, next: NodeId) -> Forest
        requires { next ≤ 2 ^ 62 }
        ensures { result ≡ record { trees = no_trees; documents = []; next = next } }
    {
        Forest {
            rows: RowPages::new(alloc),
            documents: IndexMap::new(alloc),
            next: next.number(),
            nodes: 0,
            index: None,
            names: shared_texts::Names::new(alloc),
        }
    }

    /// Makes an empty document.
    fn add_document(&mut self, alloc: Global, name: &String) -> Result<(), AllocError>
        requires room { self.old.next < 2 ^ 62 }
        requires other { lookup (λ key. bytes_eq (string_bytes name.now) key) self.old.documents ≡ None }
        ensures { OnOk result
            (self.new
            ≡ record {
              trees = append self.old.trees (leaf (document_node self.old.next));
              documents = self.old.documents ++ (string_bytes name.now, self.old.next) ∷ [];
              next = self.old.next + 1;
            }) }
    {
        let name = name.clone()?;
        let text = String::new(alloc);
        match self.make(alloc, Kind::Document, String::new(alloc), text) {
            Ok(root) => {
                self.documents.insert(name, root)?;
                Ok(())
            }
            Err(_) => Err(AllocError),
        }
    }

    /// Keeps an index from now on, in a forest without elements whose trees have one node each, with the identities 1, 2 and so on. It fails where
    /// memory is refused.
    fn keep_index(&mut self, alloc: Global) -> Result<(), AllocError>
        requires elements { (n : List ℕ) (i : ℕ) → IsElement n (entry_in i self.old.trees) → ⊥ }
        requires sizes { (r : ℕ) → 1 ≤ r → r < self.old.next → size_at r self.old.trees ≡ 1 }
        ensures { self.new ≡ self.old }
    {
        self.index = Some(ForestIndex {
            names: NameLists::new(alloc),
            sizes: forest_index::single_sizes(alloc, self.next)?,
        });
        Ok(())
    }

    /// What a draft of this forest begins with.
    pub(super) fn drafted(self, alloc: Global, next: NodeId) -> Drafted
        requires later { self.next ≤ next }
        requires bound { next ≤ 2 ^ 62 }
        ensures drafted { IsDrafted result }
        ensures shown { draft_of result ≡ record { before = self; after = self.trees; next = next } }
    {
        let Forest {
            rows,
            documents,
            next: first,
            nodes,
            index,
            names,
        } = self;
        Drafted {
            rows,
            documents,
            first,
            nodes,
            index,
            names,
            plan: Plan::new(alloc),
            resized: RowPages::new(alloc),
            next: next.number(),
            count: nodes,
        }
    }

    /// A forest with an empty document for each name, in their order, with the identities 1, 2 and so on.
    ///
    /// It fails where memory is refused.
    pub fn new(alloc: Global, names: &Names) -> Result<Forest, AllocError>
        ensures opening { IfOk result (λ f. f ≡ opening_forest names.now) }
        ensures next { IfOk result (λ f. f.next ≤ 65) }
    {
        let mut forest = Forest::empty(alloc, NodeId::new(1));
        for name in names.as_slice() {
            forest.add_document(alloc, name)?;
        }
        forest.keep_index(alloc)?;
        Ok(forest)
    }

    /// The document of that name.
    pub fn document(&self, name: &str) -> Option<NodeId>
        ensures found { result ≡ lookup (λ key. bytes_eq name.now key) self.now.documents }
        ensures stands { IfSome result (IsDocument self.now.trees) }
        ensures sound { IsForest self.now }
    {
        self.documents.get(name).copied()
    }

    /// How many nodes there are, attributes and documents counted. It does not count them anew.
    pub fn len(&self) -> u64
        ensures { result ≡ size self.now.trees }
    {
        self.nodes
    }

    /// The identity that the next node takes.
    pub fn next(&self) -> NodeId
        ensures { result ≡ self.now.next }
    {
        NodeId::new(self.next)
    }

    /// Lets the next node take a later identity. It takes no memory.
    pub fn raise_next(&mut self, next: NodeId)
        requires later { self.old.next ≤ next }
        requires bound { next ≤ 2 ^ 62 }
        ensures { self.new ≡ record self.old { next = next } }
    {
        self.next = next.number();
    }

    /// Whether a node of that identity stands here.
    pub fn has(&self, id: NodeId) -> bool
        ensures { result ≡ is_some (find id self.now.trees) }
    {
        self.rows.contains_key(id.number())
    }

    /// What the table has of a node.
    pub(super) fn row(&self, id: NodeId) -> &Row
        requires { IsSome (find id self.now.trees) }
        ensures { entry_in id self.now.trees ≡ Some (entry_of_row result.now) }
    {
        self.rows.value(id.number())
    }

    /// Identities among which those of all elements of a name are; `None` where the forest keeps none. Others may be among them, and one may stand
    /// there twice. Drafts keep them; any other change lets them go.
    pub fn elements_named(&self, name: &str) -> Option<&[NodeId]>
        ensures { IfSome result
            (λ ids. (i : ℕ) → IsAt (find i self.now.trees) (λ c. (c.kind ≡ Element) × (c.name ≡ name.now)) → is_in i ids.now ≡ true) }
    {
        match &self.index {
            Some(index) => Some(index.names.list(name)),
            None => None,
        }
    }

    /// What a node says of itself and which nodes stand round it, by one look-up; `None` where none of that identity stands here.
    pub fn node(&self, id: NodeId) -> Option<NodeView<'_>>
        ensures { Views result (find id self.now.trees) }
    {
        match self.rows.get(id.number()) {
            Some(row) => Some(NodeView {
                kind: row.kind,
                name: row.name.as_str(),
                text: row.text.as_str(),
                parent: row.parent(),
                attributes: row.attributes.as_slice(),
                children: row.children.as_slice(),
            }),
            None => None,
        }
    }

    /// What looks nodes up one after the other.
    pub fn cursor(&self) -> NodeCursor<'_>
        ensures { result ≡ self.now.trees }
    {
        NodeCursor::new(&self.rows, self.next)
    }

    /// The kind of a node.
    pub fn kind(&self, id: NodeId) -> Kind
        requires { IsSome (find id self.now.trees) }
        ensures { IsAt (find id self.now.trees) (λ c. result ≡ c.kind) }
    {
        self.row(id).kind
    }

    /// The name of a node, empty where its kind has none.
    pub fn name(&self, id: NodeId) -> &str
        requires { IsSome (find id self.now.trees) }
        ensures { IsAt (find id self.now.trees) (λ c. result.now ≡ c.name) }
    {
        self.row(id).name.as_str()
    }

    /// The text of an attribute, a text, a comment or a processing instruction; empty for other kinds.
    pub fn text(&self, id: NodeId) -> &str
        requires { IsSome (find id self.now.trees) }
        ensures { IsAt (find id self.now.trees) (λ c. result.now ≡ c.text) }
    {
        self.row(id).text.as_str()
    }

    /// The parent of a node.
    pub fn parent(&self, id: NodeId) -> Option<NodeId>
        requires { IsSome (find id self.now.trees) }
        ensures { result ≡ parent_of id self.now.trees }
    {
        self.row(id).parent()
    }

    /// The children of a node, in document order.
    pub fn children(&self, id: NodeId) -> &[NodeId]
        requires { IsSome (find id self.now.trees) }
        ensures { result.now ≡ children_of id self.now.trees }
    {
        self.row(id).children.as_slice()
    }

    /// The attributes of a node, in their list's order.
    pub fn attributes(&self, id: NodeId) -> &[NodeId]
        requires { IsSome (find id self.now.trees) }
        ensures { result.now ≡ attributes_of id self.now.trees }
    {
        self.row(id).attributes.as_slice()
    }

    /// What the typed value of a node is made of, where its string value (XQuery 1.0 and XPath 2.0 Data Model, section 5.13) stands in one text:
    /// that of an attribute, a text, a comment or an instruction, of a node with no children, and of one whose only child is a text. `None` elsewhere,
    /// where it would have to be put together (no clause here says where). It takes no memory.
    pub fn plain_value(&self, id: NodeId) -> Option<PlainValue<'_>>
        requires { IsSome (find id self.now.trees) }
        ensures { IfSome result (IsPlainValue self.now.trees id) }
    {
        self.cursor().plain_value(id)
    }

    /// The string value of a node (XQuery 1.0 and XPath 2.0 Data Model, section 5.13).
    ///
    /// It fails where memory is refused.
    pub fn string_value(&self, alloc: Global, id: NodeId) -> Result<String, AllocError>
        requires { IsSome (find id self.now.trees) }
        ensures { IfOk result (λ s. string_bytes s ≡ string_value_of id self.now.trees) }
    {
        // No memory has room for more bytes than that.
        let value = self.string_value_within(alloc, id, usize::MAX)?;
        value.ok_or(AllocError)
    }

    /// The string value of a node where it has at most `most` bytes, and `None` where it has more.
    ///
    /// It stops before the text that would pass them, so it gathers no more (clauses `most` of `node_table`'s `walk`; no clause here says
    /// so). It fails where memory is refused, which says nothing of the value.
    pub fn string_value_within(
        &self,
        alloc: Global,
        id: NodeId,
        most: usize,
    ) -> Result<Option<String>, AllocError>
        requires { IsSome (find id self.now.trees) }
        ensures { IfOk result (λ s. option_map string_bytes s ≡ text_within most (string_value_of id self.now.trees)) }
    {
        let mut value = String::new(alloc);
        let row = self.row(id);
        let fits = if row.kind.is_inner() {
            walk::add_text_within(&self.rows, &row.children, self.next, most, &mut value)?
        } else {
            walk::push_within(&mut value, row.text.as_str(), most)?
        };
        Ok(fits.then_some(value))
    }

    /// There are at most as many nodes as the next identity's number, which is at most 2^62. It does nothing.
    pub fn bounds(&self)
        ensures few { size self.now.trees ≤ self.now.next }
        ensures bound { self.now.next ≤ 2 ^ 62 }
    {
        let _next = &self.next;
    }

    /// Identities are distinct and below the next one, and the documents stand here. It does nothing.
    pub fn facts(&self)
        ensures { IsForest self.now }
    {
        let _next = &self.next;
    }

    /// How many nodes the tree of a node has, attributes counted. They are counted anew.
    pub fn size_of(&self, id: NodeId) -> u64
        requires { IsSome (find id self.now.trees) }
        ensures { result ≡ size (pick id self.now.trees) }
    {
        walk::count(&self.rows, &[id], self.next)
    }

    /// How many nodes the tree of a root has, itself and attributes counted; `None` where the forest does not keep it. It does not count them.
    pub fn tree_size(&self, root: NodeId) -> Option<u64>
        ensures { IfSome result (λ n. n ≡ size (pick root self.now.trees)) }
    {
        match &self.index {
            Some(index) => index.sizes.get(root.number()).copied(),
            None => None,
        }
    }

    /// What is left of so many bytes without those of all texts in the tree of a node; `None` where they are more.
    pub fn without_texts(&self, id: NodeId, bytes: u64) -> Option<u64>
        requires { IsSome (find id self.now.trees) }
        ensures left { IfSome result (λ left. left + bytes_in (pick id self.now.trees) ≡ bytes) }
        ensures more { IfNone result (bytes < bytes_in (pick id self.now.trees)) }
    {
        walk::without_texts(&self.rows, &[id], self.next, bytes)
    }

    /// Whether the tree of a node has at most so many nodes. They are counted only where the whole forest has more.
    pub fn is_within(&self, id: NodeId, nodes: u64) -> bool
        requires { IsSome (find id self.now.trees) }
        ensures { IsTrue result ↔ (size (pick id self.now.trees) ≤ nodes) }
    {
        self.nodes <= nodes || self.size_of(id) <= nodes
    }

    /// The tree of a node as one of its own, with the same identities.
    ///
    /// It fails where memory is refused.
    pub fn tree(&self, alloc: Global, id: NodeId) -> Result<Tree, AllocError>
        requires { IsSome (find id self.now.trees) }
        ensures { IfOk result (λ t. trees_of_tree t ≡ pick id self.now.trees) }
    {
        let mut trees = tree::trees_of(&self.rows, alloc, &[id], self.next)?;
        Ok(trees.remove(0))
    }
}
