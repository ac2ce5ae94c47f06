//! Nodes that are looked up one after the other.

ghost use Rattle.std.specs.Prelude.{◌≡◌, IfSome, IsSome};
ghost use Rattle.data_model.specs.Trees.{find};
ghost use Rattle.data_model.specs.Views.{Views};
ghost use Rattle.node_table.specs.Flat.{IsTableOf};
ghost use Rattle.node_table.specs.Cursors.{Names};
ghost use Rattle.node_table.specs.Plain.{IsPlainValue};
ghost use Rattle.node_table.specs.Rows.{table_of, trees_of};

use super::plain;
use super::plain::PlainValue;
use super::table::{Row, Rows};
use data_model::{Kind, NodeId, NodeView};
use row_pages::Cursor;
use std::marker::Model;

/// The kind and the name of a node.
#[derive(Clone, Copy)]
pub struct NodeName<'r> {
    /// Its kind.
    pub kind: Kind,
    /// Its name, empty where its kind has none.
    pub name: &'r str,
}

/// Looks nodes up one after the other; one that lies near the one before it is found sooner. Contracts see it as the trees.
#[derive(Drop)]
pub struct NodeCursor<'r> {
    rows: Cursor<'r, Row>,
    next: u64,
}

impl<'r> Model for NodeCursor<'r> {
    ghost use Rattle.data_model.specs.Trees.{Trees, coded_trees};
    ghost use Rattle.node_table.specs.Flat.{IsTableOf};
    ghost use Rattle.node_table.specs.Rows.{table_of, trees_of};

    ghost Value = { Trees };

    ghost coded = { coded_trees };

    ghost view = { λ c. trees_of (table_of c.rows) c.next };

    ghost invariant = { λ c. IsTableOf (table_of c.rows) c.next (trees_of (table_of c.rows) c.next) };
}

impl<'r> NodeCursor<'r> {
    /// A cursor over the trees of a table, whose identities are below `next`.
    pub fn new(rows: &'r Rows, next: u64) -> NodeCursor<'r>
        requires { IsTableOf (table_of rows.now) next (trees_of (table_of rows.now) next) }
        ensures { result ≡ trees_of (table_of rows.now) next }
    {
        NodeCursor {
            rows: rows.cursor(),
            next,
        }
    }

    /// The kind and the name of a node; `None` where none of that identity stands here.
    pub fn name(&mut self, id: NodeId) -> Option<NodeName<'r>>
        ensures named { Names result (find id self.old) }
        ensures same { self.new ≡ self.old }
    {
        let Some(row) = self.rows.seek(id.number()) else {
            return None;
        };
        Some(NodeName {
            kind: row.kind,
            name: row.name.as_str(),
        })
    }

    /// What a node says of itself and which nodes stand round it; `None` where none of that identity stands here.
    pub fn node(&mut self, id: NodeId) -> Option<NodeView<'r>>
        ensures node { Views result (find id self.old) }
        ensures same { self.new ≡ self.old }
    {
        let Some(row) = self.rows.seek(id.number()) else {
            return None;
        };
        Some(NodeView {
            kind: row.kind,
            name: row.name.as_str(),
            text: row.text.as_str(),
            parent: row.parent(),
            attributes: row.attributes.as_slice(),
            children: row.children.as_slice(),
        })
    }

    /// What the typed value of a node is made of, where its string value stands in one text, as `plain::plain_value` finds it; `None` elsewhere.
    pub fn plain_value(&mut self, id: NodeId) -> Option<PlainValue<'r>>
        requires { IsSome (find id self.old) }
        ensures plain { IfSome result (IsPlainValue self.old id) }
        ensures same { self.new ≡ self.old }
    {
        plain::plain_value(&mut self.rows, id, self.next)
    }
}
