//! Nodes of a shelf that are looked up one after the other.

ghost use Rattle.std.specs.Prelude.{◌≡◌};
ghost use Rattle.data_model.specs.Trees.{append, find};
ghost use Rattle.data_model.specs.Views.{Views};
ghost use Rattle.node_table.specs.Cursors.{Names};
ghost use Rattle.shelves.specs.Parted.{IsParted};

use std::marker::Model;
use trees::{NodeCursor, NodeId, NodeName, NodeView};

/// Looks nodes of both forests up one after the other; one that lies near the one before it is found sooner. Contracts see it as the trees.
#[derive(Drop)]
pub struct ShelfCursor<'s> {
    lent: NodeCursor<'s>,
    own: NodeCursor<'s>,
    /// The least identity of an own node.
    first: u64,
}

impl<'s> Model for ShelfCursor<'s> {
    ghost use Rattle.data_model.specs.Trees.{Trees, append, coded_trees};
    ghost use Rattle.shelves.specs.Parted.{IsParted};

    ghost Value = { Trees };

    ghost coded = { coded_trees };

    ghost view = { λ c. append c.lent c.own };

    ghost invariant = { λ c. IsParted c.first c.lent c.own };
}

impl<'s> ShelfCursor<'s> {
    /// A cursor over the trees of a lent forest and of an own one, whose identities begin with `first`.
    pub(super) fn new(lent: NodeCursor<'s>, own: NodeCursor<'s>, first: u64) -> ShelfCursor<'s>
        requires { IsParted first lent own }
        ensures { result ≡ append lent.entry own.entry }
    {
        ShelfCursor { lent, own, first }
    }

    /// The kind and the name of a node; `None` where none of that identity stands in either forest.
    pub fn name(&mut self, id: NodeId) -> Option<NodeName<'s>>
        ensures named { Names result (find id self.old) }
        ensures same { self.new ≡ self.old }
    {
        if id.number() < self.first {
            return self.lent.name(id);
        }
        self.own.name(id)
    }

    /// What a node says of itself and which nodes stand round it; `None` where none of that identity stands in either forest.
    pub fn node(&mut self, id: NodeId) -> Option<NodeView<'s>>
        ensures node { Views result (find id self.old) }
        ensures same { self.new ≡ self.old }
    {
        if id.number() < self.first {
            return self.lent.node(id);
        }
        self.own.node(id)
    }
}
