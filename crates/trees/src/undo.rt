//! Changes of forests that can be taken back.

ghost use Rattle.std.specs.Prelude.{◌≡◌, ℕ, ◌+◌, ◌≤◌, Option, IfOk, IfErr, length};
ghost use Rattle.data_model.specs.Trees.{find, size};
ghost use Rattle.data_model.specs.Views.{Views};
ghost use Rattle.row_pages.specs.Rows.{spare};
ghost use Rattle.node_table.specs.declared.table.Row.{Row};
ghost use Rattle.node_table.specs.Rows.{row_of};
ghost use Rattle.node_table.specs.Plans.{over};
ghost use Rattle.node_plans.specs.Planned.{planned};
ghost use Rattle.trees.specs.Drafts.{drafted_forest};

use super::draft::{Drafted, Prepared};
use super::forest::Forest;
use data_model::{NodeId, NodeView};
use forest_index::{ForestIndex, Sizes};
use indexmap::IndexMap;
use node_plans::changes;
use node_plans::plan::Plan;
use node_table::exchange;
use node_table::exchange::Change;
use node_table::table::Rows;
use shared_texts::Names;
use std::alloc::{AllocError, Global};
use std::marker::Model;

/// The fields of a forest that was changed, and what gives back the rows that it had, its next identity and how many nodes there were.
#[derive(Drop)]
pub struct Settled {
    rows: Rows,
    documents: IndexMap<String, NodeId>,
    first: u64,
    nodes: u64,
    index: Option<ForestIndex>,
    names: Names,
    back: Vec<Change>,
    resized: Sizes,
    next: u64,
    count: u64,
}

/// A forest that was changed as a draft said, together with what takes the change back.
///
/// It owns the forest, so nobody changes that before the undo is decided on. The rows that the change replaced stand in it, with room in the table to put
/// them back.
#[derive(Drop)]
pub struct Undo {
    parts: Settled,
}

impl Model for Undo {
    ghost use Rattle.trees.specs.Undo.{UndoTerm, undo_code};

    ghost Value = { UndoTerm };

    ghost coded = { undo_code };

    ghost use Rattle.trees.specs.Settled.{undo_of, IsUndo};

    ghost view = { λ a. undo_of a.parts };

    ghost invariant = { λ a. IsUndo a.parts };
}

/// The changes of a plan, for which the table is given room twice: to make them, and to take them back. The table's rows stay as they were, also where
/// memory is refused.
fn changes_with_room(alloc: Global, rows: &mut Rows, plan: Plan) -> Result<Vec<Change>, AllocError>
    ensures same { row_of rows.new ≡ row_of rows.old }
    ensures changes { IfOk result (λ changes. (r : ℕ → Option Row) → over changes.items r ≡ planned plan r) }
    ensures room { IfOk result (λ changes. length changes.items + length changes.items ≤ spare rows.new) }
{
    let changes = changes::changes(alloc, plan)?;
    exchange::reserve_rows(rows, changes.len() + changes.len())?;
    Ok(changes)
}

impl Prepared {
    /// The forest as drafted, together with what takes the change back. Where memory is refused, it gives the forest as it was.
    pub fn settle_with_undo(self, alloc: Global) -> Result<Undo, Forest>
        ensures before { IfOk result (λ u. u.before ≡ self.before) }
        ensures after { IfOk result (λ u. u.after ≡ drafted_forest self) }
        ensures refused { IfErr result (λ f. f ≡ self.before) }
    {
        let Drafted {
            mut rows,
            documents,
            first,
            nodes,
            index,
            names,
            plan,
            resized,
            next,
            count,
        } = self.parts;
        match changes_with_room(alloc, &mut rows, plan) {
            Ok(mut back) => {
                exchange::exchange(&mut rows, &mut back);
                Ok(Undo {
                    parts: Settled {
                        rows,
                        documents,
                        first,
                        nodes,
                        index,
                        names,
                        back,
                        resized,
                        next,
                        count,
                    },
                })
            }
            Err(_) => Err(Forest {
                rows,
                documents,
                next: first,
                nodes,
                index,
                names,
            }),
        }
    }
}

impl Undo {
    /// What a node says of itself in the forest as it was changed, and which nodes stand round it; `None` where none of that identity stands there.
    pub fn node(&self, id: NodeId) -> Option<NodeView<'_>>
        ensures { Views result (find id self.now.after.trees) }
    {
        match self.parts.rows.get(id.number()) {
            Some(row) => Some(NodeView {
                kind: row.kind,
                name: row.name.as_str(),
                text: row.text.as_str(),
                parent: row.parent(),
                attributes: row.attributes.as_slice(),
                children: row.children.as_slice(),
            }),
            None => None,
        }
    }

    /// How many nodes there are in the forest as it was changed. It does not count them.
    pub fn len(&self) -> u64
        ensures { result ≡ size self.now.after.trees }
    {
        self.parts.count
    }

    /// The forest as it was changed, with nothing that takes the change back. It takes no memory, and gives back room that the table has to spare.
    pub fn keep(self) -> Forest
        ensures { result ≡ self.after }
    {
        let Settled {
            mut rows,
            documents,
            mut index,
            names,
            resized,
            next,
            count,
            ..
        } = self.parts;
        rows.shrink();
        forest_index::settle(&mut index, resized);
        Forest {
            rows,
            documents,
            next,
            nodes: count,
            index,
            names,
        }
    }

    /// The forest as it was before the change, its next identity too. It takes no memory, and gives back room that the table has to spare.
    pub fn back(self) -> Forest
        ensures { result ≡ self.before }
    {
        let Settled {
            mut rows,
            documents,
            first,
            nodes,
            index,
            names,
            mut back,
            ..
        } = self.parts;
        exchange::exchange(&mut rows, &mut back);
        rows.shrink();
        Forest {
            rows,
            documents,
            next: first,
            nodes,
            index,
            names,
        }
    }
}
