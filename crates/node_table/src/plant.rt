//! Trees of their own that become trees of the flat table, with the identities that they have.

ghost use Rattle.std.specs.Prelude.{◌≡◌, ℕ, ◌+◌, ◌≤◌, ◌<◌, ◌^◌, None, IfOk, OnOk, Some, max};
ghost use Rattle.data_model.specs.Planted.{past};
ghost use Rattle.data_model.specs.Trees.{roots, size, count};
ghost use Rattle.data_model.specs.Tree.{all_of};
ghost use Rattle.node_table.specs.Flat.{Holds};
ghost use Rattle.node_table.specs.Rows.{table_of, row_of};
ghost use Rattle.node_table.specs.Labels.{place_of, AreRanked};

use super::list::NodeList;
use super::table::{Row, Rows, as_in_row};
use data_model::{NodeId, Tree};
use shared_texts::Names;
use std::alloc::{AllocError, Global};

/// What has been planted so far.
#[derive(Clone, Copy)]
pub struct Planted {
    /// How many nodes.
    pub nodes: u64,
    /// The largest number of their identities, or 0 where there are none.
    pub largest: u64,
}

impl Planted {
    /// Nothing.
    pub fn nothing() -> Planted
        ensures nodes { result.nodes ≡ 0 }
        ensures largest { result.largest ≡ 0 }
    {
        Planted {
            nodes: 0,
            largest: 0,
        }
    }

    /// A node more.
    fn add(&mut self, id: NodeId)
        requires { self.old.nodes + 1 < 2 ^ 64 }
        ensures nodes { self.new.nodes ≡ self.old.nodes + 1 }
        ensures largest { self.new.largest ≡ max self.old.largest id }
    {
        self.nodes += 1;
        self.largest = self.largest.max(id.number());
    }
}

/// Makes nodes of some trees, as nodes of a parent that does not list them yet, whose numbers are `first` and those after it. It
/// gives the identities of their roots, and notes all nodes in `planted`, so that no caller goes over the trees again. Rows of one name
/// share it.
///
/// Where memory is refused, some of the nodes may have been made, and `planted` says nothing of them.
pub fn plant_all(
    rows: &mut Rows,
    names: &mut Names,
    alloc: Global,
    trees: &[Tree],
    parent: Option<NodeId>,
    first: u64,
    planted: &mut Planted,
) -> Result<NodeList, AllocError>
    requires distinct { (i : ℕ) → count i (all_of trees.now) ≤ 1 }
    requires few { first + size (all_of trees.now) < 2 ^ 64 }
    requires room { planted.old.nodes + size (all_of trees.now) < 2 ^ 64 }
    ensures roots { IfOk result (λ v. v.items ≡ roots (all_of trees.now)) }
    ensures planted { OnOk result (Holds (table_of rows.new) parent (all_of trees.now)) }
    ensures ranked { OnOk result (AreRanked (place_of rows.new) first (all_of trees.now)) }
    ensures same { (i : ℕ) → count i (all_of trees.now) ≡ 0 → row_of rows.new i ≡ row_of rows.old i }
    ensures counted { OnOk result (planted.new.nodes ≡ planted.old.nodes + size (all_of trees.now)) }
    ensures largest { OnOk result (planted.new.largest + 1 ≡ max (planted.old.largest + 1) (past (all_of trees.now))) }
{
    let mut ids = NodeList::new(alloc);
    let mut place = first;
    for tree in trees {
        let content = tree.content();
        let id = content.identity;
        planted.add(id);
        let attributes = tree.attributes();
        let past = attributes.len() as u64;
        let (has_parent, above) = as_in_row(parent);
        let row = Row {
            kind: content.kind,
            has_parent,
            name: names.name(content.name.as_str())?,
            text: content.text.to_shared()?,
            parent: above,
            attributes: plant_all(rows, names, alloc, attributes, Some(id), 0, planted)?,
            children: plant_all(rows, names, alloc, tree.children(), Some(id), past, planted)?,
            place,
        };
        rows.insert(id.number(), row)?;
        ids.push(id)?;
        place += 1;
    }
    Ok(ids)
}

/// Removes the nodes of some trees.
pub fn remove_all(rows: &mut Rows, trees: &[Tree])
    ensures removed { (i : ℕ) → 0 < count i (all_of trees.now) → row_of rows.new i ≡ None }
    ensures same { (i : ℕ) → count i (all_of trees.now) ≡ 0 → row_of rows.new i ≡ row_of rows.old i }
{
    for tree in trees {
        let content = tree.content();
        rows.remove(content.identity.number());
        remove_all(rows, tree.attributes());
        remove_all(rows, tree.children());
    }
}
