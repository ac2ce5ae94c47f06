//! Labels of nodes: numbers that compare as nodes do in document order.

ghost use Rattle.std.specs.Prelude.{◌≡◌, is_some, IfOk, OnOk, IsSome, All, map, filter, eqb};
ghost use Rattle.std.specs.List.{dedup};
ghost use Rattle.node_table.specs.Flat.{IsTableOf};
ghost use Rattle.node_table.specs.Rows.{table_of, trees_of};
ghost use Rattle.node_table.specs.Labels.{place_of, label_of};

use super::table::Rows;
use data_model::NodeId;
use smallvec::SmallVec;
use std::alloc::{AllocError, Global};

/// The identity of a root, then the numbers downwards to a node. A node with at most 7 others above it needs no memory for it.
pub type Label = SmallVec<u64, 8>;

/// A node and its label. Such pairs compare as their nodes do in document order, since different nodes have different labels.
#[derive(PartialEq, Eq, PartialOrd, Ord, Drop)]
pub struct Labelled {
    /// The label, by which pairs are compared first.
    pub label: Label,
    /// The node.
    pub node: NodeId,
}

/// The label of a node that has at most so many others above it.
fn read_label(rows: &Rows, alloc: Global, id: NodeId, levels: u64) -> Result<Label, AllocError>
    requires table { IsTableOf (table_of rows.now) levels (trees_of (table_of rows.now) levels) }
    requires here { IsSome (table_of rows.now id) }
    ensures { IfOk result (λ l. l.items ≡ label_of (place_of rows.now) id (trees_of (table_of rows.now) levels)) }
{
    let mut label = SmallVec::new(alloc);
    let mut at = id;
    for _ in 0..levels {
        let Some(row) = rows.get(at.number()) else {
            break;
        };
        let Some(parent) = row.parent() else {
            break;
        };
        label.push(row.place)?;
        at = parent;
    }
    label.push(at.number())?;
    label.as_mut_slice().reverse();
    Ok(label)
}

/// Those of some nodes that stand in the table, in their order, each with its label. It fails where memory is refused.
pub fn with_labels(
    rows: &Rows,
    alloc: Global,
    ids: &[NodeId],
    levels: u64,
) -> Result<Vec<Labelled>, AllocError>
    requires table { IsTableOf (table_of rows.now) levels (trees_of (table_of rows.now) levels) }
    ensures nodes { IfOk result (λ v. map (λ x. x.node) v.items ≡ filter (λ i. is_some (table_of rows.now i)) ids.now) }
    ensures there { IfOk result (λ v. All (λ x. IsSome (table_of rows.now x.node)) v.items) }
    ensures labels { IfOk result
        (λ v. All (λ x. x.label.items ≡ label_of (place_of rows.now) x.node (trees_of (table_of rows.now) levels)) v.items) }
{
    let mut labelled = Vec::with_capacity(alloc, ids.len())?;
    for id in ids {
        if rows.contains_key(id.number()) {
            let label = read_label(rows, alloc, *id, levels)?;
            labelled.push(Labelled { label, node: *id })?;
        }
    }
    Ok(labelled)
}

/// The nodes of some labels in their order, without those that come right after themselves. They take the place of what `ids` has. Where
/// memory is refused, the list is gone.
pub fn nodes_of(labelled: &[Labelled], ids: Vec<NodeId>) -> Result<Vec<NodeId>, AllocError>
    ensures { IfOk result (λ v. v.items ≡ dedup eqb (map (λ x. x.node) labelled.now)) }
{
    let mut nodes = ids;
    nodes.clear();
    for each in labelled {
        nodes.push(each.node)?;
    }
    nodes.dedup();
    Ok(nodes)
}
