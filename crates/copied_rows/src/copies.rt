//! Copies of nodes, as nodes of a parent that does not list them yet.

ghost use Rattle.std.specs.Prelude.{◌≡◌, ◌≢◌, ℕ, ◌+◌, ◌<◌, ◌≤◌, ◌^◌, Some, None, cond, OnOk};
ghost use Rattle.data_model.specs.Trees.{bytes_in, height, roots, size};
ghost use Rattle.data_model.specs.Changes.{renumbered};
ghost use Rattle.node_table.specs.Flat.{AreThere, Holds, both, read_trees};
ghost use Rattle.node_table.specs.Labels.{place_of};
ghost use Rattle.node_table.specs.Rows.{entry_of_row, row_of, table_of};
ghost use Rattle.copied_rows.specs.Copies.{AreApart, WhereMade};

use crate::copying::Copying;
use data_model::NodeId;
use node_table::list::NodeList;
use node_table::table::{Row, Rows, as_in_row};
use std::alloc::{AllocError, Global};

/// Copies some nodes and what is below them, at most so many levels down, as nodes of a parent that does not list them yet.
///
/// The nodes are read from `rows` and the lent rows, seen as one; the copies stand in `rows`. They have the identities from `copying.next` on, in
/// document order; that goes on to the first identity that is not taken, whatever comes of it. It gives the copies of the nodes themselves; `None` where
/// they would take more than they may. Then, and where memory is refused, some of the copies may stand in `rows`.
pub fn copy_all(
    copying: &mut Copying<'_>,
    rows: &mut Rows,
    alloc: Global,
    ids: &[NodeId],
    parent: Option<NodeId>,
    deep: u64,
) -> Result<Option<NodeList>, AllocError>
    requires there { AreThere (both (table_of copying.old.lent) (table_of rows.old)) deep copying.old.next ids.now }
    requires apart { AreApart copying.old.first (table_of copying.old.lent) (table_of rows.old) }
    requires first { copying.old.first ≤ copying.old.next }
    requires fresh { (i : ℕ) → copying.old.next ≤ i → table_of rows.old i ≡ None }
    requires end { copying.old.end ≤ 2 ^ 62 }
    ensures roots { WhereMade result
        (λ v. v.items ≡ roots (renumbered copying.old.next (read_trees deep (both (table_of copying.old.lent) (table_of rows.old)) ids.now))) }
    ensures copied { WhereMade result
        (λ _. Holds (table_of rows.new) parent (renumbered copying.old.next (read_trees deep (both (table_of copying.old.lent) (table_of rows.old)) ids.now))) }
    ensures next { WhereMade result
        (λ _. copying.new.next ≡ copying.old.next + size (read_trees deep (both (table_of copying.old.lent) (table_of rows.old)) ids.now)) }
    ensures within { WhereMade result (λ _. copying.old.next ≤ copying.old.end → copying.new.next ≤ copying.old.end) }
    ensures bytes { WhereMade result
        (λ _. copying.new.bytes + bytes_in (read_trees deep (both (table_of copying.old.lent) (table_of rows.old)) ids.now) ≡ copying.old.bytes) }
    ensures high { WhereMade result
        (λ _. height (read_trees deep (both (table_of copying.old.lent) (table_of rows.old)) ids.now) ≤ copying.old.levels) }
    ensures rest { WhereMade result
        (λ _. copying.new ≡ record copying.old { next = copying.new.next; bytes = copying.new.bytes }) }
    ensures same { (i : ℕ) → i < copying.old.next → table_of rows.new i ≡ table_of rows.old i }
    ensures fresh { (i : ℕ) → copying.new.next ≤ i → table_of rows.new i ≡ None }
    ensures places { place_of rows.new ≡ place_of rows.old }
{
    let mut copies = NodeList::new(alloc);
    if deep == 0 {
        return Ok(Some(copies));
    }
    let below = deep - 1;
    let (has_parent, above) = as_in_row(parent);
    for id in ids {
        let Some(row) = copying.row(rows, *id)? else {
            return Ok(Some(copies));
        };
        let levels = copying.levels;
        if !copying.take(row.text.as_str().len()) {
            return Ok(None);
        }
        let copy = NodeId::new(copying.next - 1);
        let Some(attributes) = copy_all(copying, rows, alloc, &row.attributes, Some(copy), below)?
        else {
            return Ok(None);
        };
        let Some(children) = copy_all(copying, rows, alloc, &row.children, Some(copy), below)?
        else {
            return Ok(None);
        };
        copying.levels = levels;
        put_copy(rows, copy, has_parent, above, row, attributes, children)?;
        copies.push(copy)?;
    }
    Ok(Some(copies))
}

/// Puts the copy of a row into `rows`, as that of another node: what the row says, but for its parent and its lists. Where memory is refused, no other
/// row changes.
fn put_copy(
    rows: &mut Rows,
    copy: NodeId,
    has_parent: bool,
    parent: NodeId,
    row: Row,
    attributes: NodeList,
    children: NodeList,
) -> Result<(), AllocError>
    requires { table_of rows.old copy ≡ None }
    ensures put { OnOk result
        (table_of rows.new copy ≡ Some (record (entry_of_row row) { parent = cond has_parent (Some parent) None; attributes = attributes.items; children = children.items })) }
    ensures same { (i : ℕ) → i ≢ copy → table_of rows.new i ≡ table_of rows.old i }
    ensures places { place_of rows.new ≡ place_of rows.old }
{
    let Row {
        kind,
        name,
        text,
        ..
    } = row;
    let row = Row {
        kind,
        has_parent,
        name,
        text,
        parent,
        attributes,
        children,
        place: copy.number(),
    };
    rows.insert(copy.number(), row)?;
    Ok(())
}

/// Removes the nodes whose identities lie from `first` on and below `end`.
pub fn remove_range(rows: &mut Rows, first: u64, end: u64)
    ensures removed { (i : ℕ) → first ≤ i → i < end → row_of rows.new i ≡ None }
    ensures below { (i : ℕ) → i < first → row_of rows.new i ≡ row_of rows.old i }
    ensures above { (i : ℕ) → end ≤ i → row_of rows.new i ≡ row_of rows.old i }
{
    for number in first..end {
        rows.remove(number);
    }
}
