//! Plans of changes to rows, and their exchange with what stands in the table.

ghost use Rattle.std.specs.Prelude.{◌≡◌, ◌+◌, ◌≤◌, OnOk, reverse};
ghost use Rattle.row_pages.specs.Rows.{spare};
ghost use Rattle.node_table.specs.Rows.{row_of};
ghost use Rattle.node_table.specs.Plans.{changed, over, replaced, places, all_places};

use super::table::{Row, Rows};
use data_model::NodeId;
use std::alloc::AllocError;
use std::mem;

/// The row that is to stand at an identity, or that none is to stand there.
#[derive(Drop)]
pub struct Change {
    /// The identity of the node.
    pub id: NodeId,
    /// Its row, or none.
    pub row: Option<Row>,
}

/// Makes room for so many more rows. The rows stay as they were, also where memory is refused.
pub fn reserve_rows(rows: &mut Rows, additional: usize) -> Result<(), AllocError>
    ensures same { row_of rows.new ≡ row_of rows.old }
    ensures room { OnOk result (additional ≤ spare rows.new) }
    ensures kept { spare rows.old ≤ spare rows.new }
{
    rows.reserve(additional)
}

/// Puts a row in the place of another, or of none, and gives what stood there.
fn put(rows: &mut Rows, id: NodeId, row: Option<Row>) -> Option<Row>
    requires room { places row ≤ spare rows.old }
    ensures was { result ≡ row_of rows.old id }
    ensures rows { row_of rows.new ≡ changed id row (row_of rows.old) }
    ensures spare { spare rows.old ≤ spare rows.new + places row }
{
    match row {
        Some(row) => rows.put(id.number(), row),
        None => rows.remove(id.number()),
    }
}

/// Makes one change, which becomes the change back.
fn make(rows: &mut Rows, change: &mut Change)
    requires room { places change.old.row ≤ spare rows.old }
    ensures id { change.new.id ≡ change.old.id }
    ensures was { change.new.row ≡ row_of rows.old change.old.id }
    ensures rows { row_of rows.new ≡ changed change.old.id change.old.row (row_of rows.old) }
    ensures spare { spare rows.old ≤ spare rows.new + places change.old.row }
{
    let row = mem::take(&mut change.row);
    change.row = put(rows, change.id, row);
}

/// Makes the changes of a plan, one after the other, in rows that have room for those that come. It takes no memory, and the plan
/// becomes the one that takes them back.
pub fn exchange(rows: &mut Rows, plan: &mut [Change])
    requires room { all_places plan.old ≤ spare rows.old }
    ensures rows { row_of rows.new ≡ over plan.old (row_of rows.old) }
    ensures plan { plan.new ≡ reverse (replaced plan.old (row_of rows.old)) }
    ensures spare { spare rows.old ≤ spare rows.new + all_places plan.old }
{
    for change in plan.iter_mut() {
        make(rows, change);
    }
    plan.reverse();
}
