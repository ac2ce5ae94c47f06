//! Plans over a table's rows: how they are made, read and settled.

ghost use Rattle.std.specs.Prelude.{◌≡◌, length, ℕ, ◌+◌, ◌≤◌, Option, Some, None, OnOk, OnErr, IsSome, option_map, cond, nat_eq, string_bytes};
ghost use Rattle.row_pages.specs.Rows.{spare, entries};
ghost use Rattle.std.specs.HashSet.{contains};
ghost use Rattle.node_table.specs.declared.table.Row.{Row};
ghost use Rattle.node_table.specs.Flat.{IsChangedAt, with_text, with_name};
ghost use Rattle.node_table.specs.Rows.{row_of};
ghost use Rattle.node_table.specs.Plans.{changed};
ghost use Rattle.node_plans.specs.Planned.{planned, rows_with, table_with, places_with};

use data_model::NodeId;
use node_table::table;
use node_table::table::{Row, Rows};
use row_pages::RowPages;
use shared_texts::{Name, Text};
use std::alloc::{AllocError, Global};
use std::collections::HashSet;

/// Rows that are to stand in a table in the place of its own, and nodes whose rows are to go from it.
#[derive(Drop)]
pub struct Plan {
    /// The rows that are to stand there, by the numbers of their nodes' identities.
    pub rows: Rows,
    /// The identities of the nodes whose rows are to go, unless they have one in `rows`.
    pub gone: HashSet<u64>,
}

impl Plan {
    /// A plan that changes nothing.
    pub fn new(alloc: Global) -> Plan
        ensures { (r : ℕ → Option Row) → planned result r ≡ r }
    {
        Plan {
            rows: RowPages::new(alloc),
            gone: HashSet::new(alloc),
        }
    }
}

/// The row that a node is to have.
pub fn find<'a>(rows: &'a Rows, plan: &'a Plan, id: NodeId) -> Option<&'a Row>
    ensures { option_map (λ row. row.now) result ≡ rows_with plan.now rows.now id }
{
    match plan.rows.get(id.number()) {
        Some(row) => Some(row),
        None => {
            if plan.gone.contains(&id.number()) {
                None
            } else {
                rows.get(id.number())
            }
        }
    }
}

/// Copies the row of a node into the plan, unless it has one. The rows to be say what they said, also where memory is refused.
pub fn touch(rows: &Rows, plan: &mut Plan, id: NodeId) -> Result<(), AllocError>
    requires { IsSome (table_with plan.old rows.now id) }
    ensures same { table_with plan.new rows.now ≡ table_with plan.old rows.now }
    ensures places { places_with plan.new rows.now ≡ places_with plan.old rows.now }
    ensures there { OnOk result (IsSome (row_of plan.new.rows id)) }
    ensures kept { (i : ℕ) → IsSome (row_of plan.old.rows i) → IsSome (row_of plan.new.rows i) }
{
    if plan.rows.contains_key(id.number()) {
        return Ok(());
    }
    let Some(row) = rows.get(id.number()) else {
        return Ok(());
    };
    let row = row.clone()?;
    plan.rows.insert(id.number(), row)?;
    Ok(())
}

/// Plans another text for a node. Where memory is refused, the rows to be say what they said.
pub fn set_text(rows: &Rows, plan: &mut Plan, id: NodeId, text: String) -> Result<(), AllocError>
    requires { IsSome (table_with plan.old rows.now id) }
    ensures changed { OnOk result
        (IsChangedAt (table_with plan.old rows.now) (table_with plan.new rows.now) id (with_text (string_bytes text))) }
    ensures refused { OnErr result (table_with plan.new rows.now ≡ table_with plan.old rows.now) }
    ensures places { places_with plan.new rows.now ≡ places_with plan.old rows.now }
{
    let alloc = *text.allocator();
    let text = Text::shared(alloc, text)?;
    touch(rows, plan, id)?;
    table::set_text(&mut plan.rows, id, text);
    Ok(())
}

/// Plans another name for a node. Where memory is refused, the rows to be say what they said.
pub fn set_name(rows: &Rows, plan: &mut Plan, id: NodeId, name: String) -> Result<(), AllocError>
    requires { IsSome (table_with plan.old rows.now id) }
    ensures changed { OnOk result
        (IsChangedAt (table_with plan.old rows.now) (table_with plan.new rows.now) id (with_name (string_bytes name))) }
    ensures refused { OnErr result (table_with plan.new rows.now ≡ table_with plan.old rows.now) }
    ensures places { places_with plan.new rows.now ≡ places_with plan.old rows.now }
{
    let name = Name::new(name)?;
    touch(rows, plan, id)?;
    table::set_name(&mut plan.rows, id, name);
    Ok(())
}

/// Makes room in a table for the rows of a plan. The table's rows stay as they were, also where memory is refused.
pub fn reserve(rows: &mut Rows, plan: &Plan) -> Result<(), AllocError>
    ensures same { row_of rows.new ≡ row_of rows.old }
    ensures room { OnOk result (length (entries plan.now.rows) ≤ spare rows.new) }
{
    rows.reserve(plan.rows.len())
}

/// Removes the row of a node.
fn remove_row(rows: &mut Rows, id: u64)
    ensures removed { row_of rows.new ≡ changed id None (row_of rows.old) }
    ensures spare { spare rows.old ≤ spare rows.new }
{
    rows.remove(id);
}

/// Removes the rows of some nodes.
fn remove_rows(rows: &mut Rows, gone: HashSet<u64>)
    ensures removed { (i : ℕ) → row_of rows.new i ≡ cond (contains nat_eq gone i) None (row_of rows.old i) }
    ensures spare { spare rows.old ≤ spare rows.new }
{
    for id in gone {
        remove_row(rows, id);
    }
}

/// Puts a row into a table that has room for it, in the place of another or of none.
fn put(rows: &mut Rows, id: u64, row: Row)
    requires room { 1 ≤ spare rows.old }
    ensures put { row_of rows.new ≡ changed id (Some row) (row_of rows.old) }
    ensures spare { spare rows.old ≤ spare rows.new + 1 }
{
    rows.put(id, row);
}

/// Gives the nodes of a table the rows that a plan has for them. The table has room for these, so it takes no memory; it gives back room that it has to
/// spare.
pub fn settle(rows: &mut Rows, plan: Plan)
    requires room { length (entries plan.rows) ≤ spare rows.old }
    ensures { row_of rows.new ≡ planned plan (row_of rows.old) }
{
    remove_rows(rows, plan.gone);
    let mut planned = plan.rows;
    while let Some((id, row)) = planned.pop() {
        put(rows, id, row);
    }
    rows.shrink();
}
