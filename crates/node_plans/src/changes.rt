//! Plans as lists of changes, which can be exchanged with what stands in a table and then say how it stood.

ghost use Rattle.std.specs.Prelude.{◌≡◌, ℕ, Option, None, IfOk, OnOk, cond, nat_eq};
ghost use Rattle.std.specs.HashSet.{contains};
ghost use Rattle.std.specs.Option.{option_or};
ghost use Rattle.node_table.specs.declared.table.Row.{Row};
ghost use Rattle.node_table.specs.Rows.{row_of};
ghost use Rattle.node_table.specs.Plans.{over};
ghost use Rattle.node_plans.specs.Planned.{planned};

use super::plan::Plan;
use data_model::NodeId;
use node_table::exchange::Change;
use node_table::table::Rows;
use std::alloc::{AllocError, Global};
use std::collections::HashSet;

/// Adds that none is to stand at some identities.
fn add_gone(changes: &mut Vec<Change>, gone: HashSet<u64>) -> Result<(), AllocError>
    ensures { OnOk result
        ((r : ℕ → Option Row) (i : ℕ) → over changes.new.items r i ≡ cond (contains nat_eq gone i) None (over changes.old.items r i)) }
{
    for id in gone {
        changes.push(Change {
            id: NodeId::new(id),
            row: None,
        })?;
    }
    Ok(())
}

/// Adds that rows are to stand at their identities.
fn add_rows(changes: &mut Vec<Change>, rows: Rows) -> Result<(), AllocError>
    ensures { OnOk result
        ((r : ℕ → Option Row) (i : ℕ) → over changes.new.items r i ≡ option_or (row_of rows i) (over changes.old.items r i)) }
{
    let mut rows = rows;
    while let Some((id, row)) = rows.pop() {
        changes.push(Change {
            id: NodeId::new(id),
            row: Some(row),
        })?;
    }
    Ok(())
}

/// What a plan makes of a table, as changes that are made one after the other. The plan's rows are moved, not copied.
///
/// Where memory for the list is refused, the plan is let go.
pub fn changes(alloc: Global, plan: Plan) -> Result<Vec<Change>, AllocError>
    ensures { IfOk result (λ changes. (r : ℕ → Option Row) → over changes.items r ≡ planned plan r) }
{
    let mut changes = Vec::new(alloc);
    add_gone(&mut changes, plan.gone)?;
    add_rows(&mut changes, plan.rows)?;
    Ok(changes)
}
