//! The numbers that planned rows carry: those of the nodes of one list rise.

ghost use Rattle.std.specs.Prelude.{◌≡◌, ◌≢◌, ℕ, ◌+◌, ◌<◌, ◌≤◌, ◌^◌, IfSome, IfOk, OnOk, OnErr, IsSome, length, option_map};
ghost use Rattle.std.specs.List.{slice_get};
ghost use Rattle.data_model.specs.Walks.{held};
ghost use Rattle.node_table.specs.Rows.{table_of, row_of};
ghost use Rattle.node_table.specs.Labels.{place_of, lists_in, get_before, Ascends, HasNumbers, AreListed};
ghost use Rattle.node_plans.specs.Planned.{table_with, places_with};
ghost use Rattle.node_plans.specs.Splices.{IsFree};

use super::plan;
use super::plan::Plan;
use data_model::NodeId;
use node_table::table::Rows;
use std::alloc::AllocError;

/// How far apart numbers are where there is room.
const STEP: u64 = 1 << 32;

/// The number that a node's row is to carry; its identity where it is to have none.
fn place(rows: &Rows, plan: &Plan, id: NodeId) -> u64
    ensures { result ≡ places_with plan.now rows.now id }
{
    match plan::find(rows, plan, id) {
        Some(row) => row.place,
        None => id.number(),
    }
}

/// The number of the node before a place in a list.
fn place_before(rows: &Rows, plan: &Plan, ids: &[NodeId], at: usize) -> Option<u64>
    ensures { result ≡ option_map (places_with plan.now rows.now) (get_before ids.now at) }
{
    if at == 0 {
        return None;
    }
    place_at(rows, plan, ids, at - 1)
}

/// The number of the node at a place in a list.
fn place_at(rows: &Rows, plan: &Plan, ids: &[NodeId], at: usize) -> Option<u64>
    ensures { result ≡ option_map (places_with plan.now rows.now) (slice_get ids.now at) }
{
    match ids.get(at) {
        Some(id) => Some(place(rows, plan, *id)),
        None => None,
    }
}

/// The first of so many numbers above the one and below the other, in the middle or at most `STEP` from the one. None where so many are not
/// there.
fn between(low: Option<u64>, high: Option<u64>, count: u64) -> Option<u64>
    ensures some { IfSome result (λ first. 0 < first) }
    ensures low { IfSome result (λ first. IfSome low (λ l. l < first)) }
    ensures high { IfSome result (λ first. IfSome high (λ h. first + count ≤ h)) }
    ensures fits { IfSome result (λ first. first + count < 2 ^ 64) }
{
    let low = low.unwrap_or(0);
    let end = high.unwrap_or(u64::MAX);
    if end <= low || end - low <= count {
        return None;
    }
    let left = end - low - count;
    Some(low + 1 + ((left - 1) / 2).min(STEP))
}

/// The first of so many numbers that are free for nodes which come between two places of a list.
fn free(
    rows: &Rows,
    plan: &Plan,
    ids: &[NodeId],
    start: usize,
    end: usize,
    count: u64,
) -> Option<u64>
    ensures { IfSome result (IsFree (places_with plan.now rows.now) ids.now start end count) }
{
    let low = place_before(rows, plan, ids, start);
    between(low, place_at(rows, plan, ids, end), count)
}

/// Copies the rows of some nodes into the plan, unless they are there. The rows to be say what they said, also where memory is refused.
fn touch_all(rows: &Rows, plan: &mut Plan, ids: &[NodeId]) -> Result<(), AllocError>
    requires { (i : ℕ) → 0 < held i ids.now → IsSome (table_with plan.old rows.now i) }
    ensures same { table_with plan.new rows.now ≡ table_with plan.old rows.now }
    ensures places { places_with plan.new rows.now ≡ places_with plan.old rows.now }
    ensures there { OnOk result ((i : ℕ) → 0 < held i ids.now → IsSome (row_of plan.new.rows i)) }
{
    for id in ids {
        plan::touch(rows, plan, *id)?;
    }
    Ok(())
}

/// Gives a node another number.
fn set_place(rows: &mut Rows, id: NodeId, place: u64)
    requires { IsSome (table_of rows.old id) }
    ensures same { table_of rows.new ≡ table_of rows.old }
    ensures here { place_of rows.new id ≡ place }
    ensures others { (i : ℕ) → i ≢ id → place_of rows.new i ≡ place_of rows.old i }
{
    if let Some(row) = rows.get_mut(id.number()) {
        row.place = place;
    }
}

/// Numbers some nodes evenly, at most `STEP` apart.
fn number_all(rows: &mut Rows, ids: &[NodeId])
    requires there { (i : ℕ) → 0 < held i ids.now → IsSome (table_of rows.old i) }
    requires once { (i : ℕ) → held i ids.now ≤ 1 }
    requires few { length ids.now ≤ 2 ^ 63 }
    ensures same { table_of rows.new ≡ table_of rows.old }
    ensures rises { Ascends (place_of rows.new) ids.now }
    ensures others { (i : ℕ) → held i ids.now ≡ 0 → place_of rows.new i ≡ place_of rows.old i }
{
    let step = STEP.min(u64::MAX / (ids.len() as u64 + 1));
    let mut place = 0;
    for id in ids {
        place += step;
        set_place(rows, *id, place);
    }
}

/// Plans other numbers, which rise, for the nodes of a list. Where memory is refused, they carry those that they carried.
fn renumber(rows: &Rows, plan: &mut Plan, ids: &[NodeId]) -> Result<(), AllocError>
    requires there { (i : ℕ) → 0 < held i ids.now → IsSome (table_with plan.old rows.now i) }
    requires once { (i : ℕ) → held i ids.now ≤ 1 }
    requires few { length ids.now ≤ 2 ^ 63 }
    ensures same { table_with plan.new rows.now ≡ table_with plan.old rows.now }
    ensures rises { OnOk result (Ascends (places_with plan.new rows.now) ids.now) }
    ensures others { (i : ℕ) → held i ids.now ≡ 0 → places_with plan.new rows.now i ≡ places_with plan.old rows.now i }
    ensures refused { OnErr result (places_with plan.new rows.now ≡ places_with plan.old rows.now) }
{
    touch_all(rows, plan, ids)?;
    number_all(&mut plan.rows, ids);
    Ok(())
}

/// The first of so many numbers for nodes that come between two places among what a node lists, which is `ids`. Where too few are free, what
/// the node lists gets other numbers. Where memory is refused, the rows to be say what they said; the numbers that they carry rise.
pub fn first_number(
    rows: &Rows,
    plan: &mut Plan,
    parent: NodeId,
    ids: &[NodeId],
    start: usize,
    end: usize,
    count: u64,
) -> Result<u64, AllocError>
    requires listed { AreListed (table_with plan.old rows.now) }
    requires numbered { HasNumbers (places_with plan.old rows.now) (table_with plan.old rows.now) }
    requires all { ids.now ≡ lists_in (table_with plan.old rows.now parent) }
    ensures same { table_with plan.new rows.now ≡ table_with plan.old rows.now }
    ensures numbered { HasNumbers (places_with plan.new rows.now) (table_with plan.new rows.now) }
    ensures free { IfOk result (IsFree (places_with plan.new rows.now) ids.now start end count) }
{
    if let Some(first) = free(rows, plan, ids, start, end, count) {
        return Ok(first);
    }
    renumber(rows, plan, ids)?;
    // Evenly numbered, only a list that no memory holds is without so many numbers.
    free(rows, plan, ids, start, end, count).ok_or(AllocError)
}
