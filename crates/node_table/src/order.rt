//! Document order, by the numbers that rows carry.

ghost use Rattle.std.specs.Prelude.{◌≡◌, ◌≢◌, ℕ, ◌<◌, ◌≤◌, ◌^◌, Option, Some, None, IfSome, IfNone, IsSome, option_map, length, take, true};
ghost use Rattle.std.specs.List.{slice_get};
ghost use Rattle.data_model.specs.declared.node.Part.{Part};
ghost use Rattle.data_model.specs.Order.{identities, precedes};
ghost use Rattle.data_model.specs.Trees.{find};
ghost use Rattle.data_model.specs.Walks.{held};
ghost use Rattle.node_table.specs.Rising.{AreOrdered, AreSiblings, IsAbove, Rises};
ghost use Rattle.node_table.specs.Rows.{table_of, trees_of, HasRoom};
ghost use Rattle.node_table.specs.Labels.{parent_in, place_of, lists_in, position_in, get_before, Ascends, HasNumbers, RisesBut, AreListed, IsBetween};

use super::table::{Row, Rows};
use data_model::{NodeId, Part};
use row_pages::Cursor;

/// How far apart numbers are where there is room.
const STEP: u64 = 1 << 32;

/// The number that a node's row carries; its identity where it has none.
pub fn place(rows: &Rows, id: NodeId) -> u64
    ensures { result ≡ place_of rows.now id }
{
    match rows.get(id.number()) {
        Some(row) => row.place,
        None => id.number(),
    }
}

/// The parent of a node and the number that its row carries, by one look-up; `None` where it has no row, or its row no parent.
pub fn place_below(rows: &mut Cursor<'_, Row>, id: NodeId) -> Option<(NodeId, u64)>
    ensures parent { IfSome result (λ r. parent_in (table_of rows.old id) ≡ Some r.0) }
    ensures place { IfSome result (λ r. r.1 ≡ place_of rows.old id) }
    ensures none { IfNone result (parent_in (table_of rows.old id) ≡ None) }
    ensures same { rows.new ≡ rows.old }
{
    let row = rows.seek(id.number())?;
    let parent = row.parent()?;
    Some((parent, row.place))
}

/// Gives a node another number.
fn set_place(rows: &mut Rows, id: NodeId, place: u64)
    requires { IsSome (table_of rows.old id) }
    ensures same { table_of rows.new ≡ table_of rows.old }
    ensures here { place_of rows.new id ≡ place }
    ensures others { (i : ℕ) → i ≢ id → place_of rows.new i ≡ place_of rows.old i }
    ensures room { (part : Part) (i n : ℕ) → HasRoom part i n rows.old → HasRoom part i n rows.new }
{
    if let Some(row) = rows.get_mut(id.number()) {
        row.place = place;
    }
}

/// How many attributes and children a node has.
fn count(rows: &Rows, id: NodeId) -> usize
    requires few { length (lists_in (table_of rows.now id)) ≤ 2 ^ 63 }
    ensures { result ≡ length (lists_in (table_of rows.now id)) }
{
    match rows.get(id.number()) {
        Some(row) => row.attributes.len() + row.children.len(),
        None => 0,
    }
}

/// The node that has `at` others before it in a list.
fn item(ids: &[NodeId], at: usize) -> Option<NodeId>
    ensures { result ≡ slice_get ids.now at }
{
    ids.get(at).copied()
}

/// The node that has `at` others before it among the attributes and then the children of a node.
fn listed(rows: &Rows, id: NodeId, at: usize) -> Option<NodeId>
    ensures { result ≡ slice_get (lists_in (table_of rows.now id)) at }
{
    match rows.get(id.number()) {
        Some(row) => {
            let attributes = row.attributes.len();
            if at < attributes {
                item(&row.attributes, at)
            } else {
                item(&row.children, at - attributes)
            }
        }
        None => None,
    }
}

/// The place among the attributes and then the children of a node of what has `index` others before it in one of these lists.
fn position(rows: &Rows, part: Part, id: NodeId, index: usize) -> usize
    requires within { position_in part index (table_of rows.now id) < 2 ^ 64 }
    ensures { result ≡ position_in part index (table_of rows.now id) }
{
    match rows.get(id.number()) {
        Some(row) => match part {
            Part::Attributes => index,
            Part::Children => row.attributes.len() + index,
        },
        None => index,
    }
}

/// The number of the node at a place among the attributes and then the children of a node.
fn place_at(rows: &Rows, id: NodeId, at: usize) -> Option<u64>
    ensures { result ≡ option_map (place_of rows.now) (slice_get (lists_in (table_of rows.now id)) at) }
{
    match listed(rows, id, at) {
        Some(node) => Some(place(rows, node)),
        None => None,
    }
}

/// The number of the node before a place among the attributes and then the children of a node.
fn place_before(rows: &Rows, id: NodeId, at: usize) -> Option<u64>
    ensures { result ≡ option_map (place_of rows.now) (get_before (lists_in (table_of rows.now id)) at) }
{
    if at == 0 {
        return None;
    }
    place_at(rows, id, at - 1)
}

/// A number above the one and below the other: the middle, or `STEP` more than the last. None where there is none, or none so far on.
fn between(low: Option<u64>, high: Option<u64>) -> Option<u64>
    ensures { IfSome result (IsBetween low high) }
{
    match (low, high) {
        (None, None) => Some(STEP),
        (Some(low), None) => low.checked_add(STEP),
        (None, Some(high)) => (high > 0).then_some(high / 2),
        (Some(low), Some(high)) => {
            if high <= low {
                return None;
            }
            let half = (high - low) / 2;
            (half > 0).then_some(low + half)
        }
    }
}

/// Numbers the attributes and then the children of a node evenly, at most `STEP` apart.
fn renumber(rows: &mut Rows, id: NodeId)
    requires listed { AreListed (table_of rows.old) }
    ensures same { table_of rows.new ≡ table_of rows.old }
    ensures rises { Ascends (place_of rows.new) (lists_in (table_of rows.old id)) }
    ensures others { (i : ℕ) → held i (lists_in (table_of rows.old id)) ≡ 0 → place_of rows.new i ≡ place_of rows.old i }
    ensures room { (part : Part) (i n : ℕ) → HasRoom part i n rows.old → HasRoom part i n rows.new }
{
    let nodes = count(rows, id);
    let step = STEP.min(u64::MAX / (nodes as u64 + 1));
    let mut place = 0;
    for at in 0..nodes {
        let Some(node) = listed(rows, id, at) else {
            return;
        };
        place += step;
        set_place(rows, node, place);
    }
}

/// Gives a node that came into a list below another, in which `index` others come before it, a number between those of its
/// neighbours. Where none is free, all of that node's attributes and children get other numbers.
pub fn settle(rows: &mut Rows, part: Part, parent: NodeId, index: usize)
    requires listed { AreListed (table_of rows.old) }
    requires here { RisesBut (place_of rows.old) (position_in part index (table_of rows.old parent)) (lists_in (table_of rows.old parent)) }
    requires others { (i : ℕ) → i ≢ parent → Ascends (place_of rows.old) (lists_in (table_of rows.old i)) }
    ensures same { table_of rows.new ≡ table_of rows.old }
    ensures numbered { HasNumbers (place_of rows.new) (table_of rows.new) }
    ensures room { (part : Part) (i n : ℕ) → HasRoom part i n rows.old → HasRoom part i n rows.new }
{
    let at = position(rows, part, parent, index);
    let Some(node) = listed(rows, parent, at) else {
        return;
    };
    let low = place_before(rows, parent, at);
    match between(low, place_at(rows, parent, at + 1)) {
        Some(place) => set_place(rows, node, place),
        None => renumber(rows, parent),
    }
}

/// How many nodes at the front of a list stand in the table and come in document order, each once, as far as each with the one before it tells: they have
/// as many nodes above them, of which a node has at most so many. More of them may come so all the same. Of siblings each row is looked up once.
pub fn rising(rows: &Rows, levels: u64, ids: &[NodeId]) -> usize
    requires { AreOrdered rows.now levels }
    ensures within { result ≤ length ids.now }
    ensures rises { Rises (take result ids.now) (identities (trees_of (table_of rows.now) levels)) }
{
    if ids.is_empty() || !rows.contains_key(ids[0].number()) {
        return 0;
    }
    let mut cursor = rows.cursor();
    let Some(first) = place_below(&mut cursor, ids[0]) else {
        return 1;
    };
    let mut above = first;
    for at in 1..ids.len() {
        let Some(next) = next_above(&mut cursor, levels, ids[at - 1], above, ids[at]) else {
            return at;
        };
        above = next;
    }
    ids.len()
}

/// The parent and the number of the node `b`, where it comes after `a`, of which both are known, as far as their levels tell.
fn next_above(
    rows: &mut Cursor<'_, Row>,
    levels: u64,
    a: NodeId,
    above_a: (NodeId, u64),
    b: NodeId,
) -> Option<(NodeId, u64)>
    requires rows { AreOrdered rows.old levels }
    requires above { IsAbove rows.old a above_a }
    ensures above { IfSome result (IsAbove rows.old b) }
    ensures has_b { IfSome result (λ _. IsSome (find b (trees_of (table_of rows.old) levels))) }
    ensures before { IfSome result (λ _. precedes a b (trees_of (table_of rows.old) levels) ≡ true) }
    ensures same { rows.new ≡ rows.old }
{
    let above_b = place_below(rows, b)?;
    if above_a.0 == above_b.0 {
        return (above_a.1 < above_b.1).then_some(above_b);
    }
    let Some(true) = level_order(rows, levels, a, b) else {
        return None;
    };
    Some(above_b)
}

/// Whether the node `a` comes before the node `b` in document order, of two nodes that stand in the table below one root and have as many others above
/// each, at most so many; `None` for any others. It goes up from both until their parents are one, by a look-up a level.
pub fn level_order(rows: &mut Cursor<'_, Row>, levels: u64, a: NodeId, b: NodeId) -> Option<bool>
    requires rows { AreOrdered rows.old levels }
    ensures has_b { IfSome result (λ _. IsSome (find b (trees_of (table_of rows.old) levels))) }
    ensures before { IfSome result (λ is_first. is_first ≡ precedes a b (trees_of (table_of rows.old) levels)) }
    ensures siblings { IfNone result (AreSiblings a b (table_of rows.old) → levels ≡ 0) }
    ensures same { rows.new ≡ rows.old }
{
    let mut first = a;
    let mut second = b;
    for _ in 0..levels {
        let above_first = place_below(rows, first)?;
        let above_second = place_below(rows, second)?;
        if above_first.0 == above_second.0 {
            return Some(above_first.1 < above_second.1);
        }
        first = above_first.0;
        second = above_second.0;
    }
    None
}
