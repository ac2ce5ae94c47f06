//! Parts of lists that become other trees, in a plan.

ghost use Rattle.std.specs.Prelude.{◌≡◌, ◌≢◌, ℕ, ◌+◌, ◌-◌, ◌<◌, ◌≤◌, ◌^◌, ◌++◌, Option, Some, None, IfOk, OnOk, OnErr, IsSome, take, drop, length};
ghost use Rattle.std.specs.HashSet.{spare};
ghost use Rattle.std.specs.List.{sum_by};
ghost use Rattle.data_model.specs.Changes.{with_part};
ghost use Rattle.data_model.specs.Tree.{all_of};
ghost use Rattle.data_model.specs.Trees.{roots, size, count, weigh};
ghost use Rattle.data_model.specs.Walks.{held};
ghost use Rattle.node_table.specs.declared.table.Row.{Row};
ghost use Rattle.node_table.specs.Flat.{Entry, Holds, IsTableOf, IsChangedAt, IsDocumentEntry, listed, read_trees};
ghost use Rattle.node_table.specs.Rows.{entry_of_row, row_of, table_of, trees_of};
ghost use Rattle.node_table.specs.Labels.{place_of, lists_in, position_in, AreListed, AreRanked, HasNumbers};
ghost use Rattle.node_plans.specs.Planned.{planned, rows_with, table_with, places_with};
ghost use Rattle.node_plans.specs.Splices.{spliced, with_list, IsFree, Writes};

use super::plan::Plan;
use super::{numbers, plan};
use data_model::{NodeId, Part, Tree};
use node_table::list::NodeList;
use node_table::plant::{self, Planted};
use node_table::table::{Row, Rows};
use shared_texts::Names;
use std::alloc::{AllocError, Global};

/// Part of a list below a node.
#[derive(Clone, Copy)]
pub struct Span {
    /// Which list it is of.
    pub part: Part,
    /// The node whose list that is.
    pub parent: NodeId,
    /// How many nodes of the list come before it.
    pub from: usize,
    /// How many nodes of the list come before its end.
    pub to: usize,
}

/// A list of a row.
fn list_of(row: &Row, part: Part) -> &[NodeId]
    ensures { result.now ≡ listed part (entry_of_row row.now) }
{
    match part {
        Part::Attributes => row.attributes.as_slice(),
        Part::Children => row.children.as_slice(),
    }
}

/// The part of a list that has `from` nodes before it and ends before the one that has `to`.
fn part_of(list: &[NodeId], from: usize, to: usize) -> &[NodeId]
    requires ordered { from ≤ to }
    requires within { to ≤ length list.now }
    ensures { result.now ≡ take (to - from) (drop from list.now) }
{
    &list[from..to]
}

/// The place among the attributes and then the children of a row of what has `index` others before it in one of these lists.
fn position(row: &Row, part: Part, index: usize) -> usize
    requires few { length (lists_in (Some (entry_of_row row.now))) ≤ 2 ^ 63 }
    requires within { index ≤ length (listed part (entry_of_row row.now)) }
    ensures { result ≡ position_in part index (Some (entry_of_row row.now)) }
{
    match part {
        Part::Attributes => index,
        Part::Children => row.attributes.len() + index,
    }
}

/// The attributes and then the children of a row.
fn all_listed(alloc: Global, row: &Row) -> Result<Vec<NodeId>, AllocError>
    ensures { IfOk result (λ v. v.items ≡ lists_in (Some (entry_of_row row.now))) }
{
    let mut all = Vec::new(alloc);
    all.extend_from_slice(&row.attributes)?;
    all.extend_from_slice(&row.children)?;
    Ok(all)
}

/// A list of nodes, in which the roots of some trees stand in the place of a part of it.
fn spliced_list(
    alloc: Global,
    list: &[NodeId],
    from: usize,
    to: usize,
    trees: &[Tree],
) -> Result<NodeList, AllocError>
    requires ordered { from ≤ to }
    requires within { to ≤ length list.now }
    ensures { IfOk result (λ v. v.items ≡ take from list.now ++ roots (all_of trees.now) ++ drop to list.now) }
{
    let mut nodes = Vec::new(alloc);
    nodes.extend_from_slice(&list[..from])?;
    add_roots(&mut nodes, trees)?;
    nodes.extend_from_slice(&list[to..])?;
    NodeList::from_slice(alloc, &nodes)
}

/// Adds the identities of the roots of some trees.
fn add_roots(nodes: &mut Vec<NodeId>, trees: &[Tree]) -> Result<(), AllocError>
    ensures { OnOk result (nodes.new.items ≡ nodes.old.items ++ roots (all_of trees.now)) }
{
    for tree in trees {
        nodes.push(tree.content().identity)?;
    }
    Ok(())
}

/// Adds the identities of some nodes and of what is to stand below them, at most so many levels down.
fn add_all(
    rows: &Rows,
    plan: &Plan,
    ids: &[NodeId],
    levels: u64,
    found: &mut Vec<NodeId>,
) -> Result<(), AllocError>
    ensures { OnOk result ((w : ℕ → ℕ) → sum_by w found.new.items ≡ sum_by w found.old.items + weigh w (read_trees levels (table_with plan.now rows.now) ids.now)) }
{
    if levels == 0 {
        return Ok(());
    }
    for id in ids {
        let Some(row) = plan::find(rows, plan, *id) else {
            return Ok(());
        };
        found.push(*id)?;
        add_all(rows, plan, &row.attributes, levels - 1, found)?;
        add_all(rows, plan, &row.children, levels - 1, found)?;
    }
    Ok(())
}

/// Plans that a node is to go.
fn hide(plan: &mut Plan, id: NodeId)
    requires room { 1 ≤ spare plan.old.gone }
    ensures here { (r : ℕ → Option Row) → planned plan.new r id ≡ None }
    ensures others { (r : ℕ → Option Row) (i : ℕ) → i ≢ id → planned plan.new r i ≡ planned plan.old r i }
    ensures spare { spare plan.old.gone ≤ spare plan.new.gone + 1 }
{
    plan.rows.remove(id.number());
    match plan.gone.insert(id.number()) {
        Ok(_) => {}
        // There is room, so this is not reached.
        Err(_) => {}
    }
}

/// Plans that some nodes are to go.
fn hide_all(plan: &mut Plan, ids: &[NodeId])
    requires room { length ids.now ≤ spare plan.old.gone }
    ensures gone { (r : ℕ → Option Row) (i : ℕ) → 0 < held i ids.now → planned plan.new r i ≡ None }
    ensures kept { (r : ℕ → Option Row) (i : ℕ) → held i ids.now ≡ 0 → planned plan.new r i ≡ planned plan.old r i }
{
    for id in ids {
        hide(plan, *id);
    }
}

/// Gives a row another list.
fn set_list_in(row: &mut Row, part: Part, list: NodeList)
    ensures list { entry_of_row row.new ≡ with_list part list.items (entry_of_row row.old) }
    ensures place { row.new.place ≡ row.old.place }
{
    match part {
        Part::Attributes => row.attributes = list,
        Part::Children => row.children = list,
    }
}

/// Gives a node another list.
fn set_list(rows: &mut Rows, part: Part, id: NodeId, list: NodeList)
    requires { IsSome (table_of rows.old id) }
    ensures changed { IsChangedAt (table_of rows.old) (table_of rows.new) id (with_list part list.items) }
    ensures places { place_of rows.new ≡ place_of rows.old }
{
    if let Some(row) = rows.get_mut(id.number()) {
        set_list_in(row, part, list);
    }
}

/// Puts the nodes of some trees below a node that does not list them yet; their roots have the numbers from `first` on. Where memory is refused,
/// the rows stay as they were.
fn plant_rows(
    rows: &mut Rows,
    names: &mut Names,
    alloc: Global,
    trees: &[Tree],
    parent: NodeId,
    first: u64,
) -> Result<(), AllocError>
    requires fresh { (i : ℕ) → 0 < count i (all_of trees.now) → row_of rows.old i ≡ None }
    requires distinct { (i : ℕ) → count i (all_of trees.now) ≤ 1 }
    requires few { first + size (all_of trees.now) < 2 ^ 64 }
    ensures planted { OnOk result (Holds (table_of rows.new) (Some parent) (all_of trees.now)) }
    ensures ranked { OnOk result (AreRanked (place_of rows.new) first (all_of trees.now)) }
    ensures others { (i : ℕ) → count i (all_of trees.now) ≡ 0 → row_of rows.new i ≡ row_of rows.old i }
    ensures refused { OnErr result (row_of rows.new ≡ row_of rows.old) }
{
    let mut planted = Planted::nothing();
    match plant::plant_all(rows, names, alloc, trees, Some(parent), first, &mut planted) {
        Ok(_) => Ok(()),
        Err(_) => {
            plant::remove_all(rows, trees);
            Err(AllocError)
        }
    }
}

/// What a splice writes.
#[derive(Drop)]
struct Outline {
    /// The number of the first root that comes.
    first: u64,
    /// The list that the parent is to have.
    list: NodeList,
    /// The nodes that go.
    gone: Vec<NodeId>,
}

/// Writes a splice into a plan, and says how many nodes go. Where memory is refused, the rows to be stay as they were.
fn write(
    rows: &Rows,
    plan: &mut Plan,
    names: &mut Names,
    alloc: Global,
    span: Span,
    trees: &[Tree],
    outline: Outline,
) -> Result<u64, AllocError>
    requires has { IsSome (table_with plan.old rows.now span.parent) }
    requires stays { held span.parent outline.gone.items ≡ 0 }
    requires fresh { (i : ℕ) → 0 < count i (all_of trees.now) → table_with plan.old rows.now i ≡ None }
    requires apart { (i : ℕ) → 0 < count i (all_of trees.now) → held i outline.gone.items ≡ 0 }
    requires distinct { (i : ℕ) → count i (all_of trees.now) ≤ 1 }
    requires few { outline.first + size (all_of trees.now) < 2 ^ 64 }
    ensures written { OnOk result
        (Writes
        (table_with plan.old rows.now)
        (table_with plan.new rows.now)
        (places_with plan.old rows.now)
        (places_with plan.new rows.now)
        span.part
        span.parent
        outline.first
        outline.list.items
        outline.gone.items
        (all_of trees.now)) }
    ensures counted { IfOk result (λ n. n ≡ length outline.gone.items) }
    ensures refused { OnErr result (table_with plan.new rows.now ≡ table_with plan.old rows.now) }
    ensures places { OnErr result (places_with plan.new rows.now ≡ places_with plan.old rows.now) }
{
    plan::touch(rows, plan, span.parent)?;
    plan.gone.reserve(outline.gone.len())?;
    plant_rows(
        &mut plan.rows,
        names,
        alloc,
        trees,
        span.parent,
        outline.first,
    )?;
    set_list(&mut plan.rows, span.part, span.parent, outline.list);
    hide_all(plan, &outline.gone);
    Ok(outline.gone.len() as u64)
}

/// What a splice is to write. Where memory is refused, the rows to be say what they said; the numbers that they carry rise.
fn outline_of(
    rows: &Rows,
    plan: &mut Plan,
    alloc: Global,
    span: Span,
    trees: &[Tree],
    levels: u64,
) -> Result<Outline, AllocError>
    requires listed { AreListed (table_with plan.old rows.now) }
    requires numbered { HasNumbers (places_with plan.old rows.now) (table_with plan.old rows.now) }
    requires has { IsSome (table_with plan.old rows.now span.parent) }
    requires ordered { span.from ≤ span.to }
    requires within { (e : Entry) → table_with plan.old rows.now span.parent ≡ Some e → span.to ≤ length (listed span.part e) }
    requires few { size (all_of trees.now) < 2 ^ 64 }
    ensures same { table_with plan.new rows.now ≡ table_with plan.old rows.now }
    ensures numbered { HasNumbers (places_with plan.new rows.now) (table_with plan.new rows.now) }
    ensures free { IfOk result
        (λ o. (e : Entry) → table_with plan.old rows.now span.parent ≡ Some e
        → IsFree
        (places_with plan.new rows.now)
        (lists_in (Some e))
        (position_in span.part span.from (Some e))
        (position_in span.part span.to (Some e))
        (size (all_of trees.now))
        o.first) }
    ensures list { IfOk result
        (λ o. (e : Entry) → table_with plan.old rows.now span.parent ≡ Some e
        → o.list.items ≡ take span.from (listed span.part e) ++ roots (all_of trees.now) ++ drop span.to (listed span.part e)) }
    ensures gone { IfOk result
        (λ o. (e : Entry) → table_with plan.old rows.now span.parent ≡ Some e
        → (w : ℕ → ℕ) → sum_by w o.gone.items ≡ weigh w (read_trees levels (table_with plan.old rows.now) (take (span.to - span.from) (drop span.from (listed span.part e))))) }
{
    let Some(row) = plan::find(rows, plan, span.parent) else {
        // The parent is there, so this is not reached.
        return Err(AllocError);
    };
    let old = list_of(row, span.part);
    let list = spliced_list(alloc, old, span.from, span.to, trees)?;
    let mut gone = Vec::new(alloc);
    add_all(
        rows,
        plan,
        part_of(old, span.from, span.to),
        levels,
        &mut gone,
    )?;
    let all = all_listed(alloc, row)?;
    let start = position(row, span.part, span.from);
    let end = position(row, span.part, span.to);
    let count = data_model::node_count(trees);
    let first = numbers::first_number(rows, plan, span.parent, &all, start, end, count)?;
    Ok(Outline { first, list, gone })
}

/// Plans that some trees come into the place of part of a list, with the identities that they have; what stood there is to go with all that is
/// below it, and is counted.
///
/// `levels` is above all identities. Where memory is refused, the rows to be say what they said.
pub fn splice(
    rows: &Rows,
    plan: &mut Plan,
    names: &mut Names,
    alloc: Global,
    span: Span,
    trees: &[Tree],
    levels: u64,
) -> Result<u64, AllocError>
    requires table { IsTableOf (table_with plan.old rows.now) levels (trees_of (table_with plan.old rows.now) levels) }
    requires bound { levels ≤ 2 ^ 62 }
    requires numbered { HasNumbers (places_with plan.old rows.now) (table_with plan.old rows.now) }
    requires has { IsSome (table_with plan.old rows.now span.parent) }
    requires ordered { span.from ≤ span.to }
    requires within { (e : Entry) → table_with plan.old rows.now span.parent ≡ Some e → span.to ≤ length (listed span.part e) }
    requires apart { (i : ℕ) → count i (trees_of (table_with plan.old rows.now) levels) + count i (all_of trees.now) ≤ 1 }
    requires below { (i : ℕ) → 0 < count i (all_of trees.now) → i < levels }
    ensures spliced { OnOk result
        (IsTableOf
        (table_with plan.new rows.now)
        levels
        (with_part span.part span.parent (spliced span.from span.to (all_of trees.now)) (trees_of (table_with plan.old rows.now) levels))) }
    ensures removed { IfOk result
        (λ n. size (with_part span.part span.parent (spliced span.from span.to (all_of trees.now)) (trees_of (table_with plan.old rows.now) levels)) + n
        ≡ size (trees_of (table_with plan.old rows.now) levels) + size (all_of trees.now)) }
    ensures numbered { HasNumbers (places_with plan.new rows.now) (table_with plan.new rows.now) }
    ensures documents { (i : ℕ) → IsDocumentEntry (table_with plan.old rows.now i) → IsDocumentEntry (table_with plan.new rows.now i) }
    ensures refused { OnErr result (table_with plan.new rows.now ≡ table_with plan.old rows.now) }
{
    let Span {
        part,
        parent,
        from,
        to,
    } = span;
    let place = Span {
        part,
        parent,
        from,
        to,
    };
    let outline = outline_of(rows, plan, alloc, span, trees, levels)?;
    write(rows, plan, names, alloc, place, trees, outline)
}
