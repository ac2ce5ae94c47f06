//! Lists of nodes by the names of elements.

ghost use Rattle.std.specs.Prelude.{◌≡◌, ℕ, ◌++◌, ◌∷◌, ◌↔◌, true, false, cond, List, [], Option, Some, OnOk, OnErr, IsTrue, string_bytes, option_map, option_copied};
ghost use Rattle.std.specs.Str.{bytes_eq};
ghost use Rattle.data_model.specs.Axes.{is_in};
ghost use Rattle.node_table.specs.Rows.{table_of, entry_of_row};
ghost use Rattle.node_plans.specs.Planned.{table_with};
ghost use Rattle.forest_index.specs.Named.{list_in, IsListed, Extends, IsElement, CoversAll, IsSwept};

use data_model::{Kind, NodeId};
use indexmap::IndexMap;
use node_plans::plan::Plan;
use node_table::table::{Row, Rows};
use std::alloc::{AllocError, Global};

/// How many identities may stand in lists beyond one and a half for each node, so that small forests are not swept.
const SLACK: u64 = 64;

/// For each name the identities of all elements that have it.
///
/// What goes or gets another name stays listed until the lists are swept, so others may stand there too, and one twice: nothing is looked for in a
/// list. They are swept once a third of what is listed has to be such: so a sweep costs, but for sorting, a fixed number of steps for each
/// identity that goes.
#[derive(Drop)]
pub struct NameLists {
    alloc: Global,
    pub lists: IndexMap<String, Vec<NodeId>>,
    /// How many identities stand in all lists.
    listed: u64,
}

impl NameLists {
    /// No lists.
    pub fn new(alloc: Global) -> NameLists
        ensures { (n : List ℕ) → list_in result.lists n ≡ [] }
    {
        NameLists {
            alloc,
            lists: IndexMap::new(alloc),
            listed: 0,
        }
    }

    /// What stands in the list of a name.
    pub fn list(&self, name: &str) -> &[NodeId]
        ensures { result.now ≡ list_in self.now.lists name.now }
    {
        match self.lists.get(name) {
            Some(list) => list.as_slice(),
            None => &[],
        }
    }

    /// Lists a node under a name, after those that stand there. Where memory is refused, the lists stay as they were.
    fn add(&mut self, name: &str, id: NodeId) -> Result<(), AllocError>
        ensures added { OnOk result
            ((n : List ℕ) → list_in self.new.lists n
            ≡ cond (bytes_eq name.now n) (list_in self.old.lists n ++ id ∷ []) (list_in self.old.lists n)) }
        ensures refused { OnErr result ((n : List ℕ) → list_in self.new.lists n ≡ list_in self.old.lists n) }
    {
        push_under(&mut self.lists, self.alloc, name, id)?;
        self.listed = self.listed.saturating_add(1);
        Ok(())
    }

    /// Lists a node under its name where it is to be an element and was none of that name. Where memory is refused, the lists stay as they were.
    fn add_changed(&mut self, was: Option<&Row>, row: &Row, id: NodeId) -> Result<(), AllocError>
        ensures kept { Extends self.old self.new }
        ensures listed { OnOk result
            ((n : List ℕ) → IsElement n (Some (entry_of_row row.now))
            → (IsElement n (option_map entry_of_row (option_copied was.entry)) → IsListed self.old n id) → IsListed self.new n id) }
    {
        if row.kind == Kind::Element && !is_element(was, row.name.as_str()) {
            self.add(row.name.as_str(), id)?;
        }
        Ok(())
    }

    /// Lists a node under the name that it is to have where it is to be an element. Where memory is refused, the lists stay as they were.
    fn add_one(&mut self, rows: &Rows, plan: &Plan, id: u64) -> Result<(), AllocError>
        requires { CoversAll self.old (table_of rows.now) }
        ensures kept { Extends self.old self.new }
        ensures named { OnOk result ((n : List ℕ) → IsElement n (table_with plan.now rows.now id) → IsListed self.new n id) }
    {
        match plan.rows.get(id) {
            Some(row) => self.add_changed(rows.get(id), row, NodeId::new(id)),
            None => Ok(()),
        }
    }

    /// Lists the elements that a plan makes and those to which it gives another name. Where memory is refused, some of them may be listed.
    fn add_planned(&mut self, rows: &Rows, plan: &Plan) -> Result<(), AllocError>
        requires { CoversAll self.old (table_of rows.now) }
        ensures kept { Extends self.old self.new }
        ensures covers { OnOk result (CoversAll self.new (table_with plan.now rows.now)) }
    {
        for id in plan.rows.keys() {
            self.add_one(rows, plan, *id)?;
        }
        Ok(())
    }

    /// Takes from each list what is no element of its name and what stands there twice, and lists in which nothing is left. It takes no memory.
    fn sweep(&mut self, rows: &Rows)
        ensures kept { (n : List ℕ) (i : ℕ) → IsElement n (table_of rows.now i) → IsListed self.old n i → IsListed self.new n i }
        ensures swept { (n : List ℕ) (i : ℕ) → IsListed self.new n i → IsElement n (table_of rows.now i) }
    {
        sweep_all(&mut self.lists, rows);
        self.listed = count(&self.lists);
    }

    /// Lists what a plan adds to the elements of a table that has so many nodes, after a sweep where too much is listed. Where memory is refused,
    /// the elements of the table are still listed.
    pub fn prepare(&mut self, rows: &Rows, plan: &Plan, nodes: u64) -> Result<(), AllocError>
        requires { CoversAll self.old (table_of rows.now) }
        ensures before { CoversAll self.new (table_of rows.now) }
        ensures after { OnOk result (CoversAll self.new (table_with plan.now rows.now)) }
    {
        if self.listed.saturating_sub(SLACK) / 3 > nodes / 2 {
            self.sweep(rows);
        }
        self.add_planned(rows, plan)
    }
}

/// Whether a row is there, of an element of that name.
fn is_element(row: Option<&Row>, name: &str) -> bool
    ensures { IsTrue result ↔ IsElement name.now (option_map entry_of_row (option_copied row.entry)) }
{
    match row {
        Some(row) => row.kind == Kind::Element && row.name.as_str() == name,
        None => false,
    }
}

/// Puts a node at the end of the list of a name. Where memory is refused, the lists stay as they were.
fn push_under(
    lists: &mut IndexMap<String, Vec<NodeId>>,
    alloc: Global,
    name: &str,
    id: NodeId,
) -> Result<(), AllocError>
    ensures added { OnOk result
        ((n : List ℕ) → list_in lists.new n
        ≡ cond (bytes_eq name.now n) (list_in lists.old n ++ id ∷ []) (list_in lists.old n)) }
    ensures refused { OnErr result ((n : List ℕ) → list_in lists.new n ≡ list_in lists.old n) }
{
    if let Some(list) = lists.get_mut(name) {
        list.push(id)?;
        return Ok(());
    }
    let mut list = Vec::new(alloc);
    list.push(id)?;
    lists.insert(String::from_str(alloc, name)?, list)?;
    Ok(())
}

/// Takes from each list what is no element of its name and what stands there twice, and lists in which nothing is left.
fn sweep_all(lists: &mut IndexMap<String, Vec<NodeId>>, rows: &Rows)
    ensures kept { (n : List ℕ) (i : ℕ) → IsElement n (table_of rows.now i) → is_in i (list_in lists.old n) ≡ true → is_in i (list_in lists.new n) ≡ true }
    ensures swept { (n : List ℕ) (i : ℕ) → is_in i (list_in lists.new n) ≡ true → IsElement n (table_of rows.now i) }
{
    lists.retain(
        |name: &String, list: &mut Vec<NodeId>| -> bool
            ensures { IsSwept (table_of rows.entry.now) (string_bytes name.now) list.old.items list.new.items result }
        { sweep_list(rows, name, list) },
    );
    shrink_names(lists);
}

/// Gives back the room for names where there is more than four times what stands, but for as much again.
fn shrink_names(lists: &mut IndexMap<String, Vec<NodeId>>)
    ensures { (n : List ℕ) → list_in lists.new n ≡ list_in lists.old n }
{
    let count = lists.len();
    if lists.capacity() / 4 > count {
        lists.shrink_to(count.saturating_mul(2));
    }
}

/// Takes from the list of a name what is no element of it and what stands there twice. Says whether something is left.
fn sweep_list(rows: &Rows, name: &String, list: &mut Vec<NodeId>) -> bool
    ensures { IsSwept (table_of rows.now) (string_bytes name.now) list.old.items list.new.items result }
{
    sort_once(list);
    list.retain(|id| is_element(rows.get(id.number()), name.as_str()));
    shrink(list);
    !list.is_empty()
}

/// Gives back the room of a list that has more than four times what stands, but for as much again.
fn shrink(list: &mut Vec<NodeId>)
    ensures { list.new.items ≡ list.old.items }
{
    let count = list.len();
    if list.capacity() / 4 > count {
        list.shrink_to(count.saturating_mul(2));
    }
}

/// Sorts a list and takes from it what stands there twice.
fn sort_once(list: &mut Vec<NodeId>)
    ensures { (i : ℕ) → is_in i list.new.items ≡ is_in i list.old.items }
{
    list.sort_unstable();
    list.dedup();
}

/// How many identities stand in all lists.
fn count(lists: &IndexMap<String, Vec<NodeId>>) -> u64 {
    let mut listed: u64 = 0;
    for list in lists.values() {
        listed = listed.saturating_add(list.len() as u64);
    }
    listed
}
