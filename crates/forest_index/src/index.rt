//! What a forest keeps so that its nodes need not be walked through: its elements by name, and the sizes of its trees.

ghost use Rattle.std.specs.Prelude.{◌≡◌, ◌≢◌, ℕ, ◌+◌, ◌-◌, ◌<◌, ◌≤◌, ◌^◌, Option, Some, OnOk, IfOk, IfSome, option_map};
ghost use Rattle.std.specs.Option.{option_or};
ghost use Rattle.row_pages.specs.Rows.{get, spare};
ghost use Rattle.node_table.specs.Flat.{Table};
ghost use Rattle.node_table.specs.Rows.{table_of};
ghost use Rattle.node_plans.specs.Planned.{table_with};
ghost use Rattle.forest_index.specs.Named.{Covers};
ghost use Rattle.forest_index.specs.Sized.{kept_sizes, size_in, size_with};

use super::name_lists::NameLists;
use data_model::NodeId;
use node_plans::plan::Plan;
use node_table::table::Rows;
use row_pages::RowPages;
use std::alloc::{AllocError, Global};

/// Numbers of nodes, each by the number of the identity of its tree's root.
pub type Sizes = RowPages<u64>;

/// The elements of a forest by name, and the sizes of its trees.
#[derive(Drop)]
pub struct ForestIndex {
    pub names: NameLists,
    pub sizes: Sizes,
}

/// Lists what a plan adds to the elements of a table that has so many nodes, where there is an index. Where memory is refused, the elements of the
/// table are still listed.
pub fn prepare(
    index: &mut Option<ForestIndex>,
    rows: &Rows,
    plan: &Plan,
    nodes: u64,
) -> Result<(), AllocError>
    requires { Covers index.old (table_of rows.now) }
    ensures before { Covers index.new (table_of rows.now) }
    ensures after { OnOk result (Covers index.new (table_with plan.now rows.now)) }
    ensures sizes { kept_sizes index.new ≡ kept_sizes index.old }
{
    match index {
        Some(index) => index.names.prepare(rows, plan, nodes),
        None => Ok(()),
    }
}

/// The sizes of trees of one node each, whose roots have the numbers from 1 up to before `end`.
pub fn single_sizes(alloc: Global, end: u64) -> Result<Sizes, AllocError>
    ensures { IfOk result (λ sizes. (r n : ℕ) → get sizes r ≡ Some n → (n ≡ 1) × (1 ≤ r) × (r < end)) }
{
    let mut sizes = RowPages::new(alloc);
    for root in 1..end {
        sizes.insert(root, 1)?;
    }
    Ok(sizes)
}

/// The size that a tree is to have, where it is known.
fn planned_size(index: &Option<ForestIndex>, resized: &Sizes, root: NodeId) -> Option<u64>
    ensures { result ≡ size_with (kept_sizes index.now) resized.now root }
{
    match index {
        Some(index) => {
            let kept = index.sizes.get(root.number()).copied();
            resized.get(root.number()).copied().or(kept)
        }
        None => None,
    }
}

/// Plans the size of a tree into which so many nodes come and from which so many go, where its size is known. There is room for it.
pub fn plan_size(
    index: &Option<ForestIndex>,
    resized: &mut Sizes,
    root: NodeId,
    added: u64,
    removed: u64,
)
    requires room { 1 ≤ spare resized.old }
    requires fits { IfSome (size_with (kept_sizes index.now) resized.old root) (λ n. (n + added < 2 ^ 64) × (removed ≤ n + added)) }
    ensures here { size_with (kept_sizes index.now) resized.new root
        ≡ option_map (λ n. n + added - removed) (size_with (kept_sizes index.now) resized.old root) }
    ensures apart { (r : ℕ) → r ≢ root → size_with (kept_sizes index.now) resized.new r ≡ size_with (kept_sizes index.now) resized.old r }
{
    if let Some(size) = planned_size(index, resized, root) {
        resized.put(root.number(), size + added - removed);
    }
}

/// Writes the sizes that trees have got, where there is an index. It takes no memory.
pub fn settle(index: &mut Option<ForestIndex>, resized: Sizes)
    ensures named { (f : Table) → Covers index.old f → Covers index.new f }
    ensures sizes { (r n : ℕ) → size_in (kept_sizes index.new) r ≡ Some n → size_with (kept_sizes index.old) resized r ≡ Some n }
{
    if let Some(index) = index {
        write_all(&mut index.sizes, resized);
    }
}

/// Writes sizes in the place of those that are there.
fn write_all(sizes: &mut Sizes, resized: Sizes)
    ensures { (r n : ℕ) → get sizes.new r ≡ Some n → option_or (get resized r) (get sizes.old r) ≡ Some n }
{
    let mut resized = resized;
    while let Some((root, size)) = resized.pop() {
        write(sizes, root, size);
    }
}

/// Writes a size in the place of another.
fn write(sizes: &mut Sizes, root: u64, size: u64)
    ensures here { get sizes.new root ≡ option_map (λ _. size) (get sizes.old root) }
    ensures apart { (r : ℕ) → r ≢ root → get sizes.new r ≡ get sizes.old r }
{
    if let Some(at) = sizes.get_mut(root) {
        *at = size;
    }
}
