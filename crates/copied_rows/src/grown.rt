//! New nodes whose children are copies.

ghost use Rattle.std.specs.Prelude.{◌≡◌, ◌≢◌, ℕ, ◌+◌, ◌<◌, ◌≤◌, ◌^◌, [], Some, None, OnOk};
ghost use Rattle.data_model.specs.Trees.{height, size};
ghost use Rattle.node_table.specs.Flat.{Holds, both};
ghost use Rattle.node_table.specs.Labels.{place_of};
ghost use Rattle.node_table.specs.Rows.{row_of, table_of};
ghost use Rattle.copied_rows.specs.Copies.{AllThere, AreApart, WhereMade, WhereNot, grown, read_each, read_work};

use crate::copies::{copy_all, remove_range};
use crate::copying::Copying;
use data_model::{Kind, NodeId};
use node_table::list::NodeList;
use node_table::table::{Row, Rows, as_in_row};
use shared_texts::{Name, Text};
use std::alloc::{AllocError, Global};
use std::slice;

/// So many bytes of a tree's texts take a unit of work.
const BYTES_A_UNIT: u64 = 16;

/// What a new node and its copies may take.
#[derive(Clone, Copy)]
pub struct CopyLimits {
    /// Identities below this one.
    pub end: u64,
    /// So much work: a unit for each 16 bytes of the texts of each tree. Bytes that fill none are free.
    pub work: u64,
    /// The copies may have so many levels.
    pub levels: u64,
}

/// A node that is to be made.
#[derive(Drop)]
pub struct NewNode {
    /// Its identity, which the identities of its copies follow.
    pub identity: NodeId,
    /// Its kind.
    pub kind: Kind,
    /// Its name, empty where its kind has none.
    pub name: Name,
}

/// What was left by a new node and its copies.
#[derive(Clone, Copy)]
pub struct Grown {
    /// The next identity.
    pub next: u64,
    /// How much work.
    pub work: u64,
}

/// Makes a node with no parent, no attributes and no text, whose children are copies of the trees of some nodes, wherever these stand; each is gone
/// through once. The nodes are read from `rows` and the lent ones, seen as one, whose identities `first` parts; the new ones have the identities from the
/// new node's on, in document order.
///
/// `None` where they would take more than they may. Then, and where memory is refused, the rows stay as they were.
pub fn grow(
    lent: &Rows,
    first: u64,
    rows: &mut Rows,
    alloc: Global,
    node: NewNode,
    ids: &[NodeId],
    limits: CopyLimits,
) -> Result<Option<Grown>, AllocError>
    requires there { AllThere (both (table_of lent.now) (table_of rows.old)) node.identity node.identity ids.now }
    requires apart { AreApart first (table_of lent.now) (table_of rows.old) }
    requires first { first ≤ node.identity }
    requires fresh { (i : ℕ) → node.identity ≤ i → table_of rows.old i ≡ None }
    requires end { limits.end ≤ 2 ^ 62 }
    requires work { limits.work < 2 ^ 59 }
    ensures grown { WhereMade result
        (λ _. Holds (table_of rows.new) None
        (grown (record { identity = node.identity; kind = node.kind; name = node.name; text = [] }) (read_each node.identity (both (table_of lent.now) (table_of rows.old)) ids.now))) }
    ensures next { WhereMade result
        (λ made. made.next ≡ node.identity + 1 + size (read_each node.identity (both (table_of lent.now) (table_of rows.old)) ids.now)) }
    ensures end { WhereMade result (λ made. made.next ≤ limits.end) }
    ensures work { WhereMade result
        (λ made. made.work + read_work node.identity (both (table_of lent.now) (table_of rows.old)) ids.now ≡ limits.work) }
    ensures high { WhereMade result
        (λ _. height (read_each node.identity (both (table_of lent.now) (table_of rows.old)) ids.now) ≤ limits.levels) }
    ensures same { (i : ℕ) → i < node.identity → table_of rows.new i ≡ table_of rows.old i }
    ensures fresh { WhereMade result (λ made. (i : ℕ) → made.next ≤ i → table_of rows.new i ≡ None) }
    ensures places { place_of rows.new ≡ place_of rows.old }
    ensures refused { WhereNot result (table_of rows.new ≡ table_of rows.old) }
{
    let identity = node.identity.number();
    let mut copying = Copying {
        lent: lent.cursor(),
        first,
        next: identity,
        end: limits.end,
        bytes: 0,
        levels: limits.levels,
    };
    let grown = add_grown(&mut copying, rows, alloc, node, ids, limits.work);
    if !matches!(grown, Ok(Some(_))) {
        remove_range(rows, identity, copying.next);
    }
    grown
}

/// The same, but where it gives `None` or fails some of the new nodes may stand in `rows`, with identities below `copying.next`.
fn add_grown(
    copying: &mut Copying<'_>,
    rows: &mut Rows,
    alloc: Global,
    node: NewNode,
    ids: &[NodeId],
    work: u64,
) -> Result<Option<Grown>, AllocError>
    requires there { AllThere (both (table_of copying.old.lent) (table_of rows.old)) node.identity node.identity ids.now }
    requires apart { AreApart copying.old.first (table_of copying.old.lent) (table_of rows.old) }
    requires first { copying.old.first ≤ node.identity }
    requires next { copying.old.next ≡ node.identity }
    requires fresh { (i : ℕ) → node.identity ≤ i → table_of rows.old i ≡ None }
    requires end { copying.old.end ≤ 2 ^ 62 }
    requires work { work < 2 ^ 59 }
    ensures grown { WhereMade result
        (λ _. Holds (table_of rows.new) None
        (grown (record { identity = node.identity; kind = node.kind; name = node.name; text = [] }) (read_each node.identity (both (table_of copying.old.lent) (table_of rows.old)) ids.now))) }
    ensures next { WhereMade result
        (λ made. (made.next ≡ copying.new.next) × (made.next ≡ node.identity + 1 + size (read_each node.identity (both (table_of copying.old.lent) (table_of rows.old)) ids.now))) }
    ensures end { WhereMade result (λ made. made.next ≤ copying.old.end) }
    ensures work { WhereMade result
        (λ made. made.work + read_work node.identity (both (table_of copying.old.lent) (table_of rows.old)) ids.now ≡ work) }
    ensures high { WhereMade result
        (λ _. height (read_each node.identity (both (table_of copying.old.lent) (table_of rows.old)) ids.now) ≤ copying.old.levels) }
    ensures same { (i : ℕ) → i < node.identity → table_of rows.new i ≡ table_of rows.old i }
    ensures fresh { (i : ℕ) → copying.new.next ≤ i → table_of rows.new i ≡ None }
    ensures places { place_of rows.new ≡ place_of rows.old }
{
    if copying.next >= copying.end {
        return Ok(None);
    }
    let identity = node.identity;
    let deep = identity.number();
    copying.next += 1;
    let mut work = work;
    let mut children = NodeList::new(alloc);
    for id in ids {
        let copy = NodeId::new(copying.next);
        copying.bytes = work * BYTES_A_UNIT + (BYTES_A_UNIT - 1);
        let tree = slice::from_ref(id);
        let Some(_) = copy_all(copying, rows, alloc, tree, Some(identity), deep)? else {
            return Ok(None);
        };
        work = copying.bytes / BYTES_A_UNIT;
        children.push(copy)?;
    }
    put_node(rows, alloc, node, children)?;
    Ok(Some(Grown {
        next: copying.next,
        work,
    }))
}

/// Puts a new node with no parent, no attributes and no text into `rows`. Where memory is refused, no row changes.
fn put_node(
    rows: &mut Rows,
    alloc: Global,
    node: NewNode,
    children: NodeList,
) -> Result<(), AllocError>
    requires { table_of rows.old node.identity ≡ None }
    ensures put { OnOk result
        (table_of rows.new node.identity ≡ Some (record { kind = node.kind; name = node.name; text = []; parent = None; attributes = []; children = children.items })) }
    ensures same { (i : ℕ) → i ≢ node.identity → table_of rows.new i ≡ table_of rows.old i }
    ensures places { place_of rows.new ≡ place_of rows.old }
{
    let NewNode {
        identity,
        kind,
        name,
    } = node;
    let (has_parent, parent) = as_in_row(None);
    let row = Row {
        kind,
        has_parent,
        name,
        text: Text::empty(),
        parent,
        attributes: NodeList::new(alloc),
        children,
        place: identity.number(),
    };
    rows.insert(identity.number(), row)?;
    Ok(())
}
