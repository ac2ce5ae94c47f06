//! The flat table of nodes that a forest stands on.

ghost use Rattle.std.specs.Prelude.{◌≡◌, ◌≢◌, ℕ, ◌+◌, ◌≤◌, Option, Some, None, OnOk, cond, IsSome, length};
ghost use Rattle.data_model.specs.declared.node.Part.{Part};
ghost use Rattle.node_table.specs.Flat.{Entry, IsChangedAt, Puts, with_child, with_parent, with_text, with_name, without_child, listed, IsOnceBelow};
ghost use Rattle.node_table.specs.Lists.{HasRoomFor};
ghost use Rattle.node_table.specs.Rows.{table_of, entry_of_row, parent_of_row, list_in, HasRoom};
ghost use Rattle.node_table.specs.Labels.{place_of};

use super::list::NodeList;
use data_model::{Kind, NodeId, Part};
use row_pages::RowPages;
use shared_texts::{Name, Text};
use std::alloc::AllocError;

/// What the table has of a node. What most look-ups read comes first, so that it mostly lies in one line of the processor's cache.
#[derive(Clone, Drop)]
pub struct Row {
    /// Its kind.
    pub kind: Kind,
    /// Whether it has a parent.
    pub has_parent: bool,
    /// Its name, empty where its kind has none.
    pub name: Name,
    /// The number of its parent, where it has one. An option of it would take a word more in each row.
    pub parent: NodeId,
    /// A number that rises among its parent's attributes and then its children. A root's counts for nothing.
    pub place: u64,
    /// Its children, in document order.
    pub children: NodeList,
    /// Its attributes, in their list's order.
    pub attributes: NodeList,
    /// The text of an attribute, a text, a comment or a processing instruction; empty for other kinds.
    pub text: Text,
}

impl Row {
    /// Its parent.
    pub fn parent(&self) -> Option<NodeId>
        ensures { result ≡ parent_of_row self.now }
    {
        if self.has_parent {
            Some(self.parent)
        } else {
            None
        }
    }
}

/// A parent, or none, as a row has it: whether there is one, and which. Where there is none, the number says nothing.
pub fn as_in_row(parent: Option<NodeId>) -> (bool, NodeId)
    ensures { cond result.0 (Some result.1) None ≡ parent }
{
    match parent {
        Some(parent) => (true, parent),
        None => (false, NodeId::new(0)),
    }
}

/// Every node by the number of its identity.
pub type Rows = RowPages<Row>;

/// Makes room for more nodes in a list of a row, which says what it said, also where memory is refused.
fn reserve_in(row: &mut Row, part: Part, additional: usize) -> Result<(), AllocError>
    ensures same { entry_of_row row.new ≡ entry_of_row row.old }
    ensures place { row.new.place ≡ row.old.place }
    ensures room { OnOk result (HasRoomFor (list_in part row.new) additional) }
{
    match part {
        Part::Attributes => row.attributes.reserve(additional),
        Part::Children => row.children.reserve(additional),
    }
}

/// Puts a node into a list of a row, which has room for it.
fn add_to(row: &mut Row, part: Part, index: usize, child: NodeId)
    requires within { index ≤ length (list_in part row.old).items }
    requires room { HasRoomFor (list_in part row.old) 1 }
    ensures added { entry_of_row row.new ≡ with_child part index child (entry_of_row row.old) }
    ensures place { row.new.place ≡ row.old.place }
    ensures len { length (list_in part row.new).items ≡ length (list_in part row.old).items + 1 }
    ensures capacity { (list_in part row.old).capacity ≤ (list_in part row.new).capacity }
{
    match part {
        Part::Attributes => row.attributes.insert(index, child),
        Part::Children => row.children.insert(index, child),
    }
}

/// Makes room for more nodes in a list below a node. Where memory is refused, the table says what it said.
pub fn reserve(
    rows: &mut Rows,
    part: Part,
    parent: NodeId,
    additional: usize,
) -> Result<(), AllocError>
    ensures same { table_of rows.new ≡ table_of rows.old }
    ensures places { place_of rows.new ≡ place_of rows.old }
    ensures room { OnOk result (IsSome (table_of rows.old parent) → HasRoom part parent additional rows.new) }
{
    match rows.get_mut(parent.number()) {
        Some(row) => reserve_in(row, part, additional),
        None => Ok(()),
    }
}

/// Puts a node into a list below another, in which `index` others come before it and for which room was made.
fn add_below(rows: &mut Rows, part: Part, parent: NodeId, index: usize, child: NodeId)
    requires within { (e : Entry) → table_of rows.old parent ≡ Some e → index ≤ length (listed part e) }
    requires room { HasRoom part parent 1 rows.old }
    ensures added { IsChangedAt (table_of rows.old) (table_of rows.new) parent (with_child part index child) }
    ensures places { place_of rows.new ≡ place_of rows.old }
    ensures room { (n : ℕ) → HasRoom part parent (n + 1) rows.old → HasRoom part parent n rows.new }
{
    if let Some(row) = rows.get_mut(parent.number()) {
        add_to(row, part, index, child);
    }
}

/// Gives a node another parent, or none.
pub fn set_parent(rows: &mut Rows, child: NodeId, parent: Option<NodeId>)
    requires { IsSome (table_of rows.old child) }
    ensures changed { IsChangedAt (table_of rows.old) (table_of rows.new) child (with_parent parent) }
    ensures places { place_of rows.new ≡ place_of rows.old }
    ensures room { (part : Part) (i n : ℕ) → HasRoom part i n rows.old → HasRoom part i n rows.new }
{
    if let Some(row) = rows.get_mut(child.number()) {
        (row.has_parent, row.parent) = as_in_row(parent);
    }
}

/// Moves a node that has no parent into a list below another, in which `index` others come before it and for which room was made.
pub fn move_below(rows: &mut Rows, part: Part, parent: NodeId, index: usize, child: NodeId)
    requires within { (e : Entry) → table_of rows.old parent ≡ Some e → index ≤ length (listed part e) }
    requires there { IsSome (table_of rows.old child) }
    requires apart { parent ≢ child }
    requires room { HasRoom part parent 1 rows.old }
    ensures put { Puts (table_of rows.old) (table_of rows.new) part index parent child }
    ensures places { place_of rows.new ≡ place_of rows.old }
    ensures room { (n : ℕ) → HasRoom part parent (n + 1) rows.old → HasRoom part parent n rows.new }
{
    add_below(rows, part, parent, index, child);
    set_parent(rows, child, Some(parent));
}

/// Gives a node another text.
pub fn set_text(rows: &mut Rows, id: NodeId, text: Text)
    requires { IsSome (table_of rows.old id) }
    ensures changed { IsChangedAt (table_of rows.old) (table_of rows.new) id (with_text text) }
    ensures places { place_of rows.new ≡ place_of rows.old }
{
    if let Some(row) = rows.get_mut(id.number()) {
        row.text = text;
    }
}

/// Gives a node another name.
pub fn set_name(rows: &mut Rows, id: NodeId, name: Name)
    requires { IsSome (table_of rows.old id) }
    ensures changed { IsChangedAt (table_of rows.old) (table_of rows.new) id (with_name name) }
    ensures places { place_of rows.new ≡ place_of rows.old }
{
    if let Some(row) = rows.get_mut(id.number()) {
        row.name = name;
    }
}

/// Takes a node out of the list below another in which it stands: that of `part`, or else the other.
pub fn drop_child(rows: &mut Rows, part: Part, parent: NodeId, child: NodeId)
    requires there { IsSome (table_of rows.old parent) }
    requires once { (e : Entry) → table_of rows.old parent ≡ Some e → IsOnceBelow child e }
    ensures changed { IsChangedAt (table_of rows.old) (table_of rows.new) parent (without_child child) }
    ensures places { place_of rows.new ≡ place_of rows.old }
{
    if let Some(row) = rows.get_mut(parent.number()) {
        remove_below(row, part, child);
    }
}

/// Takes a node out of the list of a row in which it stands: that of `part`, or else the other.
fn remove_below(row: &mut Row, part: Part, child: NodeId)
    requires { IsOnceBelow child (entry_of_row row.old) }
    ensures lists { entry_of_row row.new ≡ without_child child (entry_of_row row.old) }
    ensures place { row.new.place ≡ row.old.place }
{
    match part {
        Part::Attributes => {
            if !row.attributes.remove(child) {
                row.children.remove(child);
            }
        }
        Part::Children => {
            if !row.children.remove(child) {
                row.attributes.remove(child);
            }
        }
    }
}
