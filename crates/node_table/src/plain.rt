//! Values of nodes that stand in one text.

ghost use Rattle.std.specs.Prelude.{◌≡◌, ◌≤◌, ◌<◌, ◌+◌, ◌^◌, ◌∷◌, [], true, Some, IfSome};
ghost use Rattle.data_model.specs.Trees.{size, is_text};
ghost use Rattle.node_table.specs.Flat.{Entry, read_trees};
ghost use Rattle.node_table.specs.Plain.{IsPlain, IsTextBelow, IsLeafText};
ghost use Rattle.node_table.specs.Rows.{table_of, entry_of_row};

use super::table::Row;
use super::walk::count_by;
use data_model::{Kind, NodeId};
use row_pages::Cursor;
use shared_texts::Text;

/// What the typed value of a node is made of, where its string value stands in one text.
#[derive(Clone, Copy)]
pub struct PlainValue<'r> {
    /// The node's kind.
    pub kind: Kind,
    /// Its string value, which the node's row has too.
    pub text: &'r Text,
    /// How many nodes its tree has, itself and attributes counted.
    pub size: u64,
}

/// The text below a row, and how many nodes stand among its children.
#[derive(Clone, Copy)]
struct TextBelow<'r> {
    text: &'r Text,
    nodes: u64,
}

/// What the value of a node is made of, where it stands in one text: that of an attribute, a text, a comment or an instruction, of a node with
/// no children, and of one whose only child is a text. `None` elsewhere, and where there is no row. The tree is read so many levels down.
pub(crate) fn plain_value<'r>(
    cursor: &mut Cursor<'r, Row>,
    id: NodeId,
    levels: u64,
) -> Option<PlainValue<'r>>
    requires deep { 1 ≤ levels }
    requires few { size (read_trees (levels + 1) (table_of cursor.old) (id ∷ [])) < 2 ^ 64 }
    ensures plain { IfSome result (IsPlain (table_of cursor.old) levels id) }
    ensures same { cursor.new ≡ cursor.old }
{
    let row = cursor.seek(id.number())?;
    let below = text_below(cursor, row)?;
    Some(PlainValue {
        kind: row.kind,
        text: below.text,
        size: 1 + count_by(cursor, &row.attributes, levels) + below.nodes,
    })
}

/// The string value of a row, where it stands in one text, and how many nodes stand below its children, these counted.
fn text_below<'r>(cursor: &mut Cursor<'r, Row>, row: &'r Row) -> Option<TextBelow<'r>>
    ensures below { IfSome result (IsTextBelow (table_of cursor.old) (entry_of_row row.now)) }
    ensures same { cursor.new ≡ cursor.old }
{
    match row.children.as_slice() {
        // The value is the empty text, as is that of such a row.
        [] if row.kind.is_inner() && !row.text.as_str().is_empty() => None,
        [] => Some(TextBelow {
            text: &row.text,
            nodes: 0,
        }),
        [only] if row.kind.is_inner() => Some(TextBelow {
            text: leaf_text(cursor, *only)?,
            nodes: 1,
        }),
        _ => None,
    }
}

/// The text of a node of the kind of texts with nothing below it; `None` of another one, and where there is no row.
fn leaf_text<'r>(cursor: &mut Cursor<'r, Row>, id: NodeId) -> Option<&'r Text>
    ensures text { IfSome result (λ s. IsLeafText (table_of cursor.old) id s.now) }
    ensures same { cursor.new ≡ cursor.old }
{
    let row = cursor.seek(id.number())?;
    if row.kind.is_text() && row.attributes.is_empty() && row.children.is_empty() {
        Some(&row.text)
    } else {
        None
    }
}
