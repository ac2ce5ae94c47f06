//! Trees of their own, read off the flat table.

ghost use Rattle.std.specs.Prelude.{◌≡◌, IfOk};
ghost use Rattle.data_model.specs.Tree.{all_of};
ghost use Rattle.node_table.specs.Flat.{read_trees};
ghost use Rattle.node_table.specs.Rows.{table_of};

use super::table::{Row, Rows};
use data_model::{Content, NodeId, Tree};
use row_pages::Cursor;
use shared_texts::Text;
use std::alloc::{AllocError, Global};

/// The trees of some nodes, each with what is below it, at most so many levels down. It fails where memory is refused.
pub fn trees_of(
    rows: &Rows,
    alloc: Global,
    ids: &[NodeId],
    levels: u64,
) -> Result<Vec<Tree>, AllocError>
    ensures { IfOk result (λ v. all_of v.items ≡ read_trees levels (table_of rows.now) ids.now) }
{
    let mut cursor = rows.cursor();
    trees_by(&mut cursor, alloc, ids, levels)
}

/// The trees of some nodes, as `trees_of` reads them, by a cursor over the rows.
fn trees_by(
    cursor: &mut Cursor<'_, Row>,
    alloc: Global,
    ids: &[NodeId],
    levels: u64,
) -> Result<Vec<Tree>, AllocError>
    ensures trees { IfOk result (λ v. all_of v.items ≡ read_trees levels (table_of cursor.old) ids.now) }
    ensures same { cursor.new ≡ cursor.old }
{
    let mut trees = Vec::new(alloc);
    if levels == 0 {
        return Ok(trees);
    }
    for id in ids {
        let Some(row) = cursor.seek(id.number()) else {
            return Ok(trees);
        };
        let content = Content {
            identity: *id,
            kind: row.kind,
            name: Text::of(alloc, row.name.as_str())?,
            text: row.text.clone()?,
        };
        let attributes = trees_by(cursor, alloc, &row.attributes, levels - 1)?;
        let children = trees_by(cursor, alloc, &row.children, levels - 1)?;
        trees.push(Tree::new(content, attributes, children))?;
    }
    Ok(trees)
}
