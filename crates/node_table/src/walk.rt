//! Walks below nodes, over the flat table.

ghost use Rattle.std.specs.Prelude.{◌≡◌, ◌+◌, ◌++◌, ◌<◌, ◌≤◌, ◌^◌, Some, None, IfOk, IfSome, IfNone, cond, false, length, string_bytes};
ghost use Rattle.data_model.specs.Trees.{bytes_in, count, size, text_of, text_within};
ghost use Rattle.node_table.specs.Flat.{read_trees};
ghost use Rattle.node_table.specs.Rows.{table_of};

use super::table::{Row, Rows};
use data_model::NodeId;
use row_pages::Cursor;
use std::alloc::AllocError;

/// Appends a text where at most `most` bytes stand there then, and says whether they do; where not, nothing is appended.
///
/// It fails where memory is refused.
pub fn push_within(out: &mut String, text: &str, most: usize) -> Result<bool, AllocError>
    requires { length (string_bytes out.old) ≤ most }
    ensures value { IfOk result (λ fits. text_within most (string_bytes out.old ++ text.now) ≡ cond fits (Some (string_bytes out.new)) None) }
    ensures same { IfOk result (λ fits. fits ≡ false → string_bytes out.new ≡ string_bytes out.old) }
    ensures most { length (string_bytes out.new) ≤ most }
{
    if text.len() > most - out.len() {
        return Ok(false);
    }
    out.push_str(text)?;
    Ok(true)
}

/// Appends the texts below some nodes, at most so many levels down, where at most `most` bytes stand there then, and says whether
/// they do; where not, some of the texts may stand there.
///
/// It fails where memory is refused.
pub fn add_text_within(
    rows: &Rows,
    ids: &[NodeId],
    levels: u64,
    most: usize,
    out: &mut String,
) -> Result<bool, AllocError>
    requires { length (string_bytes out.old) ≤ most }
    ensures value { IfOk result
        (λ fits. text_within most (string_bytes out.old ++ text_of (read_trees levels (table_of rows.now) ids.now)) ≡ cond fits (Some (string_bytes out.new)) None) }
    ensures most { length (string_bytes out.new) ≤ most }
{
    if levels == 0 {
        return Ok(true);
    }
    for id in ids {
        let Some(row) = rows.get(id.number()) else {
            return Ok(true);
        };
        let fits = if row.kind.is_inner() {
            add_text_within(rows, &row.children, levels - 1, most, out)?
        } else if row.kind.is_text() {
            push_within(out, row.text.as_str(), most)?
        } else {
            true
        };
        if !fits {
            return Ok(false);
        }
    }
    Ok(true)
}

/// How many nodes stand below a list of nodes, they themselves counted, at most so many levels down.
pub fn count(rows: &Rows, ids: &[NodeId], levels: u64) -> u64
    requires { size (read_trees levels (table_of rows.now) ids.now) < 2 ^ 64 }
    ensures { result ≡ size (read_trees levels (table_of rows.now) ids.now) }
{
    count_by(&mut rows.cursor(), ids, levels)
}

/// The same, by a cursor over the rows.
pub(crate) fn count_by(cursor: &mut Cursor<'_, Row>, ids: &[NodeId], levels: u64) -> u64
    requires { size (read_trees levels (table_of cursor.old) ids.now) < 2 ^ 64 }
    ensures count { result ≡ size (read_trees levels (table_of cursor.old) ids.now) }
    ensures same { cursor.new ≡ cursor.old }
{
    let mut nodes = 0;
    if levels == 0 {
        return nodes;
    }
    for id in ids {
        let Some(row) = cursor.seek(id.number()) else {
            return nodes;
        };
        nodes += 1 + count_by(cursor, &row.attributes, levels - 1);
        nodes += count_by(cursor, &row.children, levels - 1);
    }
    nodes
}

/// What is left of so many bytes without those of all texts of a list of nodes and of what stands below them, at most so many levels down;
/// `None` where they are more.
pub fn without_texts(rows: &Rows, ids: &[NodeId], levels: u64, bytes: u64) -> Option<u64>
    ensures left { IfSome result (λ left. left + bytes_in (read_trees levels (table_of rows.now) ids.now) ≡ bytes) }
    ensures more { IfNone result (bytes < bytes_in (read_trees levels (table_of rows.now) ids.now)) }
{
    let mut cursor = rows.cursor();
    without_texts_by(&mut cursor, ids, levels, bytes)
}

/// What is left of so many bytes, as `without_texts` finds it, by a cursor over the rows.
fn without_texts_by(
    cursor: &mut Cursor<'_, Row>,
    ids: &[NodeId],
    levels: u64,
    bytes: u64,
) -> Option<u64>
    ensures left { IfSome result (λ left. left + bytes_in (read_trees levels (table_of cursor.old) ids.now) ≡ bytes) }
    ensures more { IfNone result (bytes < bytes_in (read_trees levels (table_of cursor.old) ids.now)) }
    ensures same { cursor.new ≡ cursor.old }
{
    let mut left = bytes;
    if levels == 0 {
        return Some(left);
    }
    for id in ids {
        let Some(row) = cursor.seek(id.number()) else {
            return Some(left);
        };
        left = left.checked_sub(row.text.as_str().len() as u64)?;
        left = without_texts_by(cursor, &row.attributes, levels - 1, left)?;
        left = without_texts_by(cursor, &row.children, levels - 1, left)?;
    }
    Some(left)
}
