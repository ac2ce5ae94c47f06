//! What a copy reads, and what it may take.

ghost use Rattle.std.specs.Prelude.{◌≡◌, ◌+◌, ◌-◌, ◌<◌, ◌^◌, false, IfOk, IsTrue, option_map};
ghost use Rattle.node_table.specs.Flat.{both};
ghost use Rattle.node_table.specs.Rows.{table_of, entry_of_row};
ghost use Rattle.copied_rows.specs.Copies.{AreApart};

use data_model::NodeId;
use node_table::table::{Row, Rows};
use row_pages::Cursor;
use std::alloc::AllocError;

/// A copy that is being made: the lent rows, which it reads beside those that grow, and what it may still take.
#[derive(Drop)]
pub struct Copying<'r> {
    /// The lent rows.
    pub lent: Cursor<'r, Row>,
    /// The lent rows are of nodes whose identities are below this one, the others of nodes from it on.
    pub first: u64,
    /// The next identity.
    pub next: u64,
    /// Identities below this one may be taken.
    pub end: u64,
    /// So many bytes of texts may be copied.
    pub bytes: u64,
    /// The copies may have so many levels.
    pub levels: u64,
}

/// A clone of a row, if there is one. It fails where memory is refused.
fn cloned(row: Option<&Row>) -> Result<Option<Row>, AllocError>
    ensures { IfOk result (λ clone. option_map entry_of_row clone ≡ option_map (λ r. entry_of_row r.now) row.entry) }
{
    match row {
        Some(row) => Ok(Some(row.clone()?)),
        None => Ok(None),
    }
}

impl<'r> Copying<'r> {
    /// A copy that may take any number of identities below 2^62, and have any number of levels. No memory has room for more bytes than it may take.
    pub fn unlimited(lent: &'r Rows, first: u64, next: u64) -> Copying<'r>
        ensures lent { result.lent ≡ lent.now }
        ensures first { result.first ≡ first }
        ensures next { result.next ≡ next }
        ensures end { result.end ≡ 2 ^ 62 }
    {
        Copying {
            lent: lent.cursor(),
            first,
            next,
            end: 1 << 62,
            bytes: u64::MAX,
            levels: u64::MAX,
        }
    }

    /// A clone of the row of a node, lent or among those that grow. It fails where memory is refused.
    pub(crate) fn row(&mut self, rows: &Rows, id: NodeId) -> Result<Option<Row>, AllocError>
        requires apart { AreApart self.old.first (table_of self.old.lent) (table_of rows.now) }
        ensures row { IfOk result (λ row. option_map entry_of_row row ≡ both (table_of self.old.lent) (table_of rows.now) id) }
        ensures same { self.new ≡ self.old }
    {
        if id.number() < self.first {
            return cloned(self.lent.seek(id.number()));
        }
        cloned(rows.get(id.number()))
    }

    /// Takes the next identity and so many bytes for a node, below which there may be a level less then, and says whether it may. Where not, nothing
    /// changes.
    pub(crate) fn take(&mut self, bytes: usize) -> bool
        ensures taken { IsTrue result
            → self.new ≡ record self.old { next = self.old.next + 1; bytes = self.new.bytes; levels = self.new.levels } }
        ensures next { IsTrue result → self.old.next < self.old.end }
        ensures bytes { IsTrue result → self.new.bytes + bytes ≡ self.old.bytes }
        ensures levels { IsTrue result → self.new.levels + 1 ≡ self.old.levels }
        ensures refused { result ≡ false → self.new ≡ self.old }
    {
        if self.next >= self.end || self.levels == 0 {
            return false;
        }
        let Some(left) = self.bytes.checked_sub(bytes as u64) else {
            return false;
        };
        self.next += 1;
        self.bytes = left;
        self.levels -= 1;
        true
    }
}
