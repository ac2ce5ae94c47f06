//! The values that a record keeps as learnt, one row at a time.

ghost use Rattle.std.specs.Prelude.{◌≡◌, ◌≤◌, [], List, length, IfOk, IsErrOf, IsTrue, OnOk};
ghost use Rattle.sqlite.specs.State.{HasCleanDisk, IsUnchanged, Survives};
ghost use Rattle.sqlite.specs.Held.{state};
ghost use Rattle.sqlite_catalog.specs.Listing.{IsSound};
ghost use Rattle.ballots.specs.Values.{positions};
ghost use Rattle.ballots.specs.declared.value.Value.{Value as ValueTerm};
ghost use Rattle.record_tables.specs.Texts.{schema};
ghost use Rattle.record_tables.specs.Versions.{tables_of};
ghost use Rattle.record_writes.specs.Faults.{StoreFailed};
ghost use Rattle.record_writes.specs.Holds.{Ended};
ghost use Rattle.record_writes.specs.Stored.{AreKept, KeepsLearnt};

use super::load::fault_of;
use super::reading::{OpenFault, add_learnt};
use ballots::limits::POSITIONS;
use record_tables::Version;
use records::Record;
use sqlite::{Alter, Connection};
use std::alloc::Global;

/// The record with the values that the table holds as learnt at 1, 2, .. in it. Beside the record it holds some rows at a time.
///
/// Faults: `Memory` where memory is refused; `Store` where the store failed; `Damaged` where the rows are not those of such values. Nothing
/// has changed then in the tables, or what was under way was rolled back.
fn load_learnt<S: Alter>(
    alloc: Global,
    connection: &mut Connection<S>,
    found: Record,
) -> Result<Record, OpenFault>
    requires schema { HasCleanDisk (state S.Store connection.old) → (state S.Store connection.old).now.schema ≡ schema }
    requires sound { HasCleanDisk (state S.Store connection.old) → IsSound schema (state S.Store connection.old).now.trees }
    requires none { found.learnt ≡ [] }
    ensures kept { HasCleanDisk (state S.Store connection.new) → IfOk result (λ r. AreKept ((state S.Store connection.old).now.trees 2) r.learnt) }
    ensures few { IfOk result (λ r. length r.learnt ≤ positions) }
    ensures promise { IfOk result (λ r. r.promise ≡ found.promise) }
    ensures votes { IfOk result (λ r. r.votes ≡ found.votes) }
    ensures not_other { IsErrOf result OpenFault.Other → ⊥ }
    ensures store { HasCleanDisk (state S.Store connection.new) → IsErrOf result OpenFault.Store → StoreFailed (state S.Store connection.old) (state S.Store connection.new) }
    ensures damaged { HasCleanDisk (state S.Store connection.new) → IsErrOf result OpenFault.Damaged → (values : List ValueTerm) → ¬ AreKept ((state S.Store connection.old).now.trees 2) values }
    ensures same { HasCleanDisk (state S.Store connection.new) → OnOk result (IsUnchanged (state S.Store connection.old) (state S.Store connection.new)) }
    ensures ended { HasCleanDisk (state S.Store connection.new) → Ended (state S.Store connection.old) (state S.Store connection.new) }
    ensures survives { Survives (state S.Store connection.old) (state S.Store connection.new) (λ _. ⊥) }
{
    let mut record = found;
    let mut rows = match connection.query(
        "SELECT position, value FROM learnt ORDER BY position",
        &[],
    ) {
        Ok(rows) => rows,
        Err(error) => return Err(fault_of(&error)),
    };
    'learnt: for _ in 0..=POSITIONS {
        if let Err(error) = rows.advance() {
            return Err(fault_of(&error));
        }
        let Some(row) = rows.get() else {
            return Ok(record);
        };
        add_learnt(alloc, row, &mut record)?;
    }
    Err(OpenFault::Damaged)
}

/// The record with what the tables of that version hold as learnt: the first holds nothing.
///
/// Faults: as of `load_learnt`.
pub(super) fn load_kept<S: Alter>(
    alloc: Global,
    connection: &mut Connection<S>,
    found: Record,
    version: Version,
) -> Result<Record, OpenFault>
    requires schema { HasCleanDisk (state S.Store connection.old) → (state S.Store connection.old).now.schema ≡ tables_of version }
    requires sound { HasCleanDisk (state S.Store connection.old) → IsSound (tables_of version) (state S.Store connection.old).now.trees }
    requires open { HasCleanDisk (state S.Store connection.old) → IsTrue (state S.Store connection.old).is_open }
    requires none { found.learnt ≡ [] }
    ensures kept { HasCleanDisk (state S.Store connection.new) → IfOk result (λ r. KeepsLearnt version (state S.Store connection.old).now.trees r.learnt) }
    ensures few { IfOk result (λ r. length r.learnt ≤ positions) }
    ensures promise { IfOk result (λ r. r.promise ≡ found.promise) }
    ensures votes { IfOk result (λ r. r.votes ≡ found.votes) }
    ensures not_other { IsErrOf result OpenFault.Other → ⊥ }
    ensures store { HasCleanDisk (state S.Store connection.new) → IsErrOf result OpenFault.Store → StoreFailed (state S.Store connection.old) (state S.Store connection.new) }
    ensures damaged { HasCleanDisk (state S.Store connection.new) → IsErrOf result OpenFault.Damaged → (values : List ValueTerm) → ¬ KeepsLearnt version (state S.Store connection.old).now.trees values }
    ensures same { HasCleanDisk (state S.Store connection.new) → OnOk result (IsUnchanged (state S.Store connection.old) (state S.Store connection.new)) }
    ensures ended { HasCleanDisk (state S.Store connection.new) → Ended (state S.Store connection.old) (state S.Store connection.new) }
    ensures survives { Survives (state S.Store connection.old) (state S.Store connection.new) (λ _. ⊥) }
{
    match version {
        Version::First => Ok(found),
        Version::Second => load_learnt(alloc, connection, found),
    }
}
