//! Reading a record, and judging that it is one.

ghost use Rattle.std.specs.Prelude.{◌≡◌, ◌⊎◌, ◌≤◌, ◌≢◌, false, IfOk, IsErrOf, OnOk, IsTrue};
ghost use Rattle.record_writes.specs.Faults.{StoreFailed};
ghost use Rattle.sql_records.specs.Faults.{HoldsNone, IsAnothersIn};
ghost use Rattle.sql_records.specs.Opened.{IsAsBefore};
ghost use Rattle.sqlite.specs.Tree.{Trees};
ghost use Rattle.sqlite_trees.specs.View.{doubt};
ghost use Rattle.sqlite.specs.declared.error.ErrorCode.TheVariants.{OutOfMemory};
ghost use Rattle.sqlite.specs.State.{HasCleanDisk, IsLive, IsUnchanged, Survives};
ghost use Rattle.sqlite.specs.Held.{state};
ghost use Rattle.ballots.specs.Terms.{Setup as Owner};
ghost use Rattle.paxos.specs.Records.{Record as RecordTerm};
ghost use Rattle.paxos.specs.WellFormed.{IsRecord};
ghost use Rattle.record_writes.specs.Holds.{Holds};
ghost use Rattle.record_writes.specs.Stored.{IsStored};
ghost use Rattle.record_tables.specs.Texts.{schema as our_schema};
ghost use Rattle.record_tables.specs.Versions.{tables_of};

use super::learnt::load_kept;
use super::reading::{OpenFault, are_numbers, read_member};
use super::rows::meta_rows;
use super::votes::load_votes;
use ballots::Setup;
use ballots::laws::spellings;
use record_tables::{Version, has_tables};
use record_writes::is_memory;
use records::Record;
use sqlite::{Alter, Connection, Error};
use std::alloc::Global;

/// Whether the tables are those of that version of a record, and no transaction is under way.
fn is_ready<S: Alter>(connection: &Connection<S>, version: Version) -> bool
    ensures schema { IsTrue result → (state S.Store connection.now).now.schema ≡ tables_of version }
    ensures mode { IsTrue result → (state S.Store connection.now).in_transaction ≡ false }
    ensures settled { IsTrue result → IsTrue (state S.Store connection.now).is_open → (state S.Store connection.now).now ≡ (state S.Store connection.now).committed }
    ensures live { IsTrue result → IsLive (state S.Store connection.now) }
    ensures ready { (state S.Store connection.now).in_transaction ≡ false → (state S.Store connection.now).now.schema ≡ tables_of version → IsTrue result }
{
    connection.is_autocommit() && has_tables(connection.schema(), version)
}

/// What an error of a query is to a record.
pub(super) fn fault_of(error: &Error) -> OpenFault
    ensures not_other { result ≢ OpenFault.Other }
    ensures not_damaged { result ≢ OpenFault.Damaged }
    ensures store { result ≡ OpenFault.Store → error.now ≢ Error.SqliteFailure OutOfMemory }
{
    if is_memory(error) {
        OpenFault::Memory
    } else {
        OpenFault::Store
    }
}

/// The record of this member that the tables hold in that version.
///
/// Faults: as of `load`.
pub(super) fn read<S: Alter>(
    alloc: Global,
    connection: &mut Connection<S>,
    setup: &Setup,
    version: Version,
) -> Result<Record, OpenFault>
    ensures stored { HasCleanDisk (state S.Store connection.new) → IfOk result (λ r. IsStored version setup.now (state S.Store connection.old).now.trees r) }
    ensures sound { IfOk result (λ r. IsRecord setup.now.members r) }
    ensures schema { OnOk result ((state S.Store connection.old).now.schema ≡ tables_of version) }
    ensures mode { OnOk result ((state S.Store connection.old).in_transaction ≡ false) }
    ensures settled { OnOk result (IsTrue (state S.Store connection.old).is_open → (state S.Store connection.old).now ≡ (state S.Store connection.old).committed) }
    ensures other { HasCleanDisk (state S.Store connection.new) → IsErrOf result OpenFault.Other → IsAnothersIn version setup.now (state S.Store connection.old).now }
    ensures damaged { HasCleanDisk (state S.Store connection.new) → IsErrOf result OpenFault.Damaged → (state S.Store connection.old).in_transaction ≡ false → HoldsNone version setup.now (state S.Store connection.old).now }
    ensures store { HasCleanDisk (state S.Store connection.new) → IsErrOf result OpenFault.Store → StoreFailed (state S.Store connection.old) (state S.Store connection.new) }
    ensures same { HasCleanDisk (state S.Store connection.new) → OnOk result (IsUnchanged (state S.Store connection.old) (state S.Store connection.new)) }
    ensures crash { HasCleanDisk (state S.Store connection.new) → (o : Owner) (a b : RecordTerm) → Holds (state S.Store connection.old) o a b → Holds (state S.Store connection.new) o a b }
    ensures back { HasCleanDisk (state S.Store connection.new) → IsAsBefore (state S.Store connection.old) (state S.Store connection.new) }
    ensures survives { Survives (state S.Store connection.old) (state S.Store connection.new) (λ _. ⊥) }
{
    spellings();
    are_numbers(setup);
    if !is_ready(connection, version) {
        return Err(OpenFault::Damaged);
    }
    let member = match meta_rows(connection) {
        Ok(rows) => rows,
        Err(error) => return Err(fault_of(&error)),
    };
    let promise = read_member(alloc, member.as_slice(), setup, version)?;
    let members = u32::from(setup.members().count());
    let record = load_votes(alloc, connection, promise, members)?;
    load_kept(alloc, connection, record, version)
}

/// The record of this member that the tables hold.
///
/// Faults: `Memory` where memory is refused; `Store` where the store failed; `Other` where they hold another member's row; `Damaged` where
/// they are other tables than those of version 2, or hold neither a record of this member nor another's row, or a transaction is under way. Whatever happens, a
/// crash leaves nothing that it could not leave before.
pub(super) fn load<S: Alter>(
    alloc: Global,
    connection: &mut Connection<S>,
    setup: &Setup,
) -> Result<Record, OpenFault>
    ensures found { HasCleanDisk (state S.Store connection.new) → IfOk result (λ r. Holds (state S.Store connection.new) setup.now r r
        × ((a b : RecordTerm) → Holds (state S.Store connection.old) setup.now a b → (r ≡ a) ⊎ (r ≡ b))) }
    ensures crash { HasCleanDisk (state S.Store connection.new) → (o : Owner) (a b : RecordTerm) → Holds (state S.Store connection.old) o a b → Holds (state S.Store connection.new) o a b }
    ensures stored { HasCleanDisk (state S.Store connection.new) → IfOk result (λ r. IsStored Version.Second setup.now (state S.Store connection.old).now.trees r) }
    ensures sound { IfOk result (λ r. IsRecord setup.now.members r) }
    ensures other { HasCleanDisk (state S.Store connection.new) → IsErrOf result OpenFault.Other → IsAnothersIn Version.Second setup.now (state S.Store connection.old).now }
    ensures damaged { HasCleanDisk (state S.Store connection.new) → IsErrOf result OpenFault.Damaged → (state S.Store connection.old).in_transaction ≡ false → HoldsNone Version.Second setup.now (state S.Store connection.old).now }
    ensures store { HasCleanDisk (state S.Store connection.new) → IsErrOf result OpenFault.Store → StoreFailed (state S.Store connection.old) (state S.Store connection.new) }
    ensures open { HasCleanDisk (state S.Store connection.new) → OnOk result (IsTrue (state S.Store connection.new).is_open) }
    ensures schema { OnOk result ((state S.Store connection.old).now.schema ≡ our_schema) }
    ensures back { HasCleanDisk (state S.Store connection.new) → IsAsBefore (state S.Store connection.old) (state S.Store connection.new) }
    ensures left { HasCleanDisk (state S.Store connection.new) → (db : Trees) → (state S.Store connection.new).may_leave db → (state S.Store connection.old).may_leave db }
    ensures clean { doubt (state S.Store connection.old).is_clean ≤ doubt (state S.Store connection.new).is_clean }
{
    spellings();
    read(alloc, connection, setup, Version::Second)
}
