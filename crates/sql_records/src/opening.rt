//! Opening a database as a member's records.

ghost use Rattle.std.specs.Prelude.{◌≡◌, ◌≢◌, ◌⊎◌, ◌≤◌, false, IfErr, IfOk, IsErrOf, OnErr, OnOk, IsTrue};
ghost use Rattle.record_writes.specs.Faults.{StoreFailed};
ghost use Rattle.sql_records.specs.Faults.{IsAnothers, IsDamaged};
ghost use Rattle.sqlite_trees.specs.View.{doubt};
ghost use Rattle.sqlite.specs.State.{HasCleanDisk};
ghost use Rattle.sqlite.specs.Held.{state};
ghost use Rattle.sqlite.specs.Tree.{Trees};
ghost use Rattle.paxos.specs.Records.{Record as RecordTerm, empty_record};
ghost use Rattle.paxos.specs.WellFormed.{IsRecord};
ghost use Rattle.record_writes.specs.Holds.{Holds};
ghost use Rattle.sql_records.specs.Created.{OpensOnly};
ghost use Rattle.sql_records.specs.Opened.{IsAsBefore, connection_of, owner};
ghost use Rattle.record_writes.specs.Stored.{IsStored};
ghost use Rattle.record_tables.specs.Texts.{no_schema, schema_1};
ghost use Rattle.record_tables.specs.Versions.{AreTables, tables_of};
ghost use Rattle.record_tables.specs.declared.version.Version.{Version as VersionTerm};

use super::creation::create;
use super::load::{load, read};
use super::migration::migrate;
use super::reading::OpenFault;
use super::store::SqlRecords;
use ballots::Setup;
use record_tables::{Version, has_tables, is_empty};
use records::{Record, Records};
use sqlite::{Alter, Connection};
use std::alloc::Global;

/// The same setup.
fn copy(alloc: Global, setup: &Setup) -> Result<Setup, OpenFault>
    ensures same { IfOk result (λ s. s ≡ setup.now) }
    ensures memory { IfErr result (λ fault. fault ≡ OpenFault.Memory) }
{
    match Setup::new(
        alloc,
        setup.group(),
        setup.member(),
        setup.members().count(),
        setup.names(),
    ) {
        Ok(copy) => Ok(copy),
        Err(_) => Err(OpenFault::Memory),
    }
}

/// Whether the database has no tables, and no transaction is under way.
fn is_new<S: Alter>(connection: &Connection<S>) -> bool
    ensures mode { IsTrue result → connection.now.in_transaction ≡ false }
    ensures schema { IsTrue result → (state S.Store connection.now).now.schema ≡ no_schema }
    ensures settled { IsTrue result → IsTrue (state S.Store connection.now).is_open → (state S.Store connection.now).now ≡ (state S.Store connection.now).committed }
    ensures empty { (state S.Store connection.now).in_transaction ≡ false → (state S.Store connection.now).now.schema ≡ no_schema → IsTrue result }
{
    connection.is_autocommit() && is_empty(connection.schema())
}

/// Whether the tables are those of version 1, and no transaction is under way.
fn is_first<S: Alter>(connection: &Connection<S>) -> bool
    ensures mode { IsTrue result → connection.now.in_transaction ≡ false }
    ensures schema { IsTrue result → (state S.Store connection.now).now.schema ≡ schema_1 }
    ensures settled { IsTrue result → IsTrue (state S.Store connection.now).is_open → (state S.Store connection.now).now ≡ (state S.Store connection.now).committed }
    ensures first { (state S.Store connection.now).in_transaction ≡ false → (state S.Store connection.now).now.schema ≡ schema_1 → IsTrue result }
{
    connection.is_autocommit() && has_tables(connection.schema(), Version::First)
}

/// Makes version 2 of a record of version 1, once that is read and judged, and gives it.
fn upgrade<S: Alter>(
    alloc: Global,
    connection: &mut Connection<S>,
    setup: &Setup,
) -> Result<Record, OpenFault>
    requires mode { connection.old.in_transaction ≡ false }
    requires first { (state S.Store connection.old).now.schema ≡ schema_1 }
    ensures stored { HasCleanDisk (state S.Store connection.new) → IfOk result (λ r. IsStored Version.First setup.now (state S.Store connection.old).now.trees r) }
    ensures sound { IfOk result (λ r. IsRecord setup.now.members r) }
    ensures holds { HasCleanDisk (state S.Store connection.new) → IfOk result (λ r. Holds (state S.Store connection.new) setup.now r r) }
    ensures open { HasCleanDisk (state S.Store connection.new) → OnOk result (IsTrue (state S.Store connection.old).is_open × IsTrue (state S.Store connection.new).is_open) }
    ensures other { HasCleanDisk (state S.Store connection.new) → IsErrOf result OpenFault.Other → IsAnothers setup.now (state S.Store connection.old).now }
    ensures damaged { HasCleanDisk (state S.Store connection.new) → IsErrOf result OpenFault.Damaged → IsDamaged setup.now (state S.Store connection.old).now }
    ensures store { HasCleanDisk (state S.Store connection.new) → IsErrOf result OpenFault.Store → StoreFailed (state S.Store connection.old) (state S.Store connection.new) }
    ensures back { HasCleanDisk (state S.Store connection.new) → OnErr result (IsAsBefore (state S.Store connection.old) (state S.Store connection.new)) }
    ensures migrates { HasCleanDisk (state S.Store connection.new) → (db : Trees) → (state S.Store connection.new).may_leave db → (state S.Store connection.old).may_leave db ⊎ ((r : RecordTerm) × IsStored Version.First setup.now (state S.Store connection.old).now.trees r × IsStored Version.Second setup.now db r) }
    ensures clean { doubt (state S.Store connection.old).is_clean ≤ doubt (state S.Store connection.new).is_clean }
{
    let record = read(alloc, connection, setup, Version::First)?;
    // Reading changes nothing, as long as the disk is clean.
    if !is_first(connection) {
        return Err(OpenFault::Store);
    }
    migrate(connection, setup)?;
    Ok(record)
}

/// The record of this member: the empty one where there are no tables, which are made; else the one that is read, and made one of version 2
/// where it is of version 1.
#[tactic(auto, using(records::proofs::Empty::is_record_empty))]
fn prepare<S: Alter>(
    alloc: Global,
    connection: &mut Connection<S>,
    setup: &Setup,
) -> Result<Record, OpenFault>
    ensures open { HasCleanDisk (state S.Store connection.new) → OnOk result (IsTrue (state S.Store connection.new).is_open) }
    ensures sound { IfOk result (λ r. IsRecord setup.now.members r) }
    ensures holds { HasCleanDisk (state S.Store connection.new) → IfOk result (λ r. Holds (state S.Store connection.new) setup.now r r) }
    ensures found { HasCleanDisk (state S.Store connection.new) → (state S.Store connection.old).now.schema ≢ no_schema → IfOk result (λ r. (a b : RecordTerm) → Holds (state S.Store connection.old) setup.now a b → (r ≡ a) ⊎ (r ≡ b)) }
    ensures made { (state S.Store connection.old).now.schema ≡ no_schema → IfOk result (λ r. r ≡ empty_record) }
    ensures stored { HasCleanDisk (state S.Store connection.new) → (state S.Store connection.old).now.schema ≢ no_schema → IfOk result (λ r. (v : VersionTerm) × ((state S.Store connection.old).now.schema ≡ tables_of v) × IsStored v setup.now (state S.Store connection.old).now.trees r) }
    ensures ours { (state S.Store connection.old).now.schema ≢ no_schema → OnOk result (AreTables (state S.Store connection.old).now.schema) }
    ensures other { HasCleanDisk (state S.Store connection.new) → IsErrOf result OpenFault.Other → IsAnothers setup.now (state S.Store connection.old).now }
    ensures damaged { HasCleanDisk (state S.Store connection.new) → IsErrOf result OpenFault.Damaged → (state S.Store connection.old).in_transaction ≡ false → IsDamaged setup.now (state S.Store connection.old).now }
    ensures store { HasCleanDisk (state S.Store connection.new) → IsErrOf result OpenFault.Store → StoreFailed (state S.Store connection.old) (state S.Store connection.new) }
    ensures back { HasCleanDisk (state S.Store connection.new) → OnErr result (IsAsBefore (state S.Store connection.old) (state S.Store connection.new)) }
    ensures opens { OpensOnly setup.now (state S.Store connection.old) (state S.Store connection.new) }
    ensures clean { doubt (state S.Store connection.old).is_clean ≤ doubt (state S.Store connection.new).is_clean }
{
    if is_new(connection) {
        create(alloc, connection, setup)?;
        return Ok(Record::new(alloc));
    }
    if is_first(connection) {
        return upgrade(alloc, connection, setup);
    }
    load(alloc, connection, setup)
}

impl<S: Alter> SqlRecords<S> {
    /// The records of this member in a database. A database with no tables is given those of a member with no promise and nothing kept as
    /// learnt. Records of version 1, which keep nothing as learnt, are read and judged, and then made records of version 2.
    ///
    /// What was read is held: the first `load` gives it away and reads nothing, unless a write came before.
    ///
    /// A refusal gives the connection back as it was, or shut, where the store failed: want of memory (1), a store that failed (2), another member's records (3), and records
    /// that are damaged (4), as are other tables, a number out of its range, and a vote of a ballot above the promise; a connection in
    /// a transaction is refused by 4 too. The tables are made in one transaction: whatever happens, a crash leaves none of them, or
    /// all with that first record. So is version 2: a crash leaves the record in version 1, or in version 2.
    pub fn open(
        alloc: Global,
        connection: Connection<S>,
        setup: &Setup,
    ) -> Result<SqlRecords<S>, (OpenFault, Connection<S>)>
        ensures holds { IfOk result (λ s. ⟦<SqlRecords<S> as Records>⟧.is_kept s → (r : RecordTerm) × ⟦<SqlRecords<S> as Records>⟧.stands s r r) }
        ensures found { (state S.Store connection).now.schema ≢ no_schema → IfOk result (λ s. ⟦<SqlRecords<S> as Records>⟧.is_kept s → (r : RecordTerm) × ⟦<SqlRecords<S> as Records>⟧.stands s r r
            × ((a b : RecordTerm) → Holds (state S.Store connection) setup.now a b → (r ≡ a) ⊎ (r ≡ b))) }
        ensures made { (state S.Store connection).now.schema ≡ no_schema → IfOk result (λ s. ⟦<SqlRecords<S> as Records>⟧.is_kept s → ⟦<SqlRecords<S> as Records>⟧.stands s empty_record empty_record) }
        ensures opens { IfOk result (λ s. OpensOnly setup.now (state S.Store connection) (state S.Store (connection_of s))) }
        ensures refused { IfErr result (λ e. OpensOnly setup.now (state S.Store connection) (state S.Store e.1)) }
        ensures stored { (state S.Store connection).now.schema ≢ no_schema → IfOk result (λ s. ⟦<SqlRecords<S> as Records>⟧.is_kept s → (r : RecordTerm) × ⟦<SqlRecords<S> as Records>⟧.stands s r r
            × (v : VersionTerm) × ((state S.Store connection).now.schema ≡ tables_of v) × IsStored v setup.now (state S.Store connection).now.trees r) }
        ensures ours { (state S.Store connection).now.schema ≢ no_schema → OnOk result (AreTables (state S.Store connection).now.schema) }
        ensures other { IfErr result (λ e. HasCleanDisk (state S.Store e.1) → e.0 ≡ OpenFault.Other → IsAnothers setup.now (state S.Store connection).now) }
        ensures damaged { (state S.Store connection).in_transaction ≡ false → IfErr result (λ e. HasCleanDisk (state S.Store e.1) → e.0 ≡ OpenFault.Damaged → IsDamaged setup.now (state S.Store connection).now) }
        ensures store { IfErr result (λ e. HasCleanDisk (state S.Store e.1) → e.0 ≡ OpenFault.Store → StoreFailed (state S.Store connection) (state S.Store e.1)) }
        ensures back { IfErr result (λ e. HasCleanDisk (state S.Store e.1) → IsAsBefore (state S.Store connection) (state S.Store e.1)) }
        ensures whose { IfOk result (λ s. owner s ≡ setup.now) }
        ensures suits { IfOk result (λ s. ⟦<SqlRecords<S> as Records>⟧.suits s setup.now.members) }
        ensures failures { IfOk result (λ s. ⟦<SqlRecords<S> as Records>⟧.failed s ≡ 0) }
    {
        let mut connection = connection;
        let setup = match copy(alloc, setup) {
            Ok(copy) => copy,
            Err(fault) => return Err((fault, connection)),
        };
        match prepare(alloc, &mut connection, &setup) {
            Ok(record) => Ok(SqlRecords::new(connection, setup, record)),
            Err(fault) => Err((fault, connection)),
        }
    }
}
