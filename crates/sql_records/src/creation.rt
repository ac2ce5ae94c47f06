//! Making the tables of a new member.

ghost use Rattle.std.specs.Prelude.{◌≡◌, ◌≢◌, ◌⊎◌, ◌≤◌, List, [], true, false, IfErr, IfOk, IsErrOf, IsTrue, OnErr, OnOk};
ghost use Rattle.sqlite.specs.State.{HasCleanDisk, KeepsCommit, Survives};
ghost use Rattle.sqlite.specs.Held.{state};
ghost use Rattle.sqlite.specs.Tree.{Trees};
ghost use Rattle.sqlite.specs.Order.{Row};
ghost use Rattle.sqlite_trees.specs.View.{doubt};
ghost use Rattle.sqlite.specs.declared.error.ErrorCode.TheVariants.{OutOfMemory};
ghost use Rattle.document_names.specs.Names.{are_document_names};
ghost use Rattle.sql_records.specs.Created.{FirstIsEmpty, HaveNoneLearnt, HaveRows, Makes, MakesOnly, half_schema};
ghost use Rattle.record_writes.specs.Faults.{StoreFailed};
ghost use Rattle.sql_records.specs.Opened.{IsAsBefore};
ghost use Rattle.record_writes.specs.Holds.{Holds};
ghost use Rattle.record_writes.specs.Stored.{IsStored, joined};
ghost use Rattle.paxos.specs.Records.{empty_record};
ghost use Rattle.record_tables.specs.Texts.{no_schema, schema, schema_1};

use super::docs;
use super::load::fault_of;
use super::reading::OpenFault;
use ballots::Setup;
use record_tables::Version;
use sqlite::{Alter, Connection, Error, Transaction, params};
use std::alloc::Global;

/// Makes the table of the member.
fn make_meta<S: Alter>(tx: &mut Transaction<'_, S>) -> Result<usize, Error>
    ensures same_reference { tx.new.conn.ghost_name ≡ tx.old.conn.ghost_name }
    ensures made { HasCleanDisk (state S.Store tx.new.conn.now) → Makes (state S.Store tx.old.conn.now) no_schema (λ _. Unit {0}) → OnOk result (Makes (state S.Store tx.new.conn.now) half_schema FirstIsEmpty) }
    ensures store { HasCleanDisk (state S.Store tx.new.conn.now) → Makes (state S.Store tx.old.conn.now) no_schema (λ _. Unit {0}) → IfErr result (λ e. e ≢ Error.SqliteFailure OutOfMemory → StoreFailed (state S.Store tx.old.conn.now) (state S.Store tx.new.conn.now)) }
    ensures undone { HasCleanDisk (state S.Store tx.new.conn.now) → KeepsCommit (state S.Store tx.old.conn.now) (state S.Store tx.new.conn.now) }
    ensures survives { Survives (state S.Store tx.old.conn.now) (state S.Store tx.new.conn.now) (λ _. ⊥) }
{
    tx.execute(
        "CREATE TABLE meta (id INTEGER PRIMARY KEY CHECK (id = 1), version INTEGER NOT NULL, grp INTEGER NOT NULL, member INTEGER NOT NULL, members INTEGER NOT NULL, docs TEXT NOT NULL, round INTEGER NOT NULL, leader INTEGER NOT NULL) STRICT",
        &[],
    )
}

/// Makes the table of the votes.
fn make_votes<S: Alter>(tx: &mut Transaction<'_, S>) -> Result<usize, Error>
    ensures same_reference { tx.new.conn.ghost_name ≡ tx.old.conn.ghost_name }
    ensures made { HasCleanDisk (state S.Store tx.new.conn.now) → Makes (state S.Store tx.old.conn.now) half_schema FirstIsEmpty → OnOk result (Makes (state S.Store tx.new.conn.now) schema_1 (HaveRows [] [])) }
    ensures store { HasCleanDisk (state S.Store tx.new.conn.now) → Makes (state S.Store tx.old.conn.now) half_schema FirstIsEmpty → IfErr result (λ e. e ≢ Error.SqliteFailure OutOfMemory → StoreFailed (state S.Store tx.old.conn.now) (state S.Store tx.new.conn.now)) }
    ensures undone { HasCleanDisk (state S.Store tx.new.conn.now) → KeepsCommit (state S.Store tx.old.conn.now) (state S.Store tx.new.conn.now) }
    ensures survives { Survives (state S.Store tx.old.conn.now) (state S.Store tx.new.conn.now) (λ _. ⊥) }
{
    tx.execute(
        "CREATE TABLE votes (position INTEGER PRIMARY KEY, round INTEGER NOT NULL, leader INTEGER NOT NULL, value BLOB NOT NULL) STRICT",
        &[],
    )
}

/// Makes the table of the values kept as learnt, beside the other two.
pub(super) fn make_learnt<S: Alter>(tx: &mut Transaction<'_, S>) -> Result<usize, Error>
    ensures same_reference { tx.new.conn.ghost_name ≡ tx.old.conn.ghost_name }
    ensures made { HasCleanDisk (state S.Store tx.new.conn.now) → (member votes : List Row) → Makes (state S.Store tx.old.conn.now) schema_1 (HaveRows member votes) → OnOk result (Makes (state S.Store tx.new.conn.now) schema (HaveNoneLearnt member votes)) }
    ensures store { HasCleanDisk (state S.Store tx.new.conn.now) → (member votes : List Row) → Makes (state S.Store tx.old.conn.now) schema_1 (HaveRows member votes) → IfErr result (λ e. e ≢ Error.SqliteFailure OutOfMemory → StoreFailed (state S.Store tx.old.conn.now) (state S.Store tx.new.conn.now)) }
    ensures undone { HasCleanDisk (state S.Store tx.new.conn.now) → KeepsCommit (state S.Store tx.old.conn.now) (state S.Store tx.new.conn.now) }
    ensures survives { Survives (state S.Store tx.old.conn.now) (state S.Store tx.new.conn.now) (λ _. ⊥) }
{
    tx.execute(
        "CREATE TABLE learnt (position INTEGER PRIMARY KEY, value BLOB NOT NULL) STRICT",
        &[],
    )
}

/// The names of a setup are names of documents, so their text is short.
pub(super) fn are_names(setup: &Setup)
    ensures { are_document_names setup.now.names ≡ true }
{
    let _names = setup.names().as_slice();
}

/// Puts in the row of the member, with no promise.
fn put_member<S: Alter>(
    tx: &mut Transaction<'_, S>,
    setup: &Setup,
    docs: &str,
) -> Result<usize, Error>
    requires { docs.now ≡ joined setup.now.names }
    ensures same_reference { tx.new.conn.ghost_name ≡ tx.old.conn.ghost_name }
    ensures made { HasCleanDisk (state S.Store tx.new.conn.now) → Makes (state S.Store tx.old.conn.now) schema (HaveNoneLearnt [] []) → OnOk result (Makes (state S.Store tx.new.conn.now) schema (λ db. IsStored Version.Second setup.now db empty_record)) }
    ensures store { HasCleanDisk (state S.Store tx.new.conn.now) → Makes (state S.Store tx.old.conn.now) schema (HaveNoneLearnt [] []) → IfErr result (λ e. e ≢ Error.SqliteFailure OutOfMemory → StoreFailed (state S.Store tx.old.conn.now) (state S.Store tx.new.conn.now)) }
    ensures undone { HasCleanDisk (state S.Store tx.new.conn.now) → KeepsCommit (state S.Store tx.old.conn.now) (state S.Store tx.new.conn.now) }
    ensures survives { Survives (state S.Store tx.old.conn.now) (state S.Store tx.new.conn.now) (λ _. ⊥) }
{
    are_names(setup);
    let group = setup.group();
    let member = u32::from(setup.member());
    let members = u32::from(setup.members().count());
    tx.execute(
        "INSERT INTO meta (id, version, grp, member, members, docs, round, leader) VALUES (1, 2, ?1, ?2, ?3, ?4, 0, 0)",
        params![group, member, members, docs],
    )
}

/// Makes the three tables, and puts in the row of the member.
fn fill<S: Alter>(tx: &mut Transaction<'_, S>, setup: &Setup, docs: &str) -> Result<(), Error>
    requires { docs.now ≡ joined setup.now.names }
    ensures same_reference { tx.new.conn.ghost_name ≡ tx.old.conn.ghost_name }
    ensures made { HasCleanDisk (state S.Store tx.new.conn.now) → Makes (state S.Store tx.old.conn.now) no_schema (λ _. Unit {0}) → OnOk result (Makes (state S.Store tx.new.conn.now) schema (λ db. IsStored Version.Second setup.now db empty_record)) }
    ensures store { HasCleanDisk (state S.Store tx.new.conn.now) → Makes (state S.Store tx.old.conn.now) no_schema (λ _. Unit {0}) → IfErr result (λ e. e ≢ Error.SqliteFailure OutOfMemory → StoreFailed (state S.Store tx.old.conn.now) (state S.Store tx.new.conn.now)) }
    ensures undone { HasCleanDisk (state S.Store tx.new.conn.now) → KeepsCommit (state S.Store tx.old.conn.now) (state S.Store tx.new.conn.now) }
    ensures survives { Survives (state S.Store tx.old.conn.now) (state S.Store tx.new.conn.now) (λ _. ⊥) }
{
    make_meta(tx)?;
    make_votes(tx)?;
    make_learnt(tx)?;
    put_member(tx, setup, docs)?;
    Ok(())
}

/// Makes the tables of a member with no promise and nothing kept, in one transaction.
///
/// Faults: `Memory` where memory is refused; `Store` where the store failed. The connection is as it was
/// then. Whatever happens, a crash leaves what it could leave before,
/// or the tables with that record.
pub(super) fn create<S: Alter>(
    alloc: Global,
    connection: &mut Connection<S>,
    setup: &Setup,
) -> Result<(), OpenFault>
    requires mode { connection.old.in_transaction ≡ false }
    requires empty { (state S.Store connection.old).now.schema ≡ no_schema }
    requires settled { IsTrue (state S.Store connection.old).is_open → (state S.Store connection.old).now ≡ (state S.Store connection.old).committed }
    ensures made { HasCleanDisk (state S.Store connection.new) → OnOk result (Holds (state S.Store connection.new) setup.now empty_record empty_record) }
    ensures open { HasCleanDisk (state S.Store connection.new) → OnOk result (IsTrue (state S.Store connection.new).is_open) }
    ensures not_other { IsErrOf result OpenFault.Other → ⊥ }
    ensures not_damaged { IsErrOf result OpenFault.Damaged → ⊥ }
    ensures store { HasCleanDisk (state S.Store connection.new) → IsErrOf result OpenFault.Store → StoreFailed (state S.Store connection.old) (state S.Store connection.new) }
    ensures back { HasCleanDisk (state S.Store connection.new) → OnErr result (IsAsBefore (state S.Store connection.old) (state S.Store connection.new)) }
    ensures makes { MakesOnly setup.now (state S.Store connection.old) (state S.Store connection.new) }
    ensures clean { doubt (state S.Store connection.old).is_clean ≤ doubt (state S.Store connection.new).is_clean }
{
    let Ok(docs) = docs::joined(alloc, setup.names()) else {
        return Err(OpenFault::Memory);
    };
    let mut tx = connection.transaction();
    if let Err(error) = fill(&mut tx, setup, docs.as_str()) {
        tx.rollback();
        return Err(fault_of(&error));
    }
    match tx.commit() {
        Ok(()) => Ok(()),
        Err(error) => Err(fault_of(&error)),
    }
}
