//! From the tables of version 1 to those of version 2.

ghost use Rattle.std.specs.Prelude.{◌≡◌, ◌≢◌, ◌≤◌, false, IfErr, IsErrOf, OnErr, OnOk, IsTrue};
ghost use Rattle.sqlite.specs.State.{HasCleanDisk, KeepsCommit, Survives};
ghost use Rattle.sqlite.specs.Held.{state};
ghost use Rattle.sqlite.specs.Tree.{Trees};
ghost use Rattle.sqlite_trees.specs.View.{doubt};
ghost use Rattle.sqlite.specs.declared.error.ErrorCode.TheVariants.{OutOfMemory};
ghost use Rattle.paxos.specs.Records.{Record};
ghost use Rattle.record_tables.specs.Texts.{schema, schema_1};
ghost use Rattle.sql_records.specs.Created.{HaveNoneLearnt, HaveRows, Makes, MigratesOnly};
ghost use Rattle.record_writes.specs.Faults.{StoreFailed};
ghost use Rattle.sql_records.specs.Opened.{IsAsBefore};
ghost use Rattle.record_writes.specs.Holds.{Holds};
ghost use Rattle.record_writes.specs.Stored.{IsStored};

use super::creation::{are_names, make_learnt};
use super::load::fault_of;
use super::reading::OpenFault;
use ballots::Setup;
use record_tables::Version;
use sqlite::{Alter, Connection, Error, Transaction};

/// Sets version 2 in the row of the member.
fn set_version<S: Alter>(tx: &mut Transaction<'_, S>, setup: &Setup) -> Result<usize, Error>
    ensures same_reference { tx.new.conn.ghost_name ≡ tx.old.conn.ghost_name }
    ensures made { HasCleanDisk (state S.Store tx.new.conn.now) → (db : Trees) (r : Record) → IsStored Version.First setup.now db r → Makes (state S.Store tx.old.conn.now) schema (HaveNoneLearnt (db 0) (db 1)) → OnOk result (Makes (state S.Store tx.new.conn.now) schema (λ new. IsStored Version.Second setup.now new r)) }
    ensures store { HasCleanDisk (state S.Store tx.new.conn.now) → (db : Trees) (r : Record) → IsStored Version.First setup.now db r → Makes (state S.Store tx.old.conn.now) schema (HaveNoneLearnt (db 0) (db 1)) → IfErr result (λ e. e ≢ Error.SqliteFailure OutOfMemory → StoreFailed (state S.Store tx.old.conn.now) (state S.Store tx.new.conn.now)) }
    ensures undone { HasCleanDisk (state S.Store tx.new.conn.now) → KeepsCommit (state S.Store tx.old.conn.now) (state S.Store tx.new.conn.now) }
    ensures survives { Survives (state S.Store tx.old.conn.now) (state S.Store tx.new.conn.now) (λ _. ⊥) }
{
    are_names(setup);
    tx.execute("UPDATE meta SET version = 2", &[])
}

/// Makes the third table, and sets version 2.
fn rewrite<S: Alter>(tx: &mut Transaction<'_, S>, setup: &Setup) -> Result<(), Error>
    ensures same_reference { tx.new.conn.ghost_name ≡ tx.old.conn.ghost_name }
    ensures made { HasCleanDisk (state S.Store tx.new.conn.now) → (db : Trees) (r : Record) → IsStored Version.First setup.now db r → Makes (state S.Store tx.old.conn.now) schema_1 (HaveRows (db 0) (db 1)) → OnOk result (Makes (state S.Store tx.new.conn.now) schema (λ new. IsStored Version.Second setup.now new r)) }
    ensures store { HasCleanDisk (state S.Store tx.new.conn.now) → (db : Trees) (r : Record) → IsStored Version.First setup.now db r → Makes (state S.Store tx.old.conn.now) schema_1 (HaveRows (db 0) (db 1)) → IfErr result (λ e. e ≢ Error.SqliteFailure OutOfMemory → StoreFailed (state S.Store tx.old.conn.now) (state S.Store tx.new.conn.now)) }
    ensures undone { HasCleanDisk (state S.Store tx.new.conn.now) → KeepsCommit (state S.Store tx.old.conn.now) (state S.Store tx.new.conn.now) }
    ensures survives { Survives (state S.Store tx.old.conn.now) (state S.Store tx.new.conn.now) (λ _. ⊥) }
{
    make_learnt(tx)?;
    set_version(tx, setup)?;
    Ok(())
}

/// Makes tables of version 2 from those of version 1 that hold a record of this member, in one transaction.
///
/// Faults: `Memory` where memory is refused; `Store` where the store failed. The connection is as it was
/// then. Whatever happens, a crash leaves what it could leave before,
/// or that record in version 2.
pub(super) fn migrate<S: Alter>(
    connection: &mut Connection<S>,
    setup: &Setup,
) -> Result<(), OpenFault>
    requires mode { connection.old.in_transaction ≡ false }
    requires first { (state S.Store connection.old).now.schema ≡ schema_1 }
    requires settled { IsTrue (state S.Store connection.old).is_open → (state S.Store connection.old).now ≡ (state S.Store connection.old).committed }
    requires held { HasCleanDisk (state S.Store connection.old) → (r : Record) × IsStored Version.First setup.now (state S.Store connection.old).now.trees r }
    ensures made { HasCleanDisk (state S.Store connection.new) → (r : Record) → IsStored Version.First setup.now (state S.Store connection.old).now.trees r → OnOk result (Holds (state S.Store connection.new) setup.now r r) }
    ensures open { HasCleanDisk (state S.Store connection.new) → OnOk result (IsTrue (state S.Store connection.new).is_open) }
    ensures not_other { IsErrOf result OpenFault.Other → ⊥ }
    ensures not_damaged { IsErrOf result OpenFault.Damaged → ⊥ }
    ensures store { HasCleanDisk (state S.Store connection.new) → IsErrOf result OpenFault.Store → StoreFailed (state S.Store connection.old) (state S.Store connection.new) }
    ensures back { HasCleanDisk (state S.Store connection.new) → OnErr result (IsAsBefore (state S.Store connection.old) (state S.Store connection.new)) }
    ensures migrates { MigratesOnly setup.now (state S.Store connection.old) (state S.Store connection.new) }
    ensures clean { doubt (state S.Store connection.old).is_clean ≤ doubt (state S.Store connection.new).is_clean }
{
    let mut tx = connection.transaction();
    if let Err(error) = rewrite(&mut tx, setup) {
        tx.rollback();
        return Err(fault_of(&error));
    }
    match tx.commit() {
        Ok(()) => Ok(()),
        Err(error) => Err(fault_of(&error)),
    }
}
