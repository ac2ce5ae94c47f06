//! Several writes in one transaction.

ghost use Rattle.std.specs.Prelude.{◌≡◌, ◌≢◌, ◌≤◌, suc, length, false, IfErr, IfOk, IfSome, IsErrOf, IsTrue, OnOk};
ghost use Rattle.sqlite.specs.State.{HasCleanDisk, Survives};
ghost use Rattle.sqlite.specs.declared.error.ErrorCode.TheVariants.{OutOfMemory};
ghost use Rattle.sqlite_trees.specs.View.{doubt};
ghost use Rattle.sqlite.specs.Held.{state};
ghost use Rattle.ballots.specs.Ballot.{IsBallot, below};
ghost use Rattle.ballots.specs.Values.{positions};
ghost use Rattle.ballots.specs.Terms.{Setup};
ghost use Rattle.ballots.specs.Spelling.{IsValue, value_spelling};
ghost use Rattle.ballots.specs.declared.value.Value.{Value as ValueTerm};
ghost use Rattle.paxos.specs.Records.{Record, NewLearnt, NewPromise, written};
ghost use Rattle.records.specs.Group.{AreWrites, IsDue, IsWrite, MayBeWritten, after, write_of};
ghost use Rattle.record_writes.specs.Faults.{FitsRow, Leaves, StoreFailed};
ghost use Rattle.record_writes.specs.Holds.{Holds, Under, Sees, Written};
ghost use Rattle.record_writes.specs.Members.{HasMember, HasMembers};

use super::fault::WriteFault;
use super::promise::{PROMISE, is_memory, judge, look};
use super::vote::{first, second};
use ballots::{Ballot, Value, put_value};
use records::Write;
use sqlite::{Alter, Connection, Error, ErrorCode, Transaction, params};
use std::alloc::Global;

/// A value as its bytes.
fn spelled(alloc: Global, value: &Value) -> Result<Vec<u8>, Error>
    ensures spelt { IfOk result (λ bytes. (bytes.items ≡ value_spelling value.now) × IsValue value.now) }
    ensures memory { IfErr result (λ e. e ≡ Error.SqliteFailure OutOfMemory) }
{
    let mut bytes = Vec::new(alloc);
    if put_value(value, &mut bytes).is_err() {
        return Err(Error::SqliteFailure(ErrorCode::OutOfMemory));
    }
    Ok(bytes)
}

/// Writes a value as learnt at the next position, in the transaction.
fn third<S: Alter>(tx: &mut Transaction<'_, S>, position: u32, value: &[u8]) -> Result<usize, Error>
    requires most { position ≤ positions }
    ensures same_reference { tx.new.conn.ghost_name ≡ tx.old.conn.ghost_name }
    ensures law { HasCleanDisk (state S.Store tx.new.conn.now) → (o : Setup) (last now : Record) → (v : ValueTerm) → value.now ≡ value_spelling v → IsValue v → position ≡ suc (length now.learnt) → Under (state S.Store tx.old.conn.now) o last → Sees (state S.Store tx.old.conn.now) o now
        → Under (state S.Store tx.new.conn.now) o last × OnOk result (Sees (state S.Store tx.new.conn.now) o (written (NewLearnt v) now)) }
    ensures store { HasCleanDisk (state S.Store tx.new.conn.now) → (o : Setup) (now : Record) → (v : ValueTerm) → value.now ≡ value_spelling v → IsValue v → position ≡ suc (length now.learnt) → Sees (state S.Store tx.old.conn.now) o now
        → IfErr result (λ e. e ≢ Error.SqliteFailure OutOfMemory → StoreFailed (state S.Store tx.old.conn.now) (state S.Store tx.new.conn.now)) }
    ensures survives { Survives (state S.Store tx.old.conn.now) (state S.Store tx.new.conn.now) (λ _. ⊥) }
    ensures clean { doubt (state S.Store tx.old.conn.now).is_clean ≤ doubt (state S.Store tx.new.conn.now).is_clean }
{
    tx.execute(
        "INSERT INTO learnt (position, value) VALUES (?1, ?2)",
        params![position, value],
    )
}

/// Writes the ballot as the promise, in the transaction, unless it is the promise already.
fn promise_unless<S: Alter>(
    tx: &mut Transaction<'_, S>,
    ballot: Ballot,
    promised: Option<Ballot>,
) -> Result<(), Error>
    requires { IsBallot ballot }
    ensures same_reference { tx.new.conn.ghost_name ≡ tx.old.conn.ghost_name }
    ensures law { HasCleanDisk (state S.Store tx.new.conn.now) → (o : Setup) (last now : Record) → IfSome promised (λ b. now.promise ≡ b) → ballot.member ≤ o.members → below ballot now.promise ≡ false → Under (state S.Store tx.old.conn.now) o last → Sees (state S.Store tx.old.conn.now) o now
        → Under (state S.Store tx.new.conn.now) o last × OnOk result (Sees (state S.Store tx.new.conn.now) o (written (NewPromise ballot) now)) }
    ensures store { HasCleanDisk (state S.Store tx.new.conn.now) → (o : Setup) (now : Record) → FitsRow o → Sees (state S.Store tx.old.conn.now) o now
        → IfErr result (λ e. e ≢ Error.SqliteFailure OutOfMemory → StoreFailed (state S.Store tx.old.conn.now) (state S.Store tx.new.conn.now)) }
    ensures survives { Survives (state S.Store tx.old.conn.now) (state S.Store tx.new.conn.now) (λ _. ⊥) }
    ensures clean { doubt (state S.Store tx.old.conn.now).is_clean ≤ doubt (state S.Store tx.new.conn.now).is_clean }
{
    if promised == Some(ballot) {
        return Ok(());
    }
    first(tx, ballot)?;
    Ok(())
}

/// Makes one write, in the transaction, over a record whose promise is this one, if that is known.
fn write_one<S: Alter>(
    alloc: Global,
    tx: &mut Transaction<'_, S>,
    write: &Write,
    promised: Option<Ballot>,
) -> Result<(), Error>
    requires { IsWrite write.now }
    ensures same_reference { tx.new.conn.ghost_name ≡ tx.old.conn.ghost_name }
    ensures law { HasCleanDisk (state S.Store tx.new.conn.now) → (o : Setup) (last now : Record) → IfSome promised (λ b. now.promise ≡ b) → HasMember o.members write.now → IsDue write.now now → Under (state S.Store tx.old.conn.now) o last → Sees (state S.Store tx.old.conn.now) o now
        → Under (state S.Store tx.new.conn.now) o last × OnOk result (Sees (state S.Store tx.new.conn.now) o (written (write_of write.now) now)) }
    ensures store { HasCleanDisk (state S.Store tx.new.conn.now) → (o : Setup) (last now : Record) → FitsRow o → IfSome promised (λ b. now.promise ≡ b) → HasMember o.members write.now → IsDue write.now now → Under (state S.Store tx.old.conn.now) o last → Sees (state S.Store tx.old.conn.now) o now
        → IfErr result (λ e. e ≢ Error.SqliteFailure OutOfMemory → StoreFailed (state S.Store tx.old.conn.now) (state S.Store tx.new.conn.now)) }
    ensures survives { Survives (state S.Store tx.old.conn.now) (state S.Store tx.new.conn.now) (λ _. ⊥) }
    ensures clean { doubt (state S.Store tx.old.conn.now).is_clean ≤ doubt (state S.Store tx.new.conn.now).is_clean }
{
    match write {
        Write::Promise(ballot) => promise_unless(tx, *ballot, promised),
        Write::Vote(position, vote) => {
            let bytes = spelled(alloc, &vote.value)?;
            promise_unless(tx, vote.ballot, promised)?;
            second(tx, vote.ballot, *position, bytes.as_slice())?;
            Ok(())
        }
        Write::Learnt(position, value) => {
            let bytes = spelled(alloc, value)?;
            third(tx, *position, bytes.as_slice())?;
            Ok(())
        }
    }
}

/// The promise of a record after a write, if it is known: that of the write, or the one before it.
fn promised_after(write: &Write, promised: Option<Ballot>) -> Option<Ballot>
    ensures { IfSome result (λ b. (now : Record) → IfSome promised (λ before. now.promise ≡ before) → (written (write_of write.now) now).promise ≡ b) }
{
    match write {
        Write::Promise(ballot) => Some(*ballot),
        Write::Vote(_position, vote) => Some(vote.ballot),
        Write::Learnt(_position, _value) => promised,
    }
}

/// Makes the writes in their order, in the transaction. The promise is written once for all that have the same ballot.
fn write_all<S: Alter>(
    alloc: Global,
    tx: &mut Transaction<'_, S>,
    writes: &[Write],
) -> Result<(), Error>
    requires { AreWrites writes.now }
    ensures same_reference { tx.new.conn.ghost_name ≡ tx.old.conn.ghost_name }
    ensures law { HasCleanDisk (state S.Store tx.new.conn.now) → (o : Setup) (last now : Record) → HasMembers o.members writes.now → MayBeWritten writes.now now → Under (state S.Store tx.old.conn.now) o last → Sees (state S.Store tx.old.conn.now) o now
        → Under (state S.Store tx.new.conn.now) o last × OnOk result (Sees (state S.Store tx.new.conn.now) o (after writes.now now)) }
    ensures store { HasCleanDisk (state S.Store tx.new.conn.now) → (o : Setup) (last now : Record) → FitsRow o → HasMembers o.members writes.now → MayBeWritten writes.now now → Under (state S.Store tx.old.conn.now) o last → Sees (state S.Store tx.old.conn.now) o now
        → IfErr result (λ e. e ≢ Error.SqliteFailure OutOfMemory → StoreFailed (state S.Store tx.old.conn.now) (state S.Store tx.new.conn.now)) }
    ensures survives { Survives (state S.Store tx.old.conn.now) (state S.Store tx.new.conn.now) (λ _. ⊥) }
    ensures clean { doubt (state S.Store tx.old.conn.now).is_clean ≤ doubt (state S.Store tx.new.conn.now).is_clean }
{
    let mut promised = None;
    for write in writes.iter() {
        write_one(alloc, tx, write, promised)?;
        promised = promised_after(write, promised);
    }
    Ok(())
}

/// Makes the writes in one transaction.
fn run<S: Alter>(
    alloc: Global,
    connection: &mut Connection<S>,
    writes: &[Write],
) -> Result<(), Error>
    requires writes { AreWrites writes.now }
    requires mode { connection.old.in_transaction ≡ false }
    ensures law { HasCleanDisk (state S.Store connection.new) → (o : Setup) (last : Record) → HasMembers o.members writes.now → IsTrue (state S.Store connection.old).is_open → MayBeWritten writes.now last → Holds (state S.Store connection.old) o last last
        → Written (state S.Store connection.new) o last (after writes.now last) result }
    ensures store { HasCleanDisk (state S.Store connection.new) → (o : Setup) (last : Record) → FitsRow o → HasMembers o.members writes.now → IsTrue (state S.Store connection.old).is_open → MayBeWritten writes.now last → Holds (state S.Store connection.old) o last last
        → IfErr result (λ e. e ≢ Error.SqliteFailure OutOfMemory → StoreFailed (state S.Store connection.old) (state S.Store connection.new)) }
    ensures survives { Survives (state S.Store connection.old) (state S.Store connection.new) (λ _. Unit {0}) }
    ensures clean { doubt (state S.Store connection.old).is_clean ≤ doubt (state S.Store connection.new).is_clean }
{
    let mut tx = connection.transaction();
    match write_all(alloc, &mut tx, writes) {
        Ok(()) => {}
        Err(error) => {
            tx.rollback();
            return Err(error);
        }
    }
    tx.commit()
}

/// Acknowledges several writes, in their order, in one transaction: all of them or none. Whatever a crash leaves then is the record after all
/// of them, where the disk is clean, no transaction was under way, their ballots are of the members, and each may be written over the record
/// after those before it.
///
/// Faults: as of `put_promise`; `Store` too, with nothing written, where a transaction was under way.
pub fn put_all<S: Alter>(
    alloc: Global,
    connection: &mut Connection<S>,
    writes: &[Write],
) -> Result<(), WriteFault>
    requires { AreWrites writes.now }
    ensures law { HasCleanDisk (state S.Store connection.new) → (o : Setup) (last : Record) → HasMembers o.members writes.now → (IsTrue (state S.Store connection.old).is_open → MayBeWritten writes.now last) → Holds (state S.Store connection.old) o last last
        → Leaves (state S.Store connection.new) o last (after writes.now last) result }
    ensures store { HasCleanDisk (state S.Store connection.new) → (o : Setup) (last : Record) → FitsRow o → HasMembers o.members writes.now → (IsTrue (state S.Store connection.old).is_open → MayBeWritten writes.now last) → Holds (state S.Store connection.old) o last last
        → IsErrOf result WriteFault.Store → StoreFailed (state S.Store connection.old) (state S.Store connection.new) }
    ensures clean { doubt (state S.Store connection.old).is_clean ≤ doubt (state S.Store connection.new).is_clean }
{
    match look(connection, PROMISE) {
        Ok(_) => {}
        Err(error) if is_memory(&error) => return Err(WriteFault::Memory),
        Err(_) => return Err(WriteFault::Store),
    }
    if !connection.is_autocommit() {
        return Err(WriteFault::Store);
    }
    match run(alloc, connection, writes) {
        Ok(()) => Ok(()),
        Err(error) => judge(connection, &error),
    }
}
