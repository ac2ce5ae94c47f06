//! The write of a vote.

ghost use Rattle.std.specs.Prelude.{◌≡◌, ◌≢◌, ◌≤◌, IfErr, IsErrOf, IsTrue, IfOk, OnOk, false};
ghost use Rattle.sqlite.specs.State.{HasCleanDisk, Survives};
ghost use Rattle.sqlite.specs.declared.error.ErrorCode.TheVariants.{OutOfMemory};
ghost use Rattle.sqlite_trees.specs.View.{doubt};
ghost use Rattle.sqlite.specs.Held.{state};
ghost use Rattle.ballots.specs.Ballot.{IsBallot, below};
ghost use Rattle.ballots.specs.Values.{positions};
ghost use Rattle.ballots.specs.Terms.{Setup};
ghost use Rattle.ballots.specs.Spelling.{IsValue, value_spelling};
ghost use Rattle.ballots.specs.declared.value.Value.{Value};
ghost use Rattle.paxos.specs.Records.{Record, NewPromise, NewVote, written};
ghost use Rattle.record_writes.specs.Faults.{FitsRow, Leaves, StoreFailed};
ghost use Rattle.record_writes.specs.Holds.{Holds, Under, Sees, Written};

use super::fault::WriteFault;
use super::promise::{PROMISE, is_memory, judge, look, round_of};
use ballots::Ballot;
use sqlite::{Alter, Connection, Error, Transaction, params};

/// Writes the ballot as the promise, in the transaction.
pub(super) fn first<S: Alter>(tx: &mut Transaction<'_, S>, ballot: Ballot) -> Result<usize, Error>
    requires { IsBallot ballot }
    ensures same_reference { tx.new.conn.ghost_name ≡ tx.old.conn.ghost_name }
    ensures law { HasCleanDisk (state S.Store tx.new.conn.now) → (o : Setup) (last now : Record) → ballot.member ≤ o.members → below ballot now.promise ≡ false → Under (state S.Store tx.old.conn.now) o last → Sees (state S.Store tx.old.conn.now) o now
        → Under (state S.Store tx.new.conn.now) o last × OnOk result (Sees (state S.Store tx.new.conn.now) o (written (NewPromise ballot) now)) }
    ensures store { HasCleanDisk (state S.Store tx.new.conn.now) → (o : Setup) (now : Record) → FitsRow o → Sees (state S.Store tx.old.conn.now) o now
        → IfErr result (λ e. e ≢ Error.SqliteFailure OutOfMemory → StoreFailed (state S.Store tx.old.conn.now) (state S.Store tx.new.conn.now)) }
    ensures survives { Survives (state S.Store tx.old.conn.now) (state S.Store tx.new.conn.now) (λ _. ⊥) }
    ensures clean { doubt (state S.Store tx.old.conn.now).is_clean ≤ doubt (state S.Store tx.new.conn.now).is_clean }
{
    let round = round_of(ballot);
    let member = u32::from(ballot.member);
    tx.execute(
        "UPDATE meta SET round = ?1, leader = ?2",
        params![round, member],
    )
}

/// Writes the vote in the place of one at its position, in the transaction.
pub(super) fn second<S: Alter>(
    tx: &mut Transaction<'_, S>,
    ballot: Ballot,
    position: u32,
    value: &[u8],
) -> Result<usize, Error>
    requires ballot { IsBallot ballot }
    requires least { 1 ≤ position }
    requires most { position ≤ positions }
    ensures same_reference { tx.new.conn.ghost_name ≡ tx.old.conn.ghost_name }
    ensures law { HasCleanDisk (state S.Store tx.new.conn.now) → (o : Setup) (last now : Record) → ballot.member ≤ o.members → (v : Value) → value.now ≡ value_spelling v → IsValue v → Under (state S.Store tx.old.conn.now) o last → Sees (state S.Store tx.old.conn.now) o (written (NewPromise ballot) now)
        → Under (state S.Store tx.new.conn.now) o last × OnOk result (Sees (state S.Store tx.new.conn.now) o (written (NewVote position (record { ballot = ballot; value = v })) now)) }
    ensures store { HasCleanDisk (state S.Store tx.new.conn.now) → (o : Setup) (now : Record) (v : Value) → value.now ≡ value_spelling v → IsValue v → Sees (state S.Store tx.old.conn.now) o now
        → IfErr result (λ e. e ≢ Error.SqliteFailure OutOfMemory → StoreFailed (state S.Store tx.old.conn.now) (state S.Store tx.new.conn.now)) }
    ensures survives { Survives (state S.Store tx.old.conn.now) (state S.Store tx.new.conn.now) (λ _. ⊥) }
    ensures clean { doubt (state S.Store tx.old.conn.now).is_clean ≤ doubt (state S.Store tx.new.conn.now).is_clean }
{
    let round = round_of(ballot);
    let member = u32::from(ballot.member);
    tx.execute(
        "INSERT INTO votes (position, round, leader, value) VALUES (?1, ?2, ?3, ?4) ON CONFLICT (position) DO UPDATE SET round = ?2, leader = ?3, value = ?4",
        params![position, round, member, value],
    )
}

/// Writes the vote and its ballot as the promise, in one transaction.
fn run<S: Alter>(
    connection: &mut Connection<S>,
    ballot: Ballot,
    position: u32,
    value: &[u8],
) -> Result<(), Error>
    requires ballot { IsBallot ballot }
    requires least { 1 ≤ position }
    requires most { position ≤ positions }
    requires mode { connection.old.in_transaction ≡ false }
    ensures law { HasCleanDisk (state S.Store connection.new) → (o : Setup) (last : Record) → ballot.member ≤ o.members → (v : Value) → value.now ≡ value_spelling v → IsValue v → IsTrue (state S.Store connection.old).is_open → below ballot last.promise ≡ false → Holds (state S.Store connection.old) o last last
        → Written (state S.Store connection.new) o last (written (NewVote position (record { ballot = ballot; value = v })) last) result }
    ensures store { HasCleanDisk (state S.Store connection.new) → (o : Setup) (last : Record) → FitsRow o → ballot.member ≤ o.members → (v : Value) → value.now ≡ value_spelling v → IsValue v → IsTrue (state S.Store connection.old).is_open → below ballot last.promise ≡ false → Holds (state S.Store connection.old) o last last
        → IfErr result (λ e. e ≢ Error.SqliteFailure OutOfMemory → StoreFailed (state S.Store connection.old) (state S.Store connection.new)) }
    ensures survives { Survives (state S.Store connection.old) (state S.Store connection.new) (λ _. Unit {0}) }
    ensures clean { doubt (state S.Store connection.old).is_clean ≤ doubt (state S.Store connection.new).is_clean }
{
    let mut tx = connection.transaction();
    match first(&mut tx, ballot) {
        Ok(_) => {}
        Err(error) => {
            tx.rollback();
            return Err(error);
        }
    }
    match second(&mut tx, ballot, position, value) {
        Ok(_) => {}
        Err(error) => {
            tx.rollback();
            return Err(error);
        }
    }
    tx.commit()
}

/// Acknowledges a vote, and its ballot as the promise, in one transaction. The position is from 1 on, and `value` the bytes that spell the
/// value. Whatever a crash leaves then is the record with both, where the disk is clean, no transaction was under way, and the ballot is of one
/// of the members and not below the promise that stood.
///
/// Faults: as of `put_promise`; `Store` too, with nothing written, where a transaction was under way.
pub fn put_vote<S: Alter>(
    connection: &mut Connection<S>,
    ballot: Ballot,
    position: u32,
    value: &[u8],
) -> Result<(), WriteFault>
    requires ballot { IsBallot ballot }
    requires least { 1 ≤ position }
    requires most { position ≤ positions }
    ensures law { HasCleanDisk (state S.Store connection.new) → (o : Setup) (last : Record) → ballot.member ≤ o.members → (v : Value) → value.now ≡ value_spelling v → IsValue v
        → (IsTrue (state S.Store connection.old).is_open → below ballot last.promise ≡ false) → Holds (state S.Store connection.old) o last last
        → Leaves (state S.Store connection.new) o last (written (NewVote position (record { ballot = ballot; value = v })) last) result }
    ensures store { HasCleanDisk (state S.Store connection.new) → (o : Setup) (last : Record) → FitsRow o → ballot.member ≤ o.members → (v : Value) → value.now ≡ value_spelling v → IsValue v
        → (IsTrue (state S.Store connection.old).is_open → below ballot last.promise ≡ false) → Holds (state S.Store connection.old) o last last
        → IsErrOf result WriteFault.Store → StoreFailed (state S.Store connection.old) (state S.Store connection.new) }
    ensures clean { doubt (state S.Store connection.old).is_clean ≤ doubt (state S.Store connection.new).is_clean }
{
    match look(connection, PROMISE) {
        Ok(_) => {}
        Err(error) if is_memory(&error) => return Err(WriteFault::Memory),
        Err(_) => return Err(WriteFault::Store),
    }
    if !connection.is_autocommit() {
        return Err(WriteFault::Store);
    }
    match run(connection, ballot, position, value) {
        Ok(()) => Ok(()),
        Err(error) => judge(connection, &error),
    }
}
