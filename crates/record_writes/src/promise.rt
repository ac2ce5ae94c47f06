//! The write of a promise.

ghost use Rattle.std.specs.Prelude.{◌≡◌, ◌≢◌, ◌⊎◌, ◌↔◌, ◌≤◌, false, IsTrue, IfErr, IfOk, IsErrOf, OnOk, pos};
ghost use Rattle.sqlite.specs.State.{HasCleanDisk, IsUnchanged, Survives};
ghost use Rattle.sqlite_trees.specs.View.{doubt};
ghost use Rattle.sqlite.specs.declared.error.ErrorCode.TheVariants.{OutOfMemory};
ghost use Rattle.sqlite.specs.Held.{state};
ghost use Rattle.ballots.specs.Terms.{Setup};
ghost use Rattle.ballots.specs.Ballot.{IsBallot, below};
ghost use Rattle.paxos.specs.Records.{Record, NewPromise, written};
ghost use Rattle.record_writes.specs.Faults.{FitsRow, IsWriteText, Leaves, StoreFailed};
ghost use Rattle.record_writes.specs.Holds.{Failed, Holds, Written};
ghost use Rattle.record_tables.specs.Texts.{promise_text, schema};

use super::fault::WriteFault;
use ballots::Ballot;
use sqlite::{Alter, Connection, Error, ErrorCode, Statement, params};

/// The statement that writes a promise.
pub(super) const PROMISE: &str = "UPDATE meta SET round = ?1, leader = ?2";

/// Reads a statement. Nothing is written by it, and where it succeeds the connection is open. It fails with the error of the store, and
/// then the record stands as before, too.
pub(super) fn look<S: Alter>(connection: &mut Connection<S>, text: &str) -> Result<Statement, Error>
    ensures holds { HasCleanDisk (state S.Store connection.new) → (o : Setup) (a b : Record) → Holds (state S.Store connection.old) o a b → Holds (state S.Store connection.new) o a b }
    ensures open { HasCleanDisk (state S.Store connection.new) → OnOk result (IsTrue (state S.Store connection.new).is_open × IsTrue (state S.Store connection.old).is_open) }
    ensures text { HasCleanDisk (state S.Store connection.new) → IfOk result (λ s. s.text ≡ text.now) }
    ensures was_open { HasCleanDisk (state S.Store connection.new) → IsTrue (state S.Store connection.new).is_open → IsTrue (state S.Store connection.old).is_open }
    ensures same { HasCleanDisk (state S.Store connection.new) → OnOk result (IsUnchanged (state S.Store connection.old) (state S.Store connection.new)) }
    ensures store { HasCleanDisk (state S.Store connection.new) → IsWriteText text.now → (IsTrue (state S.Store connection.old).is_open → (state S.Store connection.old).now.schema ≡ schema)
        → IfErr result (λ e. e ≢ Error.SqliteFailure OutOfMemory → StoreFailed (state S.Store connection.old) (state S.Store connection.new)) }
    ensures survives { Survives (state S.Store connection.old) (state S.Store connection.new) (λ _. ⊥) }
    ensures clean { doubt (state S.Store connection.old).is_clean ≤ doubt (state S.Store connection.new).is_clean }
{
    connection.prepare(text)
}

/// Whether an error of a connection is that memory was refused.
pub fn is_memory(error: &Error) -> bool
    ensures { IsTrue result ↔ (error.now ≡ Error.SqliteFailure OutOfMemory) }
{
    matches!(error, Error::SqliteFailure(ErrorCode::OutOfMemory))
}

/// The ballot's round as a parameter.
#[tactic(auto, unfolding(ballots::specs::Ballot::last_round))]
pub(super) fn round_of(ballot: Ballot) -> i64
    requires { IsBallot ballot }
    ensures { result ≡ pos ballot.round }
{
    ballot.round as i64
}

/// Runs the statement over an open connection.
fn write<S: Alter>(
    connection: &mut Connection<S>,
    statement: &Statement,
    ballot: Ballot,
) -> Result<usize, Error>
    requires { IsBallot ballot }
    ensures law { HasCleanDisk (state S.Store connection.new) → statement.now.text ≡ promise_text → IsTrue (state S.Store connection.old).is_open → (o : Setup) (last : Record) → ballot.member ≤ o.members → below ballot last.promise ≡ false → Holds (state S.Store connection.old) o last last
        → Written (state S.Store connection.new) o last (written (NewPromise ballot) last) result }
    ensures store { HasCleanDisk (state S.Store connection.new) → statement.now.text ≡ promise_text → IsTrue (state S.Store connection.old).is_open → (o : Setup) (last : Record) → FitsRow o → Holds (state S.Store connection.old) o last last
        → IfErr result (λ e. e ≢ Error.SqliteFailure OutOfMemory → StoreFailed (state S.Store connection.old) (state S.Store connection.new)) }
    ensures known { HasCleanDisk (state S.Store connection.new) → (o : Setup) (last : Record) → Holds (state S.Store connection.old) o last last
        → IfErr result (λ e. IsTrue (state S.Store connection.new).is_open → (state S.Store connection.new).now.schema ≡ schema) }
    ensures survives { Survives (state S.Store connection.old) (state S.Store connection.new) (λ _. Unit {0}) }
    ensures clean { doubt (state S.Store connection.old).is_clean ≤ doubt (state S.Store connection.new).is_clean }
{
    let round = round_of(ballot);
    let member = u32::from(ballot.member);
    statement.execute(connection, params![round, member])
}

/// What a write that failed left. It is the old record only if the connection is still open.
///
/// It answers a fault, never an `Ok`: `Memory` only where memory was refused and the connection is still open, and then the old record
/// stands; `Unseen` where memory was refused for that too, and else `Store`: then the old one or the new one does.
pub(super) fn judge<S: Alter>(
    connection: &mut Connection<S>,
    error: &Error,
) -> Result<(), WriteFault>
    ensures law { HasCleanDisk (state S.Store connection.new) → (o : Setup) (last next : Record) → Failed (state S.Store connection.old) o last next → Leaves (state S.Store connection.new) o last next result }
    ensures store { HasCleanDisk (state S.Store connection.new) → (IsTrue (state S.Store connection.old).is_open → (state S.Store connection.old).now.schema ≡ schema)
        → IsErrOf result WriteFault.Store → (error.now ≢ Error.SqliteFailure OutOfMemory) ⊎ StoreFailed (state S.Store connection.old) (state S.Store connection.new) }
    ensures faults { (state S.Store connection.old).faults ≤ (state S.Store connection.new).faults }
    ensures clean { doubt (state S.Store connection.old).is_clean ≤ doubt (state S.Store connection.new).is_clean }
{
    if !is_memory(error) {
        return Err(WriteFault::Store);
    }
    let Err(again) = look(connection, PROMISE) else {
        return Err(WriteFault::Memory);
    };
    if is_memory(&again) {
        return Err(WriteFault::Unseen);
    }
    Err(WriteFault::Store)
}

/// Acknowledges a promise, in one statement: its round and its member go into the member's row. Whatever a crash leaves then is the record
/// with that promise, where the disk is clean, no transaction was under way, and the ballot is of one of the members and not below the promise
/// that stood.
///
/// Faults: `Memory` where memory was refused, and then the old record stands; `Store` only where the store failed, the connection was shut, or
/// its statements may take only so many steps, and then the old one or the new one does, and the connection may be shut; `Unseen` where
/// memory was refused twice.
pub fn put_promise<S: Alter>(
    connection: &mut Connection<S>,
    ballot: Ballot,
) -> Result<(), WriteFault>
    requires { IsBallot ballot }
    ensures law { HasCleanDisk (state S.Store connection.new) → (o : Setup) (last : Record) → ballot.member ≤ o.members → (IsTrue (state S.Store connection.old).is_open → below ballot last.promise ≡ false)
        → Holds (state S.Store connection.old) o last last → Leaves (state S.Store connection.new) o last (written (NewPromise ballot) last) result }
    ensures store { HasCleanDisk (state S.Store connection.new) → (o : Setup) (last : Record) → FitsRow o → Holds (state S.Store connection.old) o last last
        → IsErrOf result WriteFault.Store → StoreFailed (state S.Store connection.old) (state S.Store connection.new) }
    ensures clean { doubt (state S.Store connection.old).is_clean ≤ doubt (state S.Store connection.new).is_clean }
{
    let statement = match look(connection, PROMISE) {
        Ok(statement) => statement,
        Err(error) if is_memory(&error) => return Err(WriteFault::Memory),
        Err(_) => return Err(WriteFault::Store),
    };
    match write(connection, &statement, ballot) {
        Ok(_) => Ok(()),
        Err(error) => judge(connection, &error),
    }
}
