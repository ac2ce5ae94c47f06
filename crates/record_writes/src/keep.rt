//! The write of a value that is kept as learnt.

ghost use Rattle.std.specs.Prelude.{◌≡◌, ◌≢◌, ◌≤◌, suc, length, IfErr, IsErrOf, IsTrue};
ghost use Rattle.sqlite.specs.State.{HasCleanDisk, Survives};
ghost use Rattle.sqlite.specs.declared.error.ErrorCode.TheVariants.{OutOfMemory};
ghost use Rattle.sqlite_trees.specs.View.{doubt};
ghost use Rattle.sqlite.specs.Held.{state};
ghost use Rattle.ballots.specs.Values.{positions};
ghost use Rattle.ballots.specs.Terms.{Setup};
ghost use Rattle.ballots.specs.Spelling.{IsValue, value_spelling};
ghost use Rattle.ballots.specs.declared.value.Value.{Value};
ghost use Rattle.paxos.specs.Records.{Record, NewLearnt, written};
ghost use Rattle.record_writes.specs.Faults.{Leaves, StoreFailed};
ghost use Rattle.record_tables.specs.Texts.{keep_text, schema};
ghost use Rattle.record_writes.specs.Holds.{Holds, Written};

use super::fault::WriteFault;
use super::promise::{is_memory, judge, look};
use sqlite::{Alter, Connection, Error, Statement, params};

/// Runs the statement over an open connection.
fn write<S: Alter>(
    connection: &mut Connection<S>,
    statement: &Statement,
    position: u32,
    value: &[u8],
) -> Result<usize, Error>
    requires most { position ≤ positions }
    ensures law { HasCleanDisk (state S.Store connection.new) → statement.now.text ≡ keep_text → IsTrue (state S.Store connection.old).is_open → (o : Setup) (last : Record) → (v : Value) → value.now ≡ value_spelling v → IsValue v → position ≡ suc (length last.learnt)
        → Holds (state S.Store connection.old) o last last → Written (state S.Store connection.new) o last (written (NewLearnt v) last) result }
    ensures store { HasCleanDisk (state S.Store connection.new) → statement.now.text ≡ keep_text → IsTrue (state S.Store connection.old).is_open → (o : Setup) (last : Record) → (v : Value) → value.now ≡ value_spelling v → IsValue v → position ≡ suc (length last.learnt)
        → Holds (state S.Store connection.old) o last last → IfErr result (λ e. e ≢ Error.SqliteFailure OutOfMemory → StoreFailed (state S.Store connection.old) (state S.Store connection.new)) }
    ensures known { HasCleanDisk (state S.Store connection.new) → (o : Setup) (last : Record) → Holds (state S.Store connection.old) o last last
        → IfErr result (λ e. IsTrue (state S.Store connection.new).is_open → (state S.Store connection.new).now.schema ≡ schema) }
    ensures survives { Survives (state S.Store connection.old) (state S.Store connection.new) (λ _. Unit {0}) }
    ensures clean { doubt (state S.Store connection.old).is_clean ≤ doubt (state S.Store connection.new).is_clean }
{
    statement.execute(connection, params![position, value])
}

/// Acknowledges a value as learnt, in one statement. The position is the first past those that the record keeps as learnt, and `value` the
/// bytes that spell the value. Whatever a crash leaves then is the record with that value too, where the disk is clean and no transaction was
/// under way.
///
/// Faults: as of `put_promise`.
pub fn put_learnt<S: Alter>(
    connection: &mut Connection<S>,
    position: u32,
    value: &[u8],
) -> Result<(), WriteFault>
    requires most { position ≤ positions }
    ensures law { HasCleanDisk (state S.Store connection.new) → (o : Setup) (last : Record) → (v : Value) → value.now ≡ value_spelling v → IsValue v → (IsTrue (state S.Store connection.old).is_open → position ≡ suc (length last.learnt))
        → Holds (state S.Store connection.old) o last last → Leaves (state S.Store connection.new) o last (written (NewLearnt v) last) result }
    ensures store { HasCleanDisk (state S.Store connection.new) → (o : Setup) (last : Record) → (v : Value) → value.now ≡ value_spelling v → IsValue v → (IsTrue (state S.Store connection.old).is_open → position ≡ suc (length last.learnt))
        → Holds (state S.Store connection.old) o last last → IsErrOf result WriteFault.Store → StoreFailed (state S.Store connection.old) (state S.Store connection.new) }
    ensures clean { doubt (state S.Store connection.old).is_clean ≤ doubt (state S.Store connection.new).is_clean }
{
    let text = "INSERT INTO learnt (position, value) VALUES (?1, ?2)";
    let statement = match look(connection, text) {
        Ok(statement) => statement,
        Err(error) if is_memory(&error) => return Err(WriteFault::Memory),
        Err(_) => return Err(WriteFault::Store),
    };
    match write(connection, &statement, position, value) {
        Ok(_) => Ok(()),
        Err(error) => judge(connection, &error),
    }
}
