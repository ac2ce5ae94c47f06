//! Acceptors over databases.

use super::calls::play_all;
use super::opening::{opened_again, refused};
use super::results::Kept;
use acceptor::Acceptor;
use ballots::Setup;
use records::{Records, RecordsFault};
use rows::RowFault;
use sql_records::{OpenFault, SqlRecords};
use sqlite::{Alter, Connection};
use std::alloc::Global;

/// Makes an acceptor's calls over a database, if there is one, and gives back what there was. The answers are appended, or why there are
/// none. Faults: `NotARow`, and `Memory`.
pub(super) fn use_where_connected<S: Alter + Drop, F: Drop>(
    alloc: Global,
    connected: Result<Connection<S>, F>,
    calls: &str,
    setup: &Setup,
    answers: &mut String,
) -> Kept<Result<Connection<S>, F>> {
    match connected {
        Ok(connection) => {
            let (done, connection) = used(alloc, connection, calls, setup, answers);
            (done, Ok(connection))
        }
        Err(files) => (say(answers, "no connection"), Err(files)),
    }
}

/// Makes an acceptor's calls over a database, whose records are opened again where memory is refused, and gives it back. The answers are
/// appended, or why there are none. Faults: `NotARow`, and `Memory`.
pub(super) fn used<S: Alter + Drop>(
    alloc: Global,
    connection: Connection<S>,
    calls: &str,
    setup: &Setup,
    answers: &mut String,
) -> Kept<Connection<S>> {
    match opened_again(alloc, connection, setup) {
        Ok(records) => {
            let loaded = Acceptor::open(alloc, records);
            let (done, records) = played(alloc, loaded, calls, answers);
            (done, records.into_connection())
        }
        Err((fault, connection)) => (say_refused(alloc, fault, answers), connection),
    }
}

/// Makes an acceptor's calls, if its records were loaded, and gives them back. Faults: `NotARow`, and `Memory`.
fn played<R: Records + Drop>(
    alloc: Global,
    loaded: Result<Acceptor<R>, (RecordsFault, R)>,
    calls: &str,
    answers: &mut String,
) -> Kept<R> {
    match loaded {
        Ok(mut acceptor) => {
            let done = play_all(alloc, &mut acceptor, calls, answers);
            (done, acceptor.into_records())
        }
        Err((RecordsFault::Memory, records)) => (Err(RowFault::Memory), records),
        Err((RecordsFault::Store, records)) => (say(answers, "not loaded"), records),
    }
}

/// Appends a part of an answer.
pub(super) fn say(answers: &mut String, part: &str) -> Result<(), RowFault> {
    answers.push_str(part)?;
    answers.push_str("; ")?;
    Ok(())
}

/// Appends the number of a fault.
pub(super) fn say_refused(
    alloc: Global,
    fault: OpenFault,
    answers: &mut String,
) -> Result<(), RowFault> {
    let number = refused(alloc, fault)?;
    say(answers, number.as_str())
}
