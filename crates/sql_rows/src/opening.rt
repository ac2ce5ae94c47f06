//! Databases that are opened.

use super::calls::push_votes;
use super::results::{Kept, of_call, push};
use ballots::{Setup, SetupFault};
use document_names::{Names, NamesFault};
use records::{Record, Records, RecordsFault};
use rows::{RowFault, Words};
use sql_records::{OpenFault, SqlRecords};
use sqlite::{Alter, Connection};
use std::alloc::Global;

/// The names of the one document `db`.
fn one_name(alloc: Global) -> Result<Names, RowFault> {
    let mut texts = Vec::new(alloc);
    texts.push(String::from_str(alloc, "db")?)?;
    match Names::new(alloc, texts.as_slice()) {
        Ok(names) => Ok(names),
        Err(NamesFault::Memory) => Err(RowFault::Memory),
        Err(_) => Err(RowFault::NotARow),
    }
}

/// The setup of a member whose one document is `db`.
fn setup(alloc: Global, group: u32, member: u8, members: u8) -> Result<Setup, RowFault> {
    let names = one_name(alloc)?;
    match Setup::new(alloc, group, member, members, &names) {
        Ok(setup) => Ok(setup),
        Err(SetupFault::Memory) => Err(RowFault::Memory),
        Err(SetupFault::Numbers) => Err(RowFault::NotARow),
    }
}

/// The setup of the member 1 of 3 in group 7.
pub(super) fn first_setup(alloc: Global) -> Result<Setup, RowFault> {
    setup(alloc, 7, 1, 3)
}

/// The setup that the last three words of a row say.
pub(super) fn read_setup(alloc: Global, words: &mut Words) -> Result<Setup, RowFault> {
    let group = u32::try_from(words.number()?)
        .ok()
        .ok_or(RowFault::NotARow)?;
    let member = u8::try_from(words.number()?).ok().ok_or(RowFault::NotARow)?;
    let members = u8::try_from(words.number()?).ok().ok_or(RowFault::NotARow)?;
    if !words.is_empty() {
        return Err(RowFault::NotARow);
    }
    setup(alloc, group, member, members)
}

/// Appends what stands in a database that is opened again, or that there is no connection to it, and gives back what there was.
pub(super) fn found<S: Alter + Drop, F: Drop>(
    alloc: Global,
    connected: Result<Connection<S>, F>,
    setup: &Setup,
    text: &mut String,
) -> Kept<Result<Connection<S>, F>> {
    match connected {
        Ok(connection) => {
            let (done, connection) = push_standing(alloc, connection, setup, text);
            (done, Ok(connection))
        }
        Err(files) => (push(text, "no connection"), Err(files)),
    }
}

/// Appends what stands in a database, or why it is not opened as this member's, and gives it back. Fault: `Memory`.
pub(super) fn push_standing<S: Alter + Drop>(
    alloc: Global,
    connection: Connection<S>,
    setup: &Setup,
    text: &mut String,
) -> Kept<Connection<S>> {
    match SqlRecords::open(alloc, connection, setup) {
        Ok(mut records) => {
            let done = push_record(alloc, &mut records, text);
            (done, records.into_connection())
        }
        Err((fault, connection)) => (push_refused(alloc, fault, text), connection),
    }
}

/// Appends what records hold, or how many failures there were.
fn push_record<R: Records>(
    alloc: Global,
    records: &mut R,
    text: &mut String,
) -> Result<(), RowFault> {
    let standing = standing(alloc, records)?;
    push(text, standing.as_str())
}

/// Appends the number of the fault.
fn push_refused(alloc: Global, fault: OpenFault, text: &mut String) -> Result<(), RowFault> {
    let number = refused(alloc, fault)?;
    push(text, number.as_str())
}

/// What records hold, or how many failures there were.
fn standing<R: Records>(alloc: Global, records: &mut R) -> Result<String, RowFault> {
    match records.load(alloc) {
        Ok(record) => record_text(alloc, &record),
        Err(RecordsFault::Memory) => Err(RowFault::Memory),
        Err(RecordsFault::Store) => {
            let failures = records.failures();
            Ok(format!(in alloc; "opened, failures {failures}")?)
        }
    }
}

/// The promise of a record, its first votes, and how many values it keeps as learnt.
fn record_text(alloc: Global, record: &Record) -> Result<String, RowFault> {
    let promise = record.promise();
    let (round, member) = (promise.round, promise.member);
    let mut text = format!(in alloc; "opened, promised {round},{member}")?;
    let window = record.window(alloc, promise, 1)?;
    push_votes(alloc, &mut text, &window)?;
    let learnt = record.learnt_to();
    let count = format!(in alloc; ", learnt {learnt}")?;
    text.push_str(count.as_str())?;
    Ok(text)
}

/// The number of the fault.
pub(super) fn refused(alloc: Global, fault: OpenFault) -> Result<String, RowFault> {
    let number = match fault {
        OpenFault::Memory => return Err(RowFault::Memory),
        OpenFault::Store => 2u8,
        OpenFault::Other => 3,
        OpenFault::Damaged => 4,
    };
    Ok(format!(in alloc; "fault {number}")?)
}

/// The records in a database, which are opened again where memory is refused.
pub(super) fn opened_again<S: Alter + Drop>(
    alloc: Global,
    connection: Connection<S>,
    setup: &Setup,
) -> Result<SqlRecords<S>, (OpenFault, Connection<S>)> {
    match SqlRecords::open(alloc, connection, setup) {
        Err((OpenFault::Memory, connection)) => SqlRecords::open(alloc, connection, setup),
        opened => opened,
    }
}

/// Runs statements. Faults: `NotARow` where one fails, and `Memory`.
pub(super) fn run_statements<S: Alter>(
    connection: &mut Connection<S>,
    sql: &str,
) -> Result<(), RowFault> {
    of_call(connection.execute_batch(sql))
}
