//! Databases on disks in memory: disks that fail from some call on, and files that are cut or changed.

use super::memory::{Kind, in_empty, read_kind};
use super::nodes;
use super::opening::{first_setup, found, run_statements};
use super::results::{Kept, both_done, keeping, let_go, of_call};
use super::using::use_where_connected;
use applications::Application;
use ballots::Setup;
use failing_disks::{
    Damage, FailingDisk, Written, bytes_of, crashed, empty_files, files_with, harm, lacked_memory,
};
use record_writes::is_memory;
use rows::{RowFault, Words};
use sqlite::{Connection, Error, FileStore, Files, Options};
use sqlite_disk::Disk;
use std::alloc::Global;

/// A promise, and a vote by a ballot above it.
const PROMISE_AND_VOTE: &str = "begin 1 3\naccept 5 3 2";

/// A record of version 1: 2,2 is promised, and voted for the no-op at position 1.
pub(super) const FIRST_VERSION: &str =
    "CREATE TABLE meta (id INTEGER PRIMARY KEY CHECK (id = 1), version INTEGER NOT NULL, grp INTEGER NOT NULL, member INTEGER NOT NULL, members INTEGER NOT NULL, docs TEXT NOT NULL, round INTEGER NOT NULL, leader INTEGER NOT NULL) STRICT; CREATE TABLE votes (position INTEGER PRIMARY KEY, round INTEGER NOT NULL, leader INTEGER NOT NULL, value BLOB NOT NULL) STRICT; INSERT INTO meta VALUES (1, 1, 7, 1, 3, 'db', 2, 2); INSERT INTO votes VALUES (1, 2, 2, x'00')";

/// The connection to files, or the files again where there is none.
type Connected<D> = Result<Connection<FileStore<D>>, Files<D>>;

/// What a row of that kind says of databases in memory. Fault: `NotARow` where there is no such kind, among others.
pub(super) fn in_memory<D: FailingDisk, A: Application + Drop>(
    alloc: Global,
    kind: &str,
    words: Words,
) -> Result<String, RowFault> {
    match kind {
        "made" => on_new_disks::<D>(alloc, Kind::Made, words),
        "kept" => on_new_disks::<D>(alloc, Kind::Kept, words),
        "plays" => on_new_disks::<D>(alloc, Kind::Plays, words),
        "fuse" => fuse::<D>(alloc, words),
        "first" => first::<D>(alloc, words),
        "node" => node::<D, A>(alloc, words, false),
        "staged" => node::<D, A>(alloc, words, true),
        "cut" => damaged::<D>(alloc, words, Damage::Cut),
        "changed" => damaged::<D>(alloc, words, Damage::Changed),
        _ => Err(RowFault::NotARow),
    }
}

/// The number that a row says, and which file it speaks of: whether it is the log.
fn read_file(words: &mut Words) -> Result<(bool, u64), RowFault> {
    let is_log = match words.plain()? {
        "log" => true,
        "database" => false,
        _ => return Err(RowFault::NotARow),
    };
    Ok((is_log, words.number()?))
}

/// The calls of an acceptor that the rest of a row says, or those of a promise and a vote.
fn read_calls(alloc: Global, words: &mut Words) -> Result<String, RowFault> {
    if words.is_empty() {
        return Ok(String::from_str(alloc, PROMISE_AND_VOTE)?);
    }
    words.text(alloc)
}

/// What becomes of new records whose log or database fails from a call on, and what is found after: where all that was written is still
/// there, and where a crash takes what was not synced.
fn fuse<D: FailingDisk>(alloc: Global, mut words: Words) -> Result<String, RowFault> {
    let (log, database) = read_calls_passed(&mut words)?;
    let calls = read_calls(alloc, &mut words)?;
    played_and_found(alloc, empty_files::<D>(alloc, log, database)?, &calls)
}

/// What becomes so of a record of version 1, and what is found after.
fn first<D: FailingDisk>(alloc: Global, mut words: Words) -> Result<String, RowFault> {
    let (log, database) = read_calls_passed(&mut words)?;
    let calls = words.text(alloc)?;
    let written = bytes_of(alloc, &of_first_version::<D>(alloc)?)?;
    let files = files_with::<D>(alloc, &written, log, database)?;
    played_and_found(alloc, files, &calls)
}

/// What becomes of a node over new records whose log or database fails from a call on, and what is found after. What is written is held back
/// until a flush, if they are staged.
fn node<D: FailingDisk, A: Application + Drop>(
    alloc: Global,
    mut words: Words,
    is_staged: bool,
) -> Result<String, RowFault> {
    let (log, database) = read_calls_passed(&mut words)?;
    let calls = words.text(alloc)?;
    let setup = first_setup(alloc)?;
    let mut text = String::new(alloc);
    let files = empty_files::<D>(alloc, log, database)?;
    let files = used_by_node::<D, A>(alloc, files, &calls, is_staged, &mut text)?;
    let after = found_after(alloc, files, &setup)?;
    text.push_str(after.as_str())?;
    Ok(text)
}

/// The files after a node's calls, with no more calls under way. The answers are appended. Faults: `Memory`, and `NotARow`.
fn used_by_node<D: FailingDisk, A: Application + Drop>(
    alloc: Global,
    files: Files<D>,
    calls: &str,
    is_staged: bool,
    answers: &mut String,
) -> Result<Files<D>, RowFault> {
    let setup = first_setup(alloc)?;
    let connected = connected(alloc, files)?;
    files_of(nodes::used_where_connected::<A, _, _>(
        alloc, connected, setup, calls, is_staged, answers,
    ))
}

/// The files of a record of version 1, whose log was copied into the database. Faults: `Memory`, and `NotARow` where its statements fail.
fn of_first_version<D: FailingDisk>(alloc: Global) -> Result<Files<D>, RowFault> {
    match connected(alloc, empty_files::<D>(alloc, u64::MAX, u64::MAX)?)? {
        Ok(mut connection) => {
            let made = run_statements(&mut connection, FIRST_VERSION);
            copied_files((made, Ok(connection)))
        }
        Err(files) => copied_files((Ok(()), Err(files))),
    }
}

/// How many calls the log and the database pass on: one of them as many as a row says, and the other all.
fn read_calls_passed(words: &mut Words) -> Result<(u64, u64), RowFault> {
    let (is_log, last) = read_file(words)?;
    if is_log {
        Ok((last, u64::MAX))
    } else {
        Ok((u64::MAX, last))
    }
}

/// The answers of an acceptor over files, and what is found in them after.
fn played_and_found<D: FailingDisk>(
    alloc: Global,
    files: Files<D>,
    calls: &str,
) -> Result<String, RowFault> {
    let setup = first_setup(alloc)?;
    let mut text = String::new(alloc);
    let files = used(alloc, files, calls, &setup, &mut text)?;
    let after = found_after(alloc, files, &setup)?;
    text.push_str(after.as_str())?;
    Ok(text)
}

/// What is found in files where all that was written is still there, and where a crash takes what was not synced.
fn found_after<D: FailingDisk>(
    alloc: Global,
    files: Files<D>,
    setup: &Setup,
) -> Result<String, RowFault> {
    let written = bytes_of(alloc, &files);
    let left = found_in(alloc, crashed(files), setup);
    let mut text = found_with::<D>(alloc, &written?, setup)?;
    text.push_str("; ")?;
    text.push_str(left?.as_str())?;
    Ok(text)
}

/// A connection to files, or the files again. Fault: `Memory` where there is none since memory was refused.
fn connected<D: Disk + Drop>(alloc: Global, files: Files<D>) -> Result<Connected<D>, RowFault> {
    if !files.may_be_used() {
        return Ok(Err(files));
    }
    match Connection::open_files_with(alloc, files, Options::new(1), true) {
        Ok(connection) => Ok(Ok(connection)),
        Err((error, left)) => unless_memory(&error, Err(left.into_files())),
    }
}

/// The value. Fault: `Memory` where the error is that memory was refused.
fn unless_memory<T: Drop>(error: &Error, value: T) -> Result<T, RowFault> {
    if is_memory(error) {
        Err(RowFault::Memory)
    } else {
        Ok(value)
    }
}

/// What stands in files that are opened again, or that they are not opened.
fn found_in<D: FailingDisk>(
    alloc: Global,
    files: Files<D>,
    setup: &Setup,
) -> Result<String, RowFault> {
    let mut text = String::new(alloc);
    let connected = connected(alloc, files)?;
    let done = let_go(files_of(found(alloc, connected, setup, &mut text)));
    keeping(done, text)
}

/// What is found in files with these bytes.
fn found_with<D: FailingDisk>(
    alloc: Global,
    written: &Written,
    setup: &Setup,
) -> Result<String, RowFault> {
    found_in(
        alloc,
        files_with::<D>(alloc, written, u64::MAX, u64::MAX)?,
        setup,
    )
}

/// What becomes of an empty database on disks that never fail.
fn on_new_disks<D: FailingDisk>(
    alloc: Global,
    kind: Kind,
    mut words: Words,
) -> Result<String, RowFault> {
    let (said, setup) = read_kind(alloc, kind, &mut words)?;
    let mut text = String::new(alloc);
    let connected = connected(alloc, empty_files::<D>(alloc, u64::MAX, u64::MAX)?)?;
    let used = in_empty(alloc, connected, kind, (said.as_str(), &setup), &mut text);
    keeping(let_go(files_of(used)), text)
}

/// The files of a database, which is closed where it was opened. Faults: `Memory` where memory was refused to one of them, whatever came of
/// that, and that of the step.
fn files_of<D: FailingDisk>((done, used): Kept<Connected<D>>) -> Result<Files<D>, RowFault> {
    unless_lacking((done, closed(used)))
}

/// The files of a database, whose log is copied into it. Faults: as of `files_of`, and `NotARow` where it was not opened, or its log is not copied.
fn copied_files<D: FailingDisk>((done, used): Kept<Connected<D>>) -> Result<Files<D>, RowFault> {
    let (copied, files) = with_log_copied(used);
    unless_lacking((both_done(done, copied), files))
}

/// The files of a database, which is closed where it was opened.
fn closed<D: Disk + Drop>(connected: Connected<D>) -> Files<D> {
    match connected {
        Ok(connection) => connection.into_store().close(),
        Err(files) => files,
    }
}

/// The same, and whether its log was copied into it.
fn with_log_copied<D: Disk + Drop>(connected: Connected<D>) -> Kept<Files<D>> {
    match connected {
        Ok(connection) => match connection.close_files() {
            Ok(files) => (Ok(()), files),
            Err((error, store)) => (of_call(Err(error)), store.close()),
        },
        Err(files) => (Err(RowFault::NotARow), files),
    }
}

/// The files. Faults: `Memory` where memory was refused to one of them, and else that of the step.
fn unless_lacking<D: FailingDisk>((done, files): Kept<Files<D>>) -> Result<Files<D>, RowFault> {
    if lacked_memory(&files) {
        return Err(RowFault::Memory);
    }
    keeping(done, files)
}

/// The files after an acceptor's calls, with no more calls under way. The answers are appended. Fault: `Memory`, and `NotARow`.
fn used<D: FailingDisk>(
    alloc: Global,
    files: Files<D>,
    calls: &str,
    setup: &Setup,
    answers: &mut String,
) -> Result<Files<D>, RowFault> {
    let connected = connected(alloc, files)?;
    files_of(use_where_connected(alloc, connected, calls, setup, answers))
}

/// The files after a promise and a vote.
fn voted<D: FailingDisk>(alloc: Global) -> Result<Files<D>, RowFault> {
    let setup = first_setup(alloc)?;
    let mut text = String::new(alloc);
    let files = empty_files::<D>(alloc, u64::MAX, u64::MAX)?;
    used(alloc, files, PROMISE_AND_VOTE, &setup, &mut text)
}

/// The bytes of the log and of the database after a promise and a vote; or of the database into which its log was copied, and no log.
fn bytes_after<D: FailingDisk>(alloc: Global, has_log: bool) -> Result<Written, RowFault> {
    let files = voted::<D>(alloc)?;
    if has_log {
        return bytes_of(alloc, &files);
    }
    let files = copied_files((Ok(()), connected(alloc, files)?))?;
    let mut written = bytes_of(alloc, &files)?;
    written.log.clear();
    Ok(written)
}

/// What is found where a file is cut after so many bytes, or the byte at an offset is another one.
fn damaged<D: FailingDisk>(
    alloc: Global,
    mut words: Words,
    kind: Damage,
) -> Result<String, RowFault> {
    let (is_log, at) = read_file(&mut words)?;
    let mut written = bytes_after::<D>(alloc, is_log)?;
    if is_log {
        harm(&mut written.log, kind, at)?;
    } else {
        harm(&mut written.database, kind, at)?;
    }
    found_with::<D>(alloc, &written, &first_setup(alloc)?)
}
