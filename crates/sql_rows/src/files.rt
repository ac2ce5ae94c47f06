//! Databases in real files, which are closed after each step, and opened again.

use super::disks::FIRST_VERSION;
use super::opening::{first_setup, push_standing, read_setup, run_statements};
use super::results::{keeping, of_call};
use super::using::used;
use ballots::Setup;
use rows::{RowFault, Words};
use sqlite::{Alter, Connection, Error, FileStore};
use sqlite_disk::Disk;
use std::alloc::Global;
use std::{fs, io};

/// What is done with a file between its opening and its closing.
#[derive(Clone, Copy)]
enum Step<'a> {
    /// An acceptor's call.
    Call(&'a str),
    /// Statements are run.
    Run(&'a str),
    /// It is said what stands.
    Show,
}

/// What becomes of a database in a file, which is made where there is none.
pub(super) fn in_file(rt: &HostRuntime, mut words: Words) -> Result<String, RowFault> {
    let name = words.plain()?;
    match words.plain()? {
        "plays" => plays_in(rt, name, words),
        "run" => run_in(rt, name, words),
        _ => Err(RowFault::NotARow),
    }
}

/// The answers to the calls of a row, before each of which the file is opened and after each of which it is closed, and what stands then.
fn plays_in(rt: &HostRuntime, name: &str, mut words: Words) -> Result<String, RowFault> {
    let calls = words.text(rt.alloc())?;
    let setup = first_setup(rt.alloc())?;
    let mut answers = String::new(rt.alloc());
    for call in calls.lines() {
        take_step(rt, name, &setup, Step::Call(call), &mut answers)?;
    }
    take_step(rt, name, &setup, Step::Show, &mut answers)?;
    Ok(answers)
}

/// What becomes of a new file that is made a record of version 1.
pub(super) fn in_first(rt: &HostRuntime, mut words: Words) -> Result<String, RowFault> {
    let name = words.plain()?;
    remove(rt, name)?;
    remove(rt, &format!(in rt.alloc(); "{name}-wal")?)?;
    let setup = first_setup(rt.alloc())?;
    let mut text = String::new(rt.alloc());
    take_step(rt, name, &setup, Step::Run(FIRST_VERSION), &mut text)?;
    plays_in(rt, name, words)
}

/// Removes a file, if there is one. Faults: `NotARow` where it is not removed, and `Memory`.
fn remove(rt: &HostRuntime, name: &str) -> Result<(), RowFault> {
    match fs::remove_file(rt, name) {
        Ok(()) => Ok(()),
        Err(error) if error.kind() == io::ErrorKind::NotFound => Ok(()),
        Err(error) if error.kind() == io::ErrorKind::OutOfMemory => Err(RowFault::Memory),
        Err(_) => Err(RowFault::NotARow),
    }
}

/// What becomes of a file in which statements were run, when it is closed and opened again.
fn run_in(rt: &HostRuntime, name: &str, mut words: Words) -> Result<String, RowFault> {
    let sql = words.text(rt.alloc())?;
    let setup = read_setup(rt.alloc(), &mut words)?;
    let mut text = String::new(rt.alloc());
    take_step(rt, name, &setup, Step::Run(&sql), &mut text)?;
    take_step(rt, name, &setup, Step::Show, &mut text)?;
    Ok(text)
}

/// Opens the file of that name, takes the step, and appends what it gives. Faults: `NotARow`, and `Memory`.
fn take_step(
    rt: &HostRuntime,
    name: &str,
    setup: &Setup,
    step: Step,
    text: &mut String,
) -> Result<(), RowFault> {
    let opened = Connection::open_with_sums(rt, name);
    taken(rt.alloc(), opened, setup, step, text)
}

/// Takes a step over a file, and appends what it gives. Faults: `NotARow`, and `Memory`.
fn taken<D: Disk + Drop>(
    alloc: Global,
    opened: Result<Connection<FileStore<D>>, Error>,
    setup: &Setup,
    step: Step,
    text: &mut String,
) -> Result<(), RowFault> {
    closed(after_step(alloc, opened, setup, step, text))
}

/// The database after a step, if it is to be closed. What the step gives is appended. Faults: `NotARow`, and `Memory`.
fn after_step<S: Alter + Drop>(
    alloc: Global,
    opened: Result<Connection<S>, Error>,
    setup: &Setup,
    step: Step,
    text: &mut String,
) -> Result<Option<Connection<S>>, RowFault> {
    let mut connection = of_call(opened)?;
    match step {
        Step::Call(call) => {
            let (done, connection) = used(alloc, connection, call, setup, text);
            keeping(done, Some(connection))
        }
        Step::Run(sql) => {
            let done = run_statements(&mut connection, sql);
            keeping(done, Some(connection))
        }
        Step::Show => {
            let (done, _shown) = push_standing(alloc, connection, setup, text);
            keeping(done, None)
        }
    }
}

/// Closes a database, if there is one. Fault: `NotARow` where that fails.
fn closed<D: Disk + Drop>(
    used: Result<Option<Connection<FileStore<D>>>, RowFault>,
) -> Result<(), RowFault> {
    match used {
        Ok(Some(connection)) => of_call(connection.close()),
        Ok(None) => Ok(()),
        Err(fault) => Err(fault),
    }
}
