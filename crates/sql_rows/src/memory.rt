//! Databases in memory that never fail.

use super::opening::{first_setup, push_standing, read_setup, run_statements};
use super::results::Kept;
use super::using::used;
use ballots::Setup;
use rows::{RowFault, Words};
use sqlite::{Alter, Connection};
use std::alloc::Global;

/// The rows on an empty database in memory.
#[derive(Clone, Copy)]
pub(super) enum Kind {
    /// Statements are run in it.
    Made,
    /// Statements are run in it after a promise and a vote.
    Kept,
    /// An acceptor's calls are made over it.
    Plays,
}

/// The statements or the calls that a row of that kind says, and the setup that its records are opened with.
pub(super) fn read_kind(
    alloc: Global,
    kind: Kind,
    words: &mut Words,
) -> Result<(String, Setup), RowFault> {
    let said = words.text(alloc)?;
    let setup = match kind {
        Kind::Made | Kind::Kept => read_setup(alloc, words)?,
        Kind::Plays => first_setup(alloc)?,
    };
    Ok((said, setup))
}

/// Appends what becomes of an empty database, and gives back what there was. Fault: `NotARow` where there is no connection to it, among others.
pub(super) fn in_empty<S: Alter + Drop, F: Drop>(
    alloc: Global,
    connected: Result<Connection<S>, F>,
    kind: Kind,
    said: (&str, &Setup),
    text: &mut String,
) -> Kept<Result<Connection<S>, F>> {
    match connected {
        Ok(connection) => {
            let (done, connection) = in_database(alloc, connection, kind, said, text);
            (done, Ok(connection))
        }
        Err(files) => (Err(RowFault::NotARow), Err(files)),
    }
}

/// Appends what becomes of an empty database, and gives it back.
fn in_database<S: Alter + Drop>(
    alloc: Global,
    connection: Connection<S>,
    kind: Kind,
    (said, setup): (&str, &Setup),
    text: &mut String,
) -> Kept<Connection<S>> {
    match kind {
        Kind::Made => made(alloc, connection, said, setup, text),
        Kind::Kept => kept(alloc, connection, said, setup, text),
        Kind::Plays => plays(alloc, connection, said, setup, text),
    }
}

/// Appends what becomes of a database in which statements are run, and gives it back.
fn made<S: Alter + Drop>(
    alloc: Global,
    mut connection: Connection<S>,
    sql: &str,
    setup: &Setup,
    text: &mut String,
) -> Kept<Connection<S>> {
    match run_statements(&mut connection, sql) {
        Ok(()) => push_standing(alloc, connection, setup, text),
        Err(fault) => (Err(fault), connection),
    }
}

/// The same, where before them 2,1 is promised, and a vote of that ballot stands at position 5.
fn kept<S: Alter + Drop>(
    alloc: Global,
    connection: Connection<S>,
    sql: &str,
    setup: &Setup,
    text: &mut String,
) -> Kept<Connection<S>> {
    match voted(alloc, connection) {
        (Ok(()), connection) => made(alloc, connection, sql, setup, text),
        refused => refused,
    }
}

/// The database, in which then 2,1 is promised, and a vote of that ballot stands at position 5.
fn voted<S: Alter + Drop>(alloc: Global, connection: Connection<S>) -> Kept<Connection<S>> {
    let mut answers = String::new(alloc);
    match first_setup(alloc) {
        Ok(setup) => used(alloc, connection, "accept 5 2 1", &setup, &mut answers),
        Err(fault) => (Err(fault), connection),
    }
}

/// Appends the answers to calls, and what stands then, and gives the database back.
fn plays<S: Alter + Drop>(
    alloc: Global,
    connection: Connection<S>,
    calls: &str,
    setup: &Setup,
    text: &mut String,
) -> Kept<Connection<S>> {
    match used(alloc, connection, calls, setup, text) {
        (Ok(()), connection) => push_standing(alloc, connection, setup, text),
        refused => refused,
    }
}
