//! `record_file FILE GROUP MEMBER MEMBERS WHAT ..`: an acceptor's record in a SQLite file, which `bench/kills` and `bench/records` try out. Nothing
//! else stands on it.
//!
//! `votes ROUND FROM COUNT` accepts so many votes, at positions that rise from one on, by the ballot of that round and this member;
//! `promises ROUND COUNT` promises so many ballots of this member, whose rounds rise from one on; `learnt COUNT` keeps so many values as learnt
//! at the next positions. Each prints a line once its write is acknowledged: `vote POSITION`, `promise ROUND` or `learnt POSITION`. `open` opens
//! the record and does no more, `load` prints the promise and how many votes and learnt values stand, and `show` the promise and each of them.
#![tactic(auto)]

mod opening;
mod showing;
mod words;
mod writing;

use acceptor::Acceptor;
use ballots::Setup;
use opening::{Refusal, opened};
use records::Records;
use showing::{load, show};
use sqlite::{Alter, Connection, Error};
use std::io;
use std::process::ExitCode;
use words::{Deed, read_words};
use writing::{keep_all, promise_all, vote_all};

/// Ends with status 0 once all is done, 1 where memory or the output is refused, 2 where the words are others, 3 where the file is not opened
/// as that member's record, and 4 where a write or a load fails or the acceptor does not answer.
fn main(rt: HostRuntime) -> ExitCode {
    match run(&rt) {
        Ok(status) => ExitCode::from(status),
        Err(_) => ExitCode::from(1),
    }
}

/// Does what the words say.
fn run(rt: &HostRuntime) -> io::Result<u8> {
    let words: Vec<String> = std::env::args(rt)?.collect(rt.alloc())?;
    match read_words(rt.alloc(), words.as_slice()) {
        Some((file, setup, deed)) => run_file(rt, file, &setup, deed),
        None => Ok(2),
    }
}

/// Does it with a file, which is made where there is none; its pages then have sums.
fn run_file(rt: &HostRuntime, file: &str, setup: &Setup, deed: Deed) -> io::Result<u8> {
    run_over(rt, Connection::open_with_sums(rt, file), setup, deed)
}

/// Does it with the record over a connection.
fn run_over<S: Alter + Drop>(
    rt: &HostRuntime,
    connection: Result<Connection<S>, Error>,
    setup: &Setup,
    deed: Deed,
) -> io::Result<u8> {
    match opened(rt.alloc(), connection, setup) {
        Ok(records) => run_on(rt, records, deed),
        Err(refusal) => refused(rt, refusal),
    }
}

/// Prints why the file is not opened as that member's record.
fn refused(rt: &HostRuntime, refusal: Refusal) -> io::Result<u8> {
    match refusal {
        Refusal::Connection => println!(rt; "no connection")?,
        Refusal::Fault(number) => println!(rt; "fault {number}")?,
    }
    Ok(3)
}

/// Does it with records.
fn run_on<R: Records + Drop>(rt: &HostRuntime, mut records: R, deed: Deed) -> io::Result<u8> {
    match deed {
        Deed::Open => Ok(0),
        Deed::Load => load(rt, &mut records),
        Deed::Show => show(rt, &mut records),
        Deed::Votes { .. } | Deed::Promises { .. } | Deed::Learnt { .. } => {
            write_on(rt, records, deed)
        }
    }
}

/// Writes to records, as an acceptor.
fn write_on<R: Records + Drop>(rt: &HostRuntime, records: R, deed: Deed) -> io::Result<u8> {
    let mut acceptor = match Acceptor::open(rt.alloc(), records) {
        Ok(acceptor) => acceptor,
        Err(_) => return Ok(4),
    };
    match deed {
        Deed::Votes {
            ballot,
            from,
            count,
        } => vote_all(rt, &mut acceptor, ballot, from, count),
        Deed::Learnt { count } => keep_all(rt, &mut acceptor, count),
        Deed::Promises { ballot, count } => promise_all(rt, &mut acceptor, ballot, count),
        _ => Ok(0),
    }
}
