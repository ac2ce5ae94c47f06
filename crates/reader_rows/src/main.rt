//! `reader_rows FILE`: prints what readers see of a site while it takes requests.
//!
//! A row is `site READERS BEFORE CALL ..`: a site with so many readers over the only node of a group, which leads, has the document `db`, its record in
//! memory, and has taken as many requests before, each `insert node element e {} into doc("db")`. Calls of the site: `submit TEXT` and `submits N TEXT
//! TEXT` (the request's number, from 1, stands between the texts) have it take requests, as the datagrams that clients send; `publish` shows what is
//! pending, `publishes N EVERY TEXT TEXT` takes requests as `submits` does and publishes after every so many, `board` takes a board, and `state` says how
//! much it has applied and learnt, and how much is published.
//!
//! Calls of a reader, by its number: `tell READER` has it learn a note of the last board, `seen READER` says how much it has seen, `ask READER TEXT` asks
//! it, and `serve READER N TEXT ..` asks it so many questions in turn. `again TEXT` asks each reader, again where memory is refused. `turns TEXT` asks readers 1 and 2 one after the other, and says whether reader 1 could
//! wait for reader 2 after its answer.
//!
//! Calls of readers in threads of their own: `meet TEXT` is `turns` in two threads. `watch N EVERY TEXT TEXT TEXT` has all readers ask the last text while the
//! site takes requests and publishes them, as `publishes` does. `asks N TEXT` has each reader answer so many times, and `busy RATE N TEXT TEXT TEXT`
//! while the site takes so many requests a second, and publishes each.
//!
//! After `close`, which ends the site, there are calls of single readers, and `turns`.
#![tactic(auto)]

mod asking;
mod calls;
mod meeting;
mod rounds;
mod sites;
mod submitting;
mod watching;

use rows::{Answers, RowFault, Words, print_table};
use std::alloc::Global;
use std::io::{BufWriter, Write};
use std::process::ExitCode;
use std::sync::Wait;
use std::thread::Threads;
use std::time::Clock;
use std::{fs, io};

/// Ends with status 1 where a row is not understood, and where the file cannot be read or memory is refused.
fn main(rt: HostRuntime) -> ExitCode {
    match rows_of(&rt) {
        Ok(rows) => match print_rows(&rt, rt.alloc(), rows.as_str(), &mut io::writer(&rt)) {
            Ok(status) => ExitCode::from(status),
            Err(_) => ExitCode::from(1),
        },
        Err(_) => ExitCode::from(1),
    }
}

/// The rows of the file that the first word of the command line names.
fn rows_of(rt: &HostRuntime) -> io::Result<String> {
    let words: Vec<String> = std::env::args(rt)?.collect(rt.alloc())?;
    let name = match words.as_slice() {
        [_, name, ..] => name.as_str(),
        _ => "",
    };
    fs::read_to_string(rt, name)
}

/// Prints each row with its result. Gives the exit status: 0, or 1 where a row is not understood.
fn print_rows<R: Threads + Wait + Sync + Clock, W: Write>(
    rt: &R,
    alloc: Global,
    rows: &str,
    output: &mut W,
) -> io::Result<u8> {
    let mut output = BufWriter::new(alloc, output)?;
    let mut status = 0;
    for row in rows.lines() {
        let mut known = Known {
            result: Some(result_of(rt, alloc, row)),
        };
        status = status.max(print_table(alloc, &mut known, row, &mut output)?);
    }
    output.flush()?;
    Ok(status)
}

/// The result of a row. Faults: `NotARow` where the row is not understood, and `Memory`.
fn result_of<R: Threads + Wait + Sync + Clock>(
    rt: &R,
    alloc: Global,
    row: &str,
) -> Result<String, RowFault> {
    let mut words = Words::new(row);
    match words.plain()? {
        "site" => sites::called(rt, alloc, &mut words),
        _ => Err(RowFault::NotARow),
    }
}

/// A row's result, which is known before the row is printed: what is found by threads cannot be found by [`Answers::answer`], which has no handle.
#[derive(Drop)]
struct Known {
    result: Option<Result<String, RowFault>>,
}

impl Answers for Known {
    fn answer(&mut self, _alloc: Global, _row: &str) -> Result<String, RowFault> {
        self.result.take().unwrap_or(Err(RowFault::NotARow))
    }
}
