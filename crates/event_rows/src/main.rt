//! `event_rows FILE`: prints each row of a file with what comes of it: event files that are read, what their simulations print, and
//! what members answer after them.
#![tactic(auto)]

mod again;
mod asking;
mod going;
mod reading;
mod running;
mod simulating;
mod splitting;

use rows::{Answers, RowFault, Words, bytes_of, run_table};
use sessions::State;
use std::alloc::Global;
use std::process::ExitCode;

/// Ends with the table's exit status: 1 where a row is not understood, and where the file cannot be read or memory is refused.
fn main(rt: HostRuntime) -> ExitCode {
    match run_table(&rt, &mut EventRows) {
        Ok(status) => ExitCode::from(status),
        Err(_) => ExitCode::from(1),
    }
}

/// The rows on event files.
#[derive(Drop)]
struct EventRows;

impl Answers for EventRows {
    fn answer(&mut self, alloc: Global, row: &str) -> Result<String, RowFault> {
        let mut words = Words::new(row);
        let result = result_of(alloc, words.plain()?, &mut words)?;
        if words.is_empty() {
            Ok(result)
        } else {
            Err(RowFault::NotARow)
        }
    }
}

/// The result of an operation at the words after its name.
fn result_of(alloc: Global, name: &str, words: &mut Words<'_>) -> Result<String, RowFault> {
    match name {
        "events" => reading::events(alloc, &bytes_of(alloc, words)?),
        "sim" => simulating::sim::<State>(alloc, &bytes_of(alloc, words)?),
        "again" => again::again::<State>(alloc, &bytes_of(alloc, words)?),
        "replies" => again::replies::<State>(alloc, &bytes_of(alloc, words)?),
        "goes" => going::goes::<State>(alloc, &bytes_of(alloc, words)?),
        "asks" => asks(alloc, words),
        "straight" => running::straight::<State>(alloc, words.number()?, words.number()?),
        "runs" => runs(alloc, words),
        "group" => group(alloc, words),
        _ => Err(RowFault::NotARow),
    }
}

/// `FLOOR TEXT BYTES`: what each member answers to a question after an event file.
fn asks(alloc: Global, words: &mut Words<'_>) -> Result<String, RowFault> {
    let floor = u32::try_from(words.number()?)
        .ok()
        .ok_or(RowFault::NotARow)?;
    let text = words.text(alloc)?;
    let bytes = bytes_of(alloc, words)?;
    asking::asks::<State>(alloc, floor, &text, &bytes)
}

/// `MEMBERS FIRST BYTES`: what comes of the events of a file to so many members, of so many of them first, and then of the others.
fn group(alloc: Global, words: &mut Words<'_>) -> Result<String, RowFault> {
    let members = words.number()?;
    let first = words.number()?;
    let bytes = bytes_of(alloc, words)?;
    splitting::group(alloc, members, first, &bytes)
}

/// `MEMBERS BYTES`: what comes of all events of a file, in one list, to so many members.
fn runs(alloc: Global, words: &mut Words<'_>) -> Result<String, RowFault> {
    let members = words.number()?;
    let bytes = bytes_of(alloc, words)?;
    running::runs::<State>(alloc, members, &bytes)
}
