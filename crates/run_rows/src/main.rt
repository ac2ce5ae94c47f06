//! `run_rows FILE`: prints each row of a file with what comes of it: scripts that are read, what runs of them print, and what
//! calls of states give.
#![tactic(auto)]

mod again;
mod failing;
mod reading;
mod running;
mod states;

use rows::{Answers, RowFault, Words, bytes_of, print_table};
use std::alloc::Global;
use std::io::{BufWriter, Write};
use std::process::ExitCode;
use std::sync::Wait;
use std::{fs, io};

/// Ends with the table's exit status: 1 where a row is not understood, and where the file cannot be read or memory is refused.
fn main(rt: HostRuntime) -> ExitCode {
    match rows_of(&rt) {
        Ok(rows) => match print_rows(&rt, rt.alloc(), rows.as_str(), &mut io::writer(&rt)) {
            Ok(status) => ExitCode::from(status),
            Err(_) => ExitCode::from(1),
        },
        Err(_) => ExitCode::from(1),
    }
}

/// The rows of the file that the first word of the command line names.
fn rows_of(rt: &HostRuntime) -> io::Result<String> {
    let words: Vec<String> = std::env::args(rt)?.collect(rt.alloc())?;
    let name = match words.as_slice() {
        [_, name, ..] => name.as_str(),
        _ => "",
    };
    fs::read_to_string(rt, name)
}

/// Prints each row with its result. Gives the exit status: 0, or 1 where a row is not understood.
fn print_rows<R: Wait, W: Write>(
    rt: &R,
    alloc: Global,
    rows: &str,
    output: &mut W,
) -> io::Result<u8> {
    let mut output = BufWriter::new(alloc, output)?;
    let mut status = 0;
    for row in rows.lines() {
        let mut known = Known {
            result: Some(whole_result(rt, alloc, row)),
        };
        status = status.max(print_table(alloc, &mut known, row, &mut output)?);
    }
    output.flush()?;
    Ok(status)
}

/// The result of a row that was made beforehand, since what answers rows does not wait.
#[derive(Drop)]
struct Known {
    result: Option<Result<String, RowFault>>,
}

impl Answers for Known {
    fn answer(&mut self, _alloc: Global, _row: &str) -> Result<String, RowFault> {
        self.result.take().unwrap_or(Err(RowFault::NotARow))
    }
}

/// The result of a row, all of whose words are understood.
fn whole_result<R: Wait>(rt: &R, alloc: Global, row: &str) -> Result<String, RowFault> {
    let mut words = Words::new(row);
    let result = result_of(rt, alloc, words.plain()?, &mut words)?;
    if words.is_empty() {
        Ok(result)
    } else {
        Err(RowFault::NotARow)
    }
}

/// The result of an operation at the words after its name.
fn result_of<R: Wait>(
    rt: &R,
    alloc: Global,
    name: &str,
    words: &mut Words<'_>,
) -> Result<String, RowFault> {
    match name {
        "state" => states::state(alloc, words),
        "again" => again::again(alloc, words),
        "request" => states::request(alloc, words),
        "prints" => prints(rt, alloc, words),
        "unwritten" => unwritten(rt, alloc, words),
        _ => result_at(rt, alloc, name, &bytes_of(alloc, words)?),
    }
}

/// The result of an operation at these bytes.
fn result_at<R: Wait>(rt: &R, alloc: Global, name: &str, bytes: &[u8]) -> Result<String, RowFault> {
    match name {
        "script" => reading::script(alloc, bytes),
        "run" => running::run(rt, alloc, bytes),
        "unread" => running::unread(rt, alloc, bytes),
        _ => Err(RowFault::NotARow),
    }
}

/// `BYTES gives BYTES`: a run of a script, and whether it prints what is given.
fn prints<R: Wait>(rt: &R, alloc: Global, words: &mut Words<'_>) -> Result<String, RowFault> {
    let script = bytes_of(alloc, words)?;
    let given = bytes_of(alloc, words)?;
    running::prints(rt, alloc, &script, &given)
}

/// `WRITES BYTES`: a run of a script whose output takes so many writes.
fn unwritten<R: Wait>(rt: &R, alloc: Global, words: &mut Words<'_>) -> Result<String, RowFault> {
    let writes = words.number()?;
    let script = bytes_of(alloc, words)?;
    running::unwritten(rt, alloc, writes, &script)
}
