//! Tables: each row of a file is printed with its result.

use super::fault::RowFault;
use std::alloc::Global;
use std::io::{BufWriter, Write};
use std::{fs, io};

/// What knows the results of rows.
pub trait Answers {
    /// The result of a row. Faults: `NotARow` where the row is not understood, and `Memory`.
    fn answer(&mut self, alloc: Global, row: &str) -> Result<String, RowFault>;
}

/// Prints the table of the file that the first word of the command line names. Gives the exit status: 0, or 1 where a row is not
/// understood. Errors: those of the file, of the output and of memory.
pub fn run_table<A: Answers>(rt: &HostRuntime, answers: &mut A) -> io::Result<u8> {
    let words: Vec<String> = std::env::args(rt)?.collect(rt.alloc())?;
    let name = match words.as_slice() {
        [_, name, ..] => name.as_str(),
        _ => "",
    };
    let rows = fs::read_to_string(rt, name)?;
    let mut output = BufWriter::new(rt.alloc(), io::writer(rt))?;
    let status = print_table(rt.alloc(), answers, rows.as_str(), &mut output)?;
    output.flush()?;
    Ok(status)
}

/// Prints each of the rows with its result. Gives the exit status: 0, or 1 where a row is not understood. Errors: those of the output,
/// and of memory.
pub fn print_table<A: Answers, W: Write>(
    alloc: Global,
    answers: &mut A,
    rows: &str,
    output: &mut W,
) -> io::Result<u8> {
    let mut status = 0;
    for row in rows.lines() {
        if !print_row(alloc, answers, row, output)? {
            status = 1;
        }
    }
    Ok(status)
}

/// Prints a row with its result, and an empty one or a comment, which begins with `#`, as it is. Gives whether the row is understood.
fn print_row<A: Answers, W: Write>(
    alloc: Global,
    answers: &mut A,
    row: &str,
    output: &mut W,
) -> io::Result<bool> {
    if row.is_empty() || row.starts_with("#") {
        writeln!(output, "{row}")?;
        return Ok(true);
    }
    match answers.answer(alloc, row) {
        Ok(result) => {
            writeln!(output, "{row} -> {result}")?;
            Ok(true)
        }
        Err(RowFault::NotARow) => {
            writeln!(output, "{row} -> not a row")?;
            Ok(false)
        }
        Err(RowFault::Memory) => Err(io::Error::from(io::ErrorKind::OutOfMemory)),
    }
}
