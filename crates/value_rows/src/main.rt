//! `value_rows FILE`: prints each row of a file with what `values` makes of it: truths, comparisons, arithmetic, readings, texts and codes.
#![tactic(auto)]

mod items;
mod pairs;
mod texts;

use rows::{Answers, RowFault, Words, run_table};
use std::alloc::Global;
use std::process::ExitCode;

/// Ends with the table's exit status: 1 where a row is not understood, and where the file cannot be read or memory is refused.
fn main(rt: HostRuntime) -> ExitCode {
    match run_table(&rt, &mut ValueRows) {
        Ok(status) => ExitCode::from(status),
        Err(_) => ExitCode::from(1),
    }
}

/// The rows on values.
#[derive(Drop)]
struct ValueRows;

impl Answers for ValueRows {
    fn answer(&mut self, alloc: Global, row: &str) -> Result<String, RowFault> {
        let mut words = Words::new(row);
        let result = result_of(alloc, &mut words)?;
        if words.is_empty() {
            Ok(result)
        } else {
            Err(RowFault::NotARow)
        }
    }
}

/// The result of a row.
fn result_of(alloc: Global, words: &mut Words<'_>) -> Result<String, RowFault> {
    match words.plain()? {
        "truth" => items::truth_of(alloc, words),
        "print" => items::printed(alloc, words),
        "within" => items::limited(alloc, words),
        "integer" => texts::integer(alloc, words),
        "boolean" => texts::boolean(alloc, words),
        "code" => texts::code(alloc, words),
        operation => pairs::result_of(alloc, operation, words),
    }
}
