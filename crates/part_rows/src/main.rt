//! `part_rows FILE`: prints what comes of calls of a member's parts, each by itself.
//!
//! A row is the word of a part and calls of it, with ` ; ` between two of them; what each gives stands between the same marks. Where a call is refused
//! memory, it is made again. The calls stand at the head of the part's file: `map` (maps.rt), `learner`, `ran` and `resumed` (learners.rt), `proposer`
//! (proposers.rt), `acceptor` and `failing` (acceptors.rt), `record` (kept.rt). Rows of ballots and of what messages are made of have no calls (values.rt). Ballots,
//! and the values of those last rows, stand in the words of `message_words`.
#![tactic(auto)]

mod acceptors;
mod kept;
mod learners;
mod maps;
mod playing;
mod proposers;
mod reading;
mod values;

use rows::{Answers, RowFault, Words, run_table};
use std::alloc::Global;
use std::process::ExitCode;

/// Ends with the table's exit status: 1 where a row is not understood, and where the file cannot be read or memory is refused.
fn main(rt: HostRuntime) -> ExitCode {
    match run_table(&rt, &mut PartRows) {
        Ok(status) => ExitCode::from(status),
        Err(_) => ExitCode::from(1),
    }
}

/// The rows on a member's parts.
#[derive(Drop)]
struct PartRows;

impl Answers for PartRows {
    fn answer(&mut self, alloc: Global, row: &str) -> Result<String, RowFault> {
        let mut words = Words::new(row);
        match words.plain()? {
            "map" => maps::row(alloc, &words),
            "learner" => learners::row(alloc, &mut words),
            "ran" => learners::row_run(alloc, &mut words),
            "resumed" => learners::row_resumed(alloc, &mut words),
            "proposer" => proposers::row(alloc, &words),
            "acceptor" => acceptors::row(alloc, &words),
            "failing" => acceptors::row_failing(alloc, &mut words),
            "record" => kept::row(alloc, &words),
            word => values::row(alloc, word, &mut words),
        }
    }
}
