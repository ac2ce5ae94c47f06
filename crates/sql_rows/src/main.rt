//! `sql_rows FILE`: prints what becomes of an acceptor's record in a database.
//!
//! Rows: `made SQL GROUP MEMBER MEMBERS`, where the statements are run in an empty database in memory, which is then opened as that member's;
//! `kept SQL GROUP MEMBER MEMBERS`, so for the database of member 1 of 3 of group 7, which has promised 2,1 and voted at position 5; and
//! `plays CALLS`, the answers of an acceptor over new records to calls that stand each in a line of its own, and what stands when its
//! connection is opened again. `file NAME plays CALLS` and `file NAME run SQL GROUP MEMBER MEMBERS`: the same over a real file of that name,
//! which is made where there is none, closed after each call and after the statements, and opened again.
//!
//! `again NAME CALLS`: the answers over a new file of that name that is made a record of version 1, and closed after that and after each call;
//! where memory is refused as its records are opened, they are opened again, as in each of these rows.
//!
//! `fuse log COUNT` and `fuse database COUNT`: a promise and a vote over files in memory of which one fails after so many calls, and what is
//! found then, once with all that was written and once without what was not synced; further words are an acceptor's calls in the place of
//! these two. `first log COUNT CALLS` and `first database COUNT CALLS`: the same over a record of version 1. `node log COUNT CALLS` and
//! `node database COUNT CALLS`: the same with calls of a node, each in a line of its own (`nodes`), which is opened again over its records
//! after them; `staged log COUNT CALLS` and `staged database COUNT CALLS` where its records hold back what is written. Its application counts
//! what is applied.
//!
//! `cut log BYTES` and `cut database BYTES`, `changed log AT` and `changed database AT`: what is found where a file is cut after
//! so many bytes, or the byte at an offset is another one; the database then has its log copied into it, and no log.
//!
//! What is generic here is proved once, over any disk; the two kinds of disk, in memory and of the system, are named by one function each.
#![tactic(auto)]

mod calls;
mod counting;
mod disks;
mod files;
mod memory;
mod nodes;
mod opening;
mod results;
mod using;

use counting::Count;
use disks::in_memory;
use failing_disks::Watched;
use files::{in_file, in_first};
use rows::{Answers, RowFault, Words, run_table};
use sqlite_disk::{Fuse, Memory};
use std::alloc::Global;
use std::process::ExitCode;

/// Ends with the table's exit status: 1 where a row is not understood, and where the file cannot be read or memory is refused, also to a disk in
/// memory: the rows end there.
fn main(rt: HostRuntime) -> ExitCode {
    match run_table(&rt, &mut DatabaseRows { rt: &rt }) {
        Ok(status) => ExitCode::from(status),
        Err(_) => ExitCode::from(1),
    }
}

/// The rows on databases.
#[derive(Drop)]
struct DatabaseRows<'a> {
    rt: &'a HostRuntime,
}

impl Answers for DatabaseRows<'_> {
    fn answer(&mut self, alloc: Global, row: &str) -> Result<String, RowFault> {
        let mut words = Words::new(row);
        match words.plain()? {
            "file" => in_file(self.rt, words),
            "again" => in_first(self.rt, words),
            kind => in_memory::<Fuse<Watched<Memory>>, Count>(alloc, kind, words),
        }
    }
}
