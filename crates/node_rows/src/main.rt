//! `node_rows FILE`: prints what comes of calls of a node, from received bytes to sent bytes.
//!
//! A row is `node GROUP MEMBER MEMBERS CALLS`, with ` ; ` between two calls: a node with the document `db`, whose record is in memory and holds back what is written
//! until `flush`, one write of its store; or `failing NUMBER LEFT GROUP MEMBER MEMBERS CALLS`, where the store fails in its write of that number, and leaves what it
//! was to write (1) or not (0). `crash` drops the node and opens it over what its store was left with, and gives how many writes that had.
//!
//! `receive GROUP SENDER MESSAGE` hands it a message, in the words of `message_words`; `bytes HEX` hands it bytes that are none, or none that it may hear (`-` is no byte);
//! `begin`, `resend`, `catchup` and `keep` tick it. They give what it sends, each datagram in those words after whom it goes to, or a fault's number; `taken HEX` says
//! whether it takes bytes. `turn` hands it all that it has sent to itself, until that is nothing, and gives how many messages that were. `answer FLOOR TEXT` asks it, `kept`
//! says how many learnt values its record keeps, and `seen` how much it has applied and learnt.
#![tactic(auto)]

mod calls;
mod datagrams;
mod printing;

use rows::{Answers, RowFault, Words, run_table};
use std::alloc::Global;
use std::process::ExitCode;

/// Ends with the table's exit status: 1 where a row is not understood, and where the file cannot be read or memory is refused.
fn main(rt: HostRuntime) -> ExitCode {
    match run_table(&rt, &mut NodeRows) {
        Ok(status) => ExitCode::from(status),
        Err(_) => ExitCode::from(1),
    }
}

/// The rows on nodes.
#[derive(Drop)]
struct NodeRows;

impl Answers for NodeRows {
    fn answer(&mut self, alloc: Global, row: &str) -> Result<String, RowFault> {
        let mut words = Words::new(row);
        match words.plain()? {
            "node" => calls::called(alloc, &mut words),
            "failing" => calls::called_failing(alloc, &mut words),
            _ => Err(RowFault::NotARow),
        }
    }
}
