//! `net_rows FILE`: prints what groups and clients do over wires, of sockets and in memory.
//!
//! Scripts on a group of N members: `local N BYTES` over sockets, and in memory `scripted N BYTES`, `prints N BYTES gives BYTES`, `failing N BYTES` (each
//! send and each receive fails in turn), `unsent N BYTES` (all sends fail), `unheard N BYTES` (all receives do), `forged N FROM HEX BYTES` (a datagram
//! that nobody sent comes to the client first), `hurried N EACH BYTES` (a while passes with each so many times that the wire is asked whether one has),
//! `flooded N EACH BYTES` (something comes to the client at once wherever nothing else does) and `drowned N EACH BYTES` (all sends fail too). Lines to
//! one node: `send GROUP LINE FROM HEX ..` and `flooded_send GROUP EACH LINE FROM HEX ..` are given what comes, and `udp GROUP LINE` has a node over
//! sockets. `node GROUP MEMBER MEMBERS START TURNS FROM HEX ..` is a node that begins (`begins`), is told to lead (`leads`) or neither
//! (`waits`), and serves for some turns: it is given what comes, and gives what it sends. `taken` opens a second socket at an address, and `named TEXT` resolves one.
#![tactic(auto)]

mod flooded_wire;
mod nodes;
mod scripts;
mod sockets;
mod table_wire;

use rows::{Answers, RowFault, Words, run_table};
use std::alloc::Global;
use std::process::ExitCode;

/// Ends with the table's exit status: 1 where a row is not understood, and where the file cannot be read or memory is refused.
fn main(rt: HostRuntime) -> ExitCode {
    match run_table(&rt, &mut NetRows { rt: &rt }) {
        Ok(status) => ExitCode::from(status),
        Err(_) => ExitCode::from(1),
    }
}

/// The rows on wires.
#[derive(Drop)]
struct NetRows<'a> {
    rt: &'a HostRuntime,
}

impl Answers for NetRows<'_> {
    fn answer(&mut self, alloc: Global, row: &str) -> Result<String, RowFault> {
        let mut words = Words::new(row);
        match words.plain()? {
            "local" => sockets::local(self.rt, &mut words),
            "udp" => sockets::udp(self.rt, &mut words),
            "taken" => sockets::taken(self.rt),
            "named" => sockets::named(self.rt, &mut words),
            name => scripted(alloc, name, &mut words),
        }
    }
}

/// The result of a row in memory.
fn scripted(alloc: Global, name: &str, words: &mut Words<'_>) -> Result<String, RowFault> {
    match name {
        "scripted" => scripts::scripted(alloc, words),
        "prints" => scripts::prints(alloc, words),
        "failing" => scripts::failing(alloc, words),
        "unsent" => scripts::unsent(alloc, words),
        "unheard" => scripts::unheard(alloc, words),
        "forged" => scripts::forged(alloc, words),
        "hurried" => scripts::hurried(alloc, words),
        "flooded" => scripts::flooded(alloc, words),
        "drowned" => scripts::drowned(alloc, words),
        "send" => nodes::send(alloc, words),
        "flooded_send" => nodes::flooded_send(alloc, words),
        "node" => nodes::node(alloc, words),
        _ => Err(RowFault::NotARow),
    }
}
