//! A node that serves, and a client of one, over what a row gives.

use super::flooded_wire::FloodedWire;
use super::scripts::each_of;
use super::table_wire::{Datagram, TableWire};
use ballots::{Setup, SetupFault};
use document_names::NamesFault;
use line_parts::read_names;
use node::Node;
use paxq_local::send_line;
use records::MemRecords;
use rows::{RowFault, Words, shown};
use serving::{MOST_BYTES, Server};
use sessions::State;
use std::alloc::{AllocError, Global};
use wires::Wire;

/// A node of a row.
pub(super) type Served<D> = Server<MemRecords, State, D>;

/// A number below 256.
pub(super) fn small(words: &mut Words<'_>) -> Result<u8, RowFault> {
    u8::try_from(words.number()?).ok().ok_or(RowFault::NotARow)
}

/// A number below 2^32.
pub(super) fn word(words: &mut Words<'_>) -> Result<u32, RowFault> {
    u32::try_from(words.number()?).ok().ok_or(RowFault::NotARow)
}

/// A node that has never done anything, over the document `db`.
pub(super) fn opened(
    alloc: Global,
    group: u32,
    member: u8,
    members: u8,
) -> Result<Node<MemRecords, State>, RowFault> {
    let names = match read_names(alloc, "db") {
        Ok(names) => names,
        Err(NamesFault::Memory) => return Err(RowFault::Memory),
        Err(NamesFault::Wrong) => return Err(RowFault::NotARow),
    };
    let setup = match Setup::new(alloc, group, member, members, &names) {
        Ok(setup) => setup,
        Err(SetupFault::Memory) => return Err(RowFault::Memory),
        Err(SetupFault::Numbers) => return Err(RowFault::NotARow),
    };
    match Node::open(alloc, setup, MemRecords::new(alloc)) {
        Ok((node, _)) => Ok(node),
        Err(_) => Err(RowFault::Memory),
    }
}

/// The addresses of so many members: their numbers.
fn numbers(alloc: Global, members: u8) -> Result<Vec<u8>, AllocError> {
    let mut peers = Vec::new(alloc);
    for before in 0..members {
        peers.push(before + 1)?;
    }
    Ok(peers)
}

/// `node GROUP MEMBER MEMBERS TICKS TURNS FROM HEX ..`: what it sends, each in hexadecimal digits after the address that it goes to: a member's number, or
/// what a client's datagram came from.
pub(super) fn node(alloc: Global, words: &mut Words<'_>) -> Result<String, RowFault> {
    let group = word(words)?;
    let member = small(words)?;
    let members = small(words)?;
    let start = start_of(words)?;
    let turns = u64::from(word(words)?);
    let mut wire = TableWire::new(alloc, member);
    wire.bring(words)?;
    let server = server_of(alloc, group, member, members)?;
    if served(alloc, server, &mut wire, start, turns)? {
        sent_text(alloc, wire.sent())
    } else {
        Ok(format!(in alloc; "store failed")?)
    }
}

/// A node at end 0, where the members are at their numbers.
fn server_of(alloc: Global, group: u32, member: u8, members: u8) -> Result<Served<u8>, RowFault> {
    let peers = numbers(alloc, members)?;
    let node = opened(alloc, group, member, members)?;
    Ok(Server::new(alloc, node, 0, peers))
}

/// What a node does before it serves.
#[derive(Clone, Copy, PartialEq, Eq, Debug)]
enum Start {
    /// It begins a ballot.
    Begins,
    /// It is told to lead.
    Leads,
    /// Nothing.
    Waits,
}

/// What it does before it serves.
fn start_of(words: &mut Words<'_>) -> Result<Start, RowFault> {
    match words.plain()? {
        "begins" => Ok(Start::Begins),
        "leads" => Ok(Start::Leads),
        "waits" => Ok(Start::Waits),
        _ => Err(RowFault::NotARow),
    }
}

/// Has a node serve for some turns. Gives whether its store held.
fn served(
    alloc: Global,
    mut server: Served<u8>,
    wire: &mut TableWire,
    start: Start,
    turns: u64,
) -> Result<bool, AllocError> {
    let mut buffer = vec![in alloc; 0u8; MOST_BYTES]?;
    match start {
        Start::Begins => {
            if server.begin(alloc, wire).is_err() {
                return Ok(false);
            }
        }
        Start::Leads => server.lead(),
        Start::Waits => {}
    }
    Ok(server.serve(alloc, wire, &mut buffer, turns).is_ok())
}

/// Datagrams as a text.
fn sent_text(alloc: Global, sent: &[Datagram]) -> Result<String, RowFault> {
    let mut out = String::new(alloc);
    for datagram in sent {
        push_datagram(alloc, &mut out, datagram)?;
    }
    Ok(out)
}

/// Appends a datagram, after a bar where something stands there.
fn push_datagram(alloc: Global, out: &mut String, datagram: &Datagram) -> Result<(), AllocError> {
    if !out.is_empty() {
        out.push_str(" | ")?;
    }
    let peer = datagram.peer;
    out.push_str(format!(in alloc; "{peer} ")?.as_str())?;
    for byte in &datagram.bytes {
        out.push_str(format!(in alloc; "{byte:02x}")?.as_str())?;
    }
    Ok(())
}

/// `send GROUP LINE FROM HEX ..`: the exit status, the output and the error output, how often it was sent, and what was sent first.
pub(super) fn send(alloc: Global, words: &mut Words<'_>) -> Result<String, RowFault> {
    let group = word(words)?;
    let line = words.text(alloc)?;
    let mut wire = TableWire::new(alloc, 0);
    wire.bring(words)?;
    let shown = sent_on(alloc, &mut wire, 1, group, &line)?;
    with_first(alloc, shown, wire.sent())
}

/// `flooded_send GROUP EACH LINE FROM HEX ..`: the same, where a datagram of no bytes comes wherever nothing else does, and a while passes with each so many
/// times that the wire is asked whether one has.
pub(super) fn flooded_send(alloc: Global, words: &mut Words<'_>) -> Result<String, RowFault> {
    let group = word(words)?;
    let each = each_of(words)?;
    let line = words.text(alloc)?;
    let mut quiet = TableWire::new(alloc, 0);
    quiet.bring(words)?;
    let mut wire = FloodedWire::new(quiet, each);
    let shown = sent_on(alloc, &mut wire, 1, group, &line)?;
    with_first(alloc, shown, wire.wire().sent())
}

/// What is printed of a line that is sent over a wire to an address.
pub(super) fn sent_on<W: Wire>(
    alloc: Global,
    wire: &mut W,
    to: W::Address,
    group: u32,
    line: &str,
) -> Result<String, RowFault> {
    let mut output: Vec<u8> = Vec::new(alloc);
    let mut errors: Vec<u8> = Vec::new(alloc);
    let ended = send_line(alloc, wire, group, to, line, &mut output, &mut errors);
    shown(alloc, ended.ok(), &output, &errors)
}

/// The same, with how often it was sent, and what was sent first.
fn with_first(alloc: Global, shown: String, sent: &[Datagram]) -> Result<String, RowFault> {
    let times = sent.len();
    let first = sent_text(alloc, &sent[..times.min(1)])?;
    Ok(format!(in alloc; "{shown} {times} times {first}")?)
}
