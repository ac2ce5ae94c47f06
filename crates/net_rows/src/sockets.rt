//! Groups and clients over sockets of this machine. Both ends are in this program, so what is sent waits at the other end.

use super::nodes::{Served, opened, sent_on, word};
use super::scripts::{members_of, run_on};
use ballots::RequestId;
use clients::{question, request};
use paxq_files::{Command, read_command};
use rows::{RowFault, Words, bytes_of};
use serving::{MOST_BYTES, Server};
use std::alloc::Global;
use std::net::SocketAddr;
use std::time::Duration;
use wires::{UdpWire, Wire, loopback, resolve};

/// How many turns a node serves for one line: its datagram, and what it sends to itself.
const TURNS: u64 = 10;

/// Sockets of this machine, so many, of which a wire waits 50 milliseconds at the first.
fn opened_wire(rt: &HostRuntime, ends: usize) -> Result<UdpWire<&HostRuntime>, RowFault> {
    let addresses: Vec<SocketAddr> = vec![in rt.alloc(); loopback(); ends]?;
    wire_at(rt, &addresses)
}

/// Sockets at those addresses.
fn wire_at<'a>(
    rt: &'a HostRuntime,
    addresses: &[SocketAddr],
) -> Result<UdpWire<&'a HostRuntime>, RowFault> {
    match UdpWire::open(rt.alloc(), rt, rt, addresses, Duration::from_millis(50)) {
        Ok(wire) => Ok(wire),
        Err(_) => Err(RowFault::NotARow),
    }
}

/// `local N BYTES`: the exit status, the output and the error output of a script.
pub(super) fn local(rt: &HostRuntime, words: &mut Words<'_>) -> Result<String, RowFault> {
    let members = members_of(words)?;
    let script = bytes_of(rt.alloc(), words)?;
    let mut wire = opened_wire(rt, usize::from(members) + 1)?;
    run_on(rt.alloc(), members, &mut wire, &script).shown(rt.alloc())
}

/// `udp GROUP LINE`: the exit status, the output and the error output of a line that is sent to the only node of a group, which has its datagram
/// before and has answered it.
pub(super) fn udp(rt: &HostRuntime, words: &mut Words<'_>) -> Result<String, RowFault> {
    let group = word(words)?;
    let line = words.text(rt.alloc())?;
    let mut there = opened_wire(rt, 1)?;
    let mut here = opened_wire(rt, 1)?;
    between(rt.alloc(), group, &line, &mut there, &mut here)
}

/// What is printed of a line that is sent from one wire to a node at another.
fn between<W: Wire<Address = SocketAddr>>(
    alloc: Global,
    group: u32,
    line: &str,
    there: &mut W,
    here: &mut W,
) -> Result<String, RowFault> {
    let to = there.address(0).ok_or(RowFault::NotARow)?;
    post(alloc, group, line, here, to)?;
    let server = server_at(alloc, group, to)?;
    served(alloc, server, there)?;
    sent_on(alloc, here, to, group, line)
}

/// Sends the datagram of a line.
fn post<W: Wire<Address = SocketAddr>>(
    alloc: Global,
    group: u32,
    line: &str,
    wire: &mut W,
    to: SocketAddr,
) -> Result<(), RowFault> {
    let bytes = datagram_of(alloc, group, line)?;
    wire.send(0, to, &bytes).map_err(|_| RowFault::NotARow)
}

/// The only node of a group, at an address.
fn server_at(alloc: Global, group: u32, at: SocketAddr) -> Result<Served<SocketAddr>, RowFault> {
    let mut peers = Vec::new(alloc);
    peers.push(at)?;
    let node = opened(alloc, group, 1, 1)?;
    Ok(Server::new(alloc, node, 0, peers))
}

/// The datagram of a line, as `send_line` sends it.
fn datagram_of(alloc: Global, group: u32, line: &str) -> Result<Vec<u8>, RowFault> {
    let id = RequestId {
        client: 0,
        number: 0,
    };
    let asked = match read_command(alloc, line)? {
        Some(Command::Submit(asked)) => Some(request(alloc, group, asked)?),
        Some(Command::Ask(level, text)) => question(alloc, group, id, 0, level, text.as_str())?,
        Some(Command::AskAt(level, floor, text)) => {
            question(alloc, group, id, floor, level, text.as_str())?
        }
        None => None,
    };
    asked.ok_or(RowFault::NotARow)
}

/// Has a node begin and serve what waits for it.
fn served<W: Wire<Address = SocketAddr>>(
    alloc: Global,
    mut server: Served<SocketAddr>,
    wire: &mut W,
) -> Result<(), RowFault> {
    let mut buffer = vec![in alloc; 0u8; MOST_BYTES]?;
    if server.begin(alloc, wire).is_err() {
        return Err(RowFault::NotARow);
    }
    match server.serve(alloc, wire, &mut buffer, TURNS) {
        Ok(_) => Ok(()),
        Err(_) => Err(RowFault::NotARow),
    }
}

/// `taken`: whether a second socket is opened at an address.
pub(super) fn taken(rt: &HostRuntime) -> Result<String, RowFault> {
    let alloc = rt.alloc();
    let wire = opened_wire(rt, 1)?;
    let addresses = [wire.address(0).ok_or(RowFault::NotARow)?];
    Ok(match wire_at(rt, &addresses) {
        Ok(_) => format!(in alloc; "opened")?,
        Err(_) => format!(in alloc; "refused")?,
    })
}

/// `named TEXT`: whether it names an address of this machine, or another, or none.
pub(super) fn named(rt: &HostRuntime, words: &mut Words<'_>) -> Result<String, RowFault> {
    let alloc = rt.alloc();
    let text = words.text(alloc)?;
    Ok(match resolve(rt, &text) {
        Some(address) if address.ip().is_loopback() => format!(in alloc; "this machine")?,
        Some(_) => format!(in alloc; "another")?,
        None => format!(in alloc; "none")?,
    })
}
