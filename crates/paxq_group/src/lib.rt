//! `paxq local` and `paxq send`: files, sockets and standard streams for what `paxq_local` runs over any wire.
#![tactic(auto)]

use paxq_local::{run_local, send_line};
use program_reports::{cannot_read, no_network};
use sessions::State;
use std::io::{BufWriter, Write};
use std::time::Duration;
use std::{fs, io};
use wires::{UdpWire, Wire, end_towards, loopback, resolve};

/// How many milliseconds a client waits for an answer before it asks again.
const TRY: u64 = 50;

/// Runs the script in a file on a group of so many members, each at a socket of its own.
pub fn local_file(rt: &HostRuntime, members: u8, script: &str) -> io::Result<u8> {
    let ends = vec![in rt.alloc(); loopback(); usize::from(members) + 1]?;
    match UdpWire::open(rt.alloc(), rt, rt, &ends, Duration::from_millis(TRY)) {
        Ok(mut wire) => local_over(rt, members, &mut wire, script),
        Err(error) if error.kind() == io::ErrorKind::OutOfMemory => Err(error),
        Err(_) => no_network(&mut rt.stderr()),
    }
}

/// Runs the script in a file on a group of so many members over a wire.
fn local_over<W: Wire>(
    rt: &HostRuntime,
    members: u8,
    wire: &mut W,
    script: &str,
) -> io::Result<u8> {
    let mut output = BufWriter::new(rt.alloc(), io::writer(rt))?;
    let mut errors = rt.stderr();
    let status = match fs::open(rt, script) {
        Ok(mut file) => run_local::<State, _, _, _, _>(
            rt.alloc(),
            members,
            wire,
            script,
            &mut file,
            &mut output,
            &mut errors,
        )?,
        Err(error) if error.kind() == io::ErrorKind::OutOfMemory => return Err(error),
        Err(_) => cannot_read(rt.alloc(), script, &mut errors)?,
    };
    output.flush()?;
    Ok(status)
}

/// Sends a line to the node at an address.
pub fn send(rt: &HostRuntime, group: u32, address: &str, line: &str) -> io::Result<u8> {
    let Some(to) = resolve(rt, address) else {
        return no_network(&mut rt.stderr());
    };
    match UdpWire::open(
        rt.alloc(),
        rt,
        rt,
        &[end_towards(to)],
        Duration::from_millis(TRY),
    ) {
        Ok(mut wire) => send_over(rt, &mut wire, group, to, line),
        Err(error) if error.kind() == io::ErrorKind::OutOfMemory => Err(error),
        Err(_) => no_network(&mut rt.stderr()),
    }
}

/// Sends a line to the node at an address, over a wire.
fn send_over<W: Wire>(
    rt: &HostRuntime,
    wire: &mut W,
    group: u32,
    to: W::Address,
    line: &str,
) -> io::Result<u8> {
    let mut output = BufWriter::new(rt.alloc(), io::writer(rt))?;
    let status = send_line(
        rt.alloc(),
        wire,
        group,
        to,
        line,
        &mut output,
        &mut rt.stderr(),
    )?;
    output.flush()?;
    Ok(status)
}
