//! A node from its configuration's file to its end.

use super::config::{NoConfig, configuration};
use super::service::{End, serve_in_database, serve_over};
use ballots::{Setup, SetupFault};
use configuration::Config;
use program_reports::{cannot_read, no_memory, no_network, store_failed, wrong_config};
use records::MemRecords;
use sessions::State;
use sqlite::{Alter, Connection, Error};
use std::alloc::{AllocFailed, Global};
use std::io::Write;
use std::net::SocketAddr;
use std::time::Duration;
use std::{fs, io};
use wires::{UdpWire, Wire, resolve};

/// How many milliseconds a node waits for a datagram before it ticks.
const WHILE: u64 = 100;

/// Why a node does not serve.
#[derive(Clone, Copy, PartialEq, Eq, Debug)]
enum Refusal {
    Memory,
    Network,
}

impl<T: Drop> From<AllocFailed<T>> for Refusal {
    fn from(_refused: AllocFailed<T>) -> Refusal {
        Refusal::Memory
    }
}

/// Serves as the node that the configuration in the file of that name describes, for so many turns (without a number it goes on), reports to standard
/// error, and answers the exit status: 0 after its turns; 1 where the file cannot be read or is no configuration; 4 where memory is refused before it
/// serves, where an address cannot be resolved or its own cannot be bound, where its records are refused, or where their store fails.
///
/// # Errors
///
/// Standard error could not be written, or the system refused something that has no report.
pub fn node_file(rt: &HostRuntime, file: &str, turns: Option<u32>) -> io::Result<u8> {
    let turns = turns.map_or(u64::MAX, u64::from);
    run_node(rt, file, turns, &mut rt.stderr())
}

/// Serves as the node that the configuration in a file describes, for so many turns, and answers the exit status.
fn run_node<E: Write>(rt: &HostRuntime, file: &str, turns: u64, errors: &mut E) -> io::Result<u8> {
    let alloc: Global = rt.alloc();
    let read = match fs::open(rt, file) {
        Ok(mut opened) => configuration(alloc, &mut opened),
        Err(error) if error.kind() == io::ErrorKind::OutOfMemory => Err(NoConfig::Memory),
        Err(_) => Err(NoConfig::Unreadable),
    };
    match read {
        Ok(config) => report(run_config(rt, config, turns), errors),
        Err(NoConfig::Unreadable) => cannot_read(alloc, file, errors),
        Err(NoConfig::Wrong) => wrong_config(errors),
        Err(NoConfig::Memory) => no_memory(errors),
    }
}

/// Reports how a service ended, and gives the exit status.
fn report<E: Write>(ended: Result<End, Refusal>, errors: &mut E) -> io::Result<u8> {
    match ended {
        Ok(End::Done) => Ok(0),
        Ok(End::Store) => store_failed(errors),
        Ok(End::Memory) | Err(Refusal::Memory) => no_memory(errors),
        Err(Refusal::Network) => no_network(errors),
    }
}

/// Serves as a configuration says.
fn run_config(rt: &HostRuntime, config: Config, turns: u64) -> Result<End, Refusal> {
    let alloc: Global = rt.alloc();
    let peers = resolve_all(rt, &config.members)?;
    let setup = setup_of(alloc, &config)?;
    let own = own_address(&peers, config.member)?;
    let Ok(mut wire) = UdpWire::open(alloc, rt, rt, &[own], Duration::from_millis(WHILE)) else {
        return Err(Refusal::Network);
    };
    Ok(run_at(rt, &config, setup, &mut wire, peers, turns))
}

/// The addresses of all members, each resolved once.
fn resolve_all(rt: &HostRuntime, members: &[String]) -> Result<Vec<SocketAddr>, Refusal> {
    let mut peers = Vec::new(rt.alloc());
    for member in members {
        let Some(address) = resolve(rt, member.as_str()) else {
            return Err(Refusal::Network);
        };
        peers.push(address)?;
    }
    Ok(peers)
}

/// What a node is told when it is set up. A configuration's numbers are in range.
fn setup_of(alloc: Global, config: &Config) -> Result<Setup, Refusal> {
    let Ok(members) = u8::try_from(config.members.len()) else {
        return Err(Refusal::Memory);
    };
    match Setup::new(alloc, config.group, config.member, members, &config.docs) {
        Ok(setup) => Ok(setup),
        Err(SetupFault::Memory | SetupFault::Numbers) => Err(Refusal::Memory),
    }
}

/// The address of a member, of which there is one for each.
fn own_address(peers: &[SocketAddr], member: u8) -> Result<SocketAddr, Refusal> {
    match peers.get(usize::from(member.saturating_sub(1))) {
        Some(own) => Ok(*own),
        None => Err(Refusal::Network),
    }
}

/// Serves over a wire, with the records in their file or in memory.
fn run_at<W: Wire>(
    rt: &HostRuntime,
    config: &Config,
    setup: Setup,
    wire: &mut W,
    peers: Vec<W::Address>,
    turns: u64,
) -> End {
    let alloc: Global = rt.alloc();
    match &config.records {
        None => {
            let records = MemRecords::new(alloc);
            serve_over::<MemRecords, State, W>(
                alloc,
                setup,
                records,
                wire,
                peers,
                config.begin,
                turns,
            )
        }
        Some(path) => {
            let connection = Connection::open_with_sums(rt, path.as_str());
            run_over(alloc, connection, setup, wire, peers, config.begin, turns)
        }
    }
}

/// Serves with the records of a database.
fn run_over<S: Alter + Drop, W: Wire>(
    alloc: Global,
    connection: Result<Connection<S>, Error>,
    setup: Setup,
    wire: &mut W,
    peers: Vec<W::Address>,
    leads: bool,
    turns: u64,
) -> End {
    let Ok(connection) = connection else {
        return End::Store;
    };
    serve_in_database::<S, State, W>(alloc, setup, connection, wire, peers, leads, turns)
}
