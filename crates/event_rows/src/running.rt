//! Runs of a group whose records never fail.

use super::asking::shown;
use applications::Application;
use ballots::{Members, Request};
use document_names::Names;
use event_files::{Command, EventFile, EventFileFault, read_event_file};
use events::Event;
use line_parts::read_names;
use records::MemRecords;
use rows::RowFault;
use std::alloc::{AllocError, Global};
use world::{World, WorldFault};

/// The request of a straight run.
const INSERT: &str = "insert node element a {} into doc(\"db\")";

/// So many members, to which nothing has happened, over these documents.
fn opened<A: Application + Drop>(
    alloc: Global,
    members: u64,
    names: &Names,
) -> Result<World<MemRecords, A>, RowFault> {
    let members = u8::try_from(members).ok().and_then(Members::new);
    let members = members.ok_or(RowFault::NotARow)?;
    World::in_memory(alloc, members, names).map_err(|_| RowFault::Memory)
}

/// `straight MEMBERS MEMBER`: how many deliveries a straight run of that member took, and what came of it; or why it was not made.
pub(super) fn straight<A: Application + Drop>(
    alloc: Global,
    members: u64,
    member: u64,
) -> Result<String, RowFault> {
    let names = read_names(alloc, "db").map_err(|_| RowFault::Memory)?;
    let mut world = opened::<A>(alloc, members, &names)?;
    straight_in(alloc, &mut world, member)
}

/// The same, in a group to which nothing has happened.
fn straight_in<A: Application + Drop>(
    alloc: Global,
    world: &mut World<MemRecords, A>,
    member: u64,
) -> Result<String, RowFault> {
    let member = u8::try_from(member).ok().ok_or(RowFault::NotARow)?;
    let request = Request::new(alloc, 7, 1, 1, INSERT).map_err(|_| RowFault::Memory)?;
    let made = world.straight(alloc, member, request);
    let shown = shown(alloc, world)?;
    match made {
        Ok(deliveries) => Ok(format!(in alloc; "{deliveries} deliveries | {shown}")?),
        Err(fault) => fault_text(alloc, fault, &shown),
    }
}

/// `runs MEMBERS BYTES`: what comes of all events of a file, in one list, to so many members; or why not all have happened.
pub(super) fn runs<A: Application + Drop>(
    alloc: Global,
    members: u64,
    bytes: &[u8],
) -> Result<String, RowFault> {
    match read_event_file(alloc, bytes) {
        Ok(file) => run_file::<A>(alloc, members, file),
        Err(EventFileFault::Line(_)) => Err(RowFault::NotARow),
        Err(EventFileFault::Memory) => Err(RowFault::Memory),
    }
}

/// What comes of a file's events.
fn run_file<A: Application + Drop>(
    alloc: Global,
    members: u64,
    file: EventFile,
) -> Result<String, RowFault> {
    let names = file.group.names;
    let events = events_of(alloc, file.commands)?;
    let mut world = opened::<A>(alloc, members, &names)?;
    run_all(alloc, &mut world, &events)
}

/// What comes of events to a group.
fn run_all<A: Application + Drop>(
    alloc: Global,
    world: &mut World<MemRecords, A>,
    events: &[Event],
) -> Result<String, RowFault> {
    let ran = world.run(alloc, events);
    let shown = shown(alloc, world)?;
    match ran {
        Ok(()) if world.all_applied() => Ok(shown),
        Ok(()) => Err(RowFault::Memory),
        Err(fault) => fault_text(alloc, fault, &shown),
    }
}

/// The events of commands, of which none delivers all.
pub(super) fn events_of(alloc: Global, commands: Vec<Command>) -> Result<Vec<Event>, RowFault> {
    let mut events = Vec::new(alloc);
    for command in commands {
        match command {
            Command::Happens(event) => events.push(event).map_err(AllocError::from)?,
            Command::DeliverAll => return Err(RowFault::NotARow),
        }
    }
    Ok(events)
}

/// Why not all was done, and what was.
fn fault_text(alloc: Global, fault: WorldFault, shown: &str) -> Result<String, RowFault> {
    match fault {
        WorldFault::Memory(_) => Err(RowFault::Memory),
        WorldFault::Member => Ok(format!(in alloc; "no such member | {shown}")?),
        WorldFault::Store => Ok(format!(in alloc; "store failed | {shown}")?),
    }
}
