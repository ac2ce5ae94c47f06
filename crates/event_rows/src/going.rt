//! Runs of all events of a file that go on where memory is refused.
//!
//! `goes BYTES` makes what an event file says happen to a group, whose records never fail, and then a resend to each member, in one call of
//! `run`. Where that ends since memory was refused, it has told how many events have happened, and a further call makes the rest happen, from
//! the event on to which memory was refused. The resends make up for what a node to which memory was refused has not applied.

use super::again::opened;
use super::asking::{MOST_TRIES, shown};
use super::running::events_of;
use applications::Application;
use event_files::{EventFile, EventFileFault, read_event_file};
use events::{Event, Tick};
use records::MemRecords;
use rows::RowFault;
use std::alloc::{AllocError, Global};
use world::{World, WorldFault};

/// `goes BYTES`: how many messages were sent, and what each member answers in the end.
pub(super) fn goes<A: Application + Drop>(alloc: Global, bytes: &[u8]) -> Result<String, RowFault> {
    match read_event_file(alloc, bytes) {
        Ok(file) => go::<A>(alloc, file),
        Err(EventFileFault::Line(_)) => Err(RowFault::NotARow),
        Err(EventFileFault::Memory) => Err(RowFault::Memory),
    }
}

/// What an event file says happens to its group.
fn go<A: Application + Drop>(alloc: Global, file: EventFile) -> Result<String, RowFault> {
    let mut world = opened::<A>(alloc, &file)?;
    go_in(alloc, &mut world, file)
}

/// The same, to a group to which nothing has happened.
fn go_in<A: Application + Drop>(
    alloc: Global,
    world: &mut World<MemRecords, A>,
    file: EventFile,
) -> Result<String, RowFault> {
    let mut events = events_of(alloc, file.commands)?;
    push_resends(&mut events, world.members().count())?;
    run_on(alloc, world, &events)?;
    shown(alloc, world)
}

/// Appends a resend to each of so many members.
fn push_resends(events: &mut Vec<Event>, members: u8) -> Result<(), RowFault> {
    for before in 0..members {
        let resend = Event::Tick(before + 1, Tick::Resend);
        events.push(resend).map_err(AllocError::from)?;
    }
    Ok(())
}

/// All events happen, those from the one on to which memory was refused in a further run. Faults: `NotARow` where an event names no member of
/// the group, and `Memory`.
fn run_on<A: Application + Drop>(
    alloc: Global,
    world: &mut World<MemRecords, A>,
    events: &[Event],
) -> Result<(), RowFault> {
    let mut rest = events;
    for _ in 0..MOST_TRIES {
        match world.run(alloc, rest) {
            Ok(()) => return Ok(()),
            Err(WorldFault::Memory(happened)) => rest = after(rest, happened)?,
            Err(_) => return Err(RowFault::NotARow),
        }
    }
    Err(RowFault::Memory)
}

/// The events after so many of them. Fault: `NotARow` where there is none.
fn after(events: &[Event], happened: u64) -> Result<&[Event], RowFault> {
    let happened = usize::try_from(happened).ok().ok_or(RowFault::NotARow)?;
    match events.get(happened..) {
        Some([]) | None => Err(RowFault::NotARow),
        Some(rest) => Ok(rest),
    }
}
