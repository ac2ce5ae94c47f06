//! Runs of a group whose records fail as an event file says, of some events first and then of the others.

use super::asking::shown;
use super::running::events_of;
use ballots::Members;
use event_files::{EventFile, EventFileFault, read_event_file};
use paxq_sim::stores_of;
use replicas::{RunFault, run_group};
use rows::RowFault;
use std::alloc::Global;
use world::WorldFault;

/// `group MEMBERS FIRST BYTES`: what comes of the events of a file to so many members, of so many of them first, and then of the others.
pub(super) fn group(
    alloc: Global,
    members: u64,
    first: u64,
    bytes: &[u8],
) -> Result<String, RowFault> {
    match read_event_file(alloc, bytes) {
        Ok(file) => group_of(alloc, members, first, file),
        Err(EventFileFault::Line(_)) => Err(RowFault::NotARow),
        Err(EventFileFault::Memory) => Err(RowFault::Memory),
    }
}

/// The same of a file that was read.
fn group_of(alloc: Global, members: u64, first: u64, file: EventFile) -> Result<String, RowFault> {
    let members = u8::try_from(members).ok().and_then(Members::new);
    let members = members.ok_or(RowFault::NotARow)?;
    let stores = stores_of(alloc, members, &file.failures).map_err(|_| RowFault::Memory)?;
    let events = events_of(alloc, file.commands)?;
    let first = usize::try_from(first).ok().ok_or(RowFault::NotARow)?;
    if first > events.len() {
        return Err(RowFault::NotARow);
    }
    let (first, more) = events.split_at(first);
    match run_group(alloc, members, &file.group.names, stores, first, more) {
        Ok(world) => shown(alloc, &world),
        Err(RunFault::Events(WorldFault::Member)) => Ok(String::from_str(alloc, "no such member")?),
        Err(_) => Err(RowFault::Memory),
    }
}
