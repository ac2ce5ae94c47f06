//! What a group of replicas promises, as one contract over the states that members really hold.
#![tactic(auto)]

ghost use Rattle.std.specs.Prelude.{◌≡◌, ◌++◌, IfOk, length, map};
ghost use Rattle.events.specs.Events.{event_of};
ghost use Rattle.paxos.specs.Lists.{Has};
ghost use Rattle.replicas.specs.Replicas.{IsSplit, NeverDisagree};
ghost use Rattle.world.specs.Runs.{IsUnwritten};
ghost use Rattle.world.specs.Shown.{AreKept, World as WorldTerm};

use ballots::Members;
use document_names::Names;
use events::Event;
use records::{PlannedRecords, RecordsFault};
use sessions::State;
use std::alloc::Global;
use world::{World, WorldFault};

/// Why a run ended before its last event.
#[derive(Clone, Copy, PartialEq, Eq, Debug)]
pub enum RunFault {
    /// The group was not made: memory was refused, or a store failed.
    Group(RecordsFault),
    /// The events stopped.
    Events(WorldFault),
}

/// The headline. A group is made, and these events happen: `first` until now, and `more` until later. Then, for every number of members and every two lists of
/// deliveries, losses, repeats, reorderings, ticks, stops (inside a write too) and starts: no two members were ever told different values at a position; any
/// two nodes, at the two moments or at one of them, that have applied as many positions have equal stores (trees with their identities, the next identity,
/// kept replies) and give equal answers to every question, and these are what the meaning of XQuery and of its Update Facility gives for the first
/// chosen requests, as many, in order, repeats left out.
///
/// A loss is a message that is never delivered, a repeat one that is delivered again, a reordering any order of their numbers. Four things are taken for
/// granted:
///
/// - messages: what is delivered was sent by a member or a client, unchanged (an event names a message by its number among those sent);
/// - records: what a store has acknowledged stays (`AreKept`: in memory always, in a file while nobody else writes it and the disk keeps it);
/// - setup: all members have one list of members, one list of documents and one program (a world has one of each);
/// - memory: a node that finds no memory stays as it was, and that is no answer. Where that ends the run, nothing is said here (`World::run` says it).
///
/// There is one store a member, in order, and nobody has written it.
pub fn run_group<R: PlannedRecords + Drop>(
    alloc: Global,
    members: Members,
    names: &Names,
    stores: Vec<R>,
    first: &[Event],
    more: &[Event],
) -> Result<World<R, State>, RunFault>
    requires many { length stores.items ≡ members }
    requires unwritten { (r : R) → Has stores.items r → IsUnwritten R.stands R.is_kept r }
    ensures { IfOk result (λ later. AreKept R.is_kept later
        → (now : WorldTerm R State) × IsSplit R.stands R.is_kept R.failed R.fates members names.now (map event_of first.now) (map event_of more.now) now later
        × NeverDisagree now later (map event_of first.now ++ map event_of more.now)) }
{
    let mut group = match World::new(alloc, members, names, stores) {
        Ok(group) => group,
        Err(fault) => return Err(RunFault::Group(fault)),
    };
    group.facts();
    if let Err(fault) = group.run(alloc, first) {
        return Err(RunFault::Events(fault));
    }
    group.facts();
    group.follows();
    if let Err(fault) = group.run(alloc, more) {
        return Err(RunFault::Events(fault));
    }
    group.follows();
    Ok(group)
}
