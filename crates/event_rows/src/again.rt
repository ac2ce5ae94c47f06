//! Events that happen again where memory is refused.
//!
//! `again BYTES` makes what an event file says happen to a group, whose records never fail; `deliver all` is each message that was sent since the
//! last one, once. A second group goes the same way. Where memory is refused, the first group is compared with the second one, to which all
//! earlier events have happened and not this one; then the event happens again. Compared is what the reading calls give: how many messages were
//! sent, what was told, and of each node what it has learnt. In the end a resend comes to each member, and then it is compared too how far each
//! node has applied, and what it answers to `doc("db")`: so what a node to which memory was refused has not applied is made up for.
//! `replies BYTES` does the same, and says too what each member replies to each request that it has learnt.

use super::asking::{MOST_TRIES, answered, push_replies, shown};
use applications::Application;
use ballots::Value;
use event_files::{Command, EventFile, EventFileFault, read_event_file};
use events::{Event, Tick};
use held_values::beside;
use node::Node;
use records::MemRecords;
use rows::RowFault;
use std::alloc::Global;
use std::slice;
use world::{Told, World, WorldFault};

/// A group, one that goes the same way, and the number up to which each message was delivered.
#[derive(Drop)]
struct Pair<A: Application + Drop> {
    world: World<MemRecords, A>,
    second: World<MemRecords, A>,
    delivered: u64,
}

/// `again BYTES`: how many messages were sent, and what each member answers in the end, or that something is not as it should be.
pub(super) fn again<A: Application + Drop>(
    alloc: Global,
    bytes: &[u8],
) -> Result<String, RowFault> {
    happened::<A>(alloc, bytes, false)
}

/// `replies BYTES`: the same, and what each member replies to each request that it has learnt.
pub(super) fn replies<A: Application + Drop>(
    alloc: Global,
    bytes: &[u8],
) -> Result<String, RowFault> {
    happened::<A>(alloc, bytes, true)
}

/// What comes of an event file, with what the members reply if that is asked for.
fn happened<A: Application + Drop>(
    alloc: Global,
    bytes: &[u8],
    has_replies: bool,
) -> Result<String, RowFault> {
    match read_event_file(alloc, bytes) {
        Ok(file) => play::<A>(alloc, &file, has_replies),
        Err(EventFileFault::Line(_)) => Err(RowFault::NotARow),
        Err(EventFileFault::Memory) => Err(RowFault::Memory),
    }
}

/// The group that an event file names, to which nothing has happened.
pub(super) fn opened<A: Application + Drop>(
    alloc: Global,
    file: &EventFile,
) -> Result<World<MemRecords, A>, RowFault> {
    World::in_memory(alloc, file.group.members, &file.group.names).map_err(|_| RowFault::Memory)
}

/// What an event file says happens to both groups.
fn play<A: Application + Drop>(
    alloc: Global,
    file: &EventFile,
    has_replies: bool,
) -> Result<String, RowFault> {
    let (world, second) = beside(opened::<A>(alloc, file)?, opened::<A>(alloc, file))?;
    let mut pair = Pair::<A> {
        world,
        second,
        delivered: 0,
    };
    play_to(alloc, &mut pair, file, has_replies)
}

/// The same, of two groups to which nothing has happened.
fn play_to<A: Application + Drop>(
    alloc: Global,
    pair: &mut Pair<A>,
    file: &EventFile,
    has_replies: bool,
) -> Result<String, RowFault> {
    for command in file.commands.iter() {
        if !take(alloc, pair, command)? {
            return Ok(String::from_str(alloc, "changed")?);
        }
    }
    if !resend(alloc, pair)? || !have_come_alike(alloc, pair)? {
        return Ok(String::from_str(alloc, "not alike")?);
    }
    let mut out = shown(alloc, &pair.world)?;
    if has_replies {
        push_replies(alloc, &pair.world, &mut out)?;
    }
    Ok(out)
}

/// One command. Gives whether both groups were alike where memory was refused, and after it.
fn take<A: Application + Drop>(
    alloc: Global,
    pair: &mut Pair<A>,
    command: &Command,
) -> Result<bool, RowFault> {
    match command {
        Command::Happens(event) => happen(alloc, pair, event),
        Command::DeliverAll => deliver_all(alloc, pair),
    }
}

/// Delivers each message that was sent since this was done last.
fn deliver_all<A: Application + Drop>(alloc: Global, pair: &mut Pair<A>) -> Result<bool, RowFault> {
    for _ in 0..u64::MAX {
        if pair.delivered >= pair.world.messages() as u64 {
            return Ok(true);
        }
        pair.delivered += 1;
        let event = Event::Deliver(pair.delivered);
        if !happen(alloc, pair, &event)? {
            return Ok(false);
        }
    }
    Err(RowFault::NotARow)
}

/// A resend comes to each member.
fn resend<A: Application + Drop>(alloc: Global, pair: &mut Pair<A>) -> Result<bool, RowFault> {
    for before in 0..pair.world.members().count() {
        let event = Event::Tick(before + 1, Tick::Resend);
        if !happen(alloc, pair, &event)? {
            return Ok(false);
        }
    }
    Ok(true)
}

/// An event happens to the first group, again where memory is refused, and then to the second one.
fn happen<A: Application + Drop>(
    alloc: Global,
    pair: &mut Pair<A>,
    event: &Event,
) -> Result<bool, RowFault> {
    for _ in 0..MOST_TRIES {
        match pair.world.run(alloc, slice::from_ref(event)) {
            Ok(()) => {
                repeat(alloc, &mut pair.second, event)?;
                return Ok(are_alike(&pair.world, &pair.second));
            }
            Err(WorldFault::Memory(0)) => {
                if !are_alike(&pair.world, &pair.second) {
                    return Ok(false);
                }
            }
            Err(_) => return Err(RowFault::NotARow),
        }
    }
    Err(RowFault::Memory)
}

/// An event happens to a group, again where memory is refused.
fn repeat<A: Application + Drop>(
    alloc: Global,
    world: &mut World<MemRecords, A>,
    event: &Event,
) -> Result<(), RowFault> {
    for _ in 0..MOST_TRIES {
        match world.run(alloc, slice::from_ref(event)) {
            Ok(()) => return Ok(()),
            Err(WorldFault::Memory(_)) => {}
            Err(_) => return Err(RowFault::NotARow),
        }
    }
    Err(RowFault::Memory)
}

/// Whether in both groups as many messages were sent, the same was told, and each node has learnt the same.
fn are_alike<A: Application + Drop>(
    world: &World<MemRecords, A>,
    second: &World<MemRecords, A>,
) -> bool {
    if world.messages() != second.messages() || !were_told_alike(world.told(), second.told()) {
        return false;
    }
    for before in 0..world.members().count() {
        let are_alike = match (world.node(before + 1), second.node(before + 1)) {
            (Some(node), Some(other)) => have_learnt_alike(node, other),
            (None, None) => true,
            _ => false,
        };
        if !are_alike {
            return false;
        }
    }
    true
}

/// Whether members of two groups were told the same, in the same order.
fn were_told_alike(one: &[Told], other: &[Told]) -> bool {
    if one.len() != other.len() {
        return false;
    }
    for (told, second) in one.iter().zip(other.iter()) {
        if told.member != second.member
            || told.pair.position != second.pair.position
            || !are_equal(&told.pair.value, &second.pair.value)
        {
            return false;
        }
    }
    true
}

/// Whether two values are the same.
fn are_equal(one: &Value, other: &Value) -> bool {
    match (one, other) {
        (Value::NoOp, Value::NoOp) => true,
        (Value::Request(one), Value::Request(other)) => {
            one.id() == other.id() && one.level() == other.level() && one.text() == other.text()
        }
        _ => false,
    }
}

/// Whether two nodes have learnt the same without a gap.
fn have_learnt_alike<A: Application + Drop>(
    node: &Node<MemRecords, A>,
    other: &Node<MemRecords, A>,
) -> bool {
    if node.prefix() != other.prefix() {
        return false;
    }
    for position in 1..=node.prefix() {
        let are_alike = match (node.learned(position), other.learned(position)) {
            (Some(one), Some(other)) => are_equal(one, other),
            _ => false,
        };
        if !are_alike {
            return false;
        }
    }
    true
}

/// Whether each node has applied as much as that of the second group, and answers the same.
fn have_come_alike<A: Application + Drop>(alloc: Global, pair: &Pair<A>) -> Result<bool, RowFault> {
    for before in 0..pair.world.members().count() {
        let are_alike = match (pair.world.node(before + 1), pair.second.node(before + 1)) {
            (Some(node), Some(other)) => answered(alloc, node)? == answered(alloc, other)?,
            (None, None) => true,
            _ => false,
        };
        if !are_alike {
            return Ok(false);
        }
    }
    Ok(true)
}
