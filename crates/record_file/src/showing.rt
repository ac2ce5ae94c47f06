//! What stands in a record.

use ballots::limits::POSITIONS;
use ballots::{Ballot, Entry, Value, Window};
use records::{Record, Records};
use std::io;

/// Prints the promise, and how many votes and learnt values there are.
pub(super) fn load<R: Records>(rt: &HostRuntime, records: &mut R) -> io::Result<u8> {
    let Ok(record) = records.load(rt.alloc()) else {
        return Ok(4);
    };
    let mut votes = 0;
    let mut next = Some(1);
    for _ in 0..=POSITIONS {
        let Some(from) = next else {
            break;
        };
        next = count(rt, &record, from, &mut votes)?;
    }
    let promise = record.promise();
    let (round, member) = (promise.round, promise.member);
    println!(rt; "promise {round} {member}")?;
    println!(rt; "votes {votes}")?;
    let learnt = record.learnt_to();
    println!(rt; "learnt {learnt}")?;
    Ok(0)
}

/// Adds the number of the votes from a position on, of some, and gives where the next ones may begin.
fn count(
    rt: &HostRuntime,
    record: &Record,
    from: u32,
    votes: &mut usize,
) -> io::Result<Option<u32>> {
    let window = record.window(rt.alloc(), Ballot::NONE, from)?;
    *votes = votes.saturating_add(window.entries.len());
    Ok(after(&window))
}

/// The first position that a window does not cover.
fn after(window: &Window) -> Option<u32> {
    if window.covered >= POSITIONS {
        return None;
    }
    Some(window.covered + 1)
}

/// Prints the promise, and a line for each vote and for each learnt value.
pub(super) fn show<R: Records>(rt: &HostRuntime, records: &mut R) -> io::Result<u8> {
    let Ok(record) = records.load(rt.alloc()) else {
        return Ok(4);
    };
    let promise = record.promise();
    let (round, member) = (promise.round, promise.member);
    println!(rt; "promise {round} {member}")?;
    let mut next = Some(1);
    for _ in 0..=POSITIONS {
        let Some(from) = next else {
            break;
        };
        next = show_some(rt, &record, from)?;
    }
    show_learnt(rt, record.learnt())?;
    Ok(0)
}

/// Prints `learnt POSITION NUMBER TEXT` for each value, the last two of the request; for the no-op none.
fn show_learnt(rt: &HostRuntime, values: &[Value]) -> io::Result<()> {
    let mut position = 0u64;
    for value in values {
        position = position.saturating_add(1);
        match value {
            Value::NoOp => println!(rt; "learnt {position}")?,
            Value::Request(request) => {
                let (number, text) = (request.id().number, request.text());
                println!(rt; "learnt {position} {number} {text}")?;
            }
        }
    }
    Ok(())
}

/// Prints the votes from a position on, some of them, and gives where the next ones may begin.
fn show_some(rt: &HostRuntime, record: &Record, from: u32) -> io::Result<Option<u32>> {
    let window = record.window(rt.alloc(), Ballot::NONE, from)?;
    for entry in window.entries.as_slice() {
        show_vote(rt, entry)?;
    }
    Ok(after(&window))
}

/// Prints `vote POSITION ROUND MEMBER NUMBER TEXT`, the last two of the request that is voted for; for the no-op none.
fn show_vote(rt: &HostRuntime, entry: &Entry) -> io::Result<()> {
    let ballot = entry.vote.ballot;
    let (position, round, member) = (entry.position, ballot.round, ballot.member);
    match &entry.vote.value {
        Value::NoOp => println!(rt; "vote {position} {round} {member}"),
        Value::Request(request) => {
            let (number, text) = (request.id().number, request.text());
            println!(rt; "vote {position} {round} {member} {number} {text}")
        }
    }
}
