//! Calls of an acceptor over a database.
//!
//! `begin ROUND MEMBER`, `prepare ROUND MEMBER POSITION`, `accept POSITION ROUND MEMBER`, which votes for the no-op, and `keep`, which
//! keeps the no-op as learnt at the next position. What the rules refuse is `silent`.

ghost use Rattle.std.specs.Prelude.{◌≡◌};

use super::results::keeping;
use acceptor::Acceptor;
use ballots::limits::{POSITIONS, is_position};
use ballots::{Ballot, Entry, Value, Vote, Window};
use records::{Records, RecordsFault};
use rows::{RowFault, Words};
use std::alloc::Global;

/// The next two words, a ballot. Fault: `NotARow`.
fn ballot(words: &mut Words) -> Result<Ballot, RowFault> {
    let round = words.number()?;
    let member = u8::try_from(words.number()?).ok().ok_or(RowFault::NotARow)?;
    Ok(Ballot { round, member })
}

/// The next word, a position. Fault: `NotARow`.
fn position(words: &mut Words) -> Result<u32, RowFault> {
    u32::try_from(words.number()?).ok().ok_or(RowFault::NotARow)
}

/// A vote for the no-op.
fn vote(ballot: Ballot) -> Vote
    ensures { result.ballot ≡ ballot }
{
    let value = Value::NoOp;
    Vote { ballot, value }
}

/// Makes the calls of a text, one in each line, and appends the answers. Faults: `NotARow`, and `Memory`.
pub(super) fn play_all<R: Records + Drop>(
    alloc: Global,
    acceptor: &mut Acceptor<R>,
    calls: &str,
    answers: &mut String,
) -> Result<(), RowFault> {
    for call in calls.lines() {
        play(alloc, acceptor, call, answers)?;
    }
    Ok(())
}

/// Makes one call, and appends the answer. Faults: `NotARow`, and `Memory`.
fn play<R: Records + Drop>(
    alloc: Global,
    acceptor: &mut Acceptor<R>,
    call: &str,
    answers: &mut String,
) -> Result<(), RowFault> {
    let mut words = Words::new(call);
    let answer = match words.plain()? {
        "begin" => begin(alloc, acceptor, &mut words)?,
        "prepare" => prepare(alloc, acceptor, &mut words)?,
        "accept" => accept(alloc, acceptor, &mut words)?,
        "keep" => keep(alloc, acceptor)?,
        _ => return Err(RowFault::NotARow),
    };
    answers.push_str(answer.as_str())?;
    answers.push_str("; ")?;
    Ok(())
}

/// What a failure of the store is to a row.
fn failed(alloc: Global, fault: RecordsFault) -> Result<String, RowFault> {
    match fault {
        RecordsFault::Memory => Err(RowFault::Memory),
        RecordsFault::Store => Ok(String::from_str(alloc, "store failed")?),
    }
}

/// Promises a ballot of its own.
fn begin<R: Records + Drop>(
    alloc: Global,
    acceptor: &mut Acceptor<R>,
    words: &mut Words,
) -> Result<String, RowFault> {
    let ballot = ballot(words)?;
    let promised = acceptor.promised();
    if !ballot.is_valid() || !promised.is_below(ballot) {
        return Err(RowFault::NotARow);
    }
    match acceptor.on_begin(alloc, ballot) {
        Ok(()) => Ok(String::from_str(alloc, "begun")?),
        Err(fault) => failed(alloc, fault),
    }
}

/// Answers a Prepare.
fn prepare<R: Records + Drop>(
    alloc: Global,
    acceptor: &mut Acceptor<R>,
    words: &mut Words,
) -> Result<String, RowFault> {
    let ballot = ballot(words)?;
    let from = position(words)?;
    if !ballot.is_valid() {
        return Err(RowFault::NotARow);
    }
    match acceptor.on_prepare(alloc, ballot, from) {
        Ok(Some(window)) => window_text(alloc, &window),
        Ok(None) => Ok(String::from_str(alloc, "silent")?),
        Err(fault) => failed(alloc, fault),
    }
}

/// The votes of a window.
fn window_text(alloc: Global, window: &Window) -> Result<String, RowFault> {
    let mut text = String::from_str(alloc, "promised")?;
    push_votes(alloc, &mut text, window)?;
    Ok(text)
}

/// Appends the votes of a window, and up to where they are all.
pub(super) fn push_votes(
    alloc: Global,
    text: &mut String,
    window: &Window,
) -> Result<(), RowFault> {
    let covered = window.covered;
    let all = format!(in alloc; ", votes up to {covered}:")?;
    text.push_str(all.as_str())?;
    for entry in window.entries.as_slice() {
        push_vote(alloc, text, entry)?;
    }
    Ok(())
}

/// Appends a vote's position and ballot.
fn push_vote(alloc: Global, text: &mut String, entry: &Entry) -> Result<(), RowFault> {
    let (at, round, member) = (
        entry.position,
        entry.vote.ballot.round,
        entry.vote.ballot.member,
    );
    let vote = format!(in alloc; " {round},{member} at {at}")?;
    text.push_str(vote.as_str())?;
    Ok(())
}

/// Answers an Accept.
fn accept<R: Records + Drop>(
    alloc: Global,
    acceptor: &mut Acceptor<R>,
    words: &mut Words,
) -> Result<String, RowFault> {
    let position = position(words)?;
    let ballot = ballot(words)?;
    if !ballot.is_valid() || !is_position(position) {
        return Err(RowFault::NotARow);
    }
    match acceptor.on_accept(alloc, position, &vote(ballot)) {
        Ok(true) => Ok(String::from_str(alloc, "accepted")?),
        Ok(false) => Ok(String::from_str(alloc, "silent")?),
        Err(fault) => failed(alloc, fault),
    }
}

/// Keeps the no-op as learnt at the next position, and says how many values are kept. Fault: `NotARow` where all positions have one, among
/// others.
#[tactic(auto, unfolding(ballots::specs::Values::positions))]
fn keep<R: Records + Drop>(alloc: Global, acceptor: &mut Acceptor<R>) -> Result<String, RowFault> {
    if acceptor.kept() >= POSITIONS {
        return Err(RowFault::NotARow);
    }
    match acceptor.on_keep(alloc, &Value::NoOp) {
        Ok(()) => {
            let kept = acceptor.kept();
            Ok(format!(in alloc; "kept {kept}")?)
        }
        Err(fault) => failed(alloc, fault),
    }
}
