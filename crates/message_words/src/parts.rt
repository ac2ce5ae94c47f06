//! What messages are made of, read in words.

use ballots::{Ask, AskFault, Ballot, Entry, Pair, Request, RequestFault, Value, Vote};
use rows::{RowFault, Words, cut};
use std::alloc::Global;

/// How many votes or values a message has at most: more than members say, since what they may not say can be read too.
const MOST: u32 = 20;

/// The next word, a number of one byte, as that of a member or of a level is. Fault: `NotARow`.
pub fn read_u8(words: &mut Words<'_>) -> Result<u8, RowFault> {
    u8::try_from(words.number()?).ok().ok_or(RowFault::NotARow)
}

/// The next word, a number of four bytes, as that of a position, of a client or of a group is. Fault: `NotARow`.
pub fn read_u32(words: &mut Words<'_>) -> Result<u32, RowFault> {
    u32::try_from(words.number()?).ok().ok_or(RowFault::NotARow)
}

/// The next word, a ballot. Fault: `NotARow`.
pub fn read_ballot(words: &mut Words<'_>) -> Result<Ballot, RowFault> {
    let (round, owner) = cut(words.plain()?, ",");
    let round = round.parse::<u64>().ok().ok_or(RowFault::NotARow)?;
    let member = owner.parse::<u8>().ok().ok_or(RowFault::NotARow)?;
    Ok(Ballot { round, member })
}

/// The next words, a client, a number, a level and a text: that request. Faults: `NotARow`, also where there is no such request, and `Memory`.
pub(super) fn read_request(alloc: Global, words: &mut Words<'_>) -> Result<Request, RowFault> {
    let client = read_u32(words)?;
    let number = words.number()?;
    let level = read_u8(words)?;
    let text = words.text(alloc)?;
    match Request::new(alloc, client, number, level, text.as_str()) {
        Ok(request) => Ok(request),
        Err(RequestFault::Memory) => Err(RowFault::Memory),
        Err(RequestFault::Level | RequestFault::TextTooLong) => Err(RowFault::NotARow),
    }
}

/// The next words, a client, a number, a floor, a level and a text: that question. Faults: `NotARow`, also where there is no such question, and
/// `Memory`.
pub(super) fn read_question(alloc: Global, words: &mut Words<'_>) -> Result<Ask, RowFault> {
    let client = read_u32(words)?;
    let number = words.number()?;
    let floor = read_u32(words)?;
    let level = read_u8(words)?;
    let text = words.text(alloc)?;
    match Ask::new(alloc, client, number, floor, level, text.as_str()) {
        Ok(ask) => Ok(ask),
        Err(AskFault::Memory) => Err(RowFault::Memory),
        Err(AskFault::Level | AskFault::TextTooLong | AskFault::Floor) => Err(RowFault::NotARow),
    }
}

/// The next words, a value. Faults: `NotARow` and `Memory`.
pub fn read_value(alloc: Global, words: &mut Words<'_>) -> Result<Value, RowFault> {
    match words.plain()? {
        "no-op" => Ok(Value::NoOp),
        "request" => Ok(Value::Request(read_request(alloc, words)?)),
        _ => Err(RowFault::NotARow),
    }
}

/// The next words, a ballot and a value. Faults: `NotARow` and `Memory`.
pub(super) fn read_vote(alloc: Global, words: &mut Words<'_>) -> Result<Vote, RowFault> {
    let ballot = read_ballot(words)?;
    let value = read_value(alloc, words)?;
    Ok(Vote { ballot, value })
}

/// Takes a word, if it is the next one. Gives whether it was.
fn take(words: &mut Words<'_>, wanted: &str) -> bool {
    let mut ahead = *words;
    match ahead.plain() {
        Ok(word) if word == wanted => {
            *words = ahead;
            true
        }
        _ => false,
    }
}

/// A position and a vote. Faults: `NotARow` and `Memory`.
fn read_entry(alloc: Global, words: &mut Words<'_>) -> Result<Entry, RowFault> {
    let position = read_u32(words)?;
    let vote = read_vote(alloc, words)?;
    Ok(Entry { position, vote })
}

/// The next words, votes as long as they come. Faults: `NotARow` and `Memory`.
pub(super) fn read_entries(alloc: Global, words: &mut Words<'_>) -> Result<Vec<Entry>, RowFault> {
    let mut entries = Vec::new(alloc);
    for _entry in 0..MOST {
        if !take(words, "vote") {
            break;
        }
        entries.push(read_entry(alloc, words)?)?;
    }
    Ok(entries)
}

/// A position and a value. Faults: `NotARow` and `Memory`.
fn read_pair(alloc: Global, words: &mut Words<'_>) -> Result<Pair, RowFault> {
    let position = read_u32(words)?;
    let value = read_value(alloc, words)?;
    Ok(Pair { position, value })
}

/// The next words, values at positions as long as they come. Faults: `NotARow` and `Memory`.
pub(super) fn read_pairs(alloc: Global, words: &mut Words<'_>) -> Result<Vec<Pair>, RowFault> {
    let mut pairs = Vec::new(alloc);
    for _pair in 0..MOST {
        if !take(words, "at") {
            break;
        }
        pairs.push(read_pair(alloc, words)?)?;
    }
    Ok(pairs)
}
