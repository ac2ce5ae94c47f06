//! Rows on what messages are made of.
//!
//! `below BALLOT BALLOT`; `majority MEMBERS MASK` (bit m - 1 for member m); `members COUNT`; `request CLIENT NUMBER LEVEL TEXT`; `ask CLIENT NUMBER FLOOR LEVEL
//! TEXT`; `setup GROUP MEMBER MEMBERS`, with the document `db`; `same VALUE VALUE`, in the words of messages; `value HEX`: the value at the front of bytes, how many
//! they are, and whether it is spelt so. Refusals stand there by their names.

use crate::reading::{said, yes_or_no};
use ballots::{
    Ask, AskFault, Members, Request, RequestFault, Setup, SetupFault, SpellingFault, Value, Vote,
    put_value, take_value,
};
use document_names::Names;
use message_words::{read_ballot, read_u8, read_u32, read_value, value_text};
use rows::{RowFault, Words, hex_bytes};
use std::alloc::Global;

/// What a row gives that has no calls.
pub(super) fn row(alloc: Global, word: &str, words: &mut Words<'_>) -> Result<String, RowFault> {
    match word {
        "below" => {
            let first = read_ballot(words)?;
            let second = read_ballot(words)?;
            yes_or_no(alloc, first.is_below(second))
        }
        "members" => yes_or_no(alloc, Members::new(read_u8(words)?).is_some()),
        "majority" => {
            let members = Members::new(read_u8(words)?).ok_or(RowFault::NotARow)?;
            yes_or_no(alloc, members.is_majority(words.number()?))
        }
        "request" => request_row(alloc, words),
        "ask" => ask_row(alloc, words),
        "setup" => setup_row(alloc, words),
        "same" => same_row(alloc, words),
        "value" => value_row(alloc, words),
        _ => Err(RowFault::NotARow),
    }
}

/// A client, a number, a level and a text: what the request has, or why there is none.
fn request_row(alloc: Global, words: &mut Words<'_>) -> Result<String, RowFault> {
    let client = read_u32(words)?;
    let number = words.number()?;
    let level = read_u8(words)?;
    let text = words.text(alloc)?;
    match Request::new(alloc, client, number, level, text.as_str()) {
        Ok(request) => {
            let (id, level, length) = (request.id(), request.level(), request.text().len());
            let (client, number) = (id.client, id.number);
            Ok(format!(in alloc; "{client} {number} {level} {length} bytes")?)
        }
        Err(RequestFault::Memory) => Err(RowFault::Memory),
        Err(RequestFault::Level) => said(alloc, "level"),
        Err(RequestFault::TextTooLong) => said(alloc, "text too long"),
    }
}

/// A client, a number, a floor, a level and a text: what the question has, or why there is none.
fn ask_row(alloc: Global, words: &mut Words<'_>) -> Result<String, RowFault> {
    let client = read_u32(words)?;
    let number = words.number()?;
    let floor = read_u32(words)?;
    let level = read_u8(words)?;
    let text = words.text(alloc)?;
    match Ask::new(alloc, client, number, floor, level, text.as_str()) {
        Ok(ask) => {
            let (id, floor, level, length) = (ask.id(), ask.floor(), ask.level(), ask.text().len());
            let (client, number) = (id.client, id.number);
            Ok(format!(in alloc; "{client} {number} {floor} {level} {length} bytes")?)
        }
        Err(AskFault::Memory) => Err(RowFault::Memory),
        Err(AskFault::Level) => said(alloc, "level"),
        Err(AskFault::TextTooLong) => said(alloc, "text too long"),
        Err(AskFault::Floor) => said(alloc, "floor"),
    }
}

/// A group, a member and how many there are: what a member is set up with, or why it is not.
fn setup_row(alloc: Global, words: &mut Words<'_>) -> Result<String, RowFault> {
    let group = read_u32(words)?;
    let number = read_u8(words)?;
    let members = read_u8(words)?;
    let mut list = Vec::new(alloc);
    list.push(String::from_str(alloc, "db")?)?;
    let Ok(names) = Names::new(alloc, &list) else {
        return Err(RowFault::Memory);
    };
    match Setup::new(alloc, group, number, members, &names) {
        Ok(setup) => {
            let (group, number, members) = (setup.group(), setup.member(), setup.members().count());
            let documents = setup.names().as_slice().len();
            Ok(format!(in alloc; "{group} {number} of {members}, {documents} document")?)
        }
        Err(SetupFault::Memory) => Err(RowFault::Memory),
        Err(SetupFault::Numbers) => said(alloc, "numbers"),
    }
}

/// Two values: whether they are the same, as a vote of them and its copy are.
fn same_row(alloc: Global, words: &mut Words<'_>) -> Result<String, RowFault> {
    let first = read_value(alloc, words)?;
    let second = read_value(alloc, words)?;
    let is_same = first.is_same(&second);
    let vote = Vote {
        ballot: ballots::Ballot::NONE,
        value: first,
    };
    if !vote.is_same(&vote.clone()?) || vote.value.is_same(&second) != is_same {
        return Err(RowFault::NotARow);
    }
    yes_or_no(alloc, is_same)
}

/// Bytes: the value at their front.
fn value_row(alloc: Global, words: &mut Words<'_>) -> Result<String, RowFault> {
    let bytes = hex_bytes(alloc, words.rest())?;
    match take_value(alloc, &bytes) {
        Ok((value, length)) => spelt(alloc, &value, bytes.get(..length).ok_or(RowFault::NotARow)?),
        Err(SpellingFault::Memory) => Err(RowFault::Memory),
        Err(SpellingFault::Short) => said(alloc, "short"),
        Err(SpellingFault::Number) => said(alloc, "number"),
        Err(SpellingFault::NotUtf8) => said(alloc, "not UTF-8"),
    }
}

/// A value in words, and whether it is spelt by those bytes.
fn spelt(alloc: Global, value: &Value, bytes: &[u8]) -> Result<String, RowFault> {
    let mut out = Vec::new(alloc);
    put_value(value, &mut out)?;
    let length = bytes.len();
    let again = if out.as_slice() == bytes {
        "spelt so"
    } else {
        "spelt otherwise"
    };
    let value = value_text(alloc, value)?;
    Ok(format!(in alloc; "{value}, {length} bytes, {again}")?)
}
