//! Messages, read in words.

use super::codes::code_of;
use super::parts::{
    read_ballot, read_entries, read_pairs, read_question, read_request, read_u8, read_u32,
    read_vote,
};
use ballots::{Answer, Message, Reply, Window};
use rows::{RowFault, Words};
use std::alloc::Global;

/// The next words, a message, and no word after it. Faults: `NotARow` where they are none, and `Memory`.
pub fn read_message(alloc: Global, words: &mut Words<'_>) -> Result<Message, RowFault> {
    match words.plain()? {
        "prepare" => {
            let ballot = read_ballot(words)?;
            Ok(Message::Prepare(ballot, read_u32(words)?))
        }
        "promise" => Ok(Message::Promise(read_window(alloc, words)?)),
        "accept" => {
            let position = read_u32(words)?;
            Ok(Message::Accept(position, read_vote(alloc, words)?))
        }
        "accepted" => {
            let position = read_u32(words)?;
            Ok(Message::Accepted(position, read_vote(alloc, words)?))
        }
        "chosen" => Ok(Message::Chosen(read_pairs(alloc, words)?)),
        "catchup" => Ok(Message::CatchUp(read_u32(words)?)),
        "submit" => Ok(Message::Submit(read_request(alloc, words)?)),
        "ask" => Ok(Message::Ask(read_question(alloc, words)?)),
        kind => read_told(alloc, kind, words),
    }
}

/// A ballot, the first and the last position, and votes. Faults: `NotARow` and `Memory`.
fn read_window(alloc: Global, words: &mut Words<'_>) -> Result<Window, RowFault> {
    let ballot = read_ballot(words)?;
    let from = read_u32(words)?;
    let covered = read_u32(words)?;
    Ok(Window {
        ballot,
        from,
        covered,
        entries: read_entries(alloc, words)?,
    })
}

/// A client, a number, and what a message of a kind tells them. Faults: `NotARow` and `Memory`.
fn read_told(alloc: Global, kind: &str, words: &mut Words<'_>) -> Result<Message, RowFault> {
    let client = read_u32(words)?;
    let number = words.number()?;
    match kind {
        "reply" => Ok(Message::Reply(client, number, read_reply(alloc, words)?)),
        "answer" => {
            let applied = read_u32(words)?;
            Ok(Message::Answer(client, number, applied, read_answer(alloc, words)?))
        }
        "behind" => Ok(Message::Behind(client, number, read_u32(words)?)),
        "elsewhere" => Ok(Message::Elsewhere(client, number, read_u8(words)?)),
        _ => Err(RowFault::NotARow),
    }
}

/// What came of a request. Faults: `NotARow` and `Memory`.
fn read_reply(alloc: Global, words: &mut Words<'_>) -> Result<Reply, RowFault> {
    match words.plain()? {
        "done" => Ok(Reply::Done(read_u32(words)?)),
        "fault" => {
            let code = code_of(alloc, words.plain()?)?;
            Ok(Reply::Fault(code, read_u32(words)?))
        }
        _ => Err(RowFault::NotARow),
    }
}

/// What a question gives. Faults: `NotARow` and `Memory`.
fn read_answer(alloc: Global, words: &mut Words<'_>) -> Result<Answer, RowFault> {
    match words.plain()? {
        "text" => Ok(Answer::Text(words.text(alloc)?)),
        "fault" => Ok(Answer::Fault(code_of(alloc, words.plain()?)?)),
        _ => Err(RowFault::NotARow),
    }
}
