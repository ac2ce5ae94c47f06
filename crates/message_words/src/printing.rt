//! Messages and what they are made of, printed in words.

use ballots::{Answer, Ask, Ballot, Message, Pair, Reply, Request, Value, Vote, Window};
use std::alloc::{AllocError, Global};

/// A ballot in words.
pub fn ballot_text(alloc: Global, ballot: Ballot) -> Result<String, AllocError> {
    let (round, member) = (ballot.round, ballot.member);
    format!(in alloc; "{round},{member}")
}

/// A value in words.
pub fn value_text(alloc: Global, value: &Value) -> Result<String, AllocError> {
    match value {
        Value::NoOp => String::from_str(alloc, "no-op"),
        Value::Request(request) => request_text(alloc, "request", request),
    }
}

/// Values at positions in words, as a message tells them; nothing where there are none.
pub fn pairs_text(alloc: Global, pairs: &[Pair]) -> Result<String, AllocError> {
    let mut out = String::new(alloc);
    for pair in pairs {
        if !out.is_empty() {
            out.push_str(" ")?;
        }
        out.push_str(pair_text(alloc, pair)?.as_str())?;
    }
    Ok(out)
}

/// A value at a position in words.
fn pair_text(alloc: Global, pair: &Pair) -> Result<String, AllocError> {
    let position = pair.position;
    let value = value_text(alloc, &pair.value)?;
    format!(in alloc; "at {position} {value}")
}

/// A message in words.
pub fn message_text(alloc: Global, message: &Message) -> Result<String, AllocError> {
    match message {
        Message::Prepare(ballot, from) => {
            let ballot = ballot_text(alloc, *ballot)?;
            format!(in alloc; "prepare {ballot} {from}")
        }
        Message::Promise(window) => window_text(alloc, window),
        Message::Accept(position, vote) => placed_text(alloc, "accept", *position, vote),
        Message::Accepted(position, vote) => placed_text(alloc, "accepted", *position, vote),
        Message::Chosen(pairs) => chosen_text(alloc, pairs),
        Message::CatchUp(from) => format!(in alloc; "catchup {from}"),
        Message::Submit(request) => request_text(alloc, "submit", request),
        Message::Reply(client, number, reply) => reply_text(alloc, *client, *number, *reply),
        Message::Ask(ask) => question_text(alloc, ask),
        Message::Answer(client, number, applied, answer) => {
            let answer = answer_text(alloc, answer)?;
            format!(in alloc; "answer {client} {number} {applied} {answer}")
        }
        Message::Behind(client, number, applied) => {
            format!(in alloc; "behind {client} {number} {applied}")
        }
        Message::Elsewhere(client, number, member) => {
            format!(in alloc; "elsewhere {client} {number} {member}")
        }
    }
}

/// A word, a position and a vote.
fn placed_text(
    alloc: Global,
    word: &str,
    position: u32,
    vote: &Vote,
) -> Result<String, AllocError> {
    let ballot = ballot_text(alloc, vote.ballot)?;
    let value = value_text(alloc, &vote.value)?;
    format!(in alloc; "{word} {position} {ballot} {value}")
}

/// A Promise in words.
fn window_text(alloc: Global, window: &Window) -> Result<String, AllocError> {
    let ballot = ballot_text(alloc, window.ballot)?;
    let (from, covered) = (window.from, window.covered);
    let mut out = format!(in alloc; "promise {ballot} {from} {covered}")?;
    for entry in &window.entries {
        out.push_str(placed_text(alloc, " vote", entry.position, &entry.vote)?.as_str())?;
    }
    Ok(out)
}

/// A Chosen in words.
fn chosen_text(alloc: Global, pairs: &[Pair]) -> Result<String, AllocError> {
    let told = pairs_text(alloc, pairs)?;
    if told.is_empty() {
        return String::from_str(alloc, "chosen");
    }
    format!(in alloc; "chosen {told}")
}

/// A word and a request.
fn request_text(alloc: Global, word: &str, request: &Request) -> Result<String, AllocError> {
    let (client, number, level) = (request.id().client, request.id().number, request.level());
    let text = quoted(alloc, request.text())?;
    format!(in alloc; "{word} {client} {number} {level} {text}")
}

/// A Reply in words.
fn reply_text(alloc: Global, client: u32, number: u64, reply: Reply) -> Result<String, AllocError> {
    match reply {
        Reply::Done(position) => format!(in alloc; "reply {client} {number} done {position}"),
        Reply::Fault(code, position) => {
            format!(in alloc; "reply {client} {number} fault {code} {position}")
        }
    }
}

/// An Ask in words.
fn question_text(alloc: Global, ask: &Ask) -> Result<String, AllocError> {
    let (client, number) = (ask.id().client, ask.id().number);
    let (floor, level) = (ask.floor(), ask.level());
    let text = quoted(alloc, ask.text())?;
    format!(in alloc; "ask {client} {number} {floor} {level} {text}")
}

/// What a question gives, in words.
fn answer_text(alloc: Global, answer: &Answer) -> Result<String, AllocError> {
    match answer {
        Answer::Text(text) => {
            let text = quoted(alloc, text.as_str())?;
            format!(in alloc; "text {text}")
        }
        Answer::Fault(code) => format!(in alloc; "fault {code}"),
    }
}

/// A text between two grave accents.
fn quoted(alloc: Global, text: &str) -> Result<String, AllocError> {
    let mut out = String::from_str(alloc, "`")?;
    for character in text.chars() {
        push_character(alloc, &mut out, character)?;
    }
    out.push_str("`")?;
    Ok(out)
}

/// Appends a character of a text: by its number where it would end the text, begin such a number, or is not seen on each screen.
fn push_character(alloc: Global, out: &mut String, character: char) -> Result<(), AllocError> {
    match character {
        '\n' => out.push_str("\\n"),
        '\r' => out.push_str("\\r"),
        '\t' => out.push_str("\\t"),
        ' '..='~' if character != '`' && character != '\\' => out.push(character),
        _ => {
            let code_point = u32::from(character);
            out.push_str(format!(in alloc; "\\u{{{code_point:x}}}")?.as_str())
        }
    }
}
