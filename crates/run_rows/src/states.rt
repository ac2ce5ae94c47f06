//! Calls of states: of the one document `db`, before any value.
//!
//! `submit NUMBER TEXT` applies a request of client 1, `noop` the value that asks for nothing, and `to APPLIED` requests to insert an
//! element `a`, numbered by how many values were applied before, up to so many values; they give replies, `to` the last one or the first
//! that is not `done` at its position. `reply CLIENT NUMBER` is the reply that is kept. `ask TEXT` is the answer to a question, and `bytes
//! TEXT` how long it is. `seen` says how many values were applied, which identity is the next, how many children `db` has, and which is
//! the last of them; `inside` which nodes stand in that last one: each attribute's identity after a `@`, then each child's.

use ballots::limits::POSITIONS;
use ballots::{Answer, Reply, Request, RequestFault, RequestId, Value};
use data_model::NodeId;
use document_names::NamesFault;
use line_parts::read_names;
use rows::{RowFault, Words};
use sessions::State;
use std::alloc::{AllocError, Global};

/// How many calls a row has at most.
const MOST_CALLS: u32 = 1_000;

const INSERT_A: &str = "insert node element a {} into doc(\"db\")";

/// `state CALL ..`: what the calls give.
pub(super) fn state(alloc: Global, words: &mut Words<'_>) -> Result<String, RowFault> {
    let mut state = opened(alloc)?;
    all_called(alloc, &mut state, words)
}

/// Takes the calls, and gives what they gave.
fn all_called(alloc: Global, state: &mut State, words: &mut Words<'_>) -> Result<String, RowFault> {
    let mut out = String::new(alloc);
    for _ in 0..MOST_CALLS {
        if words.is_empty() {
            return Ok(out);
        }
        let given = called(alloc, state, words)?;
        push_given(&mut out, &given)?;
    }
    Err(RowFault::NotARow)
}

/// Appends what a call gave, after a bar where something stands there.
pub(super) fn push_given(out: &mut String, given: &str) -> Result<(), AllocError> {
    if !out.is_empty() {
        out.push_str(" | ")?;
    }
    out.push_str(given)
}

/// The state before any value.
pub(super) fn opened(alloc: Global) -> Result<State, RowFault> {
    match read_names(alloc, "db") {
        Ok(names) => State::new(alloc, &names).ok().ok_or(RowFault::Memory),
        Err(NamesFault::Memory) => Err(RowFault::Memory),
        Err(NamesFault::Wrong) => Err(RowFault::NotARow),
    }
}

/// Takes the next call, and gives what it gave.
pub(super) fn called(
    alloc: Global,
    state: &mut State,
    words: &mut Words<'_>,
) -> Result<String, RowFault> {
    match words.plain()? {
        "submit" => submit(alloc, state, 1, words),
        "submit2" => submit(alloc, state, 2, words),
        "noop" => apply(alloc, state, &Value::NoOp),
        "to" => insert_to(alloc, state, words),
        "reply" => kept(alloc, state, words),
        "ask" => answer(alloc, state, words),
        "bytes" => answer_length(alloc, state, words),
        "seen" => Ok(seen_text(alloc, seen(state))?),
        "inside" => Ok(inside(alloc, state)?),
        _ => Err(RowFault::NotARow),
    }
}

/// How many values were applied, the next identity, how many children `db` has, and the last of them.
type Seen = (u32, u64, usize, Option<u64>);

fn seen(state: &State) -> Seen {
    let children = children(state);
    let last = children.last().map(|id| id.number());
    (
        state.applied(),
        state.forest().next().number(),
        children.len(),
        last,
    )
}

/// The children of `db`.
fn children(state: &State) -> &[NodeId] {
    match state.forest().document("db") {
        Some(document) => state.forest().children(document),
        None => &[],
    }
}

fn seen_text(alloc: Global, (applied, next, children, last): Seen) -> Result<String, AllocError> {
    match last {
        Some(last) => format!(in alloc; "{applied} {next} {children} {last}"),
        None => format!(in alloc; "{applied} {next} {children} none"),
    }
}

/// The identities of the attributes of the last child of `db`, each after a `@`, and then those of its children; or `none`.
fn inside(alloc: Global, state: &State) -> Result<String, AllocError> {
    let mut text = String::new(alloc);
    let last = children(state).last().copied();
    if let Some(node) = last.and_then(|id| state.forest().node(id)) {
        push_identities(&mut text, "@", node.attributes)?;
        push_identities(&mut text, "", node.children)?;
    }
    if text.is_empty() {
        text.push_str("none")?;
    }
    Ok(text)
}

/// Appends identities, each after a mark.
fn push_identities(text: &mut String, mark: &str, ids: &[NodeId]) -> Result<(), AllocError> {
    for id in ids.iter() {
        let number = id.number();
        let space = if text.is_empty() { "" } else { " " };
        write!(text, "{space}{mark}{number}")?;
    }
    Ok(())
}

/// A request of client 1.
fn request_of(alloc: Global, number: u64, level: u8, text: &str) -> Result<Request, RowFault> {
    match Request::new(alloc, 1, number, level, text) {
        Ok(request) => Ok(request),
        Err(RequestFault::Memory) => Err(RowFault::Memory),
        Err(_) => Err(RowFault::NotARow),
    }
}

/// `NUMBER TEXT`: the reply to a request of that level of the language.
fn submit(
    alloc: Global,
    state: &mut State,
    level: u8,
    words: &mut Words<'_>,
) -> Result<String, RowFault> {
    let request = request_at(alloc, level, words)?;
    apply(alloc, state, &Value::Request(request))
}

/// `NUMBER TEXT`: a request of client 1, of that level of the language.
pub(super) fn request_at(
    alloc: Global,
    level: u8,
    words: &mut Words<'_>,
) -> Result<Request, RowFault> {
    let number = words.number()?;
    let text = words.text(alloc)?;
    request_of(alloc, number, level, &text)
}

/// Applies a value, and gives its reply, if memory is not refused. Fault: `NotARow` at the limit of values.
#[tactic(auto, unfolding(ballots::specs::Values::positions))]
pub(super) fn run(
    alloc: Global,
    state: &mut State,
    value: &Value,
) -> Result<Option<Reply>, RowFault> {
    if state.applied() >= POSITIONS {
        return Err(RowFault::NotARow);
    }
    Ok(state.run(alloc, value).ok())
}

/// The reply that is kept for a value.
fn kept_for(state: &State, value: &Value) -> Option<Reply> {
    match value {
        Value::NoOp => None,
        Value::Request(request) => state.reply_of(request.id().client, request.id().number),
    }
}

/// Applies a value, and gives its reply. Where memory is refused, the same call is made again, or `changed` is given where something has
/// changed.
fn apply(alloc: Global, state: &mut State, value: &Value) -> Result<String, RowFault> {
    let before = seen(state);
    let kept = kept_for(state, value);
    let mut reply = run(alloc, state, value)?;
    if reply.is_none() {
        if seen(state) != before || kept_for(state, value) != kept {
            return Ok(String::from_str(alloc, "changed")?);
        }
        reply = run(alloc, state, value)?;
    }
    let reply = reply.ok_or(RowFault::Memory)?;
    Ok(reply_text(alloc, Some(reply))?)
}

/// A reply, or `none`.
pub(super) fn reply_text(alloc: Global, reply: Option<Reply>) -> Result<String, AllocError> {
    match reply {
        Some(Reply::Done(position)) => format!(in alloc; "done {position}"),
        Some(Reply::Fault(code, position)) => format!(in alloc; "fault {code} {position}"),
        None => String::from_str(alloc, "none"),
    }
}

/// `APPLIED`: inserts elements `a` until so many values are applied, and gives the last reply, or the first one that is not `done` at its
/// position.
fn insert_to(alloc: Global, state: &mut State, words: &mut Words<'_>) -> Result<String, RowFault> {
    let to = u32::try_from(words.number()?)
        .ok()
        .ok_or(RowFault::NotARow)?;
    let mut given = String::from_str(alloc, "none")?;
    for applied in state.applied()..to {
        let (reply, is_done) = insert(alloc, state, applied)?;
        given = reply;
        if !is_done {
            break;
        }
    }
    Ok(given)
}

/// Inserts an element `a`, when so many values are applied. Gives the reply, and whether it is `done` at its position.
fn insert(alloc: Global, state: &mut State, applied: u32) -> Result<(String, bool), RowFault> {
    let request = request_of(alloc, u64::from(applied), 1, INSERT_A)?;
    let given = apply(alloc, state, &Value::Request(request))?;
    let wanted = reply_text(alloc, Some(Reply::Done(applied.wrapping_add(1))))?;
    let is_done = given == wanted;
    Ok((given, is_done))
}

/// `CLIENT NUMBER`: the reply that is kept.
fn kept(alloc: Global, state: &State, words: &mut Words<'_>) -> Result<String, RowFault> {
    let client = u32::try_from(words.number()?)
        .ok()
        .ok_or(RowFault::NotARow)?;
    let number = words.number()?;
    Ok(reply_text(alloc, state.reply_of(client, number))?)
}

/// The answer to a question. Fault: `NotARow` where the text is none.
fn answer_to(alloc: Global, state: &State, question: &str) -> Result<Answer, RowFault> {
    state
        .answer(alloc, 1, question)
        .ok()
        .ok_or(RowFault::Memory)
}

/// `TEXT`: the text of an answer, or its code.
fn answer(alloc: Global, state: &State, words: &mut Words<'_>) -> Result<String, RowFault> {
    let question = words.text(alloc)?;
    answer_text(alloc, state, &question)
}

/// The answer to a question, or its code.
pub(super) fn answer_text(
    alloc: Global,
    state: &State,
    question: &str,
) -> Result<String, RowFault> {
    let answer = answer_to(alloc, state, question)?;
    Ok(match &answer {
        Answer::Text(text) => {
            let text = text.as_str();
            format!(in alloc; "{text:?}")?
        }
        Answer::Fault(code) => code.to_string(alloc)?,
    })
}

/// `TEXT`: how many bytes an answer has, or its code.
fn answer_length(alloc: Global, state: &State, words: &mut Words<'_>) -> Result<String, RowFault> {
    let question = words.text(alloc)?;
    let answer = answer_to(alloc, state, &question)?;
    Ok(match &answer {
        Answer::Text(text) => text.len().to_string(alloc)?,
        Answer::Fault(code) => code.to_string(alloc)?,
    })
}

/// `request LEVEL TEXT`: the client, the number, the level and the length of the text of request 2 of client 1, or why there is none.
pub(super) fn request(alloc: Global, words: &mut Words<'_>) -> Result<String, RowFault> {
    let level = u8::try_from(words.number()?).ok().ok_or(RowFault::NotARow)?;
    let text = words.text(alloc)?;
    match Request::new(alloc, 1, 2, level, &text) {
        Ok(request) => Ok(shape(alloc, &request)?),
        Err(RequestFault::Memory) => Err(RowFault::Memory),
        Err(fault) => Ok(format!(in alloc; "{fault:?}")?),
    }
}

/// The client, the number, the level and the length of the text of a request.
fn shape(alloc: Global, request: &Request) -> Result<String, AllocError> {
    let RequestId { client, number } = request.id();
    let level = request.level();
    let bytes = request.text().len();
    format!(in alloc; "{client} {number} {level} {bytes}")
}
