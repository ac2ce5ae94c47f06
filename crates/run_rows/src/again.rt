//! Calls of states that are made again where memory is refused.
//!
//! `again CALL ..` makes the calls of `state` but for `to`. A second state takes the same values. Where memory is refused, the state is
//! compared with the second one, which has taken all earlier values and not this one; then the call is made again. Compared is what the
//! reading calls give: how many values were applied, the next identity, the reply that is kept for each request of the row, and the answer
//! to `doc("db")`. Where both have taken a value, they are compared again, so a call that is made again gives what it gives with memory.

use super::states;
use ballots::{Reply, Value};
use held_values::beside;
use rows::{RowFault, Words};
use sessions::State;
use std::alloc::Global;

/// How many calls a row has at most, and how often a call is made.
const MOST_CALLS: u32 = 1_000;

const MOST_TRIES: u32 = 3;

/// A state, one that has taken the same values, and the numbers of the requests among these.
#[derive(Drop)]
struct Pair {
    state: State,
    second: State,
    numbers: Vec<u64>,
}

/// `again CALL ..`: what the calls give.
pub(super) fn again(alloc: Global, words: &mut Words<'_>) -> Result<String, RowFault> {
    let (state, second) = beside(states::opened(alloc)?, states::opened(alloc))?;
    let mut pair = Pair {
        state,
        second,
        numbers: Vec::new(alloc),
    };
    all_called(alloc, &mut pair, words)
}

/// Takes the calls, and gives what they gave.
fn all_called(alloc: Global, pair: &mut Pair, words: &mut Words<'_>) -> Result<String, RowFault> {
    let mut out = String::new(alloc);
    for _ in 0..MOST_CALLS {
        if words.is_empty() {
            return Ok(out);
        }
        let given = called(alloc, pair, words)?;
        states::push_given(&mut out, &given)?;
    }
    Err(RowFault::NotARow)
}

/// Takes the next call, and gives what it gave.
fn called(alloc: Global, pair: &mut Pair, words: &mut Words<'_>) -> Result<String, RowFault> {
    let mut ahead = *words;
    match ahead.plain()? {
        "submit" => {
            *words = ahead;
            submit(alloc, pair, 1, words)
        }
        "submit2" => {
            *words = ahead;
            submit(alloc, pair, 2, words)
        }
        "noop" => {
            *words = ahead;
            apply(alloc, pair, &Value::NoOp)
        }
        "to" => Err(RowFault::NotARow),
        _ => states::called(alloc, &mut pair.state, words),
    }
}

/// `NUMBER TEXT`: a request of that level of the language, applied to both states.
fn submit(
    alloc: Global,
    pair: &mut Pair,
    level: u8,
    words: &mut Words<'_>,
) -> Result<String, RowFault> {
    let request = states::request_at(alloc, level, words)?;
    pair.numbers.push(request.id().number)?;
    apply(alloc, pair, &Value::Request(request))
}

/// Applies a value to both states. Gives the reply, or what is not as it should be.
fn apply(alloc: Global, pair: &mut Pair, value: &Value) -> Result<String, RowFault> {
    let reply = match applied(alloc, pair, value)? {
        Some(reply) => reply,
        None => return Ok(String::from_str(alloc, "changed")?),
    };
    let second = repeated(alloc, &mut pair.second, value)?;
    if reply != second || !are_alike(alloc, pair)? {
        return Ok(String::from_str(alloc, "not alike")?);
    }
    Ok(states::reply_text(alloc, Some(reply))?)
}

/// Applies a value to the first state, again where memory is refused. Gives the reply, or nothing where a refusal has changed something.
fn applied(alloc: Global, pair: &mut Pair, value: &Value) -> Result<Option<Reply>, RowFault> {
    for _ in 0..MOST_TRIES {
        let reply = states::run(alloc, &mut pair.state, value)?;
        if reply.is_some() {
            return Ok(reply);
        }
        if !are_alike(alloc, pair)? {
            return Ok(None);
        }
    }
    Err(RowFault::Memory)
}

/// Applies a value to a state, again where memory is refused, and gives the reply.
fn repeated(alloc: Global, state: &mut State, value: &Value) -> Result<Reply, RowFault> {
    for _ in 0..MOST_TRIES {
        if let Some(reply) = states::run(alloc, state, value)? {
            return Ok(reply);
        }
    }
    Err(RowFault::Memory)
}

/// Whether the reading calls of both states give the same.
fn are_alike(alloc: Global, pair: &Pair) -> Result<bool, RowFault> {
    if pair.state.applied() != pair.second.applied()
        || pair.state.forest().next() != pair.second.forest().next()
    {
        return Ok(false);
    }
    for number in pair.numbers.iter() {
        if pair.state.reply_of(1, *number) != pair.second.reply_of(1, *number) {
            return Ok(false);
        }
    }
    Ok(document(alloc, &pair.state)? == document(alloc, &pair.second)?)
}

/// The answer to `doc("db")`, asked again where memory is refused.
fn document(alloc: Global, state: &State) -> Result<String, RowFault> {
    for _ in 0..MOST_TRIES {
        if let Ok(answer) = states::answer_text(alloc, state, "doc(\"db\")") {
            return Ok(answer);
        }
    }
    Err(RowFault::Memory)
}
