//! The body of each kind of message, read at the front of bytes.

ghost use Rattle.std.specs.Prelude.{◌≡◌, ◌≢◌, ◌<◌, ◌≤◌, IfOk, IfErr};
ghost use Rattle.paxos.specs.Lists.{at};
ghost use Rattle.ballots.specs.Messages.{body_of};
ghost use Rattle.ballots.specs.Replies.{answered};
ghost use Rattle.messages.specs.Reading.{Gives, Fails, prepare_read, promise_read, accept_read, accepted_read, chosen_read, catch_up_read, submit_read, reply_read, ask_read, ends_well, answer_after, answer_read, behind_read, elsewhere_read, bodies, body_of_kind};

use super::fault::WireFault;
use super::fields::{
    split_ballot, split_outcome, split_own_ballot, split_position, split_small, split_text,
    split_u32, split_u64, split_value,
};
use super::lists::{split_entries, split_pairs};
use ballots::limits::{MOST_ANSWER, MOST_BYTES, MOST_ENTRIES, MOST_LEVEL, MOST_MEMBERS, POSITIONS};
use ballots::{Answer, Ask, AskFault, Entry, Message, Reply, Request, RequestFault, Vote, Window};
use fault_codes::Code;
use std::alloc::Global;

#[tactic(auto, unfolding(ballots::specs::Values::positions))]
/// A Prepare, whose ballot has to be its sender's.
fn split_prepare(bytes: &[u8], sender: u8) -> Result<(Message, &[u8]), WireFault>
    ensures value { IfOk result (λ p. prepare_read sender bytes.now ≡ Gives (body_of p.0) p.1.now) }
    ensures fault { IfErr result (λ f. prepare_read sender bytes.now ≡ Fails f) }
{
    let (ballot, rest) = split_own_ballot(bytes, sender)?;
    let (from, rest) = split_position(rest, 1, POSITIONS)?;
    Ok((Message::Prepare(ballot, from), rest))
}

#[tactic(auto, unfolding(ballots::specs::Values::positions))]
/// An Accept, whose ballot has to be its sender's.
fn split_accept(alloc: Global, bytes: &[u8], sender: u8) -> Result<(Message, &[u8]), WireFault>
    ensures value { IfOk result (λ p. accept_read sender bytes.now ≡ Gives (body_of p.0) p.1.now) }
    ensures fault { IfErr result (λ f. f ≢ WireFault.Memory → accept_read sender bytes.now ≡ Fails f) }
{
    let (ballot, rest) = split_own_ballot(bytes, sender)?;
    let (position, rest) = split_position(rest, 1, POSITIONS)?;
    let (value, rest) = split_value(alloc, rest)?;
    Ok((Message::Accept(position, Vote { ballot, value }), rest))
}

#[tactic(auto, unfolding(ballots::specs::Values::positions))]
/// An Accepted.
fn split_accepted(alloc: Global, bytes: &[u8]) -> Result<(Message, &[u8]), WireFault>
    ensures value { IfOk result (λ p. accepted_read bytes.now ≡ Gives (body_of p.0) p.1.now) }
    ensures fault { IfErr result (λ f. f ≢ WireFault.Memory → accepted_read bytes.now ≡ Fails f) }
{
    let (ballot, rest) = split_ballot(bytes)?;
    let (position, rest) = split_position(rest, 1, POSITIONS)?;
    let (value, rest) = split_value(alloc, rest)?;
    Ok((Message::Accepted(position, Vote { ballot, value }), rest))
}

/// A Chosen.
fn split_chosen(alloc: Global, bytes: &[u8]) -> Result<(Message, &[u8]), WireFault>
    ensures value { IfOk result (λ p. chosen_read bytes.now ≡ Gives (body_of p.0) p.1.now) }
    ensures fault { IfErr result (λ f. f ≢ WireFault.Memory → chosen_read bytes.now ≡ Fails f) }
{
    let (count, rest) = split_small(bytes, 1, MOST_ENTRIES as u8)?;
    let (pairs, rest) = split_pairs(alloc, rest, count)?;
    Ok((Message::Chosen(pairs), rest))
}

#[tactic(auto, unfolding(ballots::specs::Values::positions))]
/// A CatchUp.
fn split_catch_up(bytes: &[u8]) -> Result<(Message, &[u8]), WireFault>
    ensures value { IfOk result (λ p. catch_up_read bytes.now ≡ Gives (body_of p.0) p.1.now) }
    ensures fault { IfErr result (λ f. catch_up_read bytes.now ≡ Fails f) }
{
    let (from, rest) = split_position(bytes, 1, POSITIONS)?;
    Ok((Message::CatchUp(from), rest))
}

/// A Submit.
fn split_submit(alloc: Global, bytes: &[u8]) -> Result<(Message, &[u8]), WireFault>
    ensures value { IfOk result (λ p. submit_read bytes.now ≡ Gives (body_of p.0) p.1.now) }
    ensures fault { IfErr result (λ f. f ≢ WireFault.Memory → submit_read bytes.now ≡ Fails f) }
{
    let (client, rest) = split_u32(bytes)?;
    let (number, rest) = split_u64(rest)?;
    let (level, rest) = split_small(rest, 1, MOST_LEVEL)?;
    let (text, rest) = split_text(rest, MOST_BYTES)?;
    match Request::new(alloc, client, number, level, text) {
        Ok(request) => Ok((Message::Submit(request), rest)),
        Err(RequestFault::Memory) => Err(WireFault::Memory),
        // The level and the text's length are checked above.
        Err(RequestFault::Level | RequestFault::TextTooLong) => Err(WireFault::Number),
    }
}

#[tactic(auto, unfolding(ballots::specs::Values::positions))]
/// A Reply.
fn split_reply(bytes: &[u8]) -> Result<(Message, &[u8]), WireFault>
    ensures value { IfOk result (λ p. reply_read bytes.now ≡ Gives (body_of p.0) p.1.now) }
    ensures fault { IfErr result (λ f. reply_read bytes.now ≡ Fails f) }
{
    let (client, rest) = split_u32(bytes)?;
    let (number, rest) = split_u64(rest)?;
    let (outcome, rest) = split_outcome(rest)?;
    let (position, rest) = split_position(rest, 1, POSITIONS)?;
    let reply = match outcome {
        None => Reply::Done(position),
        Some(code) => Reply::Fault(code, position),
    };
    Ok((Message::Reply(client, number, reply), rest))
}

#[tactic(auto, unfolding(ballots::specs::Values::positions))]
/// An Ask.
fn split_ask(alloc: Global, bytes: &[u8]) -> Result<(Message, &[u8]), WireFault>
    ensures value { IfOk result (λ p. ask_read bytes.now ≡ Gives (body_of p.0) p.1.now) }
    ensures fault { IfErr result (λ f. f ≢ WireFault.Memory → ask_read bytes.now ≡ Fails f) }
{
    let (client, rest) = split_u32(bytes)?;
    let (number, rest) = split_u64(rest)?;
    let (floor, rest) = split_position(rest, 0, POSITIONS)?;
    let (level, rest) = split_small(rest, 1, MOST_LEVEL)?;
    let (text, rest) = split_text(rest, MOST_BYTES)?;
    match Ask::new(alloc, client, number, floor, level, text) {
        Ok(ask) => Ok((Message::Ask(ask), rest)),
        Err(AskFault::Memory) => Err(WireFault::Memory),
        // The level, the text's length and the floor are checked above.
        Err(AskFault::Level | AskFault::TextTooLong | AskFault::Floor) => Err(WireFault::Number),
    }
}

#[tactic(auto, unfolding(ballots::specs::Values::positions))]
/// A Behind.
fn split_behind(bytes: &[u8]) -> Result<(Message, &[u8]), WireFault>
    ensures value { IfOk result (λ p. behind_read bytes.now ≡ Gives (body_of p.0) p.1.now) }
    ensures fault { IfErr result (λ f. behind_read bytes.now ≡ Fails f) }
{
    let (client, rest) = split_u32(bytes)?;
    let (number, rest) = split_u64(rest)?;
    let (applied, rest) = split_position(rest, 0, POSITIONS)?;
    Ok((Message::Behind(client, number, applied), rest))
}

/// An Elsewhere.
fn split_elsewhere(bytes: &[u8]) -> Result<(Message, &[u8]), WireFault>
    ensures value { IfOk result (λ p. elsewhere_read bytes.now ≡ Gives (body_of p.0) p.1.now) }
    ensures fault { IfErr result (λ f. elsewhere_read bytes.now ≡ Fails f) }
{
    let (client, rest) = split_u32(bytes)?;
    let (number, rest) = split_u64(rest)?;
    let (member, rest) = split_small(rest, 0, MOST_MEMBERS)?;
    Ok((Message::Elsewhere(client, number, member), rest))
}

/// Whether the positions that a Promise covers end with the last that there is, or with that of the eighth vote.
#[tactic(auto, unfolding(ballots::specs::Values::positions))]
fn covers_well(covered: u32, entries: &[Entry]) -> bool
    ensures { result ≡ ends_well covered entries.now }
{
    covered == POSITIONS
        || (entries.len() == MOST_ENTRIES && entries[MOST_ENTRIES - 1].position == covered)
}

#[tactic(auto, unfolding(ballots::specs::Values::positions))]
/// A Promise.
fn split_promise(alloc: Global, bytes: &[u8]) -> Result<(Message, &[u8]), WireFault>
    ensures value { IfOk result (λ p. promise_read bytes.now ≡ Gives (body_of p.0) p.1.now) }
    ensures fault { IfErr result (λ f. f ≢ WireFault.Memory → promise_read bytes.now ≡ Fails f) }
{
    let (ballot, rest) = split_ballot(bytes)?;
    let (from, rest) = split_position(rest, 1, POSITIONS)?;
    let (covered, rest) = split_position(rest, from, POSITIONS)?;
    let (count, rest) = split_small(rest, 0, MOST_ENTRIES as u8)?;
    let (entries, rest) = split_entries(alloc, rest, count, ballot, from, covered)?;
    if !covers_well(covered, entries.as_slice()) {
        return Err(WireFault::Number);
    }
    let window = Window {
        ballot,
        from,
        covered,
        entries,
    };
    Ok((Message::Promise(window), rest))
}

/// The text of an answer, or its fault's code if there is one.
fn split_answered(
    alloc: Global,
    bytes: &[u8],
    outcome: Option<Code>,
) -> Result<(Answer, &[u8]), WireFault>
    ensures value { IfOk result (λ p. answer_after outcome bytes.now ≡ Gives (answered p.0) p.1.now) }
    ensures fault { IfErr result (λ f. f ≢ WireFault.Memory → answer_after outcome bytes.now ≡ Fails f) }
{
    let Some(code) = outcome else {
        let (text, rest) = split_text(bytes, MOST_ANSWER)?;
        return match String::from_str(alloc, text) {
            Ok(text) => Ok((Answer::Text(text), rest)),
            Err(_) => Err(WireFault::Memory),
        };
    };
    Ok((Answer::Fault(code), bytes))
}

#[tactic(auto, unfolding(ballots::specs::Values::positions))]
/// An Answer.
fn split_answer(alloc: Global, bytes: &[u8]) -> Result<(Message, &[u8]), WireFault>
    ensures value { IfOk result (λ p. answer_read bytes.now ≡ Gives (body_of p.0) p.1.now) }
    ensures fault { IfErr result (λ f. f ≢ WireFault.Memory → answer_read bytes.now ≡ Fails f) }
{
    let (client, rest) = split_u32(bytes)?;
    let (number, rest) = split_u64(rest)?;
    let (applied, rest) = split_position(rest, 0, POSITIONS)?;
    let (outcome, rest) = split_outcome(rest)?;
    let (answer, rest) = split_answered(alloc, rest, outcome)?;
    Ok((Message::Answer(client, number, applied, answer), rest))
}

/// The body of a message of a kind, 1 to 12, from a sender.
///
/// Fault: `Kind` where there is no such kind; else the first from the left, `Short`, `Number` or `NotUtf8`, each field being checked as
/// soon as it is read; want of memory (`Memory`) may come in its place.
pub(super) fn split_body(
    alloc: Global,
    bytes: &[u8],
    kind: u8,
    sender: u8,
) -> Result<(Message, &[u8]), WireFault>
    ensures value { IfOk result (λ p. body_of_kind (at (bodies sender) kind) bytes.now ≡ Gives (body_of p.0) p.1.now) }
    ensures fault { IfErr result (λ f. f ≢ WireFault.Memory → body_of_kind (at (bodies sender) kind) bytes.now ≡ Fails f) }
{
    match kind {
        1 => split_prepare(bytes, sender),
        2 => split_promise(alloc, bytes),
        3 => split_accept(alloc, bytes, sender),
        4 => split_accepted(alloc, bytes),
        5 => split_chosen(alloc, bytes),
        6 => split_catch_up(bytes),
        7 => split_submit(alloc, bytes),
        8 => split_reply(bytes),
        9 => split_ask(alloc, bytes),
        10 => split_answer(alloc, bytes),
        11 => split_behind(bytes),
        12 => split_elsewhere(bytes),
        _ => Err(WireFault::Kind),
    }
}
