//! How what comes of calls is printed.

use crate::steps::Refusal;
use ballots::{Ballot, Pair};
use member::{Outcome, Send, Target};
use message_words::{ballot_text, message_text, pairs_text};
use rows::RowFault;
use std::alloc::{AllocError, Global};

/// What is sent and told; nothing where that is nothing.
pub(super) fn outcome_text(
    alloc: Global,
    sends: &[Send],
    tells: &[Pair],
) -> Result<String, AllocError> {
    let mut out = String::new(alloc);
    for send in sends {
        if !out.is_empty() {
            out.push_str(", ")?;
        }
        out.push_str(send_text(alloc, send)?.as_str())?;
    }
    if !tells.is_empty() {
        out.push_str(if out.is_empty() { "told " } else { " told " })?;
        out.push_str(pairs_text(alloc, tells)?.as_str())?;
    }
    if out.is_empty() {
        out.push_str("nothing")?;
    }
    Ok(out)
}

/// To whom a message goes, and the message.
fn send_text(alloc: Global, send: &Send) -> Result<String, AllocError> {
    let message = message_text(alloc, &send.message)?;
    match send.to {
        Target::One(member) => format!(in alloc; "to {member} {message}"),
        Target::All => format!(in alloc; "to all {message}"),
        Target::Others => format!(in alloc; "to others {message}"),
        Target::Client => format!(in alloc; "to client {message}"),
    }
}

/// What a call gives that is refused.
pub(super) fn refusal_text(alloc: Global, refusal: Refusal) -> Result<String, RowFault> {
    match refusal {
        Refusal::Unheard => named(alloc, "unheard"),
        Refusal::Spent => named(alloc, "spent"),
        Refusal::Store => named(alloc, "store"),
        Refusal::Stopped => named(alloc, "stopped"),
        Refusal::Memory => Err(RowFault::Memory),
        Refusal::Changed => Err(RowFault::NotARow),
    }
}

/// What a step gives, in words; where memory is refused, which the step was not, it is printed again.
pub(super) fn printed(alloc: Global, outcome: &Outcome) -> Result<String, RowFault> {
    match outcome_text(alloc, &outcome.sends, &outcome.tells) {
        Ok(text) => Ok(text),
        Err(_) => Ok(outcome_text(alloc, &outcome.sends, &outcome.tells)?),
    }
}

/// What would have been sent and told, and a promise.
pub(super) fn stopped_text(
    alloc: Global,
    sent: &str,
    promised: Ballot,
) -> Result<String, AllocError> {
    let ballot = ballot_text(alloc, promised)?;
    format!(in alloc; "{sent} promised {ballot}")
}

/// A name as what a call gives.
fn named(alloc: Global, name: &str) -> Result<String, RowFault> {
    Ok(String::from_str(alloc, name)?)
}
