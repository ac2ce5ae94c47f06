//! What a leader says, as a member sends it.

ghost use Rattle.std.specs.Prelude.{◌≡◌, ℕ, [], ◌∷◌, ◌++◌, map, Some, IfOk, OnOk};
ghost use Rattle.proposer.specs.Knowing.{accepts_first, prepares_first};
ghost use Rattle.member.specs.Drafts.{AreShort, Says, accept_send, prepare_send, send_to};
ghost use Rattle.member.specs.Steps.{all_packets};

use super::draft::{Change, Draft};
use super::outcome::{Send, Target};
use ballots::{Ballot, Message, Pair, Vote};
use proposer::Sends;
use std::alloc::{AllocError, Global};

/// The Prepares, then the Accepts; nothing where it doesn't lead.
///
/// It fails where memory is refused.
pub(super) fn prepares_first(alloc: Global, said: &Option<Sends>) -> Result<Vec<Send>, AllocError>
    ensures sends { IfOk result (λ v. (n m : ℕ) → all_packets n m v.items ≡ prepares_first n m said.now) }
    ensures short { IfOk result (λ v. AreShort v.items) }
{
    match said {
        Some(said) => prepares_then_accepts(alloc, said),
        None => Ok(Vec::new(alloc)),
    }
}

/// The Prepares, then the Accepts.
///
/// It fails where memory is refused.
pub(super) fn prepares_then_accepts(alloc: Global, said: &Sends) -> Result<Vec<Send>, AllocError>
    ensures sends { IfOk result (λ v. (n m : ℕ) → all_packets n m v.items ≡ prepares_first n m (Some said.now)) }
    ensures short { IfOk result (λ v. AreShort v.items) }
{
    let mut sends = Vec::new(alloc);
    push_prepares(&mut sends, said)?;
    push_accepts(&mut sends, said)?;
    Ok(sends)
}

/// The Accepts, then the Prepares; nothing where it doesn't lead.
///
/// It fails where memory is refused.
pub(super) fn accepts_first(alloc: Global, said: &Option<Sends>) -> Result<Vec<Send>, AllocError>
    ensures sends { IfOk result (λ v. (n m : ℕ) → all_packets n m v.items ≡ accepts_first n m said.now) }
    ensures short { IfOk result (λ v. AreShort v.items) }
{
    let mut sends = Vec::new(alloc);
    let Some(said) = said else {
        return Ok(sends);
    };
    push_accepts(&mut sends, said)?;
    push_prepares(&mut sends, said)?;
    Ok(sends)
}

/// Adds the Prepares.
fn push_prepares(sends: &mut Vec<Send>, said: &Sends) -> Result<(), AllocError>
    ensures { OnOk result (sends.new.items ≡ sends.old.items ++ map (prepare_send said.now.ballot) said.now.prepares.items) }
{
    for asked in &said.prepares {
        sends.push(Send {
            to: Target::One(asked.member),
            message: Message::Prepare(said.ballot, asked.from),
        })?;
    }
    Ok(())
}

/// Adds the Accepts, each to all.
fn push_accepts(sends: &mut Vec<Send>, said: &Sends) -> Result<(), AllocError>
    ensures { OnOk result (sends.new.items ≡ sends.old.items ++ map (accept_send said.now.ballot) said.now.accepts.items) }
{
    for pair in &said.accepts {
        push_accept(sends, said.ballot, pair)?;
    }
    Ok(())
}

/// Adds the Accept of a value.
fn push_accept(sends: &mut Vec<Send>, ballot: Ballot, pair: &Pair) -> Result<(), AllocError>
    ensures { OnOk result (sends.new.items ≡ sends.old.items ++ accept_send ballot pair.now ∷ []) }
{
    let vote = Vote {
        ballot,
        value: pair.value.clone()?,
    };
    sends.push(Send {
        to: Target::All,
        message: Message::Accept(pair.position, vote),
    })?;
    Ok(())
}

/// A draft of nothing.
pub(super) fn quiet(alloc: Global) -> Draft
    ensures { Says result [] Change.Nothing }
{
    Draft {
        sends: Vec::new(alloc),
        tells: Vec::new(alloc),
        change: Change::Nothing,
    }
}

/// A draft of one message.
///
/// It fails where memory is refused.
pub(super) fn say(
    alloc: Global,
    to: Target,
    message: Message,
    change: Change,
) -> Result<Draft, AllocError>
    ensures { IfOk result (λ d. Says d (send_to to message ∷ []) change) }
{
    let mut sends = Vec::new(alloc);
    sends.push(Send { to, message })?;
    Ok(Draft {
        sends,
        tells: Vec::new(alloc),
        change,
    })
}
