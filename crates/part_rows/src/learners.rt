//! Rows on learners: `learner MEMBERS CALLS`; `ran MEMBERS POSITION CALLS`, of which two have accepted the no-op at a position before; `resumed MEMBERS COUNT
//! CALLS`, which has learnt the no-op at so many positions.
//!
//! `accepted MEMBER POSITION BALLOT`: a member accepts the no-op there. `chosen POSITION ..`: the no-op is told as chosen there; `request POSITION`: request
//! 1 is. They give the positions that are learnt by that. `draft MEMBER POSITION BALLOT`: an acceptance is drafted, and the draft dropped.
//! `open` says how many votes are counted, `prefix` how many positions are learnt without a gap, `learnt POSITION` the number of the request that is learnt
//! there (0 for the no-op, `-` for nothing), `next POSITION` the lowest position from there on that is learnt.

ghost use Rattle.std.specs.Prelude.{◌≡◌, ◌≤◌, true};
ghost use Rattle.std.specs.List.{All};
ghost use Rattle.ballots.specs.Ballot.{most_members};
ghost use Rattle.ballots.specs.Values.{IsPosition, positions};
ghost use Rattle.learner.specs.Hearing.{AreAbove};
ghost use Rattle.learner.specs.Messages.{IsSent};

use crate::playing::{Played, play_all};
use crate::reading::{number_of, number_text, numbers_text, positions, said, value};
use ballots::limits::{MOST_MEMBERS, POSITIONS, is_position};
use ballots::{Ballot, Members, Pair, Value, Vote};
use learner::{Heard, Learner, run};
use message_words::{read_ballot, read_u8, read_u32};
use rows::{RowFault, Words};
use std::alloc::{AllocError, Global};

/// A learner, as calls of it show it.
#[derive(Drop)]
struct PlayedLearner {
    learner: Learner,
}

/// So many members.
fn members(words: &mut Words<'_>) -> Result<Members, RowFault> {
    Members::new(read_u8(words)?).ok_or(RowFault::NotARow)
}

/// A row on a learner that has heard nothing.
pub(super) fn row(alloc: Global, words: &mut Words<'_>) -> Result<String, RowFault> {
    let learner = Learner::new(alloc, members(words)?);
    play_all(alloc, &mut PlayedLearner { learner }, words.rest())
}

/// A row on a learner that has heard two members.
pub(super) fn row_run(alloc: Global, words: &mut Words<'_>) -> Result<String, RowFault> {
    let members = members(words)?;
    let position = read_u32(words)?;
    if !is_position(position) {
        return Err(RowFault::NotARow);
    }
    let learner = match run_of_two(alloc, members, position) {
        Ok(learner) => learner,
        Err(_) => run_of_two(alloc, members, position)?,
    };
    play_all(alloc, &mut PlayedLearner { learner }, words.rest())
}

/// A learner that has heard that members 1 and 2 accept the no-op at a position.
fn run_of_two(alloc: Global, members: Members, position: u32) -> Result<Learner, AllocError>
    requires { IsPosition position }
{
    run(
        alloc,
        members,
        &[accepted_by(1, position), accepted_by(2, position)],
    )
}

/// A member accepts the no-op at a position, in ballot 1,1.
fn accepted_by(member: u8, position: u32) -> Heard
    requires least { 1 ≤ member }
    requires most { member ≤ most_members }
    requires position { IsPosition position }
    ensures { IsSent result }
{
    let ballot = Ballot {
        round: 1,
        member: 1,
    };
    let value = Value::NoOp;
    Heard::Accepted(member, position, Vote { ballot, value })
}

/// A row on a learner that resumes.
pub(super) fn row_resumed(alloc: Global, words: &mut Words<'_>) -> Result<String, RowFault> {
    let members = members(words)?;
    let mut values = Vec::new(alloc);
    for _value in 0..read_u8(words)? {
        values.push(Value::NoOp)?;
    }
    let learner = match resumed(alloc, members, &values)? {
        Some(learner) => learner,
        None => resumed(alloc, members, &values)?.ok_or(RowFault::Memory)?,
    };
    play_all(alloc, &mut PlayedLearner { learner }, words.rest())
}

/// A learner that has learnt these values, but where memory is refused. Fault: `NotARow` where there are too many.
#[tactic(auto, unfolding(ballots::specs::Values::positions))]
fn resumed(alloc: Global, members: Members, values: &[Value]) -> Result<Option<Learner>, RowFault> {
    if values.len() > POSITIONS as usize {
        return Err(RowFault::NotARow);
    }
    Ok(Learner::resume(alloc, members, values).ok())
}

/// A member, a position and a ballot: that member accepts the no-op there.
fn read_accepted(words: &mut Words<'_>) -> Result<Heard, RowFault> {
    let member = read_u8(words)?;
    let position = read_u32(words)?;
    let ballot = read_ballot(words)?;
    let value = Value::NoOp;
    Ok(Heard::Accepted(member, position, Vote { ballot, value }))
}

/// Positions at which the value of a number is told as chosen.
fn read_chosen(alloc: Global, number: u64, words: &mut Words<'_>) -> Result<Heard, RowFault> {
    let mut pairs = Vec::new(alloc);
    for position in positions(alloc, words)? {
        let value = value(alloc, number)?;
        pairs.push(Pair { position, value })?;
    }
    Ok(Heard::Chosen(pairs))
}

/// Whether these are numbers of a member and of a position.
fn is_acceptance(member: u8, position: u32) -> bool
    ensures { result ≡ true → (1 ≤ member) × (member ≤ most_members) × IsPosition position }
{
    1 <= member && member <= MOST_MEMBERS && is_position(position)
}

/// Whether positions rise above one.
#[tactic(auto, unfolding(ballots::specs::Values::positions))]
fn are_rising(above: u32, pairs: &[Pair]) -> bool
    ensures rising { result ≡ true → AreAbove above pairs.now }
    ensures most { result ≡ true → All (λ e. e.position ≤ positions) pairs.now }
{
    match pairs {
        [] => true,
        [first, rest @ ..] => {
            above < first.position
                && first.position <= POSITIONS
                && are_rising(first.position, rest)
        }
    }
}

/// A learner hears a message. It gives the positions that are learnt by that.
fn hear(alloc: Global, learner: &mut Learner, message: &Heard) -> Result<Vec<u32>, RowFault> {
    match message {
        Heard::Accepted(member, position, vote) => {
            if !is_acceptance(*member, *position) {
                return Err(RowFault::NotARow);
            }
            Ok(learner.on_accepted(alloc, *member, *position, vote)?)
        }
        Heard::Chosen(pairs) => {
            if !are_rising(0, pairs) {
                return Err(RowFault::NotARow);
            }
            Ok(learner.on_chosen(alloc, pairs)?)
        }
    }
}

/// A learner drafts an acceptance, and the draft is dropped.
fn draft(alloc: Global, learner: &mut Learner, message: &Heard) -> Result<(), RowFault> {
    let Heard::Accepted(member, position, vote) = message else {
        return Err(RowFault::NotARow);
    };
    if !is_acceptance(*member, *position) {
        return Err(RowFault::NotARow);
    }
    let _dropped = learner.draft_accepted(alloc, *member, *position, vote)?;
    Ok(())
}

impl PlayedLearner {
    /// What it learns by a message.
    fn heard(&mut self, alloc: Global, message: &Heard) -> Result<String, RowFault> {
        let news = match hear(alloc, &mut self.learner, message) {
            Err(RowFault::Memory) => hear(alloc, &mut self.learner, message)?,
            given => given?,
        };
        Ok(numbers_text(alloc, &news)?)
    }

    /// Drafts an acceptance, and drops the draft.
    fn drop_draft(&mut self, alloc: Global, message: &Heard) -> Result<String, RowFault> {
        match draft(alloc, &mut self.learner, message) {
            Err(RowFault::Memory) => draft(alloc, &mut self.learner, message)?,
            given => given?,
        }
        said(alloc, "dropped")
    }

    /// What shows.
    fn shown(&self, alloc: Global, word: &str, words: &mut Words<'_>) -> Result<String, RowFault> {
        let number = match word {
            "open" => Some(self.learner.open_tallies() as u64),
            "prefix" => Some(u64::from(self.learner.prefix())),
            "learnt" => self.learner.learned(read_u32(words)?).map(number_of),
            "next" => self.learner.next_learned(read_u32(words)?).map(u64::from),
            _ => return Err(RowFault::NotARow),
        };
        Ok(number_text(alloc, number)?)
    }
}

impl Played for PlayedLearner {
    fn call(&mut self, alloc: Global, words: &mut Words<'_>) -> Result<String, RowFault> {
        match words.plain()? {
            "accepted" => self.heard(alloc, &read_accepted(words)?),
            "chosen" => self.heard(alloc, &read_chosen(alloc, 0, words)?),
            "request" => self.heard(alloc, &read_chosen(alloc, 1, words)?),
            "draft" => self.drop_draft(alloc, &read_accepted(words)?),
            word => self.shown(alloc, word, words),
        }
    }
}
