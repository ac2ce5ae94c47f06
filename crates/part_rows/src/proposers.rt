//! Rows on proposers: `proposer CALLS`, of member 2 of three.
//!
//! `begin BALLOT POSITION LEARNT ..`: it begins after that promise from the position on, of which and of those above these are learnt; it gives the ballot that
//! it leads with. `promise MEMBER FIRST LAST` and for each vote `vote POSITION MEMBER NUMBER`: the member promises ballot 2,2, and reports votes of ballots of
//! round 1. `learned POSITION ..`, `submit NUMBER`, `resend`. They give what is sent: `ask MEMBER POSITION` for each Prepare, then `at POSITION NUMBER` for each
//! Accept (0 is the no-op); `nothing` where that is nothing, `-` where there are no messages to send; or a refusal. `yield BALLOT`; `leads`; `open NUMBER`.

ghost use Rattle.std.specs.Prelude.{◌≡◌, ◌≤◌, true};
ghost use Rattle.ballots.specs.Messages.{window_of};
ghost use Rattle.ballots.specs.Values.{positions, IsRising};
ghost use Rattle.proposer.specs.Hearing.{AreBetween, IsWindow};

use crate::playing::{Played, play_all};
use crate::reading::{CLIENT, MOST, number_of, positions, push_word, request, said, yes_or_no};
use ballots::limits::POSITIONS;
use ballots::{Ballot, Entry, Members, Value, Vote, Window};
use message_words::{ballot_text, read_ballot, read_u8, read_u32};
use proposer::{Proposer, ProposerFault, Sends};
use rows::{RowFault, Words};
use std::alloc::{AllocError, Global};

/// The ballot that is led with.
const OWN: Ballot = Ballot {
    round: 2,
    member: 2,
};

/// A proposer, as calls of it show it.
#[derive(Drop)]
struct PlayedProposer {
    proposer: Proposer,
}

/// A row on a proposer that does not lead.
pub(super) fn row(alloc: Global, words: &Words<'_>) -> Result<String, RowFault> {
    let members = Members::new(3).ok_or(RowFault::NotARow)?;
    if members.count() < 2 {
        return Err(RowFault::NotARow);
    }
    let proposer = Proposer::new(members, 2);
    play_all(alloc, &mut PlayedProposer { proposer }, words.rest())
}

/// A position, a member whose ballot of round 1 it is, and the number of a request.
fn read_entry(alloc: Global, words: &mut Words<'_>) -> Result<Entry, RowFault> {
    let position = read_u32(words)?;
    let member = read_u8(words)?;
    let ballot = Ballot { round: 1, member };
    let value = Value::Request(request(alloc, words.number()?)?);
    let vote = Vote { ballot, value };
    Ok(Entry { position, vote })
}

/// The votes that are left in a call.
fn read_entries(alloc: Global, words: &mut Words<'_>) -> Result<Vec<Entry>, RowFault> {
    let mut entries = Vec::new(alloc);
    for _vote in 0..MOST {
        if words.is_empty() {
            break;
        }
        if words.plain()? != "vote" {
            return Err(RowFault::NotARow);
        }
        entries.push(read_entry(alloc, words)?)?;
    }
    Ok(entries)
}

/// The first and the last position that a promise tells, and its votes.
fn read_window(alloc: Global, words: &mut Words<'_>) -> Result<Window, RowFault> {
    let from = read_u32(words)?;
    let covered = read_u32(words)?;
    let entries = read_entries(alloc, words)?;
    Ok(Window {
        ballot: OWN,
        from,
        covered,
        entries,
    })
}

/// Whether the window is one that a member may send.
#[tactic(auto, unfolding(ballots::specs::Values::positions))]
fn is_window(window: &Window) -> bool
    ensures { result ≡ true → IsWindow (window_of window.now) }
{
    1 <= window.from
        && window.covered <= POSITIONS
        && are_between(&window.entries, window.from, window.covered)
}

/// Whether entries rise between two positions.
#[tactic(auto, unfolding(ballots::specs::Values::positions))]
fn are_between(entries: &[Entry], least: u32, most: u32) -> bool
    requires { most ≤ positions }
    ensures { result ≡ true → AreBetween least most entries.now }
{
    match entries {
        [] => true,
        [first, rest @ ..] => {
            least <= first.position
                && first.position <= most
                && are_between(rest, first.position + 1, most)
        }
    }
}

/// Whether positions rise from one on.
#[tactic(auto, unfolding(ballots::specs::Values::positions))]
fn is_rising(least: u32, learnt: &[u32]) -> bool
    ensures { result ≡ true → IsRising least learnt.now }
{
    match learnt {
        [] => true,
        [first, rest @ ..] => {
            least <= *first && *first <= POSITIONS && is_rising(*first + 1, rest)
        }
    }
}

/// What a call came to.
#[derive(Drop)]
enum Given {
    /// It led with a ballot from then on.
    Began(Ballot),
    /// That was sent, or nothing where there was nothing to say.
    Sent(Option<Sends>),
    /// It was refused.
    Refused(ProposerFault),
    /// Whether a request is open.
    IsOpen(bool),
    /// It yielded.
    Yielded,
    /// The ballot that it leads with, if any.
    Leads(Option<Ballot>),
}

/// What is refused. Fault: want of memory.
fn refused(fault: ProposerFault) -> Result<Given, RowFault> {
    match fault {
        ProposerFault::Memory => Err(RowFault::Memory),
        fault => Ok(Given::Refused(fault)),
    }
}

/// What a refusal is called. Fault: want of memory.
fn refusal(alloc: Global, fault: ProposerFault) -> Result<String, RowFault> {
    match fault {
        ProposerFault::Memory => Err(RowFault::Memory),
        ProposerFault::NoPlace => said(alloc, "no place"),
        ProposerFault::NoRound => said(alloc, "no round"),
        ProposerFault::NotLeading => said(alloc, "not leading"),
    }
}

/// What a call came to, in words.
fn given_text(alloc: Global, given: Given) -> Result<String, RowFault> {
    match given {
        Given::Began(ballot) => Ok(ballot_text(alloc, ballot)?),
        Given::Sent(sent) => sent_text(alloc, sent),
        Given::Refused(fault) => refusal(alloc, fault),
        Given::IsOpen(is_open) => yes_or_no(alloc, is_open),
        Given::Yielded => said(alloc, "ok"),
        Given::Leads(Some(ballot)) => Ok(ballot_text(alloc, ballot)?),
        Given::Leads(None) => said(alloc, "-"),
    }
}

/// Messages of ballot 2,2 in words. Fault: `NotARow` where they have another ballot.
fn sends_text(alloc: Global, sends: &Sends) -> Result<String, RowFault> {
    if sends.ballot != OWN {
        return Err(RowFault::NotARow);
    }
    let mut out = String::new(alloc);
    push_prepares(alloc, sends, &mut out)?;
    push_accepts(alloc, sends, &mut out)?;
    if out.is_empty() {
        out.push_str("nothing")?;
    }
    Ok(out)
}

/// Appends the Prepares.
fn push_prepares(alloc: Global, sends: &Sends, out: &mut String) -> Result<(), AllocError> {
    for asked in &sends.prepares {
        let (member, from) = (asked.member, asked.from);
        push_word(out, format!(in alloc; "ask {member} {from}")?.as_str())?;
    }
    Ok(())
}

/// Appends the Accepts.
fn push_accepts(alloc: Global, sends: &Sends, out: &mut String) -> Result<(), AllocError> {
    for pair in &sends.accepts {
        let (position, number) = (pair.position, number_of(&pair.value));
        push_word(out, format!(in alloc; "at {position} {number}")?.as_str())?;
    }
    Ok(())
}

/// What a call gives that may send something.
fn sent_text(alloc: Global, sent: Option<Sends>) -> Result<String, RowFault> {
    match sent {
        Some(sends) => sends_text(alloc, &sends),
        None => said(alloc, "-"),
    }
}

impl PlayedProposer {
    /// It begins.
    fn begin(
        &mut self,
        alloc: Global,
        promise: Ballot,
        from: u32,
        learnt: &[u32],
    ) -> Result<Given, RowFault> {
        if from < 1 || from > POSITIONS + 1 || !is_rising(from, learnt) {
            return Err(RowFault::NotARow);
        }
        match self.proposer.begin(alloc, promise, from, learnt) {
            Ok(ballot) => Ok(Given::Began(ballot)),
            Err(fault) => refused(fault),
        }
    }

    /// A member promises.
    fn promise(&mut self, alloc: Global, sender: u8, window: &Window) -> Result<Given, RowFault> {
        if sender < 1 || sender > self.proposer.members().count() || !is_window(window) {
            return Err(RowFault::NotARow);
        }
        Ok(Given::Sent(self.proposer.on_promise(alloc, sender, window)?))
    }

    /// Positions are learnt.
    fn learn(&mut self, alloc: Global, learnt: &[u32]) -> Result<Given, RowFault> {
        if !is_rising(1, learnt) {
            return Err(RowFault::NotARow);
        }
        Ok(Given::Sent(self.proposer.on_learned(alloc, learnt)?))
    }

    /// A request is submitted, which is not open.
    fn submit(&mut self, alloc: Global, number: u64) -> Result<Given, RowFault> {
        let request = request(alloc, number)?;
        if self
            .proposer
            .has_open(request.id().client, request.id().number)
        {
            return Err(RowFault::NotARow);
        }
        match self.proposer.submit(alloc, &request) {
            Ok(sends) => Ok(Given::Sent(Some(sends))),
            Err(fault) => refused(fault),
        }
    }

    /// What a call comes to, which is made once.
    fn call_once(
        &mut self,
        alloc: Global,
        word: &str,
        words: &mut Words<'_>,
    ) -> Result<Given, RowFault> {
        match word {
            "begin" => {
                let promise = read_ballot(words)?;
                let from = read_u32(words)?;
                self.begin(alloc, promise, from, &positions(alloc, words)?)
            }
            "promise" => {
                let sender = read_u8(words)?;
                self.promise(alloc, sender, &read_window(alloc, words)?)
            }
            "learned" => self.learn(alloc, &positions(alloc, words)?),
            "submit" => self.submit(alloc, words.number()?),
            "resend" => Ok(Given::Sent(self.proposer.resend(alloc)?)),
            "open" => Ok(Given::IsOpen(self.proposer.has_open(CLIENT, words.number()?))),
            "yield" => {
                self.proposer.yield_to(read_ballot(words)?);
                Ok(Given::Yielded)
            }
            "leads" => Ok(Given::Leads(self.proposer.leads())),
            _ => Err(RowFault::NotARow),
        }
    }
}

impl Played for PlayedProposer {
    fn call(&mut self, alloc: Global, words: &mut Words<'_>) -> Result<String, RowFault> {
        let word = words.plain()?;
        let start = *words;
        let given = match self.call_once(alloc, word, words) {
            Err(RowFault::Memory) => {
                *words = start;
                self.call_once(alloc, word, words)?
            }
            given => given?,
        };
        given_text(alloc, given)
    }
}
