//! What a leader knows once it takes in one more message.

ghost use Rattle.std.specs.Prelude.{◌≡◌, ◌≤◌, ◌<◌, ◌+◌, ℕ, nat_le, List, length, true, false, None, IsSome, IfOk};
ghost use Rattle.std.specs.Option.{option_copied};
ghost use Rattle.ballots.specs.Ballot.{count};
ghost use Rattle.ballots.specs.Values.{positions, IsRising, most_open};
ghost use Rattle.ballots.specs.declared.value.Pair.{Pair as PairTerm};
ghost use Rattle.paxos.specs.Proposing.{Turn as TurnTerm, has_place, turn};
ghost use Rattle.paxos.specs.Records.{vote_at};
ghost use Rattle.proposer.specs.Beginning.{is_in};
ghost use Rattle.proposer.specs.Views.{View as ViewTerm, AreRising, cover_in, report_in_view, is_learnt_in, IsLastIn};
ghost use Rattle.proposer.specs.Turning.{HasGone, IsTurn};

use super::lead::Lead;
use ballots::limits::{MOST_OPEN, POSITIONS};
use ballots::{Entry, Members, Pair, Value, Vote};
use std::alloc::{AllocError, Global};
use std::marker::Model;

/// What a leader knows once it takes in a promise or learnt positions.
#[derive(Drop)]
pub(super) struct View<'a> {
    /// What it knew before.
    pub(super) lead: &'a Lead,
    /// The member that promises; 0 where none does.
    pub(super) member: u8,
    /// How far that member covers then.
    pub(super) covered: u32,
    /// The votes that the promise reports, by rising position.
    pub(super) entries: &'a [Entry],
    /// The positions that are newly learnt, rising.
    pub(super) learnt: &'a [u32],
}

impl<'a> Model for View<'a> {
    ghost use Rattle.proposer.specs.Views.{View as ViewTerm, IsView};

    ghost Value = { ViewTerm };

    ghost view = { λ v. record {
      lead = v.lead.now;
      member = v.member;
      covered = v.covered;
      entries = v.entries.now;
      learnt = v.learnt.now;
    } };

    ghost invariant = { λ v. IsView v.entries.now v.learnt.now };
}

/// What a leader came to by proposing.
#[derive(Drop)]
pub struct Made {
    /// The next position then.
    pub(super) next: u32,
    /// What it proposed, by rising position.
    pub(super) proposals: Vec<Pair>,
}

/// What a leader does at its next position.
#[derive(Drop)]
pub(super) enum Turn {
    /// Nothing.
    Stop,
    /// It passes the position, which is learnt.
    Pass,
    /// It proposes the value there.
    Propose(Value),
}

impl<'a> View<'a> {
    #[tactic(auto, unfolding(ballots::specs::Values::positions))]
    /// Goes on proposing from a position, where so many proposals are open, until it stops.
    ///
    /// It fails where memory is refused.
    pub(super) fn go_on(
        &self,
        alloc: Global,
        members: Members,
        waiting: usize,
        from: u32,
    ) -> Result<Made, AllocError>
        requires least { 1 ≤ from }
        requires most { waiting ≤ most_open }
        ensures next { IfOk result (λ made. 1 ≤ made.next) }
        ensures most { IfOk result (λ made. waiting + length made.proposals.items ≤ most_open) }
        ensures gone { IfOk result (λ made. (ps : List PairTerm) → length ps ≡ waiting → HasGone members self.now ps from made) }
    {
        let mut proposals = Vec::new(alloc);
        let mut next = from;
        while next <= POSITIONS {
            match self.turn(members, waiting + proposals.len(), next)? {
                Turn::Stop => return Ok(Made { next, proposals }),
                Turn::Pass => next += 1,
                Turn::Propose(value) => {
                    proposals.push(Pair {
                        position: next,
                        value,
                    })?;
                    next += 1;
                }
            }
        }
        Ok(Made { next, proposals })
    }

    /// What it does at the next position, where so many proposals are open.
    fn turn(&self, members: Members, waiting: usize, next: u32) -> Result<Turn, AllocError>
        ensures { IfOk result (λ r. (t : TurnTerm) → t.next ≡ next → length t.proposals ≡ waiting
            → IsTurn (turn members (cover_in self.now) (report_in_view self.now) (is_learnt_in self.now) t) t r) }
    {
        if !self.has_place(members, waiting, next) {
            return Ok(Turn::Stop);
        }
        if self.is_learnt(next) {
            return Ok(Turn::Pass);
        }
        if let Some(vote) = self.report(next) {
            return Ok(Turn::Propose(vote.value.clone()?));
        }
        if next < self.last_known() {
            return Ok(Turn::Propose(Value::NoOp));
        }
        Ok(Turn::Stop)
    }

    /// How far a member's windows cover.
    fn cover(&self, member: u8) -> u32
        requires least { 1 ≤ member }
        ensures { result ≡ cover_in self.now member }
    {
        if member == self.member {
            self.covered
        } else {
            self.lead.cover(member)
        }
    }

    /// How many members' windows cover a position.
    fn covering(&self, members: Members, position: u32) -> u8
        ensures count { result ≡ count members (λ m. nat_le position (cover_in self.now m)) }
        ensures most { result ≤ members }
    {
        let mut found = 0;
        for before in 0..members.count() {
            if position <= self.cover(before + 1) {
                found += 1;
            }
        }
        found
    }

    #[tactic(auto, unfolding(ballots::specs::Values::positions))]
    /// Whether there is place, where so many proposals are open and this is the next position.
    pub(super) fn has_place(&self, members: Members, waiting: usize, next: u32) -> bool
        ensures { (t : TurnTerm) → t.next ≡ next → length t.proposals ≡ waiting → result ≡ has_place members (cover_in self.now) t }
    {
        waiting < MOST_OPEN
            && next <= POSITIONS
            && 2 * self.covering(members, next) > members.count()
    }

    /// The highest vote reported at a position.
    fn report(&self, position: u32) -> Option<&Vote>
        ensures { option_copied result ≡ report_in_view self.now position }
    {
        match (self.lead.report(position), entry_at(self.entries, position)) {
            (Some(known), Some(new)) => {
                if known.ballot.is_below(new.ballot) {
                    Some(new)
                } else {
                    Some(known)
                }
            }
            (Some(known), None) => Some(known),
            (None, new) => new,
        }
    }

    /// Whether a position is learnt.
    fn is_learnt(&self, position: u32) -> bool
        ensures { result ≡ is_learnt_in self.now position }
    {
        self.lead.is_learnt(position) || self.learnt.contains(&position)
    }

    /// The last position that has a report or is learnt, 0 where there is none.
    fn last_known(&self) -> u32
        ensures { IsLastIn self.now result }
    {
        let reported = last_entry(self.entries);
        let learnt = last_position(self.learnt);
        self.lead.last_known().max(reported).max(learnt)
    }
}

/// The vote at a position, if it is among the entries.
fn entry_at(entries: &[Entry], position: u32) -> Option<&Vote>
    ensures { option_copied result ≡ vote_at position entries.now }
{
    for entry in entries {
        if entry.position == position {
            return Some(&entry.vote);
        }
    }
    None
}

/// The position of the last of entries that rise, 0 where there is none.
fn last_entry(entries: &[Entry]) -> u32
    requires rising { AreRising 1 entries.now }
    ensures most { result ≤ positions }
    ensures above { (p : ℕ) → result < p → vote_at p entries.now ≡ None }
    ensures there { 0 < result → IsSome (vote_at result entries.now) }
{
    match entries.last() {
        Some(entry) => entry.position,
        None => 0,
    }
}

/// The last of positions that rise, 0 where there is none.
fn last_position(learnt: &[u32]) -> u32
    requires rising { IsRising 1 learnt.now }
    ensures most { result ≤ positions }
    ensures above { (p : ℕ) → result < p → is_in p learnt.now ≡ false }
    ensures there { 0 < result → is_in result learnt.now ≡ true }
{
    match learnt.last() {
        Some(position) => *position,
        None => 0,
    }
}
