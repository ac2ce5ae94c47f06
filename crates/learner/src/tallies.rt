//! The votes heard at the positions that are not learnt.

ghost use Rattle.std.specs.Prelude.{◌≡◌, ◌≤◌, ◌+◌, ◌-◌, ℕ, if◌then◌else◌, true, Some, [], length, IsSome, IfOk, OnErr, OnOk};
ghost use Rattle.std.specs.BTreeMap.{is_at};
ghost use Rattle.std.specs.Map.{lookup};
ghost use Rattle.std.specs.Ordering.{nat_cmp};
ghost use Rattle.ballots.specs.Ballot.{has_member, most_members};
ghost use Rattle.learner.specs.Hearing.{is_tallied};
ghost use Rattle.learner.specs.Polls.{has_vote, HasTally, IsAdded, IsCounted, IsForgotten, poll_at, tallies_of};
ghost use Rattle.learner.specs.Terms.{open_in};

use super::poll::Poll;
use ballots::Vote;
use std::alloc::{AllocError, Global};
use std::collections::BTreeMap;
use std::marker::Model;

/// The votes heard at the positions that are not learnt, each with the members that were heard to have accepted it.
///
/// A vote may also have room that is to be counted, so that it takes no memory then: it has no members yet.
#[derive(Drop)]
pub(super) struct Tallies {
    polls: BTreeMap<u32, Poll>,
    /// How many votes there are in all, with the room.
    votes: usize,
    /// How many of them somebody accepted.
    heard: usize,
    /// Where room was last made, which `forget_room` takes away.
    room: Option<u32>,
}

impl Model for Tallies {
    ghost use Rattle.std.specs.Prelude.{List};
    ghost use Rattle.learner.specs.Terms.{Tally};
    ghost use Rattle.learner.specs.Polls.{IsCounted, tallies_of};

    ghost Value = { List Tally };

    ghost view = { λ t. tallies_of t.polls.entries };

    ghost invariant = { λ t. IsCounted t.votes t.heard t.polls.entries };
}

impl Tallies {
    /// No votes.
    pub(super) fn new(alloc: Global) -> Tallies
        ensures { result ≡ [] }
    {
        Tallies {
            polls: BTreeMap::new(alloc),
            votes: 0,
            heard: 0,
            room: None,
        }
    }

    /// How many votes somebody accepted.
    pub(super) fn len(&self) -> usize
        ensures { result ≡ length (open_in self.now) }
    {
        self.heard
    }

    /// The members that accepted a vote at a position.
    pub(super) fn mask_of(&self, position: u32, vote: &Vote) -> u64
        ensures { (m : ℕ) → 1 ≤ m → has_member result m ≡ is_tallied self.now position vote.now m }
    {
        match self.polls.get(&position) {
            Some(poll) => poll.mask_of(vote),
            None => 0,
        }
    }

    /// Makes room for a vote at a position. Nothing but room changes. It fails where memory is refused.
    pub(super) fn reserve(
        &mut self,
        alloc: Global,
        position: u32,
        vote: &Vote,
    ) -> Result<(), AllocError>
        requires least { 1 ≤ position }
        ensures same { open_in self.new ≡ open_in self.old }
        ensures room { OnOk result (HasTally position vote.now self.new) }
    {
        // No memory holds as many votes as would pass the counter's range.
        if self.votes == usize::MAX {
            return Err(AllocError);
        }
        self.room = Some(position);
        make_poll(alloc, &mut self.polls, position)?;
        if reserve_at(&mut self.polls, position, vote)? {
            self.votes += 1;
        }
        Ok(())
    }

    /// Takes away the room that was last made, where it was not used.
    pub(super) fn forget_room(&mut self)
        ensures same { open_in self.new ≡ open_in self.old }
    {
        if let Some(position) = self.room.take() {
            if forget_room_at(&mut self.polls, position) {
                self.votes -= 1;
            }
            drop_empty(&mut self.polls, position);
        }
    }

    /// Adds a member to those that accepted a vote at a position, where the vote is there or has room. It takes no memory.
    pub(super) fn count(&mut self, member: u8, position: u32, vote: &Vote)
        requires least_member { 1 ≤ member }
        requires most_member { member ≤ most_members }
        requires room { HasTally position vote.now self.old }
        ensures { IsAdded member position vote.now self.old self.new }
    {
        if count_at(&mut self.polls, member, position, vote) {
            self.heard += 1;
        }
    }

    /// Takes away the votes of a position.
    pub(super) fn forget(&mut self, position: u32)
        ensures { IsForgotten position self.old self.new }
    {
        if let Some(poll) = self.polls.remove(&position) {
            self.votes -= poll.len();
            self.heard -= poll.heard();
        }
    }
}

/// Makes an empty list of votes at a position that has none.
fn make_poll(
    alloc: Global,
    polls: &mut BTreeMap<u32, Poll>,
    position: u32,
) -> Result<(), AllocError>
    requires least { 1 ≤ position }
    ensures same { tallies_of polls.new.entries ≡ tallies_of polls.old.entries }
    ensures counted { (n h : ℕ) → IsCounted n h polls.old.entries → IsCounted n h polls.new.entries }
    ensures room { OnOk result (IsSome (lookup (is_at (nat_cmp position)) polls.new.entries)) }
{
    if polls.contains_key(&position) {
        return Ok(());
    }
    match polls.insert(position, Poll::new(alloc)) {
        Ok(_) => Ok(()),
        Err(_) => Err(AllocError),
    }
}

/// Makes room for a vote at a position that has a list. Says whether there was none.
fn reserve_at(
    polls: &mut BTreeMap<u32, Poll>,
    position: u32,
    vote: &Vote,
) -> Result<bool, AllocError>
    requires room { IsSome (lookup (is_at (nat_cmp position)) polls.old.entries) }
    ensures same { open_in (tallies_of polls.new.entries) ≡ open_in (tallies_of polls.old.entries) }
    ensures counted { IfOk result (λ b. (n h : ℕ) → IsCounted n h polls.old.entries → IsCounted (n + (if b then 1 else 0)) h polls.new.entries) }
    ensures made { OnOk result ((n h : ℕ) → IsCounted n h polls.old.entries → HasTally position vote.now (tallies_of polls.new.entries)) }
    ensures refused { OnErr result (polls.new.entries ≡ polls.old.entries) }
{
    match polls.get_mut(&position) {
        Some(poll) => {
            let is_new = poll.reserve(vote)?;
            Ok(is_new)
        }
        None => Ok(false),
    }
}

/// Takes away the last vote at a position, if it is room alone. Says whether it was.
fn forget_room_at(polls: &mut BTreeMap<u32, Poll>, position: u32) -> bool
    ensures same { open_in (tallies_of polls.new.entries) ≡ open_in (tallies_of polls.old.entries) }
    ensures least { result ≡ true → 1 ≤ length (tallies_of polls.old.entries) }
    ensures counted { (n h : ℕ) → IsCounted n h polls.old.entries → IsCounted (n - (if result then 1 else 0)) h polls.new.entries }
{
    match polls.get_mut(&position) {
        Some(poll) => poll.forget_room(),
        None => false,
    }
}

/// Takes away the list of votes at a position, if it is empty.
fn drop_empty(polls: &mut BTreeMap<u32, Poll>, position: u32)
    ensures same { tallies_of polls.new.entries ≡ tallies_of polls.old.entries }
    ensures counted { (n h : ℕ) → IsCounted n h polls.old.entries → IsCounted n h polls.new.entries }
{
    if is_empty(polls, position) {
        polls.remove(&position);
    }
}

/// Whether a position has an empty list of votes.
fn is_empty(polls: &BTreeMap<u32, Poll>, position: u32) -> bool
    ensures { result ≡ true → lookup (is_at (nat_cmp position)) polls.now.entries ≡ Some [] }
{
    match polls.get(&position) {
        Some(poll) => poll.len() == 0,
        None => false,
    }
}

/// Adds a member to those that accepted a vote, at a position where the vote is there or has room. Says whether nobody had
/// accepted it before.
fn count_at(polls: &mut BTreeMap<u32, Poll>, member: u8, position: u32, vote: &Vote) -> bool
    requires least { 1 ≤ member }
    requires most { member ≤ most_members }
    requires room { has_vote vote.now (poll_at position polls.old.entries) ≡ true }
    ensures added { (n h : ℕ) → IsCounted n h polls.old.entries → IsAdded member position vote.now (tallies_of polls.old.entries) (tallies_of polls.new.entries) }
    ensures counted { (n h : ℕ) → IsCounted n h polls.old.entries → IsCounted n (h + (if result then 1 else 0)) polls.new.entries }
{
    match polls.get_mut(&position) {
        Some(poll) => poll.count(member, vote),
        None => false,
    }
}
