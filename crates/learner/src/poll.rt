//! The votes heard at one position.

ghost use Rattle.std.specs.Prelude.{◌≡◌, ◌≤◌, ◌+◌, if◌then◌else◌, true, false, [], ◌∷◌, ◌++◌, length, IfOk, OnErr, OnOk};
ghost use Rattle.ballots.specs.declared.value.Vote.{Vote};
ghost use Rattle.learner.specs.Polls.{has_vote, heard_in, mask_in, mask_with, with_room, with_voter};
ghost use Rattle.ballots.specs.Ballot.{most_members};

use ballots::Vote;
use std::alloc::{AllocError, Global};
use std::marker::Model;

/// A vote, and the members that were heard to have accepted it.
#[derive(Drop)]
pub(super) struct Voters {
    /// The vote.
    pub(super) vote: Vote,
    /// The members: bit `m - 1` is member `m`'s. With no members it is room for the vote.
    pub(super) mask: u64,
}

/// The votes heard at one position, each with the members that accepted it.
#[derive(Drop)]
pub(super) struct Poll {
    voters: Vec<Voters>,
}

impl Model for Poll {
    ghost use Rattle.std.specs.Prelude.{List};
    ghost use Rattle.learner.specs.declared.poll.Voters.{Voters};

    ghost Value = { List Voters };

    ghost view = { λ p. p.voters.items };
}

impl Poll {
    /// No votes.
    pub(super) fn new(alloc: Global) -> Poll
        ensures { result ≡ [] }
    {
        Poll {
            voters: Vec::new(alloc),
        }
    }

    /// How many votes there are, with the room for one.
    pub(super) fn len(&self) -> usize
        ensures { result ≡ length self.now }
    {
        self.voters.len()
    }

    /// How many votes somebody accepted.
    pub(super) fn heard(&self) -> usize
        ensures { result ≡ heard_in self.now }
    {
        self.voters.iter().filter(|voters| voters.mask != 0).count()
    }

    /// The members that accepted a vote.
    pub(super) fn mask_of(&self, vote: &Vote) -> u64
        ensures { result ≡ mask_in vote.now self.now }
    {
        for voters in &self.voters {
            if vote.is_same(&voters.vote) {
                return voters.mask;
            }
        }
        0
    }

    /// Whether there is the vote, or room for it.
    pub(super) fn has(&self, vote: &Vote) -> bool
        ensures { result ≡ has_vote vote.now self.now }
    {
        for voters in &self.voters {
            if vote.is_same(&voters.vote) {
                return true;
            }
        }
        false
    }

    /// Makes room for a vote. Says whether there was none. Where memory is refused, nothing changes.
    pub(super) fn reserve(&mut self, vote: &Vote) -> Result<bool, AllocError>
        ensures made { OnOk result (self.new ≡ with_room vote.now self.old) }
        ensures grew { IfOk result (λ b. length self.new ≡ length self.old + (if b then 1 else 0)) }
        ensures refused { OnErr result (self.new ≡ self.old) }
    {
        if self.has(vote) {
            return Ok(false);
        }
        self.voters.push(Voters {
            vote: vote.clone()?,
            mask: 0,
        })?;
        Ok(true)
    }

    /// Takes away the last vote, if it is room alone. Says whether it was.
    pub(super) fn forget_room(&mut self) -> bool
        ensures taken { result ≡ true → (vote : Vote) × (self.old ≡ self.new ++ record { vote = vote; mask = 0 } ∷ []) }
        ensures same { result ≡ false → self.new ≡ self.old }
    {
        let count = self.voters.len();
        if count == 0 || self.voters[count - 1].mask != 0 {
            return false;
        }
        self.voters.pop();
        true
    }

    /// Adds a member to those that accepted a vote, which is there or has room. Says whether nobody had accepted it before.
    pub(super) fn count(&mut self, member: u8, vote: &Vote) -> bool
        requires least { 1 ≤ member }
        requires most { member ≤ most_members }
        requires room { has_vote vote.now self.old ≡ true }
        ensures counted { self.new ≡ with_voter member vote.now self.old }
        ensures grew { heard_in self.new ≡ heard_in self.old + (if result then 1 else 0) }
    {
        add(&mut self.voters, member, vote)
    }
}

/// A mask with a member's bit.
pub(super) fn mask_with(mask: u64, member: u8) -> u64
    requires least { 1 ≤ member }
    requires most { member ≤ most_members }
    ensures { result ≡ mask_with mask member }
{
    mask | 1 << (member - 1)
}

/// Adds a member to those that accepted a vote, which is there. Says whether nobody had accepted it before.
fn add(voters: &mut [Voters], member: u8, vote: &Vote) -> bool
    requires least { 1 ≤ member }
    requires most { member ≤ most_members }
    requires room { has_vote vote.now voters.old ≡ true }
    ensures added { voters.new ≡ with_voter member vote.now voters.old }
    ensures grew { heard_in (with_voter member vote.now voters.old) ≡ heard_in voters.old + (if result then 1 else 0) }
{
    for heard in voters.iter_mut() {
        if vote.is_same(&heard.vote) {
            let is_first = heard.mask == 0;
            heard.mask = mask_with(heard.mask, member);
            return is_first;
        }
    }
    false
}
