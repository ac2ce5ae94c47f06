//! Ballots, members and majorities.

ghost use Rattle.std.specs.Prelude.{◌≡◌, ◌≤◌, ◌<◌, ◌⊎◌, ◌↔◌, None, IfSome, IsTrue};
ghost use Rattle.ballots.specs.Ballot.{IsBallot, IsBallotOf, below, is_majority, has_member, most_members};

use super::limits::{LAST_ROUND, MOST_MEMBERS};
use std::marker::Model;

/// A round, and the member that began it: a proposal number of "Paxos Made Simple", section 2.2. The round decides first.
///
/// Round 0 of member 0 stands for no ballot, and is below each other one.
#[derive(Clone, Copy, PartialEq, Eq, PartialOrd, Ord, Hash, Debug)]
pub struct Ballot {
    /// The round, 1 to 2^40 - 1.
    pub round: u64,
    /// The member, 1 to 63.
    pub member: u8,
}

impl Ballot {
    /// No ballot.
    pub const NONE: Ballot = Ballot {
        round: 0,
        member: 0,
    };

    /// Whether this ballot is below the other one.
    pub fn is_below(self, other: Ballot) -> bool
        ensures { result ≡ below self other }
    {
        self.round < other.round || (self.round == other.round && self.member < other.member)
    }

    /// Whether its round is 1 to 2^40 - 1, and its member 1 to 63. `NONE` is not valid.
    #[tactic(auto, unfolding(crate::specs::Ballot::last_round))]
    pub fn is_valid(self) -> bool
        ensures { IsTrue result ↔ IsBallot self }
    {
        1 <= self.round
            && self.round <= LAST_ROUND
            && 1 <= self.member
            && self.member <= MOST_MEMBERS
    }

    /// Whether it is a valid ballot, of one of the members 1 to `members`.
    pub fn is_of(self, members: u32) -> bool
        ensures { IsTrue result ↔ IsBallotOf members self }
    {
        self.is_valid() && u32::from(self.member) <= members
    }
}

/// How many members there are, 1 to 63. They are numbered from 1.
#[derive(Clone, Copy, PartialEq, Eq, Debug)]
pub struct Members(u8);

impl Model for Members {
    ghost use Rattle.std.specs.Prelude.{ℕ, ◌≤◌};
    ghost use Rattle.ballots.specs.Ballot.{most_members};

    ghost Value = { ℕ };

    ghost view = { λ a. a.0 };

    ghost invariant = { λ a. (1 ≤ a.0) × (a.0 ≤ most_members) };

    ghost inverse = { λ n. record { 0 = n } };
}

impl Members {
    /// So many members; there are none where it isn't 1 to 63.
    pub fn new(count: u8) -> Option<Members>
        ensures made { IfSome result (λ n. n ≡ count) }
        ensures range { (result ≡ None) ↔ ((count ≡ 0) ⊎ (most_members < count)) }
    {
        if count == 0 || count > MOST_MEMBERS {
            return None;
        }
        Some(Members(count))
    }

    /// How many there are.
    pub fn count(self) -> u8
        ensures count { result ≡ self }
        ensures least { 1 ≤ self }
        ensures most { self ≤ most_members }
    {
        self.0
    }

    /// Whether the members of a mask are a majority: more than half of all, so that any two majorities have a member in common
    /// ("Paxos Made Simple", section 2.1). Bit `m - 1` is member `m`'s, and bits of no member are ignored.
    pub fn is_majority(self, mask: u64) -> bool
        ensures { result ≡ is_majority self (has_member mask) }
    {
        let mut found: u8 = 0;
        for member in 1..=self.0 {
            if has_member(mask, member) {
                found += 1;
            }
        }
        2 * found > self.0
    }
}

/// Whether a member is in the set that a mask stands for.
fn has_member(mask: u64, member: u8) -> bool
    requires least { 1 ≤ member }
    requires most { member ≤ 64 }
    ensures { result ≡ has_member mask member }
{
    mask >> (member - 1) & 1 == 1
}
