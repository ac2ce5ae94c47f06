//! What a proposer sends.

use ballots::{Ballot, Pair};

/// A Prepare to one member.
#[derive(Drop)]
pub struct Asked {
    /// The member.
    pub member: u8,
    /// The first position that it is asked for.
    pub from: u32,
}

/// The messages of a leader ("Paxos Made Simple", sections 2.2 and 3): Prepares to single members, and Accepts, each to all members.
#[derive(Drop)]
pub struct Sends {
    /// The leader's ballot.
    pub ballot: Ballot,
    /// The Prepares.
    pub prepares: Vec<Asked>,
    /// What the Accepts propose.
    pub accepts: Vec<Pair>,
}
