//! Votes that are put into an acceptor, and Prepares that are answered over them.

ghost use Rattle.std.specs.Prelude.{◌≤◌};
ghost use Rattle.ballots.specs.Values.{positions};

use acceptor::Acceptor;
use ballots::{Ballot, Request, Value, Vote};
use records::MemRecords;
use std::alloc::Global;

/// The ballot of all votes.
const BALLOT: Ballot = Ballot {
    round: 1,
    member: 1,
};

/// How many Prepares are answered over the votes.
const PREPARES: u32 = 100_000;

/// An acceptor with votes at the positions up to this one.
pub fn put(alloc: Global, count: u32) -> Option<Acceptor<MemRecords>>
    requires { count ≤ positions }
{
    let mut acceptor = Acceptor::open(alloc, MemRecords::new(alloc)).ok()?;
    vote_up_to(alloc, &mut acceptor, count)?;
    Some(acceptor)
}

#[tactic(auto, unfolding(ballots::specs::Ballot::last_round, ballots::specs::Values::positions))]
/// Puts votes at the positions up to this one.
fn vote_up_to(alloc: Global, acceptor: &mut Acceptor<MemRecords>, count: u32) -> Option<()>
    requires { count ≤ positions }
{
    for position in 1..=count {
        let request = Request::new(alloc, 1, u64::from(position), 1, "doc(\"db\")/a").ok()?;
        let vote = Vote {
            ballot: BALLOT,
            value: Value::Request(request),
        };
        acceptor.on_accept(alloc, position, &vote).ok()?;
    }
    Some(())
}

/// How many votes the Promises had that Prepares over so many votes were answered with.
pub fn prepared(alloc: Global, count: u32) -> Option<u32>
    requires { count ≤ positions }
{
    let mut acceptor = put(alloc, count)?;
    prepare_over(alloc, &mut acceptor, count)
}

#[tactic(auto, unfolding(ballots::specs::Ballot::last_round, ballots::specs::Values::positions))]
/// The same of an acceptor with so many votes.
fn prepare_over(alloc: Global, acceptor: &mut Acceptor<MemRecords>, count: u32) -> Option<u32>
    requires { count ≤ positions }
{
    let mut entries: u32 = 0;
    for turn in 0..PREPARES {
        let from = 1 + turn % count.max(1);
        if let Some(window) = acceptor.on_prepare(alloc, BALLOT, from).ok()? {
            entries = entries.saturating_add(window.entries.len() as u32);
        }
    }
    Some(entries)
}
