//! Requests that a leader proposes, each learnt before the next.

ghost use Rattle.std.specs.Prelude.{◌≡◌, ◌≤◌, IfSome};
ghost use Rattle.ballots.specs.Messages.{window_of};
ghost use Rattle.ballots.specs.Values.{positions, IsRising};
ghost use Rattle.proposer.specs.Hearing.{IsWindow};

use ballots::{Ballot, Members, Request, Window};
use proposer::Proposer;
use std::alloc::Global;

/// The client of all requests.
const CLIENT: u32 = 1;

/// How many requests a leader of three members proposed, each of which was learnt before the next.
pub fn proposed(alloc: Global, count: u32) -> Option<u32>
    requires { count ≤ positions }
{
    let mut proposer = leader(alloc)?;
    propose_up_to(alloc, &mut proposer, count)
}

/// The same of a leader that has proposed nothing.
fn propose_up_to(alloc: Global, proposer: &mut Proposer, count: u32) -> Option<u32>
    requires { count ≤ positions }
{
    for position in 1..=count {
        if propose(alloc, proposer, position)? != position {
            return None;
        }
        learn(alloc, proposer, position)?;
    }
    Some(count)
}

#[tactic(auto, unfolding(ballots::specs::Values::positions))]
/// A leader of three members, to which two have promised all positions, and reported no votes.
fn leader(alloc: Global) -> Option<Proposer> {
    let members = Members::new(3)?;
    let mut proposer = Proposer::new(members, 1);
    let ballot = proposer.begin(alloc, Ballot::NONE, 1, &[]).ok()?;
    let window = Window {
        ballot,
        from: 1,
        covered: 1_000_000,
        entries: Vec::new(alloc),
    };
    proposer.on_promise(alloc, 1, &window).ok()?;
    proposer.on_promise(alloc, 2, &window).ok()?;
    Some(proposer)
}

/// Proposes one request more, and gives its position.
fn propose(alloc: Global, proposer: &mut Proposer, number: u32) -> Option<u32> {
    let number = u64::from(number);
    let request = Request::new(alloc, CLIENT, number, 1, "doc(\"db\")/a").ok()?;
    if proposer.has_open(CLIENT, number) {
        return None;
    }
    let sends = proposer.submit(alloc, &request).ok()?;
    Some(sends.accepts.first()?.position)
}

#[tactic(auto, unfolding(ballots::specs::Values::positions))]
/// A position is learnt.
fn learn(alloc: Global, proposer: &mut Proposer, position: u32) -> Option<()>
    requires least { 1 ≤ position }
    requires most { position ≤ positions }
{
    proposer.on_learned(alloc, &[position]).ok()?;
    Some(())
}
