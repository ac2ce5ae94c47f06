//! Votes, promises and learnt values, each with a line once it is acknowledged.

ghost use Rattle.std.specs.Prelude.{◌≡◌, IfSome};

use acceptor::Acceptor;
use ballots::limits::{POSITIONS, is_position};
use ballots::{Ballot, Request, Value, Vote};
use records::Records;
use std::alloc::Global;
use std::io;

/// A request whose number is made of a round and a position.
fn request(alloc: Global, round: u64, position: u32) -> Option<Value> {
    let number = round
        .saturating_mul(10_000_000)
        .saturating_add(u64::from(position));
    let text = "insert node element a {\"some text\"} into doc(\"db\")";
    let request = Request::new(alloc, 1, number, 1, text).ok()?;
    Some(Value::Request(request))
}

/// The vote of a ballot at a position.
fn vote(alloc: Global, ballot: Ballot, position: u32) -> Option<Vote>
    ensures { IfSome result (λ v. v.ballot ≡ ballot) }
{
    let value = request(alloc, ballot.round, position)?;
    Some(Vote { ballot, value })
}

/// Accepts votes of a ballot at so many positions from one on, and prints a line for each. It ends where one is not accepted.
pub(super) fn vote_all<R: Records + Drop>(
    rt: &HostRuntime,
    acceptor: &mut Acceptor<R>,
    ballot: Ballot,
    from: u32,
    count: u32,
) -> io::Result<u8> {
    for turn in 0..count {
        let position = from.saturating_add(turn);
        if !accepts(rt.alloc(), acceptor, ballot, position) {
            return Ok(4);
        }
        println!(rt; "vote {position}")?;
    }
    Ok(0)
}

/// Whether it accepts the vote of a ballot at a position.
fn accepts<R: Records + Drop>(
    alloc: Global,
    acceptor: &mut Acceptor<R>,
    ballot: Ballot,
    position: u32,
) -> bool {
    if !ballot.is_valid() || !is_position(position) {
        return false;
    }
    match vote(alloc, ballot, position) {
        Some(vote) => matches!(acceptor.on_accept(alloc, position, &vote), Ok(true)),
        None => false,
    }
}

/// Promises so many ballots, each of the next round, and prints a line for each. It ends where one is not promised.
pub(super) fn promise_all<R: Records + Drop>(
    rt: &HostRuntime,
    acceptor: &mut Acceptor<R>,
    ballot: Ballot,
    count: u32,
) -> io::Result<u8> {
    for turn in 0..count {
        let round = ballot.round.saturating_add(u64::from(turn));
        let next = Ballot {
            round,
            member: ballot.member,
        };
        if !promises(rt.alloc(), acceptor, next) {
            return Ok(4);
        }
        println!(rt; "promise {round}")?;
    }
    Ok(0)
}

/// Whether it promises a ballot.
fn promises<R: Records + Drop>(alloc: Global, acceptor: &mut Acceptor<R>, ballot: Ballot) -> bool {
    let promised = acceptor.promised();
    if !ballot.is_valid() || !promised.is_below(ballot) {
        return false;
    }
    acceptor.on_begin(alloc, ballot).is_ok()
}

/// Keeps so many values as learnt at the next positions, and prints a line for each. It ends where one is not kept.
pub(super) fn keep_all<R: Records + Drop>(
    rt: &HostRuntime,
    acceptor: &mut Acceptor<R>,
    count: u32,
) -> io::Result<u8> {
    for _ in 0..count {
        if !keeps(rt.alloc(), acceptor) {
            return Ok(4);
        }
        let position = acceptor.kept();
        println!(rt; "learnt {position}")?;
    }
    Ok(0)
}

/// Whether it keeps a value as learnt at the next position: the request of round 1 there.
#[tactic(auto, unfolding(ballots::specs::Values::positions))]
fn keeps<R: Records + Drop>(alloc: Global, acceptor: &mut Acceptor<R>) -> bool {
    let kept = acceptor.kept();
    if kept >= POSITIONS {
        return false;
    }
    match request(alloc, 1, kept.saturating_add(1)) {
        Some(value) => acceptor.on_keep(alloc, &value).is_ok(),
        None => false,
    }
}
