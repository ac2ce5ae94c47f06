//! Positions that a learner learns from what acceptors accepted.

ghost use Rattle.std.specs.Prelude.{◌≤◌};
ghost use Rattle.ballots.specs.Values.{positions};

use ballots::{Ballot, Members, Value, Vote};
use learner::Learner;
use std::alloc::Global;

/// The ballot of all votes.
const BALLOT: Ballot = Ballot {
    round: 1,
    member: 1,
};

/// The prefix of a learner of three members that heard two of them accept a value at each position up to this one.
pub fn learnt(alloc: Global, count: u32) -> Option<u32>
    requires { count ≤ positions }
{
    let mut learner = Learner::new(alloc, Members::new(3)?);
    learn_up_to(alloc, &mut learner, count)
}

#[tactic(auto, unfolding(ballots::specs::Values::positions))]
/// The same of a learner that has heard nothing.
fn learn_up_to(alloc: Global, learner: &mut Learner, count: u32) -> Option<u32>
    requires { count ≤ positions }
{
    let vote = Vote {
        ballot: BALLOT,
        value: Value::NoOp,
    };
    for position in 1..=count {
        learner.on_accepted(alloc, 1, position, &vote).ok()?;
        learner.on_accepted(alloc, 2, position, &vote).ok()?;
        if learner.prefix() != position {
            return None;
        }
    }
    Some(learner.prefix())
}
