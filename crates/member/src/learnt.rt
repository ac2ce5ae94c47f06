//! What a learner has learnt from a position on.

ghost use Rattle.std.specs.Prelude.{◌≡◌, ◌≤◌, ℕ, suc, IfOk, take, is_some};
ghost use Rattle.ballots.specs.Values.{positions, IsRising, most_entries};
ghost use Rattle.learner.specs.Terms.{learnt_of};
ghost use Rattle.paxos.specs.Knowledge.{value_at};
ghost use Rattle.proposer.specs.Beginning.{is_in};
ghost use Rattle.member.specs.Learnt.{IsFirst, pairs_from};

use ballots::Pair;
use ballots::limits::MOST_ENTRIES;
use learner::Learner;
use std::alloc::{AllocError, Global};

/// The positions that are learnt from one on, rising.
///
/// It fails where memory is refused.
#[tactic(auto, unfolding(ballots::specs::Values::positions))]
pub(super) fn positions_from(
    alloc: Global,
    learner: &Learner,
    from: u32,
) -> Result<Vec<u32>, AllocError>
    requires most { from ≤ positions }
    ensures rising { IfOk result (λ v. IsRising from v.items) }
    ensures learnt { IfOk result (λ v. (q : ℕ) → from ≤ q → is_in q v.items ≡ is_some (value_at q (learnt_of learner.now))) }
{
    let mut learnt = Vec::new(alloc);
    let mut next = from;
    while let Some(position) = learner.next_learned(next) {
        learnt.push(position)?;
        next = position + 1;
    }
    Ok(learnt)
}

/// The lowest pairs that are learnt from a position on, at most 8.
///
/// It fails where memory is refused.
#[tactic(auto, unfolding(ballots::specs::Values::positions))]
pub(super) fn lowest_pairs(
    alloc: Global,
    learner: &Learner,
    from: u32,
) -> Result<Vec<Pair>, AllocError>
    requires most { from ≤ positions }
    ensures { IfOk result (λ v. v.items ≡ take most_entries (pairs_from (learnt_of learner.now) from)) }
{
    let mut pairs = Vec::new(alloc);
    let mut next = from;
    for _turn in 0..MOST_ENTRIES {
        let Some(pair) = next_pair(learner, next)? else {
            return Ok(pairs);
        };
        next = pair.position + 1;
        pairs.push(pair)?;
    }
    Ok(pairs)
}

/// The lowest pair that is learnt from a position on, if there is one.
fn next_pair(learner: &Learner, from: u32) -> Result<Option<Pair>, AllocError>
    requires most { from ≤ suc positions }
    ensures { IfOk result (λ o. IsFirst (learnt_of learner.now) from o) }
{
    let Some(position) = learner.next_learned(from) else {
        return Ok(None);
    };
    let Some(value) = learner.learned(position) else {
        return Ok(None);
    };
    Ok(Some(Pair {
        position,
        value: value.clone()?,
    }))
}
