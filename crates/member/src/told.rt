//! The values that a member is told.

ghost use Rattle.std.specs.Prelude.{◌≡◌, [], ◌∷◌, ◌++◌, map, IfOk, OnOk};
ghost use Rattle.learner.specs.Changes.{not_learnt};
ghost use Rattle.learner.specs.Terms.{learnt_of};
ghost use Rattle.paxos.specs.Knowledge.{pair_of};

use ballots::{Pair, Value};
use learner::Learner;
use std::alloc::{AllocError, Global};

/// One value at each of some positions.
///
/// It fails where memory is refused.
pub(super) fn told_at(
    alloc: Global,
    positions: &[u32],
    value: &Value,
) -> Result<Vec<Pair>, AllocError>
    ensures { IfOk result (λ v. v.items ≡ map (λ p. pair_of p value.now) positions.now) }
{
    let mut told = Vec::new(alloc);
    for position in positions {
        told.push(Pair {
            position: *position,
            value: value.clone()?,
        })?;
    }
    Ok(told)
}

/// The pairs at positions that are not learnt.
///
/// It fails where memory is refused.
pub(super) fn told_among(
    alloc: Global,
    learner: &Learner,
    pairs: &[Pair],
) -> Result<Vec<Pair>, AllocError>
    ensures { IfOk result (λ v. v.items ≡ not_learnt (learnt_of learner.now) pairs.now) }
{
    let mut told = Vec::new(alloc);
    for pair in pairs {
        push_new(learner, pair, &mut told)?;
    }
    Ok(told)
}

/// Adds a pair, if its position is not learnt.
fn push_new(learner: &Learner, pair: &Pair, told: &mut Vec<Pair>) -> Result<(), AllocError>
    ensures { OnOk result (told.new.items ≡ told.old.items ++ not_learnt (learnt_of learner.now) (pair.now ∷ [])) }
{
    if learner.learned(pair.position).is_none() {
        told.push(pair.clone()?)?;
    }
    Ok(())
}
