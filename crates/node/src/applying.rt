//! How an application goes on to what is learnt.

ghost use Rattle.std.specs.Prelude.{◌≡◌, ◌<◌, ℕ, suc, List};
ghost use Rattle.member.specs.Steps.{IsThis};
ghost use Rattle.node.specs.Answering.{AreAnswers};
ghost use Rattle.node.specs.Applying.{HasGone, IsAt};
ghost use Rattle.paxos.specs.Knowledge.{news, prefix};
ghost use Rattle.paxos.specs.Step.{Running};

use super::answers::Answers;
use applications::Application;
use ballots::limits::POSITIONS;
use member::Member;
use records::Records;
use std::alloc::Global;

/// What came of going on by one value.
#[derive(Clone, Copy, PartialEq, Eq, Debug)]
enum Turn {
    /// It was applied.
    Applied,
    /// None is learnt at the next position.
    Done,
    /// Memory was refused.
    Short,
}

/// Applies the value at the next position, if one is learnt there.
#[tactic(auto, unfolding(ballots::specs::Values::positions))]
fn apply_next<R: Records + Drop, A: Application + Drop>(
    alloc: Global,
    member: &Member<R>,
    application: &mut A,
) -> Turn
    ensures applied { result ≡ Turn.Applied → (names : List (List ℕ)) (u : Running) (k : ℕ) → IsThis u member.now
        → IsAt A.has_applied names member.now.members u k application.old → IsAt A.has_applied names member.now.members u (suc k) application.new }
    ensures done { result ≡ Turn.Done → (names : List (List ℕ)) (u : Running) (k : ℕ) → IsThis u member.now
        → IsAt A.has_applied names member.now.members u k application.old → k ≡ prefix member.now.members (news u.heard) }
    ensures short { result ≡ Turn.Short → (names : List (List ℕ)) (u : Running) (k : ℕ) → IsThis u member.now
        → IsAt A.has_applied names member.now.members u k application.old → k < prefix member.now.members (news u.heard) }
    ensures same { (result ≡ Turn.Applied → ⊥) → application.new ≡ application.old }
{
    let before = application.applied();
    if before >= POSITIONS {
        return Turn::Done;
    }
    let Some(value) = member.learned(before + 1) else {
        return Turn::Done;
    };
    match application.apply(alloc, value) {
        Ok(()) => Turn::Applied,
        Err(_) => Turn::Short,
    }
}

/// Applies what is learnt from the next position on without a gap, while memory is found, and says whether it stopped short for want of it.
/// What the application answered before is forgotten.
#[tactic(auto, unfolding(ballots::specs::Values::positions))]
pub(super) fn apply_learnt<R: Records + Drop, A: Application + Drop>(
    alloc: Global,
    member: &Member<R>,
    application: &mut A,
    answers: &mut Answers,
) -> bool
    requires answers { AreAnswers A.has_applied A.meaning application.old answers.old.kept.items }
    ensures gone { HasGone A.has_applied member.now application.old application.new result }
    ensures answers { AreAnswers A.has_applied A.meaning application.new answers.new.kept.items }
{
    for _turn in 0..POSITIONS {
        match apply_next(alloc, member, application) {
            Turn::Applied => answers.forget(),
            Turn::Done => return false,
            Turn::Short => return true,
        }
    }
    false
}
