//! What a learner hears.

ghost use Rattle.std.specs.Prelude.{◌≡◌, List, ◌∷◌, map, reverse, IfOk, OnOk};
ghost use Rattle.std.specs.List.{All};
ghost use Rattle.paxos.specs.Knowledge.{Heard as HeardTerm};
ghost use Rattle.learner.specs.Hearing.{HasHeard};
ghost use Rattle.learner.specs.Messages.{heard_of, IsSent};

use super::learner::Learner;
use ballots::{Members, Pair, Vote};
use std::alloc::{AllocError, Global};

/// What a learner hears.
#[derive(Drop)]
pub enum Heard {
    /// A member accepted a vote at a position: the member, the position and the vote.
    Accepted(u8, u32, Vote),
    /// These values are chosen, by rising position.
    Chosen(Vec<Pair>),
}

/// A learner that has heard all this, in order.
///
/// It fails where memory is refused.
pub fn run(alloc: Global, members: Members, heard: &[Heard]) -> Result<Learner, AllocError>
    requires sent { All IsSent heard.now }
    ensures heard { IfOk result (λ l. HasHeard (reverse (map heard_of heard.now)) l) }
    ensures members { IfOk result (λ l. l.members ≡ members) }
{
    let mut learner = Learner::new(alloc, members);
    for message in heard {
        hear(alloc, &mut learner, message)?;
    }
    Ok(learner)
}

/// A learner hears one more message.
fn hear(alloc: Global, learner: &mut Learner, message: &Heard) -> Result<(), AllocError>
    requires sent { IsSent message.now }
    ensures heard { OnOk result ((heard : List HeardTerm) → HasHeard heard learner.old → HasHeard (heard_of message.now ∷ heard) learner.new) }
    ensures members { learner.new.members ≡ learner.old.members }
{
    match message {
        Heard::Accepted(member, position, vote) => {
            learner.on_accepted(alloc, *member, *position, vote)?;
        }
        Heard::Chosen(pairs) => {
            learner.on_chosen(alloc, pairs)?;
        }
    }
    Ok(())
}
