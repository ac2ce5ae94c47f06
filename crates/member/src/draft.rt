//! What a member is about to change, to send and to be told.

ghost use Rattle.std.specs.Prelude.{◌≡◌, [], ◌∷◌, IfOk};
ghost use Rattle.member.specs.Drafts.{Says, send_to};

use super::outcome::{Send, Target};
use super::sends::say;
use acceptor::Draft as AcceptorDraft;
use ballots::{Ballot, Message, Pair};
use learner::Draft as LearnerDraft;
use proposer::{Draft as ProposerDraft, Sends};
use std::alloc::{AllocError, Global};

/// A change of a member.
#[derive(Drop)]
pub enum Change {
    /// No change.
    Nothing,
    /// The acceptor promises or accepts, and the leader yields to the ballot.
    Answer(AcceptorDraft<()>, Ballot),
    /// The acceptor promises the ballot that the proposer leads with.
    Begin(AcceptorDraft<()>, ProposerDraft<Ballot>),
    /// The proposer takes in a promise.
    Promise(ProposerDraft<Option<Sends>>),
    /// The learner hears something, and the proposer takes in what is newly learnt.
    News(LearnerDraft, ProposerDraft<Option<Sends>>),
    /// The proposer proposes a request.
    Submit(ProposerDraft<Sends>),
    /// The acceptor keeps a learnt value.
    Keep(AcceptorDraft<()>),
}

/// What a member is about to change, to send and to be told. The change belongs to the member that made it, as it was then.
///
/// What it sends and is told is worth nothing before the commit: it would tell what may not outlive a stop.
#[derive(Drop)]
pub struct Draft {
    pub(super) sends: Vec<Send>,
    pub(super) tells: Vec<Pair>,
    pub(super) change: Change,
}

impl Draft {
    /// A message to the client that it names, and nothing else: what was answered before, or where to ask.
    ///
    /// It fails where memory is refused.
    pub fn to_client(alloc: Global, message: Message) -> Result<Draft, AllocError>
        ensures { IfOk result (λ d. Says d (send_to Target.Client message ∷ []) Change.Nothing) }
    {
        say(alloc, Target::Client, message, Change::Nothing)
    }

    /// The messages that the commit will give, in order.
    pub fn sends(&self) -> &[Send]
        ensures { result.now ≡ self.now.sends.items }
    {
        &self.sends
    }

    /// The values that the commit will give, by rising position.
    pub fn tells(&self) -> &[Pair]
        ensures { result.now ≡ self.now.tells.items }
    {
        &self.tells
    }
}
