//! What a node sends, and what it answers at once.

ghost use Rattle.std.specs.Prelude.{◌≡◌, true};

use ballots::{Answer, Pair};
use member::Target;

/// The bytes of a message, and to whom they go.
#[derive(Drop)]
pub struct Sent {
    /// To whom.
    pub to: Target,
    /// The message as it is spelt, one datagram.
    pub bytes: Vec<u8>,
}

/// What a step of a node sends, in order, and what it is told, by rising position.
#[derive(Drop)]
pub struct Outbox {
    pub(super) sent: Vec<Sent>,
    pub(super) tells: Vec<Pair>,
    pub(super) is_short: bool,
}

impl Outbox {
    /// What is sent.
    pub fn sent(&self) -> &[Sent]
        ensures { result.now ≡ self.now.sent.items }
    {
        &self.sent
    }

    /// The values that are newly learnt.
    pub fn tells(&self) -> &[Pair]
        ensures { result.now ≡ self.now.tells.items }
    {
        &self.tells
    }

    /// What is sent, and the values that are newly learnt.
    pub fn into_parts(self) -> (Vec<Sent>, Vec<Pair>)
        ensures sent { result.0 ≡ self.sent }
        ensures tells { result.1 ≡ self.tells }
    {
        (self.sent, self.tells)
    }

    /// The same, where less is done with what is learnt than was to be done, since memory was refused.
    pub fn cut_short(self) -> Outbox
        ensures { result ≡ record self { is_short = true } }
    {
        Outbox {
            sent: self.sent,
            tells: self.tells,
            is_short: true,
        }
    }

    /// Whether not all is applied that is learnt without a gap, since memory was refused. The next call goes on.
    pub fn short(&self) -> bool
        ensures { result ≡ self.now.is_short }
    {
        self.is_short
    }
}

/// What a node answers to a question at once.
#[derive(Drop)]
pub enum Reading {
    /// The answer, at so many applied positions.
    At(u32, Answer),
    /// Fewer positions are applied than the floor, so many.
    Behind(u32),
}
