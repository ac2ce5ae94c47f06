//! What a node is about to change and to send.

ghost use Rattle.std.specs.Prelude.{◌≡◌};

use super::outbox::Sent;
use ballots::Pair;
use member::Draft as MemberDraft;

/// What a node is about to change, to send and to be told. The change belongs to the node that made it, as it was then.
///
/// What it sends and is told is worth nothing before the commit: it would tell what may not outlive a stop.
#[derive(Drop)]
pub struct Draft {
    pub(super) member: MemberDraft,
    pub(super) sent: Vec<Sent>,
}

impl Draft {
    /// What the commit will send.
    pub fn sent(&self) -> &[Sent]
        ensures { result.now ≡ self.now.sent.items }
    {
        &self.sent
    }

    /// The values that the commit will tell, by rising position.
    pub fn tells(&self) -> &[Pair]
        ensures { result.now ≡ self.now.member.tells.items }
    {
        self.member.tells()
    }
}
