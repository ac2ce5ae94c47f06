//! What may happen, and the member that it names.

ghost use Rattle.std.specs.Prelude.{◌≡◌};
ghost use Rattle.events.specs.Events.{is_for, named};

use ballots::{Members, Request};
use member::Tick;

/// A step in whose write a member stops.
#[derive(Clone, Copy, PartialEq, Eq, Debug)]
pub enum Step {
    /// The message of that number is delivered.
    Deliver(u64),
    /// The member begins a ballot.
    Begin(u8),
    /// The member keeps a learnt value.
    Keep(u8),
}

/// What may happen to a group. Messages and members are numbered from 1.
///
/// A message may be delivered as often as the list says, in any order; one that no event delivers is lost.
#[derive(Drop)]
pub enum Event {
    /// The message of that number is delivered.
    Deliver(u64),
    /// A tick comes to the member.
    Tick(u8, Tick),
    /// A client sends the request to the member.
    Submit(u8, Request),
    /// A member stops inside the write of a step. Its record is the new one if it is kept (`true`), and the old one if not.
    StopIn(Step, bool),
    /// The member stops.
    Stop(u8),
    /// The member starts, from its records alone.
    Start(u8),
}

impl Event {
    /// The member that it names, if it names one.
    fn named(&self) -> Option<u8>
        ensures { result ≡ named self.now }
    {
        match self {
            Event::Deliver(_) | Event::StopIn(Step::Deliver(_), _) => None,
            Event::Tick(member, _)
            | Event::Submit(member, _)
            | Event::StopIn(Step::Begin(member) | Step::Keep(member), _)
            | Event::Stop(member)
            | Event::Start(member) => Some(*member),
        }
    }

    /// Whether the member that it names is one of so many; it is, where it names none.
    pub fn is_for(&self, members: Members) -> bool
        ensures { result ≡ is_for members self.now }
    {
        match self.named() {
            Some(member) => 1 <= member && member <= members.count(),
            None => true,
        }
    }
}
