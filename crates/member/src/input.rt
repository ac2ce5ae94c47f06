//! What comes to a member.

use ballots::Message;

/// What comes to a member by the clock.
#[derive(Clone, Copy, PartialEq, Eq, Debug)]
pub enum Tick {
    /// Begin a ballot.
    Begin,
    /// Say again what may have been lost, at a leader.
    Resend,
    /// Ask the others for what is chosen.
    CatchUp,
    /// Keep one more of the values that are learnt.
    Keep,
}

/// What comes to a member: a message, or a tick.
#[derive(Drop)]
pub enum Input<'a> {
    /// A message, with the member that sent it; 0 stands for the clients.
    Message(u8, &'a Message),
    /// A tick.
    Tick(Tick),
}
