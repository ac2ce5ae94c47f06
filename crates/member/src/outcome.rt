//! What a member sends and is told.

use ballots::{Message, Pair};

/// To whom a message goes.
#[derive(Clone, Copy, PartialEq, Eq, Debug)]
pub enum Target {
    /// To one member.
    One(u8),
    /// To all members, the sender too, by rising number.
    All,
    /// To all other members, by rising number.
    Others,
    /// To the client that the message names.
    Client,
}

/// A message on its way.
#[derive(Drop)]
pub struct Send {
    /// To whom it goes.
    pub to: Target,
    /// What it says.
    pub message: Message,
}

/// What a step of a member sends, in order, and the values that it is told, by rising position.
#[derive(Drop)]
pub struct Outcome {
    /// The messages.
    pub sends: Vec<Send>,
    /// The values that are newly learnt.
    pub tells: Vec<Pair>,
}
