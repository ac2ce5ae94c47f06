//! The messages of members and clients.

use super::ask::Ask;
use super::ballot::Ballot;
use super::reply::{Answer, Reply};
use super::request::Request;
use super::value::{Entry, Pair, Vote};

/// A member's promise of a ballot for positions: its votes there are these, by rising position, and no others.
#[derive(Drop)]
pub struct Window {
    /// The ballot that is promised.
    pub ballot: Ballot,
    /// The first of the positions.
    pub from: u32,
    /// The last of the positions.
    pub covered: u32,
    /// The votes, at most 8.
    pub entries: Vec<Entry>,
}

/// What members and clients say. Prepare, Promise, Accept and Accepted are those of "Paxos Made Simple", section 2.2.
#[derive(Drop)]
pub enum Message {
    /// Phase 1a: a ballot begins, and asks for the votes from a position on.
    Prepare(Ballot, u32),
    /// Phase 1b: the ballot is promised, with the votes of some positions.
    Promise(Window),
    /// Phase 2a: a value is proposed at a position.
    Accept(u32, Vote),
    /// Phase 2b: the proposal is accepted.
    Accepted(u32, Vote),
    /// Values that are chosen, by rising position, at most 8.
    Chosen(Vec<Pair>),
    /// Asks for values that are chosen, from a position on.
    CatchUp(u32),
    /// A client's request.
    Submit(Request),
    /// The reply to the request of a client and number.
    Reply(u32, u64, Reply),
    /// A client's question.
    Ask(Ask),
    /// The answer to the question of a client and number, at so many applied positions.
    Answer(u32, u64, u32, Answer),
    /// To a client and number: fewer positions are applied than it asked for, so many.
    Behind(u32, u64, u32),
    /// To a client and number: another member leads, or none is known (0).
    Elsewhere(u32, u64, u8),
}
