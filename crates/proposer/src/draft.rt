//! What a proposer is about to change and to answer.

use super::lead::Lead;
use super::view::Made;
use ballots::{Entry, Value};

/// What a proposer is about to answer, and to change before that. The change belongs to the proposer that made it, as it was then.
#[derive(Drop)]
pub struct Draft<A> {
    /// The answer.
    pub answer: A,
    pub(super) change: Change,
}

/// A change of a proposer.
#[derive(Drop)]
pub enum Change {
    /// Nothing.
    Nothing,
    /// It leads, and has this.
    Begin(Lead),
    /// It proposes the value at its next position.
    Propose(Value),
    /// It takes in what a message told, and goes on proposing.
    Take(News),
}

/// What a message tells a leader, and what proposing comes to then.
#[derive(Drop)]
pub struct News {
    /// The member that promises; 0 where none does.
    pub(super) member: u8,
    /// How far that member covers then.
    pub(super) covered: u32,
    /// The votes that the promise reports, by rising position.
    pub(super) entries: Vec<Entry>,
    /// The positions that are newly learnt, rising.
    pub(super) learnt: Vec<u32>,
    /// What proposing comes to.
    pub(super) made: Made,
}
