//! Values, and the votes of acceptors for them.

ghost use Rattle.std.specs.Prelude.{◌≡◌};
ghost use Rattle.ballots.specs.Values.{same_value, same_vote};

use super::ballot::Ballot;
use super::request::Request;
use std::alloc::AllocError;

/// What members agree on at a position.
#[derive(Drop)]
pub enum Value {
    /// Nothing.
    NoOp,
    /// A request.
    Request(Request),
}

impl Value {
    /// Whether the two are one value.
    pub fn is_same(&self, other: &Value) -> bool
        ensures { result ≡ same_value self.now other.now }
    {
        match (self, other) {
            (Value::NoOp, Value::NoOp) => true,
            (Value::Request(a), Value::Request(b)) => a.is_same(b),
            _ => false,
        }
    }
}

impl Clone for Value {
    ghost is_clone = { λ v w. w ≡ v };

    fn clone(&self) -> Result<Value, AllocError> {
        match self {
            Value::NoOp => Ok(Value::NoOp),
            Value::Request(request) => Ok(Value::Request(request.clone()?)),
        }
    }
}

/// The value of a proposal that an acceptor accepted, with its ballot ("Paxos Made Simple", section 2.2).
#[derive(Drop)]
pub struct Vote {
    /// The proposal's ballot.
    pub ballot: Ballot,
    /// The proposal's value.
    pub value: Value,
}

impl Vote {
    /// Whether the two are of one ballot and one value.
    pub fn is_same(&self, other: &Vote) -> bool
        ensures { result ≡ same_vote self.now other.now }
    {
        self.ballot.round == other.ballot.round
            && self.ballot.member == other.ballot.member
            && self.value.is_same(&other.value)
    }
}

impl Clone for Vote {
    ghost is_clone = { λ v w. w ≡ v };

    fn clone(&self) -> Result<Vote, AllocError> {
        Ok(Vote {
            ballot: self.ballot,
            value: self.value.clone()?,
        })
    }
}

/// A vote at a position.
#[derive(Drop)]
pub struct Entry {
    /// The position, 1 to 1,000,000.
    pub position: u32,
    /// The vote.
    pub vote: Vote,
}

impl Clone for Entry {
    ghost is_clone = { λ v w. w ≡ v };

    fn clone(&self) -> Result<Entry, AllocError> {
        Ok(Entry {
            position: self.position,
            vote: self.vote.clone()?,
        })
    }
}

/// A value at a position.
#[derive(Drop)]
pub struct Pair {
    /// The position, 1 to 1,000,000.
    pub position: u32,
    /// The value.
    pub value: Value,
}

impl Clone for Pair {
    ghost is_clone = { λ v w. w ≡ v };

    fn clone(&self) -> Result<Pair, AllocError> {
        Ok(Pair {
            position: self.position,
            value: self.value.clone()?,
        })
    }
}
