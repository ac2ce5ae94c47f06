//! Limits of trees (our own choice). Contracts speak of them by `specs/`.

/// The bytes that a string has at most: a literal, a value of an evaluation, the text of a node that is stored.
pub const MOST_BYTES: usize = 65_536;

/// The attributes and children that a node has at most, together.
pub const MOST_LISTED: usize = 10_000;

/// The nodes that a store has at most; an evaluation makes no more than so many either.
pub const MOST_NODES: u64 = 100_000;
