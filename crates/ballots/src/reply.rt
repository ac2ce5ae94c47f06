//! What clients get.

use fault_codes::Code;

/// What came of a request, with its position, from 1.
#[derive(Clone, Copy, PartialEq, Eq, Debug)]
pub enum Reply {
    /// It was run.
    Done(u32),
    /// It ended in a fault, and changed nothing.
    Fault(Code, u32),
}

/// What a question gives.
#[derive(Drop)]
pub enum Answer {
    /// The texts of its items, joined by line feeds.
    Text(String),
    /// A fault.
    Fault(Code),
}
