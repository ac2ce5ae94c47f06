//! Requests that a site, or a node without one, takes as datagrams.

use ballots::{Request, RequestFault};
use clients::request;
use member::{Target, Tick};
use node::{Node, NodeFault, Outbox, Sent};
use published::Opening;
use readers::{Input, Site};
use records::MemRecords;
use rows::RowFault;
use sessions::State;
use sight::Naming;
use std::alloc::{AllocError, Global};

/// The group of a row's node.
pub(super) const GROUP: u32 = 7;

/// The node's number in its group, in which it is alone.
pub(super) const MEMBER: u8 = 1;

/// The client that makes the requests.
const CLIENT: u32 = 1;

/// The language level of the requests.
const LEVEL: u8 = 1;

/// How many messages to itself a node sends at most before it is done with one: for a request an Accept and an Accepted.
const MOST_MESSAGES: usize = 16;

/// A node of a row.
pub(super) type RowNode = Node<MemRecords, State>;

/// A site of a row.
pub(super) type RowSite<J> = Site<MemRecords, State, J>;

/// What takes messages and ticks.
pub(super) trait Takes {
    /// Takes the step of an input.
    fn take(&mut self, alloc: Global, input: Input<'_>) -> Result<Outbox, NodeFault>;
}

impl Takes for RowNode {
    fn take(&mut self, alloc: Global, input: Input<'_>) -> Result<Outbox, NodeFault> {
        match input {
            Input::Bytes(bytes) => self.receive(alloc, bytes),
            Input::Tick(tick) => self.tick(alloc, tick),
        }
    }
}

impl<J: Naming + Opening> Takes for RowSite<J> {
    fn take(&mut self, alloc: Global, input: Input<'_>) -> Result<Outbox, NodeFault> {
        self.turn(alloc, input)
    }
}

/// A fault of a node ends a row: `Memory`, or `NotARow` for another.
fn row_fault(fault: NodeFault) -> RowFault {
    match fault {
        NodeFault::Memory => RowFault::Memory,
        _ => RowFault::NotARow,
    }
}

/// Has it begin a ballot, and take all that it sends to itself.
pub(super) fn begin<T: Takes>(alloc: Global, to: &mut T) -> Result<(), RowFault> {
    deliver(alloc, to, Input::Tick(Tick::Begin))
}

/// Has it take a request of that number and text, and all that it sends to itself.
pub(super) fn submit<T: Takes>(
    alloc: Global,
    to: &mut T,
    number: u64,
    text: &str,
) -> Result<(), RowFault> {
    let bytes = datagram(alloc, number, text)?;
    deliver(alloc, to, Input::Bytes(&bytes))
}

/// Has a site take a request of that text, whose number is that of its position.
pub(super) fn submit_next<J: Naming + Opening>(
    alloc: Global,
    site: &mut RowSite<J>,
    text: &str,
) -> Result<(), RowFault> {
    let number = u64::from(site.applied()) + 1;
    submit(alloc, site, number, text)
}

/// The datagram of a request. Faults: `NotARow` where the text is too long, and `Memory`.
fn datagram(alloc: Global, number: u64, text: &str) -> Result<Vec<u8>, RowFault> {
    match Request::new(alloc, CLIENT, number, LEVEL, text) {
        Ok(asked) => Ok(request(alloc, GROUP, asked)?),
        Err(RequestFault::Memory) => Err(RowFault::Memory),
        Err(RequestFault::Level | RequestFault::TextTooLong) => Err(RowFault::NotARow),
    }
}

/// Has it take the step of an input, and then all that it sends to itself.
fn deliver<T: Takes>(alloc: Global, to: &mut T, input: Input<'_>) -> Result<(), RowFault> {
    let mut own = Vec::new(alloc);
    step(alloc, to, input, &mut own)?;
    for next in 0..MOST_MESSAGES {
        if next >= own.len() {
            return Ok(());
        }
        let bytes = core::mem::replace(&mut own[next], Vec::new(alloc));
        step(alloc, to, Input::Bytes(&bytes), &mut own)?;
    }
    Err(RowFault::NotARow)
}

/// Has it take the step of an input, and keeps what it sends to itself. Faults: `Memory`, also where it could not apply all that it has learnt,
/// and `NotARow` where it refuses the input.
fn step<T: Takes>(
    alloc: Global,
    to: &mut T,
    input: Input<'_>,
    own: &mut Vec<Vec<u8>>,
) -> Result<(), RowFault> {
    match to.take(alloc, input) {
        Ok(outbox) => {
            keep_own(own, &outbox)?;
            if outbox.short() {
                return Err(RowFault::Memory);
            }
            Ok(())
        }
        Err(fault) => Err(row_fault(fault)),
    }
}

/// Keeps the messages that a node sends to itself.
fn keep_own(own: &mut Vec<Vec<u8>>, outbox: &Outbox) -> Result<(), AllocError> {
    for sent in outbox.sent() {
        if is_own(sent) {
            own.push(sent.bytes.clone()?)?;
        }
    }
    Ok(())
}

/// Whether a message goes to the node that sends it.
fn is_own(sent: &Sent) -> bool {
    match sent.to {
        Target::One(member) => member == MEMBER,
        Target::All => true,
        Target::Others | Target::Client => false,
    }
}
