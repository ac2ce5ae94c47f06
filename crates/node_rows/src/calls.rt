//! A node, and the calls of it that a row makes.

use crate::datagrams::{read_bytes, read_datagram};
use crate::printing::{fault_text, outbox_text, reading_text};
use ballots::{Setup, SetupFault};
use document_names::NamesFault;
use line_parts::read_names;
use member::{Target, Tick};
use message_words::{read_u8, read_u32};
use node::{Node, NodeFault, Outbox, Sent};
use records::{ScriptRecords, Staged};
use rows::{RowFault, Words};
use sessions::State;
use std::alloc::{AllocError, Global};

/// How many calls a row has at most, and how many messages to itself a call delivers.
const MOST_CALLS: u32 = 1_000;

/// A node whose records hold back what is written until a flush.
type RowNode = Node<Staged<ScriptRecords>, State>;

/// A node, with the messages that it has sent to itself and that it has not had yet.
#[derive(Drop)]
struct Played {
    node: Option<RowNode>,
    number: u8,
    waiting: Vec<Vec<u8>>,
}

impl Played {
    /// The node, which is there but while it crashes.
    fn node(&mut self) -> Result<&mut RowNode, RowFault> {
        match self.node.as_mut() {
            Some(node) => Ok(node),
            None => Err(RowFault::NotARow),
        }
    }
}

/// What the calls after a group, a member and a number of members give.
pub(super) fn called(alloc: Global, words: &mut Words<'_>) -> Result<String, RowFault> {
    let mut played = opened(alloc, &[], words)?;
    all_called(alloc, &mut played, words)
}

/// `NUMBER LEFT`: the same, where the store fails in the write of that number, and leaves what it was to write (1) or not (0).
pub(super) fn called_failing(alloc: Global, words: &mut Words<'_>) -> Result<String, RowFault> {
    let number = words.number()?;
    let is_left = match words.plain()? {
        "0" => false,
        "1" => true,
        _ => return Err(RowFault::NotARow),
    };
    let mut played = opened(alloc, &[(number, is_left)], words)?;
    all_called(alloc, &mut played, words)
}

/// What the calls of a node give, with a bar between two of them.
fn all_called(
    alloc: Global,
    played: &mut Played,
    words: &mut Words<'_>,
) -> Result<String, RowFault> {
    let mut out = String::new(alloc);
    for _ in 0..MOST_CALLS {
        out.push_str(call(alloc, played, words)?.as_str())?;
        if words.is_empty() {
            return Ok(out);
        }
        if words.plain()? != ";" {
            return Err(RowFault::NotARow);
        }
        out.push_str(" | ")?;
    }
    Err(RowFault::NotARow)
}

/// What a node is told when it is set up.
fn setup(alloc: Global, words: &mut Words<'_>) -> Result<Setup, RowFault> {
    let group = read_u32(words)?;
    let member = read_u8(words)?;
    let members = read_u8(words)?;
    let names = match read_names(alloc, "db") {
        Ok(names) => names,
        Err(NamesFault::Memory) => return Err(RowFault::Memory),
        Err(NamesFault::Wrong) => return Err(RowFault::NotARow),
    };
    match Setup::new(alloc, group, member, members, &names) {
        Ok(setup) => Ok(setup),
        Err(SetupFault::Memory) => Err(RowFault::Memory),
        Err(SetupFault::Numbers) => Err(RowFault::NotARow),
    }
}

/// A node that has never done anything, over a store whose writes of those numbers fail.
fn opened(alloc: Global, plan: &[(u64, bool)], words: &mut Words<'_>) -> Result<Played, RowFault> {
    let setup = setup(alloc, words)?;
    let number = setup.member();
    let store = ScriptRecords::new(alloc, plan)?;
    Ok(Played {
        node: Some(node_over(alloc, setup, store)?),
        number,
        waiting: Vec::new(alloc),
    })
}

/// A node over what a store keeps, which gives it.
fn node_over(alloc: Global, setup: Setup, store: ScriptRecords) -> Result<RowNode, RowFault> {
    let Ok(records) = Staged::open(alloc, store) else {
        return Err(RowFault::Memory);
    };
    match Node::open(alloc, setup, records) {
        Ok((node, _)) => Ok(node),
        Err(_) => Err(RowFault::Memory),
    }
}

/// What a call gives.
fn call(alloc: Global, played: &mut Played, words: &mut Words<'_>) -> Result<String, RowFault> {
    match words.plain()? {
        "receive" => received(alloc, played, &read_datagram(alloc, words)?),
        "bytes" => received(alloc, played, &read_bytes(alloc, words)?),
        "taken" => taken(alloc, played, words),
        "begin" => ticked(alloc, played, Tick::Begin),
        "resend" => ticked(alloc, played, Tick::Resend),
        "catchup" => ticked(alloc, played, Tick::CatchUp),
        "keep" => ticked(alloc, played, Tick::Keep),
        "flush" => flushed(alloc, played),
        "crash" => crashed(alloc, played),
        "kept" => kept(alloc, played),
        "turn" => turned(alloc, played),
        "answer" => answered(alloc, played, words),
        "seen" => seen(alloc, played),
        _ => Err(RowFault::NotARow),
    }
}

/// What a node gives that is handed bytes.
fn received(alloc: Global, played: &mut Played, bytes: &[u8]) -> Result<String, RowFault> {
    let given = played.node()?.receive(alloc, bytes);
    stepped(alloc, played, given)
}

/// Whether bytes are taken, or their fault.
fn taken(alloc: Global, played: &mut Played, words: &mut Words<'_>) -> Result<String, RowFault> {
    let bytes = read_bytes(alloc, words)?;
    match played.node()?.receive(alloc, &bytes) {
        Ok(_outbox) => Ok(format!(in alloc; "taken")?),
        Err(fault) => fault_text(alloc, fault),
    }
}

/// What a tick gives.
fn ticked(alloc: Global, played: &mut Played, tick: Tick) -> Result<String, RowFault> {
    let given = played.node()?.tick(alloc, tick);
    stepped(alloc, played, given)
}

/// What a step gives; what the node sends to itself waits.
fn stepped(
    alloc: Global,
    played: &mut Played,
    given: Result<Outbox, NodeFault>,
) -> Result<String, RowFault> {
    match given {
        Ok(outbox) => {
            keep_own(played, &outbox)?;
            outbox_text(alloc, &outbox)
        }
        Err(fault) => fault_text(alloc, fault),
    }
}

/// Keeps the messages that a node has sent to itself.
fn keep_own(played: &mut Played, outbox: &Outbox) -> Result<(), AllocError> {
    for sent in outbox.sent() {
        if is_own(sent, played.number) {
            played.waiting.push(sent.bytes.clone()?)?;
        }
    }
    Ok(())
}

/// Whether a message goes to the node that sends it.
fn is_own(sent: &Sent, number: u8) -> bool {
    match sent.to {
        Target::One(member) => member == number,
        Target::All => true,
        Target::Others | Target::Client => false,
    }
}

/// Hands a node all that it has sent to itself, in order.
fn turned(alloc: Global, played: &mut Played) -> Result<String, RowFault> {
    for turns in 0..MOST_CALLS {
        if played.waiting.is_empty() {
            return Ok(format!(in alloc; "{turns} messages")?);
        }
        let bytes = played.waiting.remove(0);
        let given = played.node()?.receive(alloc, &bytes);
        let _said = stepped(alloc, played, given)?;
    }
    Err(RowFault::NotARow)
}

/// `FLOOR TEXT`: what a question reads.
fn answered(alloc: Global, played: &mut Played, words: &mut Words<'_>) -> Result<String, RowFault> {
    let floor = read_u32(words)?;
    let text = words.text(alloc)?;
    match played.node()?.answer(alloc, floor, 1, text.as_str()) {
        Ok(reading) => reading_text(alloc, &reading),
        Err(fault) => fault_text(alloc, fault),
    }
}

/// Has a node write what its records hold back.
fn flushed(alloc: Global, played: &mut Played) -> Result<String, RowFault> {
    match played.node()?.flush(alloc) {
        Ok(()) => Ok(format!(in alloc; "flushed")?),
        Err(fault) => fault_text(alloc, fault),
    }
}

/// Drops a node, and opens it over what its store was left with: how many writes the store had.
fn crashed(alloc: Global, played: &mut Played) -> Result<String, RowFault> {
    let Some(node) = played.node.take() else {
        return Err(RowFault::NotARow);
    };
    let (setup, records) = node.into_parts();
    let store = records.into_inner();
    let writes = store.writes();
    played.waiting = Vec::new(alloc);
    played.node = Some(node_over(alloc, setup, store)?);
    Ok(format!(in alloc; "opened after {writes} writes")?)
}

/// How many learnt values its record keeps.
fn kept(alloc: Global, played: &mut Played) -> Result<String, RowFault> {
    let kept = played.node()?.kept();
    Ok(format!(in alloc; "kept {kept}")?)
}

/// How much a node has applied and learnt.
fn seen(alloc: Global, played: &mut Played) -> Result<String, RowFault> {
    let node = played.node()?;
    let applied = node.state().applied();
    let prefix = node.prefix();
    Ok(format!(in alloc; "applied {applied}, learnt {prefix}")?)
}
