//! Questions to the members of a group, after what an event file says.

ghost use Rattle.std.specs.Prelude.{All};
ghost use Rattle.event_files.specs.Within.{IsCommandOf};

use applications::Application;
use ballots::{Answer, Reply, Value};
use event_files::{EventFile, EventFileFault, read_event_file};
use node::{Node, Reading};
use paxq_sim::play;
use records::Records;
use rows::RowFault;
use std::alloc::Global;
use world::World;

/// How often an event or a question comes at most, where memory is refused to it.
pub(super) const MOST_TRIES: u32 = 100;

/// The question about all of a document.
const QUESTION: &str = "doc(\"db\")";

/// `asks FLOOR TEXT BYTES`: for each member what it answers, with the position, after what an event file says; or that it is behind, or
/// stopped.
pub(super) fn asks<A: Application + Drop>(
    alloc: Global,
    floor: u32,
    text: &str,
    bytes: &[u8],
) -> Result<String, RowFault> {
    match read_event_file(alloc, bytes) {
        Ok(file) => answers::<A>(alloc, floor, text, file),
        Err(EventFileFault::Line(_)) => Err(RowFault::NotARow),
        Err(EventFileFault::Memory) => Err(RowFault::Memory),
    }
}

/// The answers of all members, a bar between two of them.
fn answers<A: Application + Drop>(
    alloc: Global,
    floor: u32,
    text: &str,
    file: EventFile,
) -> Result<String, RowFault>
    requires { All (IsCommandOf file.group.members) file.commands.items }
{
    let world = play::<A>(alloc, file)?;
    all_answers(alloc, floor, text, &world)
}

/// The answers of all members of a group.
fn all_answers<R: Records + Drop, A: Application + Drop>(
    alloc: Global,
    floor: u32,
    text: &str,
    world: &World<R, A>,
) -> Result<String, RowFault> {
    let mut out = String::new(alloc);
    for before in 0..world.members().count() {
        if before > 0 {
            out.push_str(" | ")?;
        }
        match world.node(before + 1) {
            Some(node) => out.push_str(&answer(alloc, floor, text, node)?)?,
            None => out.push_str("stopped")?,
        }
    }
    Ok(out)
}

/// What a node answers.
fn answer<R: Records + Drop, A: Application + Drop>(
    alloc: Global,
    floor: u32,
    text: &str,
    node: &Node<R, A>,
) -> Result<String, RowFault> {
    let Ok(reading) = node.answer(alloc, floor, 1, text) else {
        return Err(RowFault::Memory);
    };
    Ok(match reading {
        Reading::At(position, Answer::Text(text)) => {
            let text = text.as_str();
            format!(in alloc; "at {position} {text:?}")?
        }
        Reading::At(position, Answer::Fault(code)) => {
            format!(in alloc; "at {position} fault {code}")?
        }
        Reading::Behind(position) => format!(in alloc; "behind {position}")?,
    })
}

/// What a node answers to a question about all of its document, asked again where memory is refused.
pub(super) fn answered<R: Records + Drop, A: Application + Drop>(
    alloc: Global,
    node: &Node<R, A>,
) -> Result<String, RowFault> {
    for _ in 0..MOST_TRIES {
        if let Ok(text) = answer(alloc, node.prefix(), QUESTION, node) {
            return Ok(text);
        }
    }
    Err(RowFault::Memory)
}

/// How many messages were sent, how often something was told, and what each member answers to the question about its document.
pub(super) fn shown<R: Records + Drop, A: Application + Drop>(
    alloc: Global,
    world: &World<R, A>,
) -> Result<String, RowFault> {
    let messages = world.messages();
    let told = world.told().len();
    let mut out = format!(in alloc; "{messages} messages, {told} told")?;
    for before in 0..world.members().count() {
        out.push_str(" | ")?;
        match world.node(before + 1) {
            Some(node) => out.push_str(&answered(alloc, node)?)?,
            None => out.push_str("stopped")?,
        }
    }
    Ok(out)
}

/// Appends for each member, after a bar, what it replies to each request that it has learnt, in the order of positions.
pub(super) fn push_replies<R: Records + Drop, A: Application + Drop>(
    alloc: Global,
    world: &World<R, A>,
    out: &mut String,
) -> Result<(), RowFault> {
    for before in 0..world.members().count() {
        match world.node(before + 1) {
            Some(node) => push_replies_of(alloc, node, out)?,
            None => out.push_str(" | stopped")?,
        }
    }
    Ok(())
}

/// Appends after a bar what a node replies to each request that it has learnt.
fn push_replies_of<R: Records + Drop, A: Application + Drop>(
    alloc: Global,
    node: &Node<R, A>,
    out: &mut String,
) -> Result<(), RowFault> {
    out.push_str(" | replies")?;
    for position in 1..=node.prefix() {
        if let Some(Value::Request(request)) = node.learned(position) {
            let id = request.id();
            let reply = node.state().reply_of(id.client, id.number);
            out.push_str(&reply_text(alloc, reply)?)?;
        }
    }
    Ok(())
}

/// A reply after a space, or that there is none.
fn reply_text(alloc: Global, reply: Option<Reply>) -> Result<String, RowFault> {
    Ok(match reply {
        Some(Reply::Done(position)) => format!(in alloc; " done {position}")?,
        Some(Reply::Fault(code, position)) => format!(in alloc; " fault {code} {position}")?,
        None => String::from_str(alloc, " none")?,
    })
}
