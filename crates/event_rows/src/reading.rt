//! Event files that are read, and the first wrong lines of other bytes.

use ballots::{Request, RequestId};
use event_files::{Command, EventFile, EventFileFault, read_event_file};
use events::Event;
use rows::RowFault;
use std::alloc::{AllocError, Global};

/// `events BYTES`: how many members there are, the names of the documents and the writes that fail, and then the commands, each after a
/// bar; or the number of the first wrong line.
pub(super) fn events(alloc: Global, bytes: &[u8]) -> Result<String, RowFault> {
    match read_event_file(alloc, bytes) {
        Ok(file) => Ok(file_text(alloc, &file)?),
        Err(EventFileFault::Line(line)) => Ok(format!(in alloc; "line {line}")?),
        Err(EventFileFault::Memory) => Err(RowFault::Memory),
    }
}

/// What an event file says.
fn file_text(alloc: Global, file: &EventFile) -> Result<String, AllocError> {
    let members = file.group.members.count();
    let names = file.group.names.as_slice();
    let failures = file.failures.as_slice();
    let mut text = format!(in alloc; "{members} {names:?} {failures:?}")?;
    for command in file.commands.iter() {
        push_command(&mut text, command)?;
    }
    Ok(text)
}

/// Appends a command after a bar.
fn push_command(text: &mut String, command: &Command) -> Result<(), AllocError> {
    text.push_str(" | ")?;
    match command {
        Command::Happens(event) => push_event(text, event),
        Command::DeliverAll => text.push_str("DeliverAll"),
    }
}

/// Appends an event.
fn push_event(text: &mut String, event: &Event) -> Result<(), AllocError> {
    match event {
        Event::Deliver(message) => write!(text, "Deliver({message})"),
        Event::Tick(member, tick) => write!(text, "Tick({member}, {tick:?})"),
        Event::Submit(member, request) => push_submit(text, *member, request),
        Event::StopIn(step, kept) => write!(text, "StopIn({step:?}, {kept})"),
        Event::Stop(member) => write!(text, "Stop({member})"),
        Event::Start(member) => write!(text, "Start({member})"),
    }
}

/// Appends a request that comes to a member: its client, its number, its level and its text.
fn push_submit(text: &mut String, member: u8, request: &Request) -> Result<(), AllocError> {
    let RequestId { client, number } = request.id();
    let level = request.level();
    let request = request.text();
    write!(
        text,
        "Submit({member}, {client}, {number}, {level}, {request:?})"
    )
}
