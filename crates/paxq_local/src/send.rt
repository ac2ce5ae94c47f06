//! `paxq send --group G ADDRESS LINE`.

ghost use Rattle.std.specs.Prelude.{◌≡◌, ◌≤◌, List, [], ◌∷◌, IfOk, IfSome, Some, length, take, string_bytes};
ghost use Rattle.std.specs.Option.{option_map};
ghost use Rattle.clients.specs.Hearing.{heard_in, heard_term};
ghost use Rattle.messages.specs.Reading.{datagram_read};
ghost use Rattle.paxq_files.specs.Commands.{command_term};
ghost use Rattle.paxq_local.specs.Asking.{CanBeAsked, IsGiven, IsSent, IsSentFor, IsTried, datagram_to, form_of, id_of};
ghost use Rattle.paxq_local.specs.Playing.{AskedRun, SentRun};
ghost use Rattle.paxq_local.specs.Told.{Brings, HasCome, IsSaid, told_by_one};
ghost use Rattle.program_reports.specs.Reports.{Run, Wrote};
ghost use Rattle.wires.specs.Wires.{Carried};

use super::asked::{Asked, Form, Said, asked_of, said_of, with_position};
use ballots::RequestId;
use clients::{Heard, hear};
use paxq_files::{Command, read_command};
use printed_replies::elsewhere_text;
use program_reports::{no_memory, wrong_line};
use serving::MOST_BYTES;
use std::alloc::{AllocError, Global};
use std::io;
use std::io::Write;
use wires::Wire;

/// How often something is sent before it gets no answer.
const TRIES: u32 = 200;

/// What a question goes by: a program that sends one has no other.
const QUESTION: RequestId = RequestId {
    client: 0,
    number: 0,
};

/// Sends one line to the node of a group at an address, from end 0 of a wire, and answers the exit status.
///
/// The line is `submit CLIENT NUMBER TEXT`, `ask TEXT` (with the floor 0) or `askat FLOOR TEXT`. Its datagram is sent until it is answered, 200 times at
/// most, with what the wire waits between, and nothing else is sent.
///
/// The statuses are 0, 1 (any other line), 3 (no answer), and 4 where memory is refused. An `Err` says that `output` or `errors` could not be
/// written.
pub fn send_line<W: Wire, O: Write, E: Write>(
    alloc: Global,
    wire: &mut W,
    group: u32,
    to: W::Address,
    line: &str,
    output: &mut O,
    errors: &mut E,
) -> io::Result<u8>
    ensures run { IfOk result (λ status. Brings W.has_brought wire.old wire.new (λ brought. (run : Run)
        × Wrote (O.contents output.old, O.contents output.new) (E.contents errors.old, E.contents errors.new) status run
        × SentRun group brought line.now run)) }
    ensures sent { IfOk result (IsSentFor W.was_given wire.old wire.new group to line.now) }
{
    match read_command(alloc, line) {
        Ok(Some(command)) => send_command(alloc, wire, group, to, command, output, errors),
        Ok(None) => wrong_line(alloc, 1, errors),
        Err(_) => no_memory(errors),
    }
}

/// Sends a command, and prints what answers it.
fn send_command<W: Wire, O: Write, E: Write>(
    alloc: Global,
    wire: &mut W,
    group: u32,
    to: W::Address,
    command: Command,
    output: &mut O,
    errors: &mut E,
) -> io::Result<u8>
    ensures run { IfOk result (λ status. Brings W.has_brought wire.old wire.new (λ brought. (run : Run)
        × Wrote (O.contents output.old, O.contents output.new) (E.contents errors.old, E.contents errors.new) status run
        × AskedRun group brought (command_term command) run)) }
    ensures sent { CanBeAsked 0 (command_term command) → IfOk result (IsSent W.was_given wire.old wire.new (datagram_to group to (command_term command))) }
{
    match ask_command(alloc, wire, group, to, command) {
        Ok(Some(said)) => {
            output.write_all(said.text.as_bytes())?;
            Ok(0)
        }
        Ok(None) => {
            output.write_all(b"no answer\n")?;
            Ok(3)
        }
        Err(_) => no_memory(errors),
    }
}

/// What answers a command.
fn ask_command<W: Wire>(
    alloc: Global,
    wire: &mut W,
    group: u32,
    to: W::Address,
    command: Command,
) -> Result<Option<Said>, AllocError>
    ensures said { Brings W.has_brought wire.old wire.new (λ brought. IfOk result (λ said. IfSome said (λ s.
        IsSaid brought (told_by_one (form_of (command_term command))) group (id_of (record { client = 0; number = 0 }) (command_term command)) (string_bytes s.text)))) }
    ensures sent { CanBeAsked 0 (command_term command) → IsTried W.was_given wire.old wire.new (datagram_to group to (command_term command)) result }
{
    match asked_of(alloc, group, command, QUESTION, 0)? {
        Some(asked) => ask_with_room(alloc, wire, group, to, &asked),
        None => Ok(None),
    }
}

/// Asks a node, with room for what comes.
fn ask_with_room<W: Wire>(
    alloc: Global,
    wire: &mut W,
    group: u32,
    to: W::Address,
    asked: &Asked,
) -> Result<Option<Said>, AllocError>
    ensures said { Brings W.has_brought wire.old wire.new (λ brought. IfOk result (λ said. IfSome said (λ s. IsSaid brought (told_by_one asked.now.form) group asked.now.id (string_bytes s.text)))) }
    ensures sent { IsTried W.was_given wire.old wire.new (record { end = 0; peer = to; bytes = asked.now.bytes.items }) result }
{
    let mut buffer = vec![in alloc; 0u8; MOST_BYTES]?;
    ask(alloc, wire, group, to, asked, &mut buffer)
}

/// Asks a node again and again, until it answers.
fn ask<W: Wire>(
    alloc: Global,
    wire: &mut W,
    group: u32,
    to: W::Address,
    asked: &Asked,
    buffer: &mut [u8],
) -> Result<Option<Said>, AllocError>
    ensures said { Brings W.has_brought wire.old wire.new (λ brought. IfOk result (λ said. IfSome said (λ s. IsSaid brought (told_by_one asked.now.form) group asked.now.id (string_bytes s.text)))) }
    ensures sent { IsTried W.was_given wire.old wire.new (record { end = 0; peer = to; bytes = asked.now.bytes.items }) result }
{
    for _turn in 0..TRIES {
        send_once(wire, to, asked);
        if let Some(said) = listen(alloc, wire, group, asked, buffer)? {
            return Ok(Some(said));
        }
    }
    Ok(None)
}

/// Sends what is asked. Where the wire does not take it, it is lost.
fn send_once<W: Wire>(wire: &mut W, to: W::Address, asked: &Asked)
    ensures given { IsGiven W.was_given wire.old wire.new (record { end = 0; peer = to; bytes = asked.now.bytes.items } ∷ []) }
    ensures brought { (ds : List (Carried W.Address)) → W.has_brought wire.old ds → W.has_brought wire.new ds }
{
    let _ = wire.send(0, to, &asked.bytes);
}

/// Takes what comes until it is an answer, or nothing more comes, or the wire's while has passed.
fn listen<W: Wire>(
    alloc: Global,
    wire: &mut W,
    group: u32,
    asked: &Asked,
    buffer: &mut [u8],
) -> Result<Option<Said>, AllocError>
    ensures said { Brings W.has_brought wire.old wire.new (λ brought. IfOk result (λ said. IfSome said (λ s. IsSaid brought (told_by_one asked.now.form) group asked.now.id (string_bytes s.text)))) }
    ensures given { (ds : List (Carried W.Address)) → W.was_given wire.old ds → W.was_given wire.new ds }
{
    for _datagram in 0..u64::MAX {
        let Some(length) = next(wire, buffer) else {
            return Ok(None);
        };
        if let Some(said) = said_by_one(alloc, group, asked, &buffer[..length])? {
            return Ok(Some(said));
        }
        if wire.has_while_passed() {
            return Ok(None);
        }
    }
    Ok(None)
}

/// Waits until something comes to the client, and says how many bytes that has, at the front of the buffer; or nothing, where nothing more comes, or the
/// wire's while has passed.
fn next<W: Wire>(wire: &mut W, buffer: &mut [u8]) -> Option<usize>
    ensures fits { IfSome result (λ n. n ≤ length buffer.new) }
    ensures given { (ds : List (Carried W.Address)) → W.was_given wire.old ds → W.was_given wire.new ds }
    ensures brought { Brings W.has_brought wire.old wire.new (λ brought. IfSome result (λ n. HasCome brought (take n buffer.new))) }
{
    for _datagram in 0..u64::MAX {
        let Ok(Some(arrival)) = wire.receive(buffer) else {
            return None;
        };
        if arrival.end == 0 {
            return Some(arrival.length);
        }
        if wire.has_while_passed() {
            return None;
        }
    }
    None
}

/// What is printed where a datagram of a single node answers what it was asked. It fails where memory is refused.
fn said_by_one(
    alloc: Global,
    group: u32,
    asked: &Asked,
    bytes: &[u8],
) -> Result<Option<Said>, AllocError>
    ensures { IfOk result (λ said. option_map (λ s. string_bytes s.text) said ≡ told_by_one asked.now.form (heard_in group asked.now.id (datagram_read bytes.now))) }
{
    match hear(alloc, group, asked.id, bytes)? {
        Some(heard) => said_or_elsewhere(alloc, asked.form, &heard),
        None => Ok(None),
    }
}

/// What is printed where what was heard answers it, also by that another member leads.
fn said_or_elsewhere(alloc: Global, form: Form, heard: &Heard) -> Result<Option<Said>, AllocError>
    ensures { IfOk result (λ said. option_map (λ s. string_bytes s.text) said ≡ told_by_one form (Some (heard_term heard.now))) }
{
    match heard {
        Heard::Elsewhere(leader) => with_position(elsewhere_text(alloc, *leader), 0),
        _ => said_of(alloc, form, heard),
    }
}
