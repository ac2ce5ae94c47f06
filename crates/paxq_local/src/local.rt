//! `paxq local N SCRIPT`.

ghost use Rattle.std.specs.Prelude.{◌≡◌, List, IfOk};
ghost use Rattle.paxq_local.specs.Asking.{Gives, GivesNothing};
ghost use Rattle.paxq_local.specs.Playing.{FileRun, IsEnded, IsPlayed, IsPrinted, LocalRun, Played};
ghost use Rattle.paxq_local.specs.Told.{Brings};
ghost use Rattle.program_reports.specs.Reports.{Run, Wrote};
ghost use Rattle.wires.specs.Wires.{Carried};

use super::answers::Told;
use super::client::Client;
use super::group::{Group, addresses};
use applications::Application;
use document_names::Names;
use paxq_files::{Script, ScriptFault, read_script};
use program_reports::{ReadFault, cannot_read, no_memory, read_all, wrong_line};
use serving::MOST_BYTES;
use std::alloc::{AllocError, Global};
use std::io;
use std::io::{Read, Write};
use wires::Wire;

/// Runs the script in a file on a group of so many members, 1 to 15, in this program, and answers the exit status.
///
/// The wire's end 0 is the client's, and end m is member m's. `file` is the file's name, and `reader` gives its bytes. The first member begins;
/// requests and `askat` go to it, and each `ask` goes to all, at the highest position that was replied, and nothing else is sent from end 0. An answer
/// counts only where it comes from the address of the member that it was asked of. What is not answered is asked again, 200 times in all, with what the
/// wire waits between, whatever else comes; what is lost on the wire is so made good. Memory that is refused to a member is as a loss, unless no answer
/// comes: then that is reported.
///
/// The statuses are 0, 1 (a file that cannot be read, or a wrong line: nothing is run), 3 (no answer, or answers that differ, which
/// end the run), and 4 where memory is refused. An `Err` says that `output` or `errors` could not be written.
pub fn run_local<A: Application + Drop, W: Wire, R: Read, O: Write, E: Write>(
    alloc: Global,
    members: u8,
    wire: &mut W,
    file: &str,
    reader: &mut R,
    output: &mut O,
    errors: &mut E,
) -> io::Result<u8>
    ensures { IfOk result (λ status. (peers : List W.Address) × Gives W.was_given wire.old wire.new (λ went. Brings W.has_brought wire.old wire.new (λ brought. (run : Run)
        × Wrote (O.contents output.old, O.contents output.new) (E.contents errors.old, E.contents errors.new) status run
        × FileRun W.Address.eq peers members file.now (R.remaining reader.old) brought went run))) }
{
    match read_all(alloc, reader) {
        Ok(bytes) => run_bytes::<A, W, O, E>(alloc, members, wire, file, &bytes, output, errors),
        Err(ReadFault::Failed) => cannot_read(alloc, file, errors),
        Err(ReadFault::Memory) => no_memory(errors),
    }
}

/// Runs the script whose bytes these are, if they are a text in UTF-8.
fn run_bytes<A: Application + Drop, W: Wire, O: Write, E: Write>(
    alloc: Global,
    members: u8,
    wire: &mut W,
    file: &str,
    bytes: &[u8],
    output: &mut O,
    errors: &mut E,
) -> io::Result<u8>
    ensures { IfOk result (λ status. (peers : List W.Address) × Gives W.was_given wire.old wire.new (λ went. Brings W.has_brought wire.old wire.new (λ brought. (run : Run)
        × Wrote (O.contents output.old, O.contents output.new) (E.contents errors.old, E.contents errors.new) status run
        × LocalRun W.Address.eq peers members file.now bytes.now brought went run))) }
{
    let Ok(text) = str::from_utf8(bytes) else {
        return cannot_read(alloc, file, errors);
    };
    match read_script(alloc, text) {
        Ok(script) => run_commands::<A, W, O, E>(alloc, members, wire, script, output, errors),
        Err(ScriptFault::Line(number)) => wrong_line(alloc, number, errors),
        Err(ScriptFault::Memory) => no_memory(errors),
    }
}

/// Runs the commands of a script on a new group.
fn run_commands<A: Application + Drop, W: Wire, O: Write, E: Write>(
    alloc: Global,
    members: u8,
    wire: &mut W,
    mut script: Script,
    output: &mut O,
    errors: &mut E,
) -> io::Result<u8>
    ensures { IfOk result (λ status. (peers : List W.Address) × Gives W.was_given wire.old wire.new (λ went. Brings W.has_brought wire.old wire.new (λ brought. (run : Run)
        × Wrote (O.contents output.old, O.contents output.new) (E.contents errors.old, E.contents errors.new) status run
        × Played W.Address.eq peers members 0 0 script.commands brought went run))) }
{
    let Ok(mut client) = client_of::<A, W>(alloc, members, wire, script.names()) else {
        return no_memory(errors);
    };
    match play(alloc, members, wire, &mut client, &mut script, output) {
        Ok(status) => Ok(status),
        Err(Stop::Memory) => no_memory(errors),
        Err(Stop::Output(error)) => Err(error),
    }
}

/// A client beside a group whose first member has begun. It fails where memory is refused.
fn client_of<A: Application + Drop, W: Wire>(
    alloc: Global,
    members: u8,
    wire: &mut W,
    names: &Names,
) -> Result<Client<A, W::Address>, AllocError>
    ensures given { GivesNothing W.was_given wire.old wire.new }
    ensures brought { (ds : List (Carried W.Address)) → W.has_brought wire.old ds → W.has_brought wire.new ds }
    ensures count { IfOk result (λ client. client.asked ≡ 0) }
    ensures floor { IfOk result (λ client. client.floor ≡ 0) }
{
    let peers = addresses(alloc, wire, members)?;
    let buffer = vec![in alloc; 0; MOST_BYTES]?;
    match Group::new(alloc, members, names, &peers) {
        Ok(mut group) => {
            group.begin(alloc, wire);
            Ok(Client {
                group,
                peers,
                buffer,
                floor: 0,
                asked: 0,
            })
        }
        Err(error) => Err(error),
    }
}

/// Why a run stopped before its end.
#[derive(Drop)]
enum Stop {
    /// Memory was refused.
    Memory,
    /// The output could not be written.
    Output(io::Error),
}

/// Runs the commands of a script in turn, until one gets no answer or different ones, and answers the exit status.
fn play<A: Application + Drop, W: Wire, O: Write>(
    alloc: Global,
    members: u8,
    wire: &mut W,
    client: &mut Client<A, W::Address>,
    script: &mut Script,
    output: &mut O,
) -> Result<u8, Stop>
    ensures { Gives W.was_given wire.old wire.new (λ went. Brings W.has_brought wire.old wire.new (λ brought.
        IsPlayed W.Address.eq client.old.peers.items members client.old.asked client.old.floor script.old.commands brought went (O.contents output.old) (O.contents output.new) result)) }
{
    while let Some(command) = script.next_command() {
        let Ok(told) = client.tell(alloc, wire, members, command) else {
            return Err(Stop::Memory);
        };
        match print(output, told) {
            Ok(None) => {}
            Ok(Some(status)) => return Ok(status),
            Err(stop) => return Err(stop),
        }
    }
    Ok(0)
}

/// Prints what came of a command. Gives the exit status where it ends the run.
fn print<O: Write>(output: &mut O, told: Told) -> Result<Option<u8>, Stop>
    ensures { IsPrinted told (O.contents output.old) (O.contents output.new) result }
{
    match told {
        Told::Said(text) => match output.write_all(text.as_bytes()) {
            Ok(()) => Ok(None),
            Err(error) => Err(Stop::Output(error)),
        },
        Told::Differ => end(output, b"differ\n"),
        Told::NoAnswer => end(output, b"no answer\n"),
    }
}

/// Prints a last line, after which the status is 3.
fn end<O: Write>(output: &mut O, line: &[u8]) -> Result<Option<u8>, Stop>
    ensures { IsEnded line.now (O.contents output.old) (O.contents output.new) result }
{
    match output.write_all(line) {
        Ok(()) => Ok(Some(3)),
        Err(error) => Err(Stop::Output(error)),
    }
}
