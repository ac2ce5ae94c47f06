//! `paxq sim EVENTS`: a group of members in memory, as an event file says.

ghost use Rattle.std.specs.Prelude.{All, IfOk, string_bytes};
ghost use Rattle.event_files.specs.EventFiles.{file_of, file_term};
ghost use Rattle.event_files.specs.Within.{IsCommandOf};
ghost use Rattle.paxq_sim.specs.Going.{HasPlayed};
ghost use Rattle.paxq_sim.specs.Play.{IsSimulated};
ghost use Rattle.paxq_sim.specs.Ran.{BytesRan, EventsRan, FileRan, ReadRan};

use super::report::report;
use super::simulation::Simulation;
use applications::Application;
use event_files::{EventFile, EventFileFault, read_event_file};
use program_reports::{ReadFault, cannot_read, no_memory, read_all, wrong_line};
use records::ScriptRecords;
use std::alloc::{AllocError, Global};
use std::io;
use std::io::{Read, Write};
use world::World;

/// Simulates the event file that a reader gives, with nodes that run requests by an application of the kind `A`, and answers the exit
/// status.
///
/// `file` is the file's name. What [`simulate`] prints is written to `output` (status 0), or the first wrong line of the file is
/// reported to `errors` (status 1), or that the file cannot be read, where the reader fails or gives no text in UTF-8 (status 1), or
/// want of memory (status 4, and nothing is printed). An `Err` says that `output` or `errors` could not be written.
pub fn run_events<A: Application + Drop, R: Read, W: Write, E: Write>(
    alloc: Global,
    file: &str,
    reader: &mut R,
    output: &mut W,
    errors: &mut E,
) -> io::Result<u8>
    ensures { IfOk result (EventsRan A.meaning file.now (R.remaining reader.old) (W.contents output.old, W.contents output.new) (E.contents errors.old, E.contents errors.new)) }
{
    match read_all(alloc, reader) {
        Ok(bytes) => run_bytes::<A, W, E>(alloc, file, &bytes, output, errors),
        Err(ReadFault::Failed) => cannot_read(alloc, file, errors),
        Err(ReadFault::Memory) => no_memory(errors),
    }
}

/// Simulates the event file that bytes are, if they are a text in UTF-8, and answers the exit status. An `Err` says that `output` or
/// `errors` could not be written.
fn run_bytes<A: Application + Drop, W: Write, E: Write>(
    alloc: Global,
    file: &str,
    bytes: &[u8],
    output: &mut W,
    errors: &mut E,
) -> io::Result<u8>
    ensures { IfOk result (BytesRan A.meaning file.now bytes.now (W.contents output.old, W.contents output.new) (E.contents errors.old, E.contents errors.new)) }
{
    match str::from_utf8(bytes) {
        Ok(_) => run_text::<A, W, E>(alloc, bytes, output, errors),
        Err(_) => cannot_read(alloc, file, errors),
    }
}

/// Simulates the event file that the bytes of a text are, and answers the exit status. An `Err` says that `output` or `errors` could not be written.
fn run_text<A: Application + Drop, W: Write, E: Write>(
    alloc: Global,
    bytes: &[u8],
    output: &mut W,
    errors: &mut E,
) -> io::Result<u8>
    ensures { IfOk result (ReadRan A.meaning (file_of bytes.now) (W.contents output.old, W.contents output.new) (E.contents errors.old, E.contents errors.new)) }
{
    match read_event_file(alloc, bytes) {
        Ok(file) => run_file::<A, W, E>(alloc, file, output, errors),
        Err(EventFileFault::Line(number)) => wrong_line(alloc, number, errors),
        Err(EventFileFault::Memory) => no_memory(errors),
    }
}

/// Simulates an event file, and answers the exit status. An `Err` says that `output` or `errors` could not be written.
fn run_file<A: Application + Drop, W: Write, E: Write>(
    alloc: Global,
    file: EventFile,
    output: &mut W,
    errors: &mut E,
) -> io::Result<u8>
    requires within { All (IsCommandOf file.group.members) file.commands.items }
    ensures { IfOk result (FileRan A.meaning (file_term file) (W.contents output.old, W.contents output.new) (E.contents errors.old, E.contents errors.new)) }
{
    let Ok(text) = simulate::<A>(alloc, file) else {
        return no_memory(errors);
    };
    output.write_all(text.as_bytes())?;
    Ok(0)
}

/// What a simulation of an event file prints: all that members were told, in order, each thing once, then how many messages were sent,
/// and how far each member is.
///
/// It fails where memory is refused.
pub fn simulate<A: Application + Drop>(alloc: Global, file: EventFile) -> Result<String, AllocError>
    requires within { All (IsCommandOf file.group.members) file.commands.items }
    ensures { IfOk result (λ text. IsSimulated A.meaning (file_term file) (string_bytes text)) }
{
    let world = play::<A>(alloc, file)?;
    report(alloc, &world)
}

/// The group of members that an event file's commands lead to, from nodes that never did anything.
///
/// It fails where memory is refused, also to a node that was to apply what it learnt.
pub fn play<A: Application + Drop>(
    alloc: Global,
    file: EventFile,
) -> Result<World<ScriptRecords, A>, AllocError>
    requires within { All (IsCommandOf file.group.members) file.commands.items }
    ensures { IfOk result (HasPlayed A.has_applied A.meaning (file_term file)) }
{
    let EventFile {
        group,
        failures,
        commands,
    } = file;
    let mut simulation = Simulation::<A>::begin(alloc, &group, &failures)?;
    simulation.play(alloc, &commands)?;
    Ok(simulation.world)
}
