//! `paxq run SCRIPT`: the only member of a group, its record in memory, takes a script's requests, and a reader answers its questions.

ghost use Rattle.std.specs.Prelude.{◌≡◌, ◌⊎◌, ℕ, List, [], ◌∷◌, ◌++◌, Option, IfOk, IfErr, OnOk, IfSome, Ok};
ghost use Rattle.std.specs.Str.{IsUtf8};
ghost use Rattle.std.specs.Fmt.{decimal};
ghost use Rattle.std.specs.Io.KnownBytes.{Appends, Keeps};
ghost use Rattle.ballots.specs.declared.value.Value.{Value as ValueTerm};
ghost use Rattle.node.specs.Nodes.{RunsAs};
ghost use Rattle.paxos.specs.Step.{Running};
ghost use Rattle.program_reports.specs.Reports.{Ran, line_feed};
ghost use Rattle.published.specs.Readers.{first_readers};
ghost use Rattle.sessions.specs.Session.{Means};
ghost use Rattle.paxq_run.specs.Play.{turn_of, commands_run, text_run, IsPlayed, IsCut, IfMemory, FileRan, BytesRan};
ghost use Rattle.paxq_run.specs.Sites.{Runs, Shows};

use super::lone::{LoneNode, LoneReader, LoneSite, begin, opened};
use super::turn::take_turn;
use ballots::Value;
use paxq_files::{Script, ScriptFault, read_script};
use program_reports::{ReadFault, cannot_read, no_memory, read_all, wrong_line};
use published::Opening;
use readers::SiteOver;
use sight::{Naming, Opened};
use std::alloc::Global;
use std::io;
use std::io::{Read, Write};
use std::marker::Brand;
use std::sync::Wait;

/// Runs the script in a file, and answers the exit status.
///
/// `file` is the file's name, and `reader` gives its bytes. What is written to `output` and `errors`
/// is a function of these (`specs/Play.antt`), unless the reader fails (as a file that cannot be
/// read) or memory is refused (status 4, after a beginning of the output). An `Err` says that
/// `output` or `errors` could not be written.
pub fn run_script<T: Wait, R: Read, W: Write, E: Write>(
    rt: &T,
    alloc: Global,
    file: &str,
    reader: &mut R,
    output: &mut W,
    errors: &mut E,
) -> io::Result<u8>
    ensures { IfOk result
        (FileRan file.now (R.remaining reader.old) (W.contents output.old, W.contents output.new) (E.contents errors.old, E.contents errors.new)) }
{
    match read_all(alloc, reader) {
        Ok(bytes) => run_bytes(rt, alloc, file, &bytes, output, errors),
        Err(ReadFault::Failed) => cannot_read(alloc, file, errors),
        Err(ReadFault::Memory) => no_memory(errors),
    }
}

/// Runs the script whose bytes these are, if they are a text in UTF-8.
fn run_bytes<T: Wait, W: Write, E: Write>(
    rt: &T,
    alloc: Global,
    file: &str,
    bytes: &[u8],
    output: &mut W,
    errors: &mut E,
) -> io::Result<u8>
    ensures { IfOk result
        (BytesRan file.now bytes.now (W.contents output.old, W.contents output.new) (E.contents errors.old, E.contents errors.new)) }
{
    match str::from_utf8(bytes) {
        Ok(text) => run_text(rt, alloc, text, output, errors),
        Err(_) => cannot_read(alloc, file, errors),
    }
}

/// Runs the script that a text is, and answers the exit status.
fn run_text<T: Wait, W: Write, E: Write>(
    rt: &T,
    alloc: Global,
    text: &str,
    output: &mut W,
    errors: &mut E,
) -> io::Result<u8>
    ensures { IfOk result
        (Ran (W.contents output.old, W.contents output.new) (E.contents errors.old, E.contents errors.new) (text_run text.now)) }
{
    match read_script(alloc, text) {
        Ok(script) => run_commands(rt, alloc, script, output, errors),
        Err(ScriptFault::Line(number)) => wrong_line(alloc, number, errors),
        Err(ScriptFault::Memory) => no_memory(errors),
    }
}

/// Runs the commands of a script from an opening store, and answers the exit status. The list of what the member applies is a new one.
fn run_commands<T: Wait, W: Write, E: Write>(
    rt: &T,
    alloc: Global,
    mut script: Script,
    output: &mut W,
    errors: &mut E,
) -> io::Result<u8>
    ensures { IfOk result
        (Ran (W.contents output.old, W.contents output.new) (E.contents errors.old, E.contents errors.new) (commands_run script.names [] script.commands)) }
{
    let Ok(node) = opened(alloc, script.names()) else {
        return no_memory(errors);
    };
    match play_over::<Brand, T, W>(rt, alloc, Opened::new(), node, &mut script, output) {
        Ok(status) => Ok(status),
        Err(Stop::Memory) => no_memory(errors),
        Err(Stop::Output(error)) => Err(error),
    }
}

/// Why a run stopped before its end.
#[derive(Drop)]
enum Stop {
    /// Memory was refused.
    Memory,
    /// The output could not be written.
    Output(io::Error),
}

/// Runs the commands of a script over a node that has applied nothing, with a reader beside it, and answers the exit status.
fn play_over<J: Naming + Opening, T: Wait, W: Write>(
    rt: &T,
    alloc: Global,
    opened: Opened<Value>,
    node: LoneNode,
    script: &mut Script,
    output: &mut W,
) -> Result<u8, Stop>
    requires list { opened ≡ J.book }
    requires names { node.setup.names ≡ J.names }
    ensures played { IfOk result
        (λ status. (running : Running) → RunsAs Means running node
        → IsPlayed (commands_run J.names [] script.old.commands) status (W.contents output.old) (W.contents output.new)) }
    ensures cut { IfErr result
        (λ stop. IfMemory stop
        ((running : Running) → RunsAs Means running node
        → IsCut (commands_run J.names [] script.old.commands) (W.contents output.old) (W.contents output.new))) }
{
    let Ok((mut site, readers)) = LoneSite::<J>::new(alloc, opened, node, 1) else {
        return Err(Stop::Memory);
    };
    let ended = begin_and_play(rt, alloc, &mut site, readers, script, output);
    let SiteOver { node: _, store } = site;
    store.close(rt);
    ended
}

/// Has the member begin, and runs the commands of a script then, beside the only reader.
fn begin_and_play<J: Naming + Opening, T: Wait, W: Write>(
    rt: &T,
    alloc: Global,
    site: &mut LoneSite<J>,
    readers: Vec<LoneReader<J>>,
    script: &mut Script,
    output: &mut W,
) -> Result<u8, Stop>
    ensures played { IfOk result
        (λ status. Runs site.old → site.old.node.setup.names ≡ J.names → readers.items ≡ first_readers 1 site.old.store.published
        → IsPlayed (commands_run J.names [] script.old.commands) status (W.contents output.old) (W.contents output.new)) }
    ensures cut { IfErr result
        (λ stop. IfMemory stop
        (Runs site.old → site.old.node.setup.names ≡ J.names → readers.items ≡ first_readers 1 site.old.store.published
        → IsCut (commands_run J.names [] script.old.commands) (W.contents output.old) (W.contents output.new))) }
{
    let mut readers = readers;
    let Some(mut reader) = readers.pop() else {
        return Err(Stop::Memory);
    };
    let Ok(()) = begin(alloc, site) else {
        return Err(Stop::Memory);
    };
    play(rt, alloc, site, &mut reader, script, output)
}

/// Runs the commands of a script in turn, until one gets no answer, and answers the exit status.
fn play<J: Naming + Opening, T: Wait, W: Write>(
    rt: &T,
    alloc: Global,
    site: &mut LoneSite<J>,
    reader: &mut LoneReader<J>,
    script: &mut Script,
    output: &mut W,
) -> Result<u8, Stop>
    ensures played { IfOk result
        (λ status. (values : List ValueTerm) → Shows J.names values site.old reader.old.sight
        → IsPlayed (commands_run J.names values script.old.commands) status (W.contents output.old) (W.contents output.new)) }
    ensures cut { IfErr result
        (λ stop. IfMemory stop
        ((values : List ValueTerm) → Shows J.names values site.old reader.old.sight
        → IsCut (commands_run J.names values script.old.commands) (W.contents output.old) (W.contents output.new))) }
{
    while let Some(command) = script.next_command() {
        let turn = match take_turn(rt, alloc, site, reader, command) {
            Ok(turn) => turn,
            Err(_) => return Err(Stop::Memory),
        };
        if let Err(error) = output.write_all(turn.text.as_bytes()) {
            return Err(Stop::Output(error));
        }
        if !turn.goes_on {
            return Ok(3);
        }
    }
    Ok(0)
}
