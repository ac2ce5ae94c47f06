//! Scripts that are read, and the first wrong lines of other texts.

use ballots::{Request, RequestId};
use paxq_files::{Command, Script, ScriptFault, read_script};
use rows::{RowFault, text_of};
use std::alloc::{AllocError, Global};

/// How many commands of a script are shown at most.
const MOST_COMMANDS: u32 = 1_000;

/// `script TEXT`: the names of the documents and the commands of a script, or the number of its first wrong line.
pub(super) fn script(alloc: Global, bytes: &[u8]) -> Result<String, RowFault> {
    match read_script(alloc, text_of(bytes)?) {
        Ok(script) => Ok(script_text(alloc, script)?),
        Err(ScriptFault::Line(line)) => Ok(format!(in alloc; "line {line}")?),
        Err(ScriptFault::Memory) => Err(RowFault::Memory),
    }
}

/// The names of the documents, and then the commands, each after a bar.
fn script_text(alloc: Global, script: Script) -> Result<String, AllocError> {
    let mut script = script;
    let names = script.names().as_slice();
    let mut text = format!(in alloc; "{names:?}")?;
    for _ in 0..MOST_COMMANDS {
        if !push_next(&mut text, &mut script)? {
            break;
        }
    }
    Ok(text)
}

/// Takes the next command, if there is one, and appends it. Gives whether there was one.
fn push_next(text: &mut String, script: &mut Script) -> Result<bool, AllocError> {
    match script.next_command() {
        Some(Command::Submit(request)) => {
            text.push_str(" | submit")?;
            push_request(text, &request)?;
            Ok(true)
        }
        Some(Command::Ask(level, question)) => {
            write!(text, " | ask {level} {question:?}")?;
            Ok(true)
        }
        Some(Command::AskAt(level, floor, question)) => {
            write!(text, " | askat {floor} {level} {question:?}")?;
            Ok(true)
        }
        None => Ok(false),
    }
}

/// Appends the client, the number, the level and the text of a request.
fn push_request(text: &mut String, request: &Request) -> Result<(), AllocError> {
    let RequestId { client, number } = request.id();
    let level = request.level();
    let request = request.text();
    write!(text, " {client} {number} {level} {request:?}")
}
