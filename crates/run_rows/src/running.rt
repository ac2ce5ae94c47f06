//! Runs of scripts, by readers and writers in memory.

use super::failing::{FailingReader, FailingWriter};
use paxq_run::run_script;
use rows::{RowFault, shown, text_of};
use std::alloc::Global;
use std::sync::Wait;

/// `run BYTES`: the exit status of a run of a script, its output and its error output.
pub(super) fn run<R: Wait>(rt: &R, alloc: Global, bytes: &[u8]) -> Result<String, RowFault> {
    let mut reader = bytes;
    let mut output: Vec<u8> = Vec::new(alloc);
    let mut errors: Vec<u8> = Vec::new(alloc);
    let ended = run_script(
        rt,
        alloc,
        "script.pxq",
        &mut reader,
        &mut output,
        &mut errors,
    );
    shown(alloc, ended.ok(), &output, &errors)
}

/// `prints BYTES gives BYTES`: the exit status of a run of a script, its output or that it is as given, and its error output.
pub(super) fn prints<R: Wait>(
    rt: &R,
    alloc: Global,
    bytes: &[u8],
    given: &[u8],
) -> Result<String, RowFault> {
    let mut reader = bytes;
    let mut output: Vec<u8> = Vec::new(alloc);
    let mut errors: Vec<u8> = Vec::new(alloc);
    let ended = run_script(
        rt,
        alloc,
        "script.pxq",
        &mut reader,
        &mut output,
        &mut errors,
    );
    if output.as_slice() != given {
        return shown(alloc, ended.ok(), &output, &errors);
    }
    let status = ended.ok().ok_or(RowFault::Memory)?;
    let errors = text_of(&errors)?;
    Ok(format!(in alloc; "{status} as given {errors:?}")?)
}

/// `unread BYTES`: a run of a script whose reader gives these bytes and then fails.
pub(super) fn unread<R: Wait>(rt: &R, alloc: Global, bytes: &[u8]) -> Result<String, RowFault> {
    let mut reader = FailingReader::new(bytes);
    let mut output: Vec<u8> = Vec::new(alloc);
    let mut errors: Vec<u8> = Vec::new(alloc);
    let ended = run_script(
        rt,
        alloc,
        "script.pxq",
        &mut reader,
        &mut output,
        &mut errors,
    );
    shown(alloc, ended.ok(), &output, &errors)
}

/// `unwritten WRITES BYTES`: the exit status of a run of a script whose output takes so many writes, or `not written`, and its error
/// output.
pub(super) fn unwritten<R: Wait>(
    rt: &R,
    alloc: Global,
    writes: u64,
    bytes: &[u8],
) -> Result<String, RowFault> {
    let mut reader = bytes;
    let mut output = FailingWriter::new(writes);
    let mut errors: Vec<u8> = Vec::new(alloc);
    let ended = run_script(
        rt,
        alloc,
        "script.pxq",
        &mut reader,
        &mut output,
        &mut errors,
    );
    let errors = text_of(&errors)?;
    Ok(match ended {
        Ok(status) => format!(in alloc; "{status} {errors:?}")?,
        Err(_) => format!(in alloc; "not written {errors:?}")?,
    })
}
