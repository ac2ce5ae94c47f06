//! `paxq run SCRIPT` over the script's file and the standard streams.

use super::run::run_script;
use program_reports::cannot_read;
use std::io::{BufWriter, Write};
use std::sync::Wait;
use std::{fs, io};

/// Runs the script in the file of that name, as [`run_script`] does, prints to standard output and standard error, and answers the exit status:
/// 0 once all is run; 1 where the file cannot be read or a line of it is wrong; 3 where a command gets no answer; 4 where memory is refused once
/// the file is open.
///
/// `waits` is the leave to wait for readers.
///
/// # Errors
///
/// Standard output or standard error could not be written, or memory was refused before the file was open.
pub fn run_file<T: Wait>(rt: &HostRuntime, waits: &T, script: &str) -> io::Result<u8> {
    let mut output = BufWriter::new(rt.alloc(), io::writer(rt))?;
    let mut errors = rt.stderr();
    let status = match fs::open(rt, script) {
        Ok(mut file) => run_script(
            waits,
            rt.alloc(),
            script,
            &mut file,
            &mut output,
            &mut errors,
        )?,
        Err(error) if error.kind() == io::ErrorKind::OutOfMemory => return Err(error),
        Err(_) => cannot_read(rt.alloc(), script, &mut errors)?,
    };
    output.flush()?;
    Ok(status)
}
