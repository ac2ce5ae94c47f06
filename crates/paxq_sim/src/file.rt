//! `paxq sim EVENTS` over the event file and the standard streams.

use super::run::run_events;
use program_reports::cannot_read;
use sessions::State;
use std::io::{BufWriter, Write};
use std::{fs, io};

/// Simulates the event file of that name, as [`run_events`] does with nodes that keep documents, prints to standard output and standard error, and answers the exit status: 0 once
/// the simulation is printed; 1 where the file cannot be read or a line of it is wrong; 4 where memory is refused once the file is open.
///
/// # Errors
///
/// Standard output or standard error could not be written, or memory was refused before the file was open.
pub fn sim_file(rt: &HostRuntime, events: &str) -> io::Result<u8> {
    let mut output = BufWriter::new(rt.alloc(), io::writer(rt))?;
    let mut errors = rt.stderr();
    let status = match fs::open(rt, events) {
        Ok(mut file) => run_events::<State, _, _, _>(
            rt.alloc(),
            events,
            &mut file,
            &mut output,
            &mut errors,
        )?,
        Err(error) if error.kind() == io::ErrorKind::OutOfMemory => return Err(error),
        Err(_) => cannot_read(rt.alloc(), events, &mut errors)?,
    };
    output.flush()?;
    Ok(status)
}
