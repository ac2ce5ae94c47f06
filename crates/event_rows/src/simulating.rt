//! Simulations of event files, by readers and writers in memory.

use applications::Application;
use paxq_sim::run_events;
use rows::{RowFault, shown, text_of};
use std::alloc::Global;

/// `sim BYTES`: the exit status of a simulation of an event file, its output and its error output. Where memory is refused nothing else is
/// reported, and nothing was printed.
pub(super) fn sim<A: Application + Drop>(alloc: Global, bytes: &[u8]) -> Result<String, RowFault> {
    let mut reader = bytes;
    let mut output: Vec<u8> = Vec::new(alloc);
    let mut errors: Vec<u8> = Vec::new(alloc);
    let ended = run_events::<A, _, _, _>(
        alloc,
        "some.events",
        &mut reader,
        &mut output,
        &mut errors,
    );
    let status = ended.ok();
    if status != Some(4) {
        return shown(alloc, status, &output, &errors);
    }
    if output.is_empty() && errors.as_slice() == b"paxq: no memory\n".as_slice() {
        return Err(RowFault::Memory);
    }
    let output = text_of(&output)?;
    Ok(format!(in alloc; "4 {output:?}")?)
}
