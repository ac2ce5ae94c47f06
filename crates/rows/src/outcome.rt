//! What a run of a program came to.

use super::bytes::text_of;
use super::fault::RowFault;
use std::alloc::Global;

/// The exit status, the output and the error output of a run. Faults: `NotARow` where what was written is no text, and `Memory`, also where
/// there is no status.
pub fn shown(
    alloc: Global,
    status: Option<u8>,
    output: &[u8],
    errors: &[u8],
) -> Result<String, RowFault> {
    let status = status.ok_or(RowFault::Memory)?;
    let output = text_of(output)?;
    let errors = text_of(errors)?;
    Ok(format!(in alloc; "{status} {output:?} {errors:?}")?)
}
