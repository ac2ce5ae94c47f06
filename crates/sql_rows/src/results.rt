//! Results of which only the value is wanted.
//!
//! These are over any types, so that what is let go is no business of the functions that call them.

use record_writes::is_memory;
use rows::RowFault;
use sqlite::Error;

/// Whether a step was done, and what it was done to, which is given back whatever came of it.
pub(super) type Kept<T> = (Result<(), RowFault>, T);

/// Lets the value go, and keeps the fault.
pub(super) fn let_go<T: Drop>(outcome: Result<T, RowFault>) -> Result<(), RowFault> {
    match outcome {
        Ok(_) => Ok(()),
        Err(fault) => Err(fault),
    }
}

/// The value of a call of a connection. Faults: `Memory` where memory was refused, and `NotARow` where there is another error.
pub(super) fn of_call<T: Drop>(outcome: Result<T, Error>) -> Result<T, RowFault> {
    match outcome {
        Ok(value) => Ok(value),
        Err(error) if is_memory(&error) => Err(RowFault::Memory),
        Err(_) => Err(RowFault::NotARow),
    }
}

/// The value, where a step before it was done.
pub(super) fn keeping<T: Drop>(done: Result<(), RowFault>, kept: T) -> Result<T, RowFault> {
    both_done(done, Ok(kept))
}

/// What came of the second step, where the first was done.
pub(super) fn both_done<T: Drop>(
    first: Result<(), RowFault>,
    second: Result<T, RowFault>,
) -> Result<T, RowFault> {
    match first {
        Ok(()) => second,
        Err(fault) => Err(fault),
    }
}

/// Appends a part.
pub(super) fn push(text: &mut String, part: &str) -> Result<(), RowFault> {
    text.push_str(part)?;
    Ok(())
}
