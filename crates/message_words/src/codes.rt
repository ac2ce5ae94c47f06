//! Faults by their names.

use fault_codes::Code;
use rows::RowFault;
use std::alloc::Global;

/// The code of a name. Faults: `NotARow` where there is none, and `Memory`.
pub(super) fn code_of(alloc: Global, name: &str) -> Result<Code, RowFault> {
    for number in 1..=u8::MAX {
        let code = Code::of_number(number).ok_or(RowFault::NotARow)?;
        if format!(in alloc; "{code}")?.as_str() == name {
            return Ok(code);
        }
    }
    Err(RowFault::NotARow)
}
