//! How texts read as integers and as booleans, and the codes of all faults.

use fault_codes::Code;
use rows::{RowFault, Words};
use std::alloc::Global;
use values::{read_boolean, read_integer};

/// `integer TEXT`: the integer that a text reads as.
pub(super) fn integer(alloc: Global, words: &mut Words<'_>) -> Result<String, RowFault> {
    let text = words.text(alloc)?;
    Ok(match read_integer(&text) {
        Some(integer) => format!(in alloc; "{integer}")?,
        None => String::from_str(alloc, "none")?,
    })
}

/// `boolean TEXT`: the boolean that a text reads as.
pub(super) fn boolean(alloc: Global, words: &mut Words<'_>) -> Result<String, RowFault> {
    let text = words.text(alloc)?;
    Ok(match read_boolean(&text) {
        Some(boolean) => format!(in alloc; "{boolean}")?,
        None => String::from_str(alloc, "none")?,
    })
}

/// `code N`: the name of the code of that number, and the number that the code has.
pub(super) fn code(alloc: Global, words: &mut Words<'_>) -> Result<String, RowFault> {
    let number = u8::try_from(words.number()?).ok().ok_or(RowFault::NotARow)?;
    Ok(match Code::of_number(number) {
        Some(code) => {
            let number = code.number();
            format!(in alloc; "{code} {number}")?
        }
        None => String::from_str(alloc, "none")?,
    })
}
