//! Bytes written in hexadecimal digits.

use super::fault::RowFault;
use std::alloc::Global;

/// The bytes that digits stand for, two each; spaces are skipped. Faults: `NotARow` where a digit is none or has no other beside it, and
/// `Memory`.
pub fn hex_bytes(alloc: Global, digits: &str) -> Result<Vec<u8>, RowFault> {
    let mut bytes = Vec::new(alloc);
    let mut high = None;
    for character in digits.chars() {
        if character != ' ' {
            let digit = character.to_digit(16).ok_or(RowFault::NotARow)? as u8;
            high = match high {
                None => Some(digit),
                Some(high) => {
                    bytes.push(high << 4 | digit)?;
                    None
                }
            };
        }
    }
    match high {
        None => Ok(bytes),
        Some(_) => Err(RowFault::NotARow),
    }
}
