//! Damage to the bytes of a file.

use rows::RowFault;

/// What is done to a file.
#[derive(Clone, Copy)]
pub enum Damage {
    /// It is cut after so many bytes.
    Cut,
    /// The byte at an offset is another one.
    Changed,
}

/// Does the damage to a file. Fault: `NotARow` where it is too short.
pub fn harm(bytes: &mut Vec<u8>, kind: Damage, at: u64) -> Result<(), RowFault> {
    match kind {
        Damage::Cut => cut_to(bytes, at),
        Damage::Changed => change_at(bytes, at),
    }
}

/// Cuts bytes off. Fault: `NotARow` where there are not so many.
fn cut_to(bytes: &mut Vec<u8>, length: u64) -> Result<(), RowFault> {
    let length = usize::try_from(length).ok().ok_or(RowFault::NotARow)?;
    if bytes.len() < length {
        return Err(RowFault::NotARow);
    }
    bytes.truncate(length);
    Ok(())
}

/// Makes the byte at an offset another one. Fault: `NotARow` where there is none.
fn change_at(bytes: &mut Vec<u8>, at: u64) -> Result<(), RowFault> {
    let at = usize::try_from(at).ok().ok_or(RowFault::NotARow)?;
    match bytes.as_mut_slice().get_mut(at) {
        Some(byte) => *byte = !*byte,
        None => return Err(RowFault::NotARow),
    }
    Ok(())
}
