//! The bytes of a row, to its end or the word `gives`: texts one after the other, `repeat N TEXT`, `byte N`, and `lines N TEXT TEXT` for N
//! lines that have their numbers, from 1, between the two texts.

use super::fault::RowFault;
use super::words::Words;
use std::alloc::{AllocError, Global};

/// How many parts the bytes of a row have at most.
const MOST_PARTS: u32 = 1_000;

/// The bytes that the words of a row make, up to the word `gives`, which is taken too.
pub fn bytes_of(alloc: Global, words: &mut Words<'_>) -> Result<Vec<u8>, RowFault> {
    let mut bytes = Vec::new(alloc);
    for _ in 0..MOST_PARTS {
        if words.is_empty() || take_gives(words) {
            return Ok(bytes);
        }
        take_part(alloc, words, &mut bytes)?;
    }
    Err(RowFault::NotARow)
}

/// Takes the word `gives`, if it is the next one. Gives whether it was.
fn take_gives(words: &mut Words<'_>) -> bool {
    let mut ahead = *words;
    match ahead.plain() {
        Ok("gives") => {
            *words = ahead;
            true
        }
        _ => false,
    }
}

/// Takes the next part, and appends its bytes.
fn take_part(alloc: Global, words: &mut Words<'_>, bytes: &mut Vec<u8>) -> Result<(), RowFault> {
    let mut ahead = *words;
    match ahead.word()?.plain {
        "byte" => {
            *words = ahead;
            take_byte(words, bytes)
        }
        "lines" => {
            *words = ahead;
            take_lines(alloc, words, bytes)
        }
        _ => {
            let text = words.text(alloc)?;
            bytes.extend_from_slice(text.as_bytes())?;
            Ok(())
        }
    }
}

/// Takes the number of a byte, and appends it.
fn take_byte(words: &mut Words<'_>, bytes: &mut Vec<u8>) -> Result<(), RowFault> {
    let byte = u8::try_from(words.number()?).ok().ok_or(RowFault::NotARow)?;
    bytes.push(byte)?;
    Ok(())
}

/// Takes how many lines there are and what stands before and after their numbers, and appends them.
fn take_lines(alloc: Global, words: &mut Words<'_>, bytes: &mut Vec<u8>) -> Result<(), RowFault> {
    let count = words.number()?;
    let before = words.text(alloc)?;
    let after = words.text(alloc)?;
    for number in 1..=count {
        push_line(alloc, bytes, (&before, number, &after))?;
    }
    Ok(())
}

/// Appends a line that has its number between two texts.
fn push_line(
    alloc: Global,
    bytes: &mut Vec<u8>,
    (before, number, after): (&str, u64, &str),
) -> Result<(), AllocError> {
    let line = format!(in alloc; "{before}{number}{after}\n")?;
    bytes.extend_from_slice(line.as_bytes())?;
    Ok(())
}

/// The bytes as a text. Fault: `NotARow` where they are none.
pub fn text_of(bytes: &[u8]) -> Result<&str, RowFault> {
    str::from_utf8(bytes).ok().ok_or(RowFault::NotARow)
}
