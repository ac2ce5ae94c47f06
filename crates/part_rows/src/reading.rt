//! Words that several parts have, and how what they stand for is printed.

use ballots::{Request, Value};
use message_words::read_u32;
use rows::{RowFault, Words};
use std::alloc::{AllocError, Global};

/// The client of each request, and its text.
pub(super) const CLIENT: u32 = 7;

const TEXT: &str = "insert node element a {} into doc(\"db\")";

/// How many positions or votes a call has at most.
pub(super) const MOST: usize = 20;

/// The positions that are left in a call.
pub(super) fn positions(alloc: Global, words: &mut Words<'_>) -> Result<Vec<u32>, RowFault> {
    let mut positions = Vec::new(alloc);
    for _position in 0..MOST {
        if words.is_empty() {
            break;
        }
        positions.push(read_u32(words)?)?;
    }
    Ok(positions)
}

/// The request of a number.
pub(super) fn request(alloc: Global, number: u64) -> Result<Request, AllocError> {
    match Request::new(alloc, CLIENT, number, 1, TEXT) {
        Ok(request) => Ok(request),
        Err(_) => Err(AllocError),
    }
}

/// The value of a number: the request, and for 0 the no-op.
pub(super) fn value(alloc: Global, number: u64) -> Result<Value, AllocError> {
    match number {
        0 => Ok(Value::NoOp),
        _ => Ok(Value::Request(request(alloc, number)?)),
    }
}

/// The number of such a value; of another one the highest number that there is.
pub(super) fn number_of(value: &Value) -> u64 {
    match value {
        Value::NoOp => 0,
        Value::Request(request) => {
            if request.id().client == CLIENT && request.text() == TEXT {
                request.id().number
            } else {
                u64::MAX
            }
        }
    }
}

/// A number, or `-` where there is none.
pub(super) fn number_text(alloc: Global, number: Option<u64>) -> Result<String, AllocError> {
    match number {
        Some(number) => format!(in alloc; "{number}"),
        None => String::from_str(alloc, "-"),
    }
}

/// Numbers one after the other, or `-` where there are none.
pub(super) fn numbers_text(alloc: Global, numbers: &[u32]) -> Result<String, AllocError> {
    let mut out = String::new(alloc);
    for number in numbers {
        push_word(&mut out, format!(in alloc; "{number}")?.as_str())?;
    }
    if out.is_empty() {
        out.push_str("-")?;
    }
    Ok(out)
}

/// Appends a word, after a space where something stands there.
pub(super) fn push_word(out: &mut String, word: &str) -> Result<(), AllocError> {
    if !out.is_empty() {
        out.push_str(" ")?;
    }
    out.push_str(word)
}

/// A text as what a call gives.
pub(super) fn said(alloc: Global, text: &str) -> Result<String, RowFault> {
    Ok(String::from_str(alloc, text)?)
}

/// `yes` or `no`.
pub(super) fn yes_or_no(alloc: Global, is_so: bool) -> Result<String, RowFault> {
    said(alloc, if is_so { "yes" } else { "no" })
}
