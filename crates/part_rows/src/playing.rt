//! Calls of a part, one after the other.

use rows::{RowFault, Words, cut};
use std::alloc::Global;

/// How many calls a row has at most.
const MOST_CALLS: u32 = 100;

/// What stands between two calls.
const BETWEEN: &str = " ; ";

/// What takes calls.
pub(super) trait Played {
    /// What a call gives. Faults: `NotARow` where it is not understood, and `Memory`.
    fn call(&mut self, alloc: Global, words: &mut Words<'_>) -> Result<String, RowFault>;
}

/// What calls give, one after the other.
pub(super) fn play_all<P: Played>(
    alloc: Global,
    part: &mut P,
    calls: &str,
) -> Result<String, RowFault> {
    let mut out = String::new(alloc);
    let mut rest = calls;
    for _ in 0..MOST_CALLS {
        let (call, others) = cut(rest, BETWEEN);
        push_given(alloc, part, call, &mut out)?;
        if others.is_empty() {
            return Ok(out);
        }
        rest = others;
    }
    Err(RowFault::NotARow)
}

/// Appends what a call gives.
fn push_given<P: Played>(
    alloc: Global,
    part: &mut P,
    call: &str,
    out: &mut String,
) -> Result<(), RowFault> {
    if !out.is_empty() {
        out.push_str(BETWEEN)?;
    }
    let mut words = Words::new(call);
    let given = part.call(alloc, &mut words)?;
    if !words.is_empty() {
        return Err(RowFault::NotARow);
    }
    out.push_str(given.as_str())?;
    Ok(())
}
