//! Lists of document names.

use document_names::{Names, NamesFault};
use rows::{RowFault, Words};
use std::alloc::Global;
use trees::Forest;

/// How many names a row has at most.
const MOST_NAMES: u32 = 1_000;

/// The texts up to the end of the row.
fn texts(alloc: Global, words: &mut Words<'_>) -> Result<Vec<String>, RowFault> {
    let mut texts = Vec::new(alloc);
    for _ in 0..MOST_NAMES {
        if words.is_empty() {
            return Ok(texts);
        }
        texts.push(words.text(alloc)?)?;
    }
    Err(RowFault::NotARow)
}

/// `names TEXT ..`: how many names a list has, or `wrong` where the texts are no list of names.
pub(super) fn judged(alloc: Global, words: Words<'_>) -> Result<String, RowFault> {
    let mut words = words;
    let texts = texts(alloc, &mut words)?;
    match Names::new(alloc, &texts) {
        Ok(names) => Ok(names.as_slice().len().to_string(alloc)?),
        Err(NamesFault::Wrong) => Ok(String::from_str(alloc, "wrong")?),
        Err(NamesFault::Memory) => Err(RowFault::Memory),
    }
}

/// A forest of the empty documents `db` and `x`.
pub(super) fn opening(alloc: Global) -> Result<Forest, RowFault> {
    let texts = texts(alloc, &mut Words::new("\"db\" \"x\""))?;
    match Names::new(alloc, &texts) {
        Ok(names) => Ok(Forest::new(alloc, &names)?),
        Err(NamesFault::Memory) => Err(RowFault::Memory),
        Err(NamesFault::Wrong) => Err(RowFault::NotARow),
    }
}
