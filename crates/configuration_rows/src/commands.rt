//! What words of the command line of `paxq` ask for: each word is a text between two marks.

use command_line::{Form, WordsFault, read_words};
use rows::{RowFault, Words};
use std::alloc::{AllocError, Global};

/// How many words a row has at most.
const MOST_WORDS: u32 = 100;

/// `TEXT ..`: what these words ask for.
pub(super) fn asked(alloc: Global, words: &mut Words<'_>) -> Result<String, RowFault> {
    let texts = texts_of(alloc, words)?;
    match read_words(alloc, texts.as_slice()) {
        Ok(form) => Ok(shown(alloc, &form)?),
        Err(WordsFault::Usage) => Ok(String::from_str(alloc, "usage")?),
        Err(WordsFault::Memory) => Err(RowFault::Memory),
    }
}

/// What a form says.
fn shown(alloc: Global, form: &Form) -> Result<String, AllocError> {
    match form {
        Form::Run { script } => format!(in alloc; "run {script:?}"),
        Form::Sim { events } => format!(in alloc; "sim {events:?}"),
        Form::Local { members, script } => format!(in alloc; "local {members} {script:?}"),
        Form::Node { config, turns } => match turns {
            Some(turns) => format!(in alloc; "node {config:?} for {turns} turns"),
            None => format!(in alloc; "node {config:?}"),
        },
        Form::Send {
            group,
            address,
            line,
        } => format!(in alloc; "send to {address:?} of group {group} {line:?}"),
    }
}

/// The texts that are left in a row.
fn texts_of(alloc: Global, words: &mut Words<'_>) -> Result<Vec<String>, RowFault> {
    let mut texts = Vec::new(alloc);
    for _ in 0..MOST_WORDS {
        if words.is_empty() {
            return Ok(texts);
        }
        texts.push(words.text(alloc)?)?;
    }
    Err(RowFault::NotARow)
}
