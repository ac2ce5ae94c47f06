//! What questions give.

use super::growing::grown;
use ballots::Answer;
use questions::answer;
use rows::{RowFault, Words};
use std::alloc::{AllocError, Global};
use trees::Forest;

/// Texts of more bytes are shown by their length.
const LONGEST_SHOWN: usize = 200;

/// The largest next identity of a forest of which a question may be asked.
const MOST_NEXT: u64 = 1 << 61;

/// `LEVEL TEXT`: what a question gives at that level over a forest of the nodes that a text describes: how many bytes its text has and its
/// lines, with ` / ` between two of them, or its code.
pub fn answer_in(alloc: Global, nodes: &str, words: &mut Words<'_>) -> Result<String, RowFault> {
    let forest = grown(alloc, Words::new(nodes))?;
    answer_over(alloc, &forest, words)
}

/// The same over a forest.
fn answer_over(alloc: Global, forest: &Forest, words: &mut Words<'_>) -> Result<String, RowFault> {
    let Ok(level) = u8::try_from(words.number()?) else {
        return Err(RowFault::NotARow);
    };
    let question = words.text(alloc)?;
    if forest.next().number() > MOST_NEXT {
        return Err(RowFault::NotARow);
    }
    match answer(alloc, forest, level, &question) {
        Ok(Answer::Text(text)) => Ok(shown(alloc, &text)?),
        Ok(Answer::Fault(code)) => Ok(format!(in alloc; "{code}")?),
        Err(_) => Err(RowFault::Memory),
    }
}

/// How many bytes a text has, and its lines, if it isn't long.
fn shown(alloc: Global, text: &str) -> Result<String, AllocError> {
    let mut out = format!(in alloc; "{} bytes", text.len())?;
    if text.len() <= LONGEST_SHOWN {
        out.push_str(": ")?;
        push_lines(&mut out, text)?;
    }
    Ok(out)
}

/// Adds the lines of a text, with ` / ` between two of them.
fn push_lines(out: &mut String, text: &str) -> Result<(), AllocError> {
    let mut follows = false;
    for line in text.split('\n') {
        if follows {
            out.push_str(" / ")?;
        }
        out.push_str(line)?;
        follows = true;
    }
    Ok(())
}
