//! The words of a row. A space stands between two words; a text stands between two `"` or two backticks, also after other characters of
//! its word.

use super::fault::RowFault;
use std::alloc::Global;

/// What stands before the first mark and after it: the whole text and nothing where there is none.
pub fn cut<'a>(text: &'a str, mark: &str) -> (&'a str, &'a str) {
    match text.split_once(mark) {
        Some(parts) => parts,
        None => (text, ""),
    }
}

/// A word of a row.
#[derive(Clone, Copy, Debug)]
pub struct Word<'a> {
    /// The word, or what stands before its text.
    pub plain: &'a str,
    /// The text between two marks, as it is written, where the word has one.
    pub quoted: Option<&'a str>,
}

impl Word<'_> {
    /// The text that the word has, and nothing else. Faults: `NotARow` where it is no text, and `Memory`.
    pub fn text(self, alloc: Global) -> Result<String, RowFault> {
        match (self.plain, self.quoted) {
            ("", Some(quoted)) => unescaped(alloc, quoted),
            _ => Err(RowFault::NotARow),
        }
    }
}

/// The words of a row that are still to be read.
#[derive(Clone, Copy, Debug)]
pub struct Words<'a> {
    rest: &'a str,
}

impl<'a> Words<'a> {
    /// The words of a row.
    pub fn new(row: &'a str) -> Words<'a> {
        Words { rest: row }
    }

    /// What is still to be read.
    pub fn rest(self) -> &'a str {
        self.rest
    }

    /// Whether no word is left.
    pub fn is_empty(self) -> bool {
        self.rest.is_empty()
    }

    /// The next word. Fault: `NotARow` where there is none, or where its text does not end before a space or the end of the row.
    pub fn word(&mut self) -> Result<Word<'a>, RowFault> {
        if self.rest.is_empty() {
            return Err(RowFault::NotARow);
        }
        let (word, rest) = cut(self.rest, " ");
        if let Some(mark) = first_mark(word) {
            return self.quoted_word(mark);
        }
        self.rest = rest;
        Ok(Word {
            plain: word,
            quoted: None,
        })
    }

    /// The next word, which has a text between two of these marks. Fault: `NotARow`.
    fn quoted_word(&mut self, mark: &str) -> Result<Word<'a>, RowFault> {
        let (plain, rest) = cut(self.rest, mark);
        let (quoted, rest) = rest.split_once(mark).ok_or(RowFault::NotARow)?;
        self.rest = match rest.strip_prefix(" ") {
            Some(rest) => rest,
            None if rest.is_empty() => rest,
            None => return Err(RowFault::NotARow),
        };
        Ok(Word {
            plain,
            quoted: Some(quoted),
        })
    }

    /// The next word, which has no text. Fault: `NotARow`.
    pub fn plain(&mut self) -> Result<&'a str, RowFault> {
        match self.word()? {
            Word {
                plain,
                quoted: None,
            } => Ok(plain),
            _ => Err(RowFault::NotARow),
        }
    }

    /// The next word, a number. Fault: `NotARow`.
    pub fn number(&mut self) -> Result<u64, RowFault> {
        self.plain()?.parse::<u64>().ok().ok_or(RowFault::NotARow)
    }

    /// The next text: a word that is one, or `repeat N TEXT`, N times the text. Faults: `NotARow` and `Memory`.
    pub fn text(&mut self, alloc: Global) -> Result<String, RowFault> {
        let word = self.word()?;
        if word.plain != "repeat" {
            return word.text(alloc);
        }
        let count = usize::try_from(self.number()?)
            .ok()
            .ok_or(RowFault::NotARow)?;
        let text = self.word()?.text(alloc)?;
        Ok(text.as_str().repeat(alloc, count)?)
    }
}

/// The mark that comes first in a word, if one does.
fn first_mark(word: &str) -> Option<&'static str> {
    let (before, _) = cut(word, "\"");
    let (before_other, _) = cut(word, "`");
    if before.len().min(before_other.len()) == word.len() {
        None
    } else if before.len() < before_other.len() {
        Some("\"")
    } else {
        Some("`")
    }
}

/// A text as it is meant: `\n`, `\r`, `\t` and `\u{HEXADECIMAL}` stand for the characters that they name in Rust. Faults: `NotARow` at
/// another `\`, and `Memory`.
fn unescaped(alloc: Global, quoted: &str) -> Result<String, RowFault> {
    let mut text = String::new(alloc);
    for (at, part) in quoted.split('\\').enumerate() {
        push_part(&mut text, part, at > 0)?;
    }
    Ok(text)
}

/// Appends a part of a text, which a `\` may stand before.
fn push_part(text: &mut String, part: &str, is_escaped: bool) -> Result<(), RowFault> {
    if !is_escaped {
        text.push_str(part)?;
        return Ok(());
    }
    let (character, rest) = escaped(part).ok_or(RowFault::NotARow)?;
    text.push(character)?;
    text.push_str(rest)?;
    Ok(())
}

/// The character that the beginning of a part names after a `\`, and the rest of the part.
fn escaped(part: &str) -> Option<(char, &str)> {
    if let Some(rest) = part.strip_prefix("u{") {
        return numbered(rest);
    }
    let character = match part.chars().next()? {
        'n' => '\n',
        'r' => '\r',
        't' => '\t',
        _ => return None,
    };
    Some((character, part.get(1..)?))
}

/// The character of a number in hexadecimal digits, which a `}` ends, and what stands after that.
fn numbered(part: &str) -> Option<(char, &str)> {
    let (digits, rest) = part.split_once("}")?;
    let code_point = u32::from_str_radix(digits, 16).ok()?;
    Some((char::from_u32(code_point)?, rest))
}
