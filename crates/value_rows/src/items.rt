//! Items: `"string"`, `untyped"text"`, `true`, `false`, an integer, `()` for none, and `node` for a node where it does not matter which.

use fault_codes::Code;
use rows::{RowFault, Word, Words};
use shelves::Shelf;
use std::alloc::{AllocError, Global};
use trees::{Forest, NodeId};
use values::{Atom, Item, LimitedText, Text, push_item, truth};

/// How many items a sequence has at most.
const MOST_ITEMS: u32 = 1_000;

/// The bytes that a printed text has at most.
const MOST_PRINTED: usize = 1_000_000;

/// The atomic value that a word is; `None` where it is none.
fn atom_of(alloc: Global, word: Word<'_>) -> Result<Option<Atom>, RowFault> {
    match (word.plain, word.quoted) {
        ("true", None) => Ok(Some(Atom::Boolean(true))),
        ("false", None) => Ok(Some(Atom::Boolean(false))),
        (plain, None) => Ok(plain.parse::<i64>().ok().map(Atom::Integer)),
        ("untyped", Some(quoted)) => untyped_of(alloc, quoted),
        _ => Ok(Some(Atom::String(Text::new(word.text(alloc)?)))),
    }
}

/// The untyped value of a text as it is written.
fn untyped_of(alloc: Global, quoted: &str) -> Result<Option<Atom>, RowFault> {
    let word = Word {
        plain: "",
        quoted: Some(quoted),
    };
    Ok(Some(Atom::Untyped(Text::new(word.text(alloc)?))))
}

/// Takes the next word where it is an atomic value, which is appended, or `()`. Gives whether it was.
fn take_atom(
    alloc: Global,
    words: &mut Words<'_>,
    atoms: &mut Vec<Atom>,
) -> Result<bool, RowFault> {
    if words.is_empty() {
        return Ok(false);
    }
    let mut ahead = *words;
    let word = ahead.word()?;
    if word.plain != "()" {
        match atom_of(alloc, word)? {
            Some(atom) => atoms.push(atom)?,
            None => return Ok(false),
        }
    }
    *words = ahead;
    Ok(true)
}

/// The atomic values up to the first word that is none.
pub(super) fn atoms(alloc: Global, words: &mut Words<'_>) -> Result<Vec<Atom>, RowFault> {
    let mut atoms = Vec::new(alloc);
    for _ in 0..MOST_ITEMS {
        if !take_atom(alloc, words, &mut atoms)? {
            break;
        }
    }
    Ok(atoms)
}

/// Takes the next word, an item, which is appended, or `()`. Gives whether there was one.
fn take_item(
    alloc: Global,
    words: &mut Words<'_>,
    items: &mut Vec<Item>,
) -> Result<bool, RowFault> {
    if words.is_empty() {
        return Ok(false);
    }
    let word = words.word()?;
    match word.plain {
        "()" => {}
        "node" => items.push(Item::Node(NodeId::new(1)))?,
        _ => {
            let atom = atom_of(alloc, word)?.ok_or(RowFault::NotARow)?;
            items.push(Item::Atomic(atom))?;
        }
    }
    Ok(true)
}

/// `truth ITEMS`: the effective boolean value of items.
pub(super) fn truth_of(alloc: Global, words: &mut Words<'_>) -> Result<String, RowFault> {
    let mut items = Vec::new(alloc);
    for _ in 0..MOST_ITEMS {
        if !take_item(alloc, words, &mut items)? {
            break;
        }
    }
    Ok(shown(alloc, truth(&items).map(Some))?)
}

/// `print ITEM`: the printed text of an atomic value.
pub(super) fn printed(alloc: Global, words: &mut Words<'_>) -> Result<String, RowFault> {
    printed_within(alloc, MOST_PRINTED, words)
}

/// `within N ITEM`: that text, if it has at most N bytes.
pub(super) fn limited(alloc: Global, words: &mut Words<'_>) -> Result<String, RowFault> {
    let Ok(most) = usize::try_from(words.number()?) else {
        return Err(RowFault::NotARow);
    };
    printed_within(alloc, most, words)
}

/// The printed text of an atomic value, if it has at most so many bytes.
fn printed_within(alloc: Global, most: usize, words: &mut Words<'_>) -> Result<String, RowFault> {
    match atom_of(alloc, words.word()?)? {
        Some(atom) => printed_atom(alloc, most, atom),
        None => Err(RowFault::NotARow),
    }
}

fn printed_atom(alloc: Global, most: usize, atom: Atom) -> Result<String, RowFault> {
    let forest = Forest::empty(alloc, NodeId::new(1));
    let mut out = LimitedText::new(alloc, most);
    push_item(
        alloc,
        &mut out,
        &Shelf::new(alloc, &forest),
        &Item::Atomic(atom),
    )?;
    match out.into_text() {
        Some(text) => Ok(text),
        None => Ok(String::from_str(alloc, "too long")?),
    }
}

/// A truth, `()` where there is none, or a code.
pub(super) fn shown(
    alloc: Global,
    judged: Result<Option<bool>, Code>,
) -> Result<String, AllocError> {
    match judged {
        Ok(Some(truth)) => format!(in alloc; "{truth}"),
        Ok(None) => String::from_str(alloc, "()"),
        Err(code) => code.to_string(alloc),
    }
}
