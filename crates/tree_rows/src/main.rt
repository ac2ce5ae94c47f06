//! `tree_rows FILE`: prints each row of a file with what comes of it in forests and on shelves of them.
//!
//! A row is `forest`, for a forest of the empty documents `db`, 1, and `x`, 2, or `from N`, for a forest of no documents whose next
//! identity is N; then steps on the forest, and where `shelf` stands, steps on a shelf of it; then looks at the shelf. Each step prints
//! the identity that it gave, 0 where it gives none, or `limit`. Other rows are `names TEXT ..`, how many names a list has or
//! `wrong`, and `leaf NUMBER NAME NUMBER NAME`, the outline of the tree of an element with one child, a leaf.
#![tactic(auto)]

mod described;
mod forests;
mod looks;
mod names;
mod own;
mod parts;
mod printed;

use described::outline;
use looks::take_looks;
use names::{judged, opening};
use parts::{Pieces, element};
use rows::{Answers, RowFault, Words, run_table};
use shelves::Shelf;
use std::alloc::Global;
use std::process::ExitCode;
use trees::{Forest, NodeId, Tree};

/// Ends with the table's exit status: 1 where a row is not understood, and where the file cannot be read or memory is refused.
fn main(rt: HostRuntime) -> ExitCode {
    match run_table(&rt, &mut TreeRows) {
        Ok(status) => ExitCode::from(status),
        Err(_) => ExitCode::from(1),
    }
}

/// The rows on trees.
#[derive(Drop)]
struct TreeRows;

impl Answers for TreeRows {
    fn answer(&mut self, alloc: Global, row: &str) -> Result<String, RowFault> {
        let mut words = Words::new(row);
        match words.plain()? {
            "forest" => seen(alloc, opening(alloc)?, words),
            "from" => seen(alloc, empty(alloc, words.number()?)?, words),
            "names" => judged(alloc, words),
            "leaf" => nested(alloc, words),
            _ => Err(RowFault::NotARow),
        }
    }
}

/// A forest of no documents with that next identity. Fault: `NotARow` past the identities that there may be.
fn empty(alloc: Global, next: u64) -> Result<Forest, RowFault> {
    if next > parts::LIMIT {
        return Err(RowFault::NotARow);
    }
    Ok(Forest::empty(alloc, NodeId::new(next)))
}

/// Takes the steps and the looks that the words name, and gives what they print.
fn seen(alloc: Global, forest: Forest, words: Words<'_>) -> Result<String, RowFault> {
    let mut forest = forest;
    let mut out = Pieces::new(alloc);
    see(alloc, &mut forest, words, &mut out)?;
    Ok(out.into_text())
}

/// Takes the steps on a forest, and then all that is done with a shelf of it.
fn see(
    alloc: Global,
    forest: &mut Forest,
    words: Words<'_>,
    out: &mut Pieces,
) -> Result<(), RowFault> {
    let mut words = words;
    forests::take_steps(alloc, forest, &mut words, out)?;
    see_shelf(alloc, forest, &mut words, out)?;
    if words.is_empty() {
        Ok(())
    } else {
        Err(RowFault::NotARow)
    }
}

/// Takes the steps and the looks that are left of the words, on a shelf of a forest.
fn see_shelf(
    alloc: Global,
    forest: &Forest,
    words: &mut Words<'_>,
    out: &mut Pieces,
) -> Result<(), RowFault> {
    let mut shelf = Shelf::new(alloc, forest);
    take_on_shelf(alloc, forest, &mut shelf, words, out)?;
    take_own(alloc, shelf, words, out)
}

/// Takes steps on a shelf, and then looks at it and its forest.
fn take_on_shelf(
    alloc: Global,
    forest: &Forest,
    shelf: &mut Shelf<'_>,
    words: &mut Words<'_>,
    out: &mut Pieces,
) -> Result<(), RowFault> {
    own::take_steps(alloc, shelf, words, out)?;
    take_looks(alloc, forest, shelf, words, out)
}

/// Takes the word `own`, if it is the next one: how many own nodes a shelf leaves.
fn take_own(
    alloc: Global,
    shelf: Shelf<'_>,
    words: &mut Words<'_>,
    out: &mut Pieces,
) -> Result<(), RowFault> {
    if !parts::take_word(words, "own") {
        return Ok(());
    }
    let nodes = shelf.into_own().len();
    out.look(format!(in alloc; "own {nodes}")?.as_str())?;
    Ok(())
}

/// The outline of the tree of an element with one child.
fn nested(alloc: Global, words: Words<'_>) -> Result<String, RowFault> {
    let mut words = words;
    let number = words.number()?;
    let parent = element(number, words.text(alloc)?);
    let number = words.number()?;
    let child = element(number, words.text(alloc)?);
    let leaf = Tree::new(child, Vec::new(alloc), Vec::new(alloc));
    let mut children = Vec::new(alloc);
    children.push(leaf)?;
    let tree = Tree::new(parent, Vec::new(alloc), children);
    Ok(outline(alloc, &tree)?)
}
