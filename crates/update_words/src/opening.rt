//! Stores as their row describes them.

ghost use Rattle.std.specs.Prelude.{◌≤◌, ◌^◌, IfOk, OnOk};
ghost use Rattle.update_meaning.specs.Results.{IsStored};
ghost use Rattle.update_words.specs.New.{Brings};
ghost use Rattle.update_words.specs.Ready.{IsReady};

use super::desk::{Desk, Way};
use super::nodes::{LIMIT, read_nodes};
use super::primitives::Brought;
use apply::ApplyFault;
use document_names::{Names, NamesFault};
use pending::{ListFault, Primitive};
use rows::{RowFault, Words};
use std::alloc::Global;
use trees::{Forest, NodeId};

/// The most words that describe a store.
const MOST_WORDS: u32 = 1_000_000;

/// The most documents of a store.
const MOST_DOCUMENTS: usize = 2;

/// The most levels below a document.
const MOST_LEVELS: u64 = 70;

/// The store of that description, with empty lists: an update puts into empty documents what the words spell.
///
/// Faults: `NotARow`, also where it would be no store, and `Memory`.
pub fn opened(alloc: Global, described: &str) -> Result<Desk, RowFault>
    ensures { IfOk result IsReady }
{
    let names = names_of(alloc, described)?;
    let mut desk = Desk::new(alloc, empty_documents(alloc, &names)?);
    fill(alloc, &mut desk, &names, described)?;
    Ok(desk)
}

/// Puts into empty documents what the words spell.
fn fill(alloc: Global, desk: &mut Desk, names: &Names, described: &str) -> Result<(), RowFault>
    requires { IsReady desk.old }
    ensures { OnOk result (IsReady desk.new) }
{
    let mut words = Words::new(described);
    fill_documents(alloc, desk, names, &mut words)?;
    if !words.is_empty() {
        take_next(desk, &mut words)?;
    }
    match desk.update(alloc, Way::Apply) {
        Ok(()) => Ok(()),
        Err(ApplyFault::Memory) => Err(RowFault::Memory),
        Err(ApplyFault::Code(_)) => Err(RowFault::NotARow),
    }
}

/// The names of the documents. Faults: `NotARow` and `Memory`.
fn names_of(alloc: Global, described: &str) -> Result<Names, RowFault> {
    let mut names = Vec::new(alloc);
    let mut words = Words::new(described);
    for _ in 0..MOST_WORDS {
        if words.is_empty() {
            break;
        }
        if let Some(name) = words.word()?.plain.strip_prefix("[") {
            names.push(String::from_str(alloc, name)?)?;
        }
    }
    match Names::new(alloc, &names) {
        Ok(names) => Ok(names),
        Err(NamesFault::Memory) => Err(RowFault::Memory),
        Err(NamesFault::Wrong) => Err(RowFault::NotARow),
    }
}

/// A store of empty documents. Faults: `NotARow` where there are too many, and `Memory`.
fn empty_documents(alloc: Global, names: &Names) -> Result<Forest, RowFault>
    ensures { IfOk result (λ forest. IsStored forest.trees) }
{
    if names.as_slice().len() > MOST_DOCUMENTS {
        return Err(RowFault::NotARow);
    }
    Ok(Forest::new(alloc, names)?)
}

/// Asks for what the words spell below each document.
fn fill_documents(
    alloc: Global,
    desk: &mut Desk,
    names: &Names,
    words: &mut Words<'_>,
) -> Result<(), RowFault>
    requires { IsReady desk.old }
    ensures { IsReady desk.new }
{
    for name in names.as_slice() {
        fill_document(alloc, desk, name, words)?;
    }
    Ok(())
}

/// `[NAME NODE .. ]`: asks for the nodes below the document of that name.
fn fill_document(
    alloc: Global,
    desk: &mut Desk,
    name: &str,
    words: &mut Words<'_>,
) -> Result<(), RowFault>
    requires { IsReady desk.old }
    ensures { IsReady desk.new }
{
    let begin = words.plain()?;
    let document = desk.forest().document(name).ok_or(RowFault::NotARow)?;
    if begin.strip_prefix("[") != Some(name) {
        return Err(RowFault::NotARow);
    }
    let brought = children_of(alloc, words, document, desk.next())?;
    if words.plain()? != "]" {
        return Err(RowFault::NotARow);
    }
    match desk.push(brought, false) {
        Ok(()) => Ok(()),
        Err(ListFault::Memory) => Err(RowFault::Memory),
        Err(ListFault::TooMany) => Err(RowFault::NotARow),
    }
}

/// The primitive that puts the nodes which the words spell into a document.
fn children_of(
    alloc: Global,
    words: &mut Words<'_>,
    document: NodeId,
    next: u64,
) -> Result<Brought, RowFault>
    requires { next ≤ 2 ^ 62 }
    ensures { IfOk result (λ brought. Brings next brought) }
{
    let grown = read_nodes(alloc, words, next, MOST_LEVELS)?;
    let next = grown.next;
    let primitive = Primitive::InsertIntoAsLast(document, grown.into_trees()?);
    Ok(Brought { primitive, next })
}

/// `next N`: lets the next node take the identity N. Fault: `NotARow`.
pub fn take_next(desk: &mut Desk, words: &mut Words<'_>) -> Result<(), RowFault>
    requires { IsReady desk.old }
    ensures { IsReady desk.new }
{
    if words.plain()? != "next" {
        return Err(RowFault::NotARow);
    }
    let next = words.number()?;
    if next < desk.next() || next > LIMIT {
        return Err(RowFault::NotARow);
    }
    desk.raise_next(next);
    Ok(())
}
