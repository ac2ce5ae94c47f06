//! The calls of a site and of its readers.

use super::asking::{RowReader, asked, asked_again, index_of, seen, served};
use super::meeting::{in_turn, met};
use super::rounds::{asked_often, kept_busy, published_often};
use super::submitting::{RowSite, submit_next};
use super::watching::watched;
use published::{Board, Opening};
use rows::{RowFault, Words};
use sight::Naming;
use std::alloc::{AllocError, Global};
use std::sync::Wait;
use std::thread::Threads;
use std::time::Clock;

/// How many calls a row has at most.
const MOST_CALLS: u32 = 1_000;

/// The readers of a site, and the board that was taken last.
#[derive(Drop)]
pub(super) struct Audience<J: Naming + Opening> {
    pub(super) readers: Vec<RowReader<J>>,
    pub(super) board: Option<Board<J>>,
}

/// Appends what calls give, up to the row's end or the word `close`.
pub(super) fn open_calls<J: Naming + Opening + Send + Sync, R: Threads + Wait + Sync + Clock>(
    rt: &R,
    alloc: Global,
    site: &mut RowSite<J>,
    audience: &mut Audience<J>,
    words: &mut Words<'_>,
    out: &mut String,
) -> Result<(), RowFault> {
    for _ in 0..MOST_CALLS {
        if words.is_empty() {
            return Ok(());
        }
        let name = words.plain()?;
        if name == "close" {
            return Ok(());
        }
        let given = site_call(rt, alloc, site, audience, name, words)?;
        push_given(out, given.as_str())?;
    }
    Err(RowFault::NotARow)
}

/// Appends what calls of readers give, to the row's end.
pub(super) fn ended_calls<J: Naming + Opening>(
    alloc: Global,
    audience: &mut Audience<J>,
    words: &mut Words<'_>,
    out: &mut String,
) -> Result<(), RowFault> {
    for _ in 0..MOST_CALLS {
        if words.is_empty() {
            return Ok(());
        }
        let name = words.plain()?;
        let given = reader_call(alloc, audience, name, words)?;
        push_given(out, given.as_str())?;
    }
    Err(RowFault::NotARow)
}

/// Appends what a call gives, after a bar where something stands there.
fn push_given(out: &mut String, given: &str) -> Result<(), AllocError> {
    if !out.is_empty() {
        out.push_str(" | ")?;
    }
    out.push_str(given)
}

/// What a call of a site gives, or one of its readers.
fn site_call<J: Naming + Opening + Send + Sync, R: Threads + Wait + Sync + Clock>(
    rt: &R,
    alloc: Global,
    site: &mut RowSite<J>,
    audience: &mut Audience<J>,
    name: &str,
    words: &mut Words<'_>,
) -> Result<String, RowFault> {
    match name {
        "submit" => submitted(alloc, site, words),
        "submits" => submitted_numbered(alloc, site, words),
        "publish" => published(rt, alloc, site),
        "board" => boarded(alloc, site, audience),
        "state" => state_text(alloc, site),
        "meet" => met(rt, alloc, &mut audience.readers, words),
        "asks" => asked_often(rt, alloc, &mut audience.readers, words),
        "busy" => kept_busy(rt, alloc, site, &mut audience.readers, words),
        "publishes" => published_often(rt, alloc, site, words),
        "watch" => watched(rt, alloc, site, &mut audience.readers, words),
        name => reader_call(alloc, audience, name, words),
    }
}

/// What a call of readers gives.
fn reader_call<J: Naming + Opening>(
    alloc: Global,
    audience: &mut Audience<J>,
    name: &str,
    words: &mut Words<'_>,
) -> Result<String, RowFault> {
    match name {
        "tell" => told(alloc, audience, words),
        "ask" => asked(alloc, &mut audience.readers, words),
        "again" => asked_again(alloc, &mut audience.readers, words),
        "serve" => served(alloc, &mut audience.readers, words),
        "seen" => seen(alloc, &audience.readers, words),
        "turns" => in_turn(alloc, &mut audience.readers, words),
        _ => Err(RowFault::NotARow),
    }
}

/// `TEXT`: how much is applied once a site has taken a request.
fn submitted<J: Naming + Opening>(
    alloc: Global,
    site: &mut RowSite<J>,
    words: &mut Words<'_>,
) -> Result<String, RowFault> {
    let text = words.text(alloc)?;
    submit_next(alloc, site, text.as_str())?;
    applied_text(alloc, site)
}

/// `N TEXT TEXT`: how much is applied once a site has taken so many requests, each with its number between the texts.
fn submitted_numbered<J: Naming + Opening>(
    alloc: Global,
    site: &mut RowSite<J>,
    words: &mut Words<'_>,
) -> Result<String, RowFault> {
    let count = words.number()?;
    let before = words.text(alloc)?;
    let after = words.text(alloc)?;
    for number in 1..=count {
        submit_numbered(alloc, site, (&before, number, &after))?;
    }
    applied_text(alloc, site)
}

/// Has a site take a request that has its number between two texts.
pub(super) fn submit_numbered<J: Naming + Opening>(
    alloc: Global,
    site: &mut RowSite<J>,
    (before, number, after): (&str, u64, &str),
) -> Result<(), RowFault> {
    let text = format!(in alloc; "{before}{number}{after}")?;
    submit_next(alloc, site, text.as_str())
}

/// How much a site has applied.
pub(super) fn applied_text<J: Naming + Opening>(
    alloc: Global,
    site: &RowSite<J>,
) -> Result<String, RowFault> {
    let applied = site.applied();
    Ok(format!(in alloc; "{applied} applied")?)
}

/// How much is shown once it is published.
fn published<J: Naming + Opening, R: Wait>(
    rt: &R,
    alloc: Global,
    site: &mut RowSite<J>,
) -> Result<String, RowFault> {
    let shown = publish(rt, site)?;
    Ok(format!(in alloc; "{shown} published")?)
}

/// Shows what is pending, and gives how much is shown then. Where memory is refused it is tried once more.
pub(super) fn publish<J: Naming + Opening, R: Wait>(
    rt: &R,
    site: &mut RowSite<J>,
) -> Result<u64, AllocError> {
    match site.publish(rt) {
        Ok(shown) => Ok(shown),
        Err(_) => site.publish(rt),
    }
}

/// Takes a board.
fn boarded<J: Naming + Opening>(
    alloc: Global,
    site: &RowSite<J>,
    audience: &mut Audience<J>,
) -> Result<String, RowFault> {
    audience.board = Some(site.board());
    let shown = site.published();
    Ok(format!(in alloc; "board of {shown}")?)
}

/// `READER`: how much a reader has seen once it has learnt a note of the board.
fn told<J: Naming + Opening>(
    alloc: Global,
    audience: &mut Audience<J>,
    words: &mut Words<'_>,
) -> Result<String, RowFault> {
    let index = index_of(&audience.readers, words)?;
    let Some(board) = &audience.board else {
        return Err(RowFault::NotARow);
    };
    audience.readers[index].learn(board.tell());
    let seen = audience.readers[index].seen();
    Ok(format!(in alloc; "{seen} seen")?)
}

/// How much a site has applied and learnt, and how much it shows.
fn state_text<J: Naming + Opening>(alloc: Global, site: &RowSite<J>) -> Result<String, RowFault> {
    let applied = site.applied();
    let learnt = site.prefix();
    let shown = site.published();
    Ok(format!(in alloc; "{applied} applied, {learnt} learnt, {shown} published")?)
}
