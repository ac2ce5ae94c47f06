//! Readers that ask so many times, each in a thread of its own, and sites that publish meanwhile: `bench/readers` takes the time of it.

ghost use Rattle.std.specs.Thread.{IsSend, IsSync};

use super::asking::{LEVEL, RowReader};
use super::calls::{applied_text, publish, submit_numbered};
use super::submitting::RowSite;
use applications::Application;
use published::{Opening, ReadFault, Reader};
use rows::{RowFault, Words};
use sessions::State;
use sight::Naming;
use std::alloc::{AllocError, Global};
use std::sync::Wait;
use std::sync::atomic::{AtomicU64, Ordering};
use std::thread;
use std::thread::{Threads, join, map_vec};
use std::time::{Clock, Duration, Instant};

/// Requests, each with its number between two texts.
#[derive(Drop)]
struct Load {
    before: String,
    after: String,
}

/// A reader, and how often it has answered.
#[derive(Drop)]
struct Asked<A: Application + Drop, J: Naming + Opening> {
    reader: Reader<A, J>,
    answers: Result<u64, RowFault>,
}

/// `N TEXT`: how many answers there are once each reader has answered so many times, in a thread of its own.
pub(super) fn asked_often<J: Naming + Opening + Send + Sync, R: Threads + Sync>(
    rt: &R,
    alloc: Global,
    readers: &mut Vec<RowReader<J>>,
    words: &mut Words<'_>,
) -> Result<String, RowFault> {
    let count = words.number()?;
    let question = words.text(alloc)?;
    let left = AtomicU64::new(readers.len() as u64);
    let theirs = core::mem::replace(readers, Vec::new(alloc));
    let asked = ask_all(rt, alloc, theirs, (count, question.as_str()), &left)?;
    total_text(alloc, readers, asked)
}

/// `RATE N TEXT TEXT TEXT`: how many answers there are once each reader has answered the last text so many times, in a thread of its own. Until then
/// the site takes requests, so many a second, each with its number between the first two texts, and publishes each by itself.
pub(super) fn kept_busy<J: Naming + Opening + Send + Sync, R: Threads + Wait + Sync + Clock>(
    rt: &R,
    alloc: Global,
    site: &mut RowSite<J>,
    readers: &mut Vec<RowReader<J>>,
    words: &mut Words<'_>,
) -> Result<String, RowFault> {
    let rate = words.number()?;
    let count = words.number()?;
    let load = load_of(alloc, words)?;
    let question = words.text(alloc)?;
    let left = AtomicU64::new(readers.len() as u64);
    let theirs = core::mem::replace(readers, Vec::new(alloc));
    let question = question.as_str();
    let (asked, taken) = join(
        rt,
        || -> Result<Vec<Asked<State, J>>, AllocError>
            requires { IsSync R.row × IsSend J.row × IsSync J.row }
        { ask_all(rt, alloc, theirs, (count, question), &left) },
        || take_on(rt, alloc, site, &load, rate, &left),
    );
    let asked = asked?;
    taken?;
    total_text(alloc, readers, asked)
}

/// `TEXT TEXT`.
fn load_of(alloc: Global, words: &mut Words<'_>) -> Result<Load, RowFault> {
    Ok(Load {
        before: words.text(alloc)?,
        after: words.text(alloc)?,
    })
}

/// Has each reader answer a question so many times, in a thread of its own.
fn ask_all<
    A: Application + Drop + Send + Sync,
    J: Naming + Opening + Send + Sync,
    R: Threads + Sync,
>(
    rt: &R,
    alloc: Global,
    readers: Vec<Reader<A, J>>,
    (count, question): (u64, &str),
    left: &AtomicU64,
) -> Result<Vec<Asked<A, J>>, AllocError> {
    let part = |reader: Reader<A, J>| -> Asked<A, J> {
        ask_often(alloc, reader, (count, question), left)
    };
    map_vec(rt, readers, &part)
}

/// Has a reader answer a question so many times, and says that it is done.
fn ask_often<A: Application + Drop, J: Naming + Opening>(
    alloc: Global,
    reader: Reader<A, J>,
    (count, question): (u64, &str),
    left: &AtomicU64,
) -> Asked<A, J> {
    let mut reader = reader;
    let answers = ask_times(alloc, &mut reader, count, question);
    left.fetch_sub(1, Ordering::SeqCst);
    Asked { reader, answers }
}

/// Has a reader answer a question so many times. Faults: `NotARow` where it refuses the question, and `Memory`.
fn ask_times<A: Application + Drop, J: Naming + Opening>(
    alloc: Global,
    reader: &mut Reader<A, J>,
    count: u64,
    question: &str,
) -> Result<u64, RowFault> {
    for _ in 0..count {
        match reader.ask(alloc, LEVEL, question) {
            Ok(_) => {}
            Err(ReadFault::Memory) => return Err(RowFault::Memory),
            Err(ReadFault::Long | ReadFault::Closed) => return Err(RowFault::NotARow),
        }
    }
    Ok(count)
}

/// Has a site take requests, so many a second, and publish each by itself, until each reader is done.
fn take_on<J: Naming + Opening, R: Wait + Clock>(
    rt: &R,
    alloc: Global,
    site: &mut RowSite<J>,
    load: &Load,
    rate: u64,
    left: &AtomicU64,
) -> Result<(), RowFault> {
    let Ok(start) = Instant::now(rt) else {
        return Err(RowFault::NotARow);
    };
    for number in 1..u64::MAX {
        if left.load(Ordering::SeqCst) == 0 {
            return Ok(());
        }
        submit_numbered(alloc, site, (&load.before, number, &load.after))?;
        publish(rt, site)?;
        wait_for(rt, start, number, rate);
    }
    Ok(())
}

/// Waits until so many requests have had their time, so many a second.
fn wait_for<R: Clock>(rt: &R, start: Instant, number: u64, rate: u64) {
    let due = number
        .saturating_mul(1_000_000)
        .checked_div(rate)
        .unwrap_or(0);
    if let Ok(spent) = start.elapsed(rt) {
        thread::sleep(rt, Duration::from_micros(due).saturating_sub(spent));
    }
}

/// Gives the readers back, and says how many answers there are.
fn total_text<J: Naming + Opening>(
    alloc: Global,
    readers: &mut Vec<RowReader<J>>,
    asked: Vec<Asked<State, J>>,
) -> Result<String, RowFault> {
    let mut total: u64 = 0;
    for one in asked {
        let Asked { reader, answers } = one;
        readers.push(reader)?;
        total = total.saturating_add(answers?);
    }
    Ok(format!(in alloc; "{total} answers")?)
}

/// `N EVERY TEXT TEXT`: how much is applied once a site has taken so many requests, each with its number between the texts, and published after every
/// so many.
pub(super) fn published_often<J: Naming + Opening, R: Wait>(
    rt: &R,
    alloc: Global,
    site: &mut RowSite<J>,
    words: &mut Words<'_>,
) -> Result<String, RowFault> {
    let count = words.number()?;
    let every = words.number()?;
    let load = load_of(alloc, words)?;
    for number in 1..=count {
        take_one(rt, alloc, site, &load, number, every)?;
    }
    applied_text(alloc, site)
}

/// Has a site take a request, and publish where its number is one of every so many.
fn take_one<J: Naming + Opening, R: Wait>(
    rt: &R,
    alloc: Global,
    site: &mut RowSite<J>,
    load: &Load,
    number: u64,
    every: u64,
) -> Result<(), RowFault> {
    submit_numbered(alloc, site, (&load.before, number, &load.after))?;
    if number.checked_rem(every) == Some(0) {
        publish(rt, site)?;
    }
    Ok(())
}
