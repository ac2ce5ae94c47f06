//! Readers that ask while a site takes requests.

ghost use Rattle.std.specs.Thread.{IsSend, IsSync};

use super::asking::{LEVEL, RowReader, text_of};
use super::calls::submit_numbered;
use super::submitting::RowSite;
use applications::Application;
use node::{NodeFault, Reading};
use published::{Opening, ReadFault, Reader};
use rows::{RowFault, Words};
use sessions::State;
use sight::Naming;
use std::alloc::{AllocError, Global};
use std::collections::HashMap;
use std::sync::Wait;
use std::sync::atomic::{AtomicU64, Ordering};
use std::thread;
use std::thread::{Threads, join, map_vec};

/// How often in a row a reader asks before it gives up, where it is shown no more.
const MOST_ASKS: u64 = 1_000_000;

/// How often a site looks whether each reader has asked, and yields its thread in between.
const MOST_LOOKS: u32 = 1_000_000;

/// The requests that a site takes, and the question that readers ask meanwhile.
#[derive(Drop)]
struct Work {
    count: u64,
    every: u64,
    before: String,
    after: String,
    question: String,
}

/// What a site and its readers tell one another.
#[derive(Drop)]
struct Watch {
    /// How many readers have answered.
    begun: AtomicU64,
    /// How many readers have failed.
    failed: AtomicU64,
    /// How many values are shown at the end, once that is known.
    end: AtomicU64,
}

/// The answers of a site's node, by how many values they are over, and whether each reader had asked before all requests were shown.
#[derive(Drop)]
struct Taken {
    answers: HashMap<u64, String>,
    have_begun: bool,
}

/// A reader, and its answers, each with how many values it is over, but those that were like the one before.
#[derive(Drop)]
struct Saw<A: Application + Drop, J: Naming + Opening> {
    reader: Reader<A, J>,
    answers: Result<Vec<(u64, String)>, RowFault>,
}

/// `N EVERY TEXT TEXT TEXT`: what readers see while a site takes so many requests, each with its number between the first two texts, and publishes
/// after every so many. Each reader asks the last text, again and again, until it has answered over all; before the last requests are shown, each
/// has answered once.
pub(super) fn watched<J: Naming + Opening + Send + Sync, R: Threads + Wait + Sync>(
    rt: &R,
    alloc: Global,
    site: &mut RowSite<J>,
    readers: &mut Vec<RowReader<J>>,
    words: &mut Words<'_>,
) -> Result<String, RowFault> {
    let work = work_of(alloc, words)?;
    let watch = Watch {
        begun: AtomicU64::new(0),
        failed: AtomicU64::new(0),
        end: AtomicU64::new(u64::MAX),
    };
    let count = readers.len() as u64;
    let theirs = core::mem::replace(readers, Vec::new(alloc));
    let question = work.question.as_str();
    let (saw, taken) = join(
        rt,
        || -> Result<Vec<Saw<State, J>>, AllocError>
            requires { IsSync R.row × IsSend J.row × IsSync J.row }
        { watch_all(rt, alloc, theirs, question, &watch) },
        || take_all(rt, alloc, site, &work, &watch, count),
    );
    let saw = saw?;
    let taken = taken?;
    outcome_text(alloc, readers, saw, &taken)
}

/// `N EVERY TEXT TEXT TEXT`.
fn work_of(alloc: Global, words: &mut Words<'_>) -> Result<Work, RowFault> {
    Ok(Work {
        count: words.number()?,
        every: words.number()?,
        before: words.text(alloc)?,
        after: words.text(alloc)?,
        question: words.text(alloc)?,
    })
}

/// Has each reader ask in a thread of its own, as [`watch_with`] does.
fn watch_all<
    A: Application + Drop + Send + Sync,
    J: Naming + Opening + Send + Sync,
    R: Threads + Sync,
>(
    rt: &R,
    alloc: Global,
    readers: Vec<Reader<A, J>>,
    question: &str,
    watch: &Watch,
) -> Result<Vec<Saw<A, J>>, AllocError> {
    let part = |reader: Reader<A, J>| -> Saw<A, J> { watch_with(alloc, reader, question, watch) };
    map_vec(rt, readers, &part)
}

/// Has a reader ask until it has answered over all that is shown at the end.
fn watch_with<A: Application + Drop, J: Naming + Opening>(
    alloc: Global,
    reader: Reader<A, J>,
    question: &str,
    watch: &Watch,
) -> Saw<A, J> {
    let mut reader = reader;
    let answers = answers_of(alloc, &mut reader, question, watch);
    if answers.is_err() {
        watch.failed.fetch_add(1, Ordering::SeqCst);
    }
    Saw { reader, answers }
}

/// A reader's answers until the end. Faults: `NotARow` where it refuses the question; `Memory`, also where it is shown no more before the end comes:
/// then memory was refused for the threads, and the site has no turn before its readers end.
fn answers_of<A: Application + Drop, J: Naming + Opening>(
    alloc: Global,
    reader: &mut Reader<A, J>,
    question: &str,
    watch: &Watch,
) -> Result<Vec<(u64, String)>, RowFault> {
    let mut answers = Vec::new(alloc);
    let mut idle: u64 = 0;
    for _ in 0..u64::MAX {
        let end = watch.end.load(Ordering::SeqCst);
        let (text, position) = answer_of(alloc, reader, question)?;
        if answers.is_empty() {
            watch.begun.fetch_add(1, Ordering::SeqCst);
        }
        idle = match note(&mut answers, text, position)? {
            true => 0,
            false => idle.saturating_add(1),
        };
        if position >= end {
            return Ok(answers);
        }
        if idle > MOST_ASKS {
            return Err(RowFault::Memory);
        }
    }
    Err(RowFault::Memory)
}

/// A reader's answer, and how many values it is over.
fn answer_of<A: Application + Drop, J: Naming + Opening>(
    alloc: Global,
    reader: &mut Reader<A, J>,
    question: &str,
) -> Result<(String, u64), RowFault> {
    match reader.ask(alloc, LEVEL, question) {
        Ok((answer, position)) => Ok((text_of(alloc, answer)?, position)),
        Err(ReadFault::Memory) => Err(RowFault::Memory),
        Err(ReadFault::Long | ReadFault::Closed) => Err(RowFault::NotARow),
    }
}

/// Keeps an answer that is another than the last one, or over other values, and says whether it is. Otherwise it yields the thread.
fn note(answers: &mut Vec<(u64, String)>, text: String, position: u64) -> Result<bool, AllocError> {
    let is_known = match answers.last() {
        Some((last, known)) => *last == position && known.as_str() == text.as_str(),
        None => false,
    };
    if is_known {
        thread::yield_now();
        return Ok(false);
    }
    answers.push((position, text))?;
    Ok(true)
}

/// Has a site take all requests, and says then how much is shown at the end: nothing where memory is refused before.
fn take_all<J: Naming + Opening, R: Wait>(
    rt: &R,
    alloc: Global,
    site: &mut RowSite<J>,
    work: &Work,
    watch: &Watch,
    readers: u64,
) -> Result<Taken, RowFault> {
    let taken = take_each(rt, alloc, site, work, watch, readers);
    let end = match &taken {
        Ok(_) => site.published(),
        Err(_) => 0,
    };
    watch.end.store(end, Ordering::SeqCst);
    taken
}

/// Has a site take all requests and publish them, and keeps its node's answer each time that it has published.
fn take_each<J: Naming + Opening, R: Wait>(
    rt: &R,
    alloc: Global,
    site: &mut RowSite<J>,
    work: &Work,
    watch: &Watch,
    readers: u64,
) -> Result<Taken, RowFault> {
    let mut taken = Taken {
        answers: HashMap::new(alloc),
        have_begun: false,
    };
    show(rt, alloc, site, &work.question, &mut taken.answers)?;
    for number in 1..=work.count {
        take_next(rt, alloc, site, work, (watch, readers), number, &mut taken)?;
    }
    Ok(taken)
}

/// Has a site take the request of that number, and publish it where it is one of every so many or the last. It goes on only while no reader has failed.
fn take_next<J: Naming + Opening, R: Wait>(
    rt: &R,
    alloc: Global,
    site: &mut RowSite<J>,
    work: &Work,
    (watch, readers): (&Watch, u64),
    number: u64,
    taken: &mut Taken,
) -> Result<(), RowFault> {
    if watch.failed.load(Ordering::SeqCst) != 0 {
        return Err(RowFault::Memory);
    }
    submit_numbered(alloc, site, (&work.before, number, &work.after))?;
    if number == work.count {
        taken.have_begun = have_begun(watch, readers);
    }
    if number == work.count || number.checked_rem(work.every) == Some(0) {
        show(rt, alloc, site, &work.question, &mut taken.answers)?;
    }
    Ok(())
}

/// Publishes what is pending, and keeps the node's answer by how many values it is over.
fn show<J: Naming + Opening, R: Wait>(
    rt: &R,
    alloc: Global,
    site: &mut RowSite<J>,
    question: &str,
    answers: &mut HashMap<u64, String>,
) -> Result<(), RowFault> {
    let shown = site.publish(rt)?;
    match site.node().answer(alloc, 0, LEVEL, question) {
        Ok(Reading::At(position, answer)) if u64::from(position) == shown => {
            answers.insert(shown, text_of(alloc, answer)?)?;
            Ok(())
        }
        Ok(_) => Err(RowFault::NotARow),
        Err(NodeFault::Memory) => Err(RowFault::Memory),
        Err(_) => Err(RowFault::NotARow),
    }
}

/// Whether each reader has answered, for which it waits a while.
fn have_begun(watch: &Watch, readers: u64) -> bool {
    for _ in 0..MOST_LOOKS {
        if watch.begun.load(Ordering::SeqCst) >= readers {
            return true;
        }
        thread::yield_now();
    }
    false
}

/// Gives the readers back, and says of each how far it came, and whether each answer of it was the node's.
fn outcome_text<J: Naming + Opening>(
    alloc: Global,
    readers: &mut Vec<RowReader<J>>,
    saw: Vec<Saw<State, J>>,
    taken: &Taken,
) -> Result<String, RowFault> {
    let mut out = String::new(alloc);
    for one in saw {
        let Saw { reader, answers } = one;
        readers.push(reader)?;
        push_outcome(alloc, &mut out, &answers?, taken)?;
    }
    if !taken.have_begun {
        out.push_str(", not all before the end, or memory for a thread was refused")?;
    }
    Ok(out)
}

/// Appends what became of a reader, after a comma where something stands there.
fn push_outcome(
    alloc: Global,
    out: &mut String,
    answers: &[(u64, String)],
    taken: &Taken,
) -> Result<(), AllocError> {
    if !out.is_empty() {
        out.push_str(", ")?;
    }
    let mut last = None;
    for (position, text) in answers {
        let is_more = match last {
            Some(last) => last < *position,
            None => true,
        };
        if !is_more {
            return out.push_str(format!(in alloc; "again {position}")?.as_str());
        }
        if !is_kept(taken, *position, text) {
            return out.push_str(format!(in alloc; "otherwise at {position}")?.as_str());
        }
        last = Some(*position);
    }
    let last = last.unwrap_or(0);
    out.push_str(format!(in alloc; "to {last} as the node")?.as_str())
}

/// Whether a node gave that answer over so many values.
fn is_kept(taken: &Taken, position: u64, text: &str) -> bool {
    match taken.answers.get(&position) {
        Some(kept) => kept.as_str() == text,
        None => false,
    }
}
