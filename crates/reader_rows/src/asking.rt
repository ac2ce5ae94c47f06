//! Questions that a row asks a reader.

ghost use Rattle.std.specs.Prelude.{◌<◌, length, IfOk};

use super::sites::word;
use ballots::Answer;
use published::{Gate, Opening, ReadFault, Reader, serve};
use rows::{RowFault, Words};
use sessions::State;
use sight::Naming;
use std::alloc::{AllocError, Global};
use std::sync::atomic::{AtomicU64, Ordering};

/// The language level of the questions.
pub(super) const LEVEL: u8 = 1;

/// How many questions a reader is asked in turn at most.
const MOST_ASKS: u64 = 1_000;

/// How often a question comes at most, where memory is refused to it.
const MOST_TRIES: u32 = 100;

/// A reader of a row.
pub(super) type RowReader<J> = Reader<State, J>;

/// The index of the reader whose number is the next word. Fault: `NotARow` where there is none.
pub(super) fn index_of<J: Naming + Opening>(
    readers: &[RowReader<J>],
    words: &mut Words<'_>,
) -> Result<usize, RowFault>
    ensures { IfOk result (λ index. index < length readers.now) }
{
    let number = word(words)? as usize;
    if number == 0 || number > readers.len() {
        return Err(RowFault::NotARow);
    }
    Ok(number - 1)
}

/// An answer's text, or its fault.
pub(super) fn text_of(alloc: Global, answer: Answer) -> Result<String, AllocError> {
    match answer {
        Answer::Text(text) => Ok(text),
        Answer::Fault(code) => format!(in alloc; "fault {code}"),
    }
}

/// An answer with how many values it is over.
pub(super) fn answer_text(
    alloc: Global,
    answer: Answer,
    position: u64,
) -> Result<String, AllocError> {
    let text = text_of(alloc, answer)?;
    format!(in alloc; "at {position} {text}")
}

/// The number of a fault. Want of memory ends the row.
pub(super) fn fault_text(alloc: Global, fault: ReadFault) -> Result<String, RowFault> {
    let number: u8 = match fault {
        ReadFault::Memory => return Err(RowFault::Memory),
        ReadFault::Long => 2,
        ReadFault::Closed => 3,
    };
    Ok(format!(in alloc; "fault {number}")?)
}

/// `READER TEXT`: what a reader answers.
pub(super) fn asked<J: Naming + Opening>(
    alloc: Global,
    readers: &mut [RowReader<J>],
    words: &mut Words<'_>,
) -> Result<String, RowFault> {
    let index = index_of(readers, words)?;
    let text = words.text(alloc)?;
    match readers[index].ask(alloc, LEVEL, text.as_str()) {
        Ok((answer, position)) => Ok(answer_text(alloc, answer, position)?),
        Err(fault) => fault_text(alloc, fault),
    }
}

/// `TEXT`: what each reader answers, one after the other, asked again where memory is refused.
pub(super) fn asked_again<J: Naming + Opening>(
    alloc: Global,
    readers: &mut [RowReader<J>],
    words: &mut Words<'_>,
) -> Result<String, RowFault> {
    let text = words.text(alloc)?;
    let mut out = String::new(alloc);
    for reader in readers.iter_mut() {
        if !out.is_empty() {
            out.push_str(", ")?;
        }
        let answer = answered_again(alloc, reader, &text)?;
        out.push_str(answer.as_str())?;
    }
    Ok(out)
}

/// What a reader answers, asked again where memory is refused. Fault: `Memory`, where it is refused again and again.
fn answered_again<J: Naming + Opening>(
    alloc: Global,
    reader: &mut RowReader<J>,
    text: &str,
) -> Result<String, RowFault> {
    for _ in 0..MOST_TRIES {
        match reader.ask(alloc, LEVEL, text) {
            Ok((answer, position)) => return Ok(answer_text(alloc, answer, position)?),
            Err(ReadFault::Memory) => {}
            Err(fault) => return fault_text(alloc, fault),
        }
    }
    Err(RowFault::Memory)
}

/// `READER`: how much a reader has seen.
pub(super) fn seen<J: Naming + Opening>(
    alloc: Global,
    readers: &[RowReader<J>],
    words: &mut Words<'_>,
) -> Result<String, RowFault> {
    let index = index_of(readers, words)?;
    let seen = readers[index].seen();
    Ok(format!(in alloc; "{seen} seen")?)
}

/// It counts how often it is told of an answer.
#[derive(Drop)]
struct Counting {
    answers: AtomicU64,
}

impl Gate for Counting {
    fn answered(&self, _number: u32) {
        self.answers.fetch_add(1, Ordering::SeqCst);
    }
}

/// `READER N TEXT ..`: what a reader answers to so many questions in turn, and how many answers were told of.
pub(super) fn served<J: Naming + Opening>(
    alloc: Global,
    readers: &mut Vec<RowReader<J>>,
    words: &mut Words<'_>,
) -> Result<String, RowFault> {
    let index = index_of(readers, words)?;
    let asks = asks_of(alloc, words)?;
    let gate = Counting {
        answers: AtomicU64::new(0),
    };
    let reader = readers.remove(index);
    let (reader, answers, fault) = serve(reader, alloc, &asks, &gate);
    readers.insert(index, reader)?;
    let told = gate.answers.load(Ordering::SeqCst);
    served_text(alloc, answers, fault, told)
}

/// `N TEXT ..`: so many questions.
fn asks_of(alloc: Global, words: &mut Words<'_>) -> Result<Vec<(u8, String)>, RowFault> {
    let mut asks = Vec::new(alloc);
    for _ in 0..words.number()?.min(MOST_ASKS) {
        asks.push((LEVEL, words.text(alloc)?))?;
    }
    Ok(asks)
}

/// Answers with what ended them, and how many were told of.
fn served_text(
    alloc: Global,
    answers: Vec<(Answer, u64)>,
    fault: Option<ReadFault>,
    told: u64,
) -> Result<String, RowFault> {
    let mut out = String::new(alloc);
    for (answer, position) in answers {
        let text = answer_text(alloc, answer, position)?;
        out.push_str(text.as_str())?;
        out.push_str(", ")?;
    }
    if let Some(fault) = fault {
        out.push_str(fault_text(alloc, fault)?.as_str())?;
        out.push_str(", ")?;
    }
    out.push_str(format!(in alloc; "{told} told")?.as_str())?;
    Ok(out)
}
