//! Two readers, of which the first waits after its answer for that of the second.

use super::asking::{LEVEL, RowReader, answer_text, fault_text};
use ballots::Answer;
use published::{Gate, Opening, ReadFault, serve};
use rows::{RowFault, Words};
use sight::Naming;
use std::alloc::Global;
use std::sync::atomic::{AtomicU64, Ordering};
use std::thread;
use std::thread::{Threads, join};

/// How often the first reader looks whether the second has answered, and yields its thread in between.
const MOST_LOOKS: u32 = 1_000_000;

/// Lets the first reader go on when the second has answered.
#[derive(Drop)]
struct Pair {
    second: AtomicU64,
    passed: AtomicU64,
}

impl Pair {
    /// Nobody has answered.
    fn new() -> Pair {
        Pair {
            second: AtomicU64::new(0),
            passed: AtomicU64::new(0),
        }
    }

    /// Whether the first reader has seen that the second had answered.
    fn has_passed(&self) -> bool {
        self.passed.load(Ordering::SeqCst) == 1
    }
}

impl Gate for Pair {
    fn answered(&self, number: u32) {
        if number == 2 {
            self.second.store(1, Ordering::SeqCst);
            return;
        }
        for _ in 0..MOST_LOOKS {
            if self.second.load(Ordering::SeqCst) == 1 {
                self.passed.store(1, Ordering::SeqCst);
                return;
            }
            thread::yield_now();
        }
    }
}

/// What a reader answered, and the fault that ended it.
type Served = (Vec<(Answer, u64)>, Option<ReadFault>);

/// `TEXT`: what readers 1 and 2 answer, each in a thread of its own, and whether the first passed its gate. Where memory for a thread is refused, they are
/// served one after the other, and it cannot pass.
pub(super) fn met<J: Naming + Opening + Send + Sync, R: Threads>(
    rt: &R,
    alloc: Global,
    readers: &mut Vec<RowReader<J>>,
    words: &mut Words<'_>,
) -> Result<String, RowFault> {
    let asks = [(LEVEL, words.text(alloc)?)];
    let (one, two) = two_of(readers)?;
    let gate = Pair::new();
    let ((one, first, stop), (two, second, end)) = join(
        rt,
        || serve(one, alloc, &asks, &gate),
        || serve(two, alloc, &asks, &gate),
    );
    readers.push(one)?;
    readers.push(two)?;
    let otherwise = "not passed, or memory for a thread was refused";
    pair_text(
        alloc,
        (first, stop),
        (second, end),
        if gate.has_passed() {
            "passed"
        } else {
            otherwise
        },
    )
}

/// `TEXT`: what readers 1 and 2 answer, one after the other, and whether the first passed its gate.
pub(super) fn in_turn<J: Naming + Opening>(
    alloc: Global,
    readers: &mut Vec<RowReader<J>>,
    words: &mut Words<'_>,
) -> Result<String, RowFault> {
    let asks = [(LEVEL, words.text(alloc)?)];
    let (one, two) = two_of(readers)?;
    let gate = Pair::new();
    let (one, first, stop) = serve(one, alloc, &asks, &gate);
    let (two, second, end) = serve(two, alloc, &asks, &gate);
    readers.push(one)?;
    readers.push(two)?;
    pair_text(
        alloc,
        (first, stop),
        (second, end),
        if gate.has_passed() {
            "passed"
        } else {
            "not passed"
        },
    )
}

/// Takes the readers, of which there are two. Fault: `NotARow` where there are others.
fn two_of<J: Naming + Opening>(
    readers: &mut Vec<RowReader<J>>,
) -> Result<(RowReader<J>, RowReader<J>), RowFault> {
    if readers.len() != 2 {
        return Err(RowFault::NotARow);
    }
    match (readers.pop(), readers.pop()) {
        (Some(two), Some(one)) => Ok((one, two)),
        _ => Err(RowFault::NotARow),
    }
}

/// What two readers answered, and how it went.
fn pair_text(alloc: Global, one: Served, two: Served, outcome: &str) -> Result<String, RowFault> {
    let one = single_text(alloc, one)?;
    let two = single_text(alloc, two)?;
    Ok(format!(in alloc; "{one}, {two}, {outcome}")?)
}

/// The answer to a single question, or the fault.
fn single_text(alloc: Global, served: Served) -> Result<String, RowFault> {
    let (mut answers, fault) = served;
    match (answers.pop(), fault) {
        (_, Some(fault)) => fault_text(alloc, fault),
        (Some((answer, position)), None) => Ok(answer_text(alloc, answer, position)?),
        (None, None) => Err(RowFault::NotARow),
    }
}
