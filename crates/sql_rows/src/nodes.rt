//! Nodes over databases.
//!
//! `begin`, `resend`, `catchup` and `keep` tick a node, `receive HEX` hands it bytes, `answer` asks it, and `flush` has it write what its records
//! hold back. A step gives how many messages it sends, an answer how much is applied, and each a fault's number where it is refused. After all
//! calls the node is opened again over its records.

use super::results::{Kept, both_done};
use super::using::{say, say_refused};
use applications::Application;
use ballots::Setup;
use member::Tick;
use node::{Node, NodeFault, OpenFault, Outbox, Reading};
use records::{GroupRecords, Records, RecordsFault, Staged};
use rows::{RowFault, Words, hex_bytes};
use sql_records::SqlRecords;
use sqlite::{Alter, Connection};
use std::alloc::Global;

/// The language level of the question.
const LEVEL: u8 = 1;

/// The question that a node is asked.
const QUESTION: &str = "1";

/// Makes a node's calls over a database, if there is one, and gives back what there was. The answers are appended, or why there are none.
/// Faults: `NotARow`, and `Memory`.
pub(super) fn used_where_connected<A: Application + Drop, S: Alter + Drop, F: Drop>(
    alloc: Global,
    connected: Result<Connection<S>, F>,
    setup: Setup,
    calls: &str,
    is_staged: bool,
    answers: &mut String,
) -> Kept<Result<Connection<S>, F>> {
    match connected {
        Ok(connection) => {
            let (done, connection) = used::<A, S>(
                alloc, connection, setup, calls, is_staged, answers,
            );
            (done, Ok(connection))
        }
        Err(files) => (say(answers, "no connection"), Err(files)),
    }
}

/// Makes a node's calls over a database, and gives it back. The answers are appended, or why there are none. Faults: `NotARow`, and `Memory`.
fn used<A: Application + Drop, S: Alter + Drop>(
    alloc: Global,
    connection: Connection<S>,
    setup: Setup,
    calls: &str,
    is_staged: bool,
    answers: &mut String,
) -> Kept<Connection<S>> {
    match SqlRecords::open(alloc, connection, &setup) {
        Ok(records) => {
            let (done, records) = if is_staged {
                played_staged::<A, _>(alloc, records, setup, calls, answers)
            } else {
                played::<A, _>(alloc, records, setup, calls, answers)
            };
            (done, records.into_connection())
        }
        Err((fault, connection)) => (say_refused(alloc, fault, answers), connection),
    }
}

/// Makes a node's calls over records, opens it again, and gives them back.
fn played<A: Application + Drop, R: Records + Drop>(
    alloc: Global,
    records: R,
    setup: Setup,
    calls: &str,
    answers: &mut String,
) -> Kept<R> {
    match Node::<R, A>::open(alloc, setup, records) {
        Ok((mut node, _)) => {
            let done = play_all(alloc, &mut node, calls, answers);
            let (setup, records) = node.into_parts();
            opened_again::<A, R>(alloc, records, setup, done, answers)
        }
        Err((fault, _, records)) => (say_unopened(fault, answers), records),
    }
}

/// Makes a node's calls over records that hold back what is written to a store, opens it again, and gives the store back.
fn played_staged<A: Application + Drop, R: GroupRecords + Drop>(
    alloc: Global,
    store: R,
    setup: Setup,
    calls: &str,
    answers: &mut String,
) -> Kept<R> {
    match Staged::open(alloc, store) {
        Ok(staged) => {
            let (done, staged) = played_holding::<A, R>(alloc, staged, setup, calls, answers);
            (done, staged.into_inner())
        }
        Err((RecordsFault::Memory, store)) => (Err(RowFault::Memory), store),
        Err((RecordsFault::Store, store)) => (say(answers, "not loaded"), store),
    }
}

/// The same, and gives the records back.
fn played_holding<A: Application + Drop, R: GroupRecords + Drop>(
    alloc: Global,
    records: Staged<R>,
    setup: Setup,
    calls: &str,
    answers: &mut String,
) -> Kept<Staged<R>> {
    match Node::<Staged<R>, A>::open(alloc, setup, records) {
        Ok((mut node, _)) => {
            let done = play_all_holding(alloc, &mut node, calls, answers);
            let (setup, records) = node.into_parts();
            opened_again::<A, Staged<R>>(alloc, records, setup, done, answers)
        }
        Err((fault, _, records)) => (say_unopened(fault, answers), records),
    }
}

/// Opens a node again over its records, and gives them back. How much it has applied is appended, or why it does not open. Faults: that of its
/// calls, if any, and `Memory`.
fn opened_again<A: Application + Drop, R: Records + Drop>(
    alloc: Global,
    records: R,
    setup: Setup,
    done: Result<(), RowFault>,
    answers: &mut String,
) -> Kept<R> {
    match Node::<R, A>::open(alloc, setup, records) {
        Ok((node, is_short)) => {
            let said = say_opened(alloc, &node, is_short, answers);
            (both_done(done, said), node.into_records())
        }
        Err((fault, _, records)) => (both_done(done, say_unopened(fault, answers)), records),
    }
}

/// Appends how much a node that is opened has applied. Fault: `Memory`, also where it has not applied all that it has learnt.
fn say_opened<A: Application + Drop, R: Records + Drop>(
    alloc: Global,
    node: &Node<R, A>,
    is_short: bool,
    answers: &mut String,
) -> Result<(), RowFault> {
    if is_short {
        return Err(RowFault::Memory);
    }
    let applied = node.applied();
    let text = format!(in alloc; "opened, {applied} applied")?;
    say(answers, text.as_str())
}

/// Appends the number of the fault for which a node does not open.
fn say_unopened(fault: OpenFault, answers: &mut String) -> Result<(), RowFault> {
    match fault {
        OpenFault::Memory => Err(RowFault::Memory),
        OpenFault::Store => say(answers, "fault 4"),
    }
}

/// Makes the calls of a text, one in each line, and appends the answers. Faults: `NotARow`, and `Memory`.
fn play_all<A: Application + Drop, R: Records + Drop>(
    alloc: Global,
    node: &mut Node<R, A>,
    calls: &str,
    answers: &mut String,
) -> Result<(), RowFault> {
    for call in calls.lines() {
        play(alloc, node, call, answers)?;
    }
    Ok(())
}

/// The same, where the records may be flushed too.
fn play_all_holding<A: Application + Drop, R: GroupRecords + Drop>(
    alloc: Global,
    node: &mut Node<Staged<R>, A>,
    calls: &str,
    answers: &mut String,
) -> Result<(), RowFault> {
    for call in calls.lines() {
        if call == "flush" {
            flush(alloc, node, answers)?;
        } else {
            play(alloc, node, call, answers)?;
        }
    }
    Ok(())
}

/// Has a node write what its records hold back, and appends what comes of it.
fn flush<A: Application + Drop, R: GroupRecords + Drop>(
    alloc: Global,
    node: &mut Node<Staged<R>, A>,
    answers: &mut String,
) -> Result<(), RowFault> {
    match node.flush(alloc) {
        Ok(()) => say(answers, "flushed"),
        Err(fault) => say(answers, fault_text(fault)?),
    }
}

/// Makes one call, and appends the answer. Faults: `NotARow`, and `Memory`.
fn play<A: Application + Drop, R: Records + Drop>(
    alloc: Global,
    node: &mut Node<R, A>,
    call: &str,
    answers: &mut String,
) -> Result<(), RowFault> {
    let mut words = Words::new(call);
    let answer = match words.plain()? {
        "begin" => step_text(alloc, node.tick(alloc, Tick::Begin))?,
        "resend" => step_text(alloc, node.tick(alloc, Tick::Resend))?,
        "catchup" => step_text(alloc, node.tick(alloc, Tick::CatchUp))?,
        "keep" => step_text(alloc, node.tick(alloc, Tick::Keep))?,
        "receive" => received(alloc, node, &mut words)?,
        "answer" => reading_text(alloc, node.answer(alloc, 0, LEVEL, QUESTION))?,
        _ => return Err(RowFault::NotARow),
    };
    say(answers, answer.as_str())
}

/// Hands a node the bytes of the next word.
fn received<A: Application + Drop, R: Records + Drop>(
    alloc: Global,
    node: &mut Node<R, A>,
    words: &mut Words,
) -> Result<String, RowFault> {
    let bytes = hex_bytes(alloc, words.plain()?)?;
    step_text(alloc, node.receive(alloc, &bytes))
}

/// How many messages a step sends, or its fault. Fault: `Memory`, also where not all is applied that is learnt.
fn step_text(alloc: Global, given: Result<Outbox, NodeFault>) -> Result<String, RowFault> {
    match given {
        Ok(outbox) => sent_text(alloc, &outbox),
        Err(fault) => Ok(String::from_str(alloc, fault_text(fault)?)?),
    }
}

/// How many messages are sent.
fn sent_text(alloc: Global, outbox: &Outbox) -> Result<String, RowFault> {
    if outbox.short() {
        return Err(RowFault::Memory);
    }
    let sent = outbox.sent().len();
    Ok(format!(in alloc; "{sent} sent")?)
}

/// How much is applied where a question is answered, or the fault.
fn reading_text(alloc: Global, read: Result<Reading, NodeFault>) -> Result<String, RowFault> {
    match read {
        Ok(Reading::At(applied, _) | Reading::Behind(applied)) => {
            Ok(format!(in alloc; "at {applied}")?)
        }
        Err(fault) => Ok(String::from_str(alloc, fault_text(fault)?)?),
    }
}

/// A fault by its number. Want of memory ends the row.
fn fault_text(fault: NodeFault) -> Result<&'static str, RowFault> {
    match fault {
        NodeFault::Wire(_) => Ok("fault 1"),
        NodeFault::Stranger => Ok("fault 2"),
        NodeFault::Memory => Err(RowFault::Memory),
        NodeFault::Store => Ok("fault 4"),
        NodeFault::Stopped => Ok("fault 5"),
        NodeFault::Spent => Ok("fault 6"),
    }
}
