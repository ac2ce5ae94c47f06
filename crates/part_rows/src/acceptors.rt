//! Rows on acceptors: `acceptor CALLS`, over records in memory; `failing NUMBER LEFT CALLS`, over a store that fails in the write of that number (0 is none) and
//! leaves what it was to write (1) or not (0).
//!
//! `begin BALLOT` (above what is promised), `prepare BALLOT POSITION`, `accept POSITION BALLOT` (of the no-op), `keep NUMBER` (a request is kept as learnt).
//! They give `ok`, `nothing`, `window BALLOT FIRST LAST` and for each vote `vote POSITION BALLOT`, `yes` or `no`; `store` where the store fails. `first POSITION
//! POSITION` and `second POSITION POSITION`: two Accepts of ballot 1,1 are drafted, and that one of them is done. `promised`; `held`: the requests that are kept as
//! learnt; `reopen`: the acceptor is dropped, and another one opened over its records, of which is said how many writes they had, and how many failed.

ghost use Rattle.std.specs.Prelude.{◌≡◌, ◌<◌, length, true, IfOk};
ghost use Rattle.acceptor.specs.Drafts.{IsDue};
ghost use Rattle.ballots.specs.Values.{positions};

use crate::playing::{Played, play_all};
use crate::reading::{number_of, numbers_text, push_word, request, said, yes_or_no};
use acceptor::{Acceptor, Draft};
use ballots::limits::{POSITIONS, is_position};
use ballots::{Ballot, Value, Vote, Window};
use message_words::{ballot_text, read_ballot, read_u32};
use records::{MemRecords, Records, RecordsFault, ScriptRecords};
use rows::{RowFault, Words};
use std::alloc::{AllocError, Global};

/// The ballot of what is drafted.
const FIRST: Ballot = Ballot {
    round: 1,
    member: 1,
};

/// Records that may say how many writes they had.
trait Counted: Records {
    /// How many writes there were, where they are counted.
    fn count(&self) -> Option<u64>;
}

impl Counted for MemRecords {
    fn count(&self) -> Option<u64> {
        None
    }
}

impl Counted for ScriptRecords {
    fn count(&self) -> Option<u64> {
        Some(self.writes())
    }
}

/// An acceptor, as calls of it show it. It is there but while its records are opened again.
#[derive(Drop)]
struct PlayedAcceptor<R: Counted + Drop> {
    acceptor: Option<Acceptor<R>>,
}

/// A row on an acceptor over records in memory.
pub(super) fn row(alloc: Global, words: &Words<'_>) -> Result<String, RowFault> {
    over(alloc, MemRecords::new(alloc), words)
}

/// A row on an acceptor whose store fails.
pub(super) fn row_failing(alloc: Global, words: &mut Words<'_>) -> Result<String, RowFault> {
    let number = words.number()?;
    let is_left = match words.plain()? {
        "0" => false,
        "1" => true,
        _ => return Err(RowFault::NotARow),
    };
    over(
        alloc,
        ScriptRecords::new(alloc, &[(number, is_left)])?,
        words,
    )
}

/// A row on an acceptor over records.
fn over<R: Counted + Drop>(
    alloc: Global,
    records: R,
    words: &Words<'_>,
) -> Result<String, RowFault> {
    let acceptor = Some(opened(alloc, records)?);
    play_all(alloc, &mut PlayedAcceptor { acceptor }, words.rest())
}

/// An acceptor over records; where memory is refused they are opened again.
fn opened<R: Records + Drop>(alloc: Global, records: R) -> Result<Acceptor<R>, RowFault> {
    match Acceptor::open(alloc, records) {
        Ok(acceptor) => Ok(acceptor),
        Err((_, records)) => match Acceptor::open(alloc, records) {
            Ok(acceptor) => Ok(acceptor),
            Err(_) => Err(RowFault::Memory),
        },
    }
}

/// A vote for the no-op.
fn vote(ballot: Ballot) -> Vote
    ensures { result.ballot ≡ ballot }
{
    let value = Value::NoOp;
    Vote { ballot, value }
}

/// What a call came to.
#[derive(Drop)]
enum Given {
    /// It is done.
    Done,
    /// The store failed.
    StoreFailed,
    /// The window that answers a Prepare, if anything does.
    Told(Option<Window>),
    /// Whether it accepted.
    IsAccepted(bool),
    /// The ballot that it has promised.
    Promised(Ballot),
    /// The requests that it keeps as learnt.
    Held(Vec<u32>),
}

/// What a fault comes to. Fault: want of memory.
fn failed(fault: RecordsFault) -> Result<Given, RowFault> {
    match fault {
        RecordsFault::Memory => Err(RowFault::Memory),
        RecordsFault::Store => Ok(Given::StoreFailed),
    }
}

/// What a call without an answer comes to.
fn done(done: Result<(), RecordsFault>) -> Result<Given, RowFault> {
    match done {
        Ok(()) => Ok(Given::Done),
        Err(fault) => failed(fault),
    }
}

/// What a call comes to that accepts or does not.
fn accepted(accepted: Result<bool, RecordsFault>) -> Result<Given, RowFault> {
    match accepted {
        Ok(is_accepted) => Ok(Given::IsAccepted(is_accepted)),
        Err(fault) => failed(fault),
    }
}

/// What a call came to, in words.
fn given_text(alloc: Global, given: Given) -> Result<String, RowFault> {
    match given {
        Given::Done => said(alloc, "ok"),
        Given::StoreFailed => said(alloc, "store"),
        Given::Told(Some(window)) => Ok(window_text(alloc, &window)?),
        Given::Told(None) => said(alloc, "nothing"),
        Given::IsAccepted(is_accepted) => yes_or_no(alloc, is_accepted),
        Given::Promised(ballot) => Ok(ballot_text(alloc, ballot)?),
        Given::Held(numbers) => Ok(numbers_text(alloc, &numbers)?),
    }
}

/// A window in words.
fn window_text(alloc: Global, window: &Window) -> Result<String, AllocError> {
    let ballot = ballot_text(alloc, window.ballot)?;
    let (from, covered) = (window.from, window.covered);
    let mut out = format!(in alloc; "window {ballot} {from} {covered}")?;
    for entry in &window.entries {
        let ballot = ballot_text(alloc, entry.vote.ballot)?;
        let position = entry.position;
        push_word(
            &mut out,
            format!(in alloc; "vote {position} {ballot}")?.as_str(),
        )?;
    }
    Ok(out)
}

/// It begins a ballot.
fn begin<R: Records + Drop>(
    alloc: Global,
    acceptor: &mut Acceptor<R>,
    words: &mut Words<'_>,
) -> Result<Given, RowFault> {
    let ballot = read_ballot(words)?;
    if !ballot.is_valid() || !acceptor.promised().is_below(ballot) {
        return Err(RowFault::NotARow);
    }
    done(acceptor.on_begin(alloc, ballot))
}

/// It hears a Prepare.
fn prepare<R: Records + Drop>(
    alloc: Global,
    acceptor: &mut Acceptor<R>,
    words: &mut Words<'_>,
) -> Result<Given, RowFault> {
    let ballot = read_ballot(words)?;
    let from = read_u32(words)?;
    if !ballot.is_valid() {
        return Err(RowFault::NotARow);
    }
    match acceptor.on_prepare(alloc, ballot, from) {
        Ok(told) => Ok(Given::Told(told)),
        Err(fault) => failed(fault),
    }
}

/// It hears an Accept.
fn accept<R: Records + Drop>(
    alloc: Global,
    acceptor: &mut Acceptor<R>,
    words: &mut Words<'_>,
) -> Result<Given, RowFault> {
    let position = read_u32(words)?;
    let ballot = read_ballot(words)?;
    if !ballot.is_valid() || !is_position(position) {
        return Err(RowFault::NotARow);
    }
    accepted(acceptor.on_accept(alloc, position, &vote(ballot)))
}

/// Whether one learnt value more may be kept.
#[tactic(auto, unfolding(ballots::specs::Values::positions))]
fn has_room<R: Records + Drop>(acceptor: &Acceptor<R>) -> bool
    ensures { result ≡ true → length acceptor.now.kept.learnt < positions }
{
    acceptor.kept() < POSITIONS
}

/// It keeps a request as learnt.
fn keep<R: Records + Drop>(
    alloc: Global,
    acceptor: &mut Acceptor<R>,
    words: &mut Words<'_>,
) -> Result<Given, RowFault> {
    let value = Value::Request(request(alloc, words.number()?)?);
    if !has_room(acceptor) {
        return Err(RowFault::NotARow);
    }
    done(acceptor.on_keep(alloc, &value))
}

/// The draft of the answer to an Accept of ballot 1,1.
fn draft<R: Records + Drop>(
    alloc: Global,
    acceptor: &Acceptor<R>,
    position: u32,
) -> Result<Draft<bool>, RowFault>
    ensures { IfOk result (λ d. IsDue acceptor.now.kept d.write) }
{
    if !FIRST.is_valid() || !is_position(position) {
        return Err(RowFault::NotARow);
    }
    match acceptor.draft_accept(alloc, position, &vote(FIRST)) {
        Ok(draft) => Ok(draft),
        Err(_) => Err(RowFault::Memory),
    }
}

/// Two Accepts are drafted, and one is done.
fn drafts<R: Records + Drop>(
    alloc: Global,
    acceptor: &mut Acceptor<R>,
    is_first: bool,
    words: &mut Words<'_>,
) -> Result<Given, RowFault> {
    let first = draft(alloc, acceptor, read_u32(words)?)?;
    let second = draft(alloc, acceptor, read_u32(words)?)?;
    let draft = if is_first { first } else { second };
    accepted(acceptor.commit(alloc, draft))
}

/// The requests that are kept as learnt.
fn held<R: Records + Drop>(alloc: Global, acceptor: &Acceptor<R>) -> Result<Given, RowFault> {
    let mut numbers = Vec::new(alloc);
    for before in 0..acceptor.kept() {
        let number = match acceptor.held(before + 1) {
            Some(value) => number_of(value),
            None => return Err(RowFault::NotARow),
        };
        numbers.push(u32::try_from(number).ok().ok_or(RowFault::NotARow)?)?;
    }
    if acceptor.held(0).is_some() || acceptor.held(POSITIONS).is_some() {
        return Err(RowFault::NotARow);
    }
    Ok(Given::Held(numbers))
}

/// What a call of an acceptor comes to, which is made once.
fn call_once<R: Records + Drop>(
    alloc: Global,
    acceptor: &mut Acceptor<R>,
    word: &str,
    words: &mut Words<'_>,
) -> Result<Given, RowFault> {
    match word {
        "begin" => begin(alloc, acceptor, words),
        "prepare" => prepare(alloc, acceptor, words),
        "accept" => accept(alloc, acceptor, words),
        "keep" => keep(alloc, acceptor, words),
        "first" => drafts(alloc, acceptor, true, words),
        "second" => drafts(alloc, acceptor, false, words),
        "promised" => Ok(Given::Promised(acceptor.promised())),
        "held" => held(alloc, acceptor),
        _ => Err(RowFault::NotARow),
    }
}

/// What a call of an acceptor gives; where memory is refused nothing has changed, and it is made again.
fn call_again<R: Records + Drop>(
    alloc: Global,
    acceptor: &mut Acceptor<R>,
    word: &str,
    words: &mut Words<'_>,
) -> Result<String, RowFault> {
    let start = *words;
    let given = match call_once(alloc, acceptor, word, words) {
        Err(RowFault::Memory) => {
            *words = start;
            call_once(alloc, acceptor, word, words)?
        }
        given => given?,
    };
    given_text(alloc, given)
}

impl<R: Counted + Drop> PlayedAcceptor<R> {
    /// Opens the records again; gives what they say of their writes.
    fn reopen(&mut self, alloc: Global) -> Result<String, RowFault> {
        let Some(acceptor) = self.acceptor.take() else {
            return Err(RowFault::NotARow);
        };
        let records = acceptor.into_records();
        let given = match records.count() {
            Some(writes) => {
                let failures = records.failures();
                format!(in alloc; "{writes} writes, {failures} failed")?
            }
            None => String::from_str(alloc, "opened")?,
        };
        self.acceptor = Some(opened(alloc, records)?);
        Ok(given)
    }
}

impl<R: Counted + Drop> Played for PlayedAcceptor<R> {
    fn call(&mut self, alloc: Global, words: &mut Words<'_>) -> Result<String, RowFault> {
        let word = words.plain()?;
        if word == "reopen" {
            return self.reopen(alloc);
        }
        match self.acceptor.as_mut() {
            Some(acceptor) => call_again(alloc, acceptor, word, words),
            None => Err(RowFault::NotARow),
        }
    }
}
