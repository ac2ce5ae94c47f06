//! A member, and the calls of it that a row makes.

use crate::printing::{outcome_text, printed, refusal_text, stopped_text};
use crate::steps::{Refusal, cut, draft, step};
use crate::stores::{Counted, writes_text};
use ballots::{Members, Message};
use member::{Input, Member, Tick};
use message_words::{ballot_text, read_message, read_u8, read_u32, value_text};
use records::{MemRecords, Records, RecordsFault, ScriptRecords};
use rows::{RowFault, Words};
use std::alloc::Global;

/// How many calls a row has at most.
const MOST_CALLS: u32 = 100;

/// What comes to a member.
#[derive(Drop)]
enum Event {
    Message(u8, Message),
    Tick(Tick),
}

impl Event {
    /// It as an input.
    fn input(&self) -> Input<'_> {
        match self {
            Event::Message(sender, message) => Input::Message(*sender, message),
            Event::Tick(tick) => Input::Tick(*tick),
        }
    }
}

/// A member, as calls of it show it. It is there but while its records are opened again.
#[derive(Drop)]
struct PlayedMember<R: Counted + Drop> {
    member: Option<Member<R>>,
}

/// What the calls after a member and a number of members give.
pub(super) fn called(alloc: Global, words: &mut Words<'_>) -> Result<String, RowFault> {
    over(alloc, MemRecords::new(alloc), words)
}

/// `NUMBER LEFT`: the same, where the store fails in the write of that number, and leaves what it was to write (1) or not (0).
pub(super) fn called_failing(alloc: Global, words: &mut Words<'_>) -> Result<String, RowFault> {
    let number = words.number()?;
    let is_left = match words.plain()? {
        "0" => false,
        "1" => true,
        _ => return Err(RowFault::NotARow),
    };
    over(
        alloc,
        ScriptRecords::new(alloc, &[(number, is_left)])?,
        words,
    )
}

/// What the calls of a member over records give.
fn over<R: Counted + Drop>(
    alloc: Global,
    records: R,
    words: &mut Words<'_>,
) -> Result<String, RowFault> {
    let (number, members) = read_place(words)?;
    let member = Some(opened(alloc, number, members, records)?);
    all_called(alloc, &mut PlayedMember { member }, words)
}

/// What calls give, one after the other.
fn all_called<R: Counted + Drop>(
    alloc: Global,
    played: &mut PlayedMember<R>,
    words: &mut Words<'_>,
) -> Result<String, RowFault> {
    let mut out = String::new(alloc);
    for _ in 0..MOST_CALLS {
        out.push_str(played.call(alloc, words)?.as_str())?;
        if words.is_empty() {
            return Ok(out);
        }
        if words.plain()? != ";" {
            return Err(RowFault::NotARow);
        }
        out.push_str(" ; ")?;
    }
    Err(RowFault::NotARow)
}

/// A member, how many there are, and a message: the senders from whom it may come.
pub(super) fn heard(alloc: Global, words: &mut Words<'_>) -> Result<String, RowFault> {
    let (number, members) = read_place(words)?;
    let message = read_message(alloc, words)?;
    if !words.is_empty() {
        return Err(RowFault::NotARow);
    }
    senders(alloc, number, members, &message)
}

/// The senders of 0 to 4 from whom a message may come to a member, `-` where that is nobody.
fn senders(
    alloc: Global,
    number: u8,
    members: Members,
    message: &Message,
) -> Result<String, RowFault> {
    let member = opened(alloc, number, members, MemRecords::new(alloc))?;
    let mut out = String::new(alloc);
    for sender in 0u8..=4 {
        if member.hears(sender, message) {
            out.push(char::from(b'0' + sender))?;
        }
    }
    if out.is_empty() {
        out.push_str("-")?;
    }
    Ok(out)
}

/// The number of a member, and how many there are.
fn read_place(words: &mut Words<'_>) -> Result<(u8, Members), RowFault> {
    let number = read_u8(words)?;
    let members = Members::new(read_u8(words)?).ok_or(RowFault::NotARow)?;
    Ok((number, members))
}

/// A member over records; where memory is refused they are opened again.
fn opened<R: Records + Drop>(
    alloc: Global,
    number: u8,
    members: Members,
    records: R,
) -> Result<Member<R>, RowFault> {
    if number < 1 || number > members.count() {
        return Err(RowFault::NotARow);
    }
    let member = match Member::open(alloc, members, number, records) {
        Err((RecordsFault::Memory, records)) => Member::open(alloc, members, number, records),
        given => given,
    };
    let member = match member {
        Ok(member) => member,
        Err((RecordsFault::Memory, _)) => return Err(RowFault::Memory),
        Err((RecordsFault::Store, _)) => return Err(RowFault::NotARow),
    };
    if member.number() != number || member.members() != members {
        return Err(RowFault::NotARow);
    }
    Ok(member)
}

/// What comes to a member by a call.
fn read_event(alloc: Global, word: &str, words: &mut Words<'_>) -> Result<Event, RowFault> {
    match word {
        "begin" => Ok(Event::Tick(Tick::Begin)),
        "resend" => Ok(Event::Tick(Tick::Resend)),
        "catchup" => Ok(Event::Tick(Tick::CatchUp)),
        "from" => {
            let sender = read_u8(words)?;
            Ok(Event::Message(sender, read_message(alloc, words)?))
        }
        _ => Err(RowFault::NotARow),
    }
}

/// What comes to a member by a call; where memory is refused, it is read again.
fn read_again(alloc: Global, word: &str, words: &mut Words<'_>) -> Result<Event, RowFault> {
    let start = *words;
    match read_event(alloc, word, words) {
        Err(RowFault::Memory) => {
            *words = start;
            read_event(alloc, word, words)
        }
        given => given,
    }
}

/// What a call gives by which something comes to a member.
fn stepped<R: Records + Drop>(
    alloc: Global,
    member: &mut Member<R>,
    word: &str,
    words: &mut Words<'_>,
) -> Result<String, RowFault> {
    let event = read_again(alloc, word, words)?;
    match step(alloc, member, &event.input()) {
        Ok(outcome) => printed(alloc, &outcome),
        Err(refusal) => refusal_text(alloc, refusal),
    }
}

/// A member stops inside the write of what comes of an input. Gives what would have been sent and told.
fn stop_once<R: Counted + Drop>(
    alloc: Global,
    member: &mut Member<R>,
    input: &Input,
) -> Result<String, Refusal> {
    let draft = draft(alloc, member, input)?;
    let Ok(sent) = outcome_text(alloc, draft.sends(), draft.tells()) else {
        return Err(Refusal::Memory);
    };
    cut(alloc, member, draft)?;
    Ok(sent)
}

/// A member stops inside a write; where memory is refused, it does so again.
fn stop<R: Counted + Drop>(
    alloc: Global,
    member: &mut Member<R>,
    input: &Input,
) -> Result<String, Refusal> {
    match stop_once(alloc, member, input) {
        Err(Refusal::Memory) => stop_once(alloc, member, input),
        given => given,
    }
}

/// What shows.
fn shown_text<R: Records + Drop>(
    alloc: Global,
    member: &Member<R>,
    word: &str,
    words: &mut Words<'_>,
) -> Result<String, RowFault> {
    match word {
        "promised" => Ok(ballot_text(alloc, member.promised())?),
        "prefix" => {
            let prefix = member.prefix();
            Ok(format!(in alloc; "{prefix}")?)
        }
        _ => match member.learned(read_u32(words)?) {
            Some(value) => Ok(value_text(alloc, value)?),
            None => Ok(String::from_str(alloc, "-")?),
        },
    }
}

/// What shows; where memory is refused, it is printed again.
fn shown_again<R: Records + Drop>(
    alloc: Global,
    member: &Member<R>,
    word: &str,
    words: &mut Words<'_>,
) -> Result<String, RowFault> {
    let start = *words;
    match shown_text(alloc, member, word, words) {
        Err(RowFault::Memory) => {
            *words = start;
            shown_text(alloc, member, word, words)
        }
        given => given,
    }
}

impl<R: Counted + Drop> PlayedMember<R> {
    /// The member.
    fn member(&mut self) -> Result<&mut Member<R>, RowFault> {
        match self.member.as_mut() {
            Some(member) => Ok(member),
            None => Err(RowFault::NotARow),
        }
    }

    /// Opens the records again; gives what they say of their writes.
    fn reopen(&mut self, alloc: Global) -> Result<String, RowFault> {
        let Some(member) = self.member.take() else {
            return Err(RowFault::NotARow);
        };
        let (number, members) = (member.number(), member.members());
        let records = member.into_records();
        let given = match writes_text(alloc, &records) {
            Ok(given) => given,
            Err(_) => writes_text(alloc, &records)?,
        };
        self.member = Some(opened(alloc, number, members, records)?);
        Ok(given)
    }

    /// It stops inside the write of what a call brings, and is opened again.
    fn stop_in(&mut self, alloc: Global, words: &mut Words<'_>) -> Result<String, RowFault> {
        let event = read_again(alloc, words.plain()?, words)?;
        match stop(alloc, self.member()?, &event.input()) {
            Ok(sent) => self.stopped(alloc, sent.as_str()),
            Err(refusal) => refusal_text(alloc, refusal),
        }
    }

    /// It has stopped: what would have been sent and told, and what is promised. It is opened again.
    fn stopped(&mut self, alloc: Global, sent: &str) -> Result<String, RowFault> {
        let promised = self.member()?.promised();
        self.reopen(alloc)?;
        match stopped_text(alloc, sent, promised) {
            Ok(text) => Ok(text),
            Err(_) => Ok(stopped_text(alloc, sent, promised)?),
        }
    }

    /// What a call gives.
    fn call(&mut self, alloc: Global, words: &mut Words<'_>) -> Result<String, RowFault> {
        let word = words.plain()?;
        match word {
            "reopen" => self.reopen(alloc),
            "stopin" => self.stop_in(alloc, words),
            "promised" | "prefix" | "learnt" => shown_again(alloc, self.member()?, word, words),
            _ => stepped(alloc, self.member()?, word, words),
        }
    }
}
