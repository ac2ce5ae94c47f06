//! How each message is spelt.

ghost use Rattle.std.specs.Prelude.{◌≡◌, ◌<◌, ◌≤◌, ◌^◌, ◌++◌, ◌∷◌, [], true, length, flat_map, All, OnOk, OnErr};
ghost use Rattle.std.specs.Str.{is_utf8};
ghost use Rattle.byteorder.specs.Endian.{big_bytes};
ghost use Rattle.ballots.specs.Replies.{answered};
ghost use Rattle.ballots.specs.Messages.{body_of, window_of, Promise, Chosen, Submit, Ask as OfAsk, Answer as OfAnswer};
ghost use Rattle.ballots.specs.Spelling.{value_spelling, IsValue};
ghost use Rattle.ballots.specs.Terms.{is_level};
ghost use Rattle.ballots.specs.Values.{most_entries};
ghost use Rattle.messages.specs.Spelling.{mark, ballot_spelling, position_spelling, entry_spelling, pair_spelling, text_spelling, id_spelling, reply_spelling, answer_spelling, kind, body_spelling, spelling, Fits, IsWithin, IsId, IsApplied, IsAnswer, AreInRange, HasFields};
ghost use Rattle.messages.specs.Appending.{Extends};

use super::limits::MARK;
use ballots::{
    Answer, Ask, Ballot, Entry, Message, Pair, Reply, Request, Value, Window, put_value,
};
use byteorder::{BigEndian, ByteOrder};
use std::alloc::AllocError;

#[tactic(auto, using(crate::proofs::Appending::by_none, crate::proofs::Appending::by_more))]
/// Appends bytes.
fn put_bytes(out: &mut Vec<u8>, bytes: &[u8]) -> Result<(), AllocError>
    ensures put { OnOk result (out.new.items ≡ out.old.items ++ bytes.now) }
    ensures kept { Extends out.old.items out.new.items }
{
    match out.extend_from_slice(bytes) {
        Ok(()) => Ok(()),
        Err(refused) => Err(refused),
    }
}

#[tactic(auto, using(crate::proofs::Appending::by_none, crate::proofs::Appending::by_more))]
/// Appends a value.
fn put_value_of(out: &mut Vec<u8>, value: &Value) -> Result<(), AllocError>
    ensures put { OnOk result (out.new.items ≡ out.old.items ++ value_spelling value.now) }
    ensures kept { Extends out.old.items out.new.items }
    ensures fields { OnOk result (IsValue value.now) }
{
    match put_value(value, out) {
        Ok(()) => Ok(()),
        Err(refused) => Err(refused),
    }
}

/// A ballot and a position.
fn proposal(ballot: Ballot, position: u32) -> [u8; 13]
    ensures { result ≡ ballot_spelling ballot ++ position_spelling position }
{
    let mut bytes = [0; 13];
    BigEndian::write_u64(&mut bytes, ballot.round);
    bytes[8] = ballot.member;
    BigEndian::write_u32(&mut bytes[9..], position);
    bytes
}

#[tactic(auto, using(crate::proofs::Appending::by_both))]
/// Appends a ballot, a position and a value.
fn put_proposal(
    out: &mut Vec<u8>,
    ballot: Ballot,
    position: u32,
    value: &Value,
) -> Result<(), AllocError>
    ensures put { OnOk result (out.new.items ≡ out.old.items ++ (ballot_spelling ballot ++ position_spelling position ++ value_spelling value.now)) }
    ensures kept { Extends out.old.items out.new.items }
    ensures fields { OnOk result (IsValue value.now) }
{
    let head = proposal(ballot, position);
    put_bytes(out, head.as_slice())?;
    put_value_of(out, value)?;
    Ok(())
}

/// A position and a ballot.
fn place(position: u32, ballot: Ballot) -> [u8; 13]
    ensures { result ≡ position_spelling position ++ ballot_spelling ballot }
{
    let mut bytes = [0; 13];
    BigEndian::write_u32(&mut bytes, position);
    BigEndian::write_u64(&mut bytes[4..], ballot.round);
    bytes[12] = ballot.member;
    bytes
}

/// A position.
fn position_bytes(position: u32) -> [u8; 4]
    ensures { result ≡ position_spelling position }
{
    let mut bytes = [0; 4];
    BigEndian::write_u32(&mut bytes, position);
    bytes
}

#[tactic(auto, using(crate::proofs::Appending::by_both))]
/// Appends a vote at a position.
fn put_entry(out: &mut Vec<u8>, entry: &Entry) -> Result<(), AllocError>
    ensures put { OnOk result (out.new.items ≡ out.old.items ++ entry_spelling entry.now) }
    ensures kept { Extends out.old.items out.new.items }
    ensures fields { OnOk result (IsValue entry.now.vote.value) }
{
    let head = place(entry.position, entry.vote.ballot);
    put_bytes(out, head.as_slice())?;
    put_value_of(out, &entry.vote.value)?;
    Ok(())
}

#[tactic(auto, using(crate::proofs::Appending::by_both))]
/// Appends a value at a position.
fn put_pair(out: &mut Vec<u8>, pair: &Pair) -> Result<(), AllocError>
    ensures put { OnOk result (out.new.items ≡ out.old.items ++ pair_spelling pair.now) }
    ensures kept { Extends out.old.items out.new.items }
    ensures fields { OnOk result (IsValue pair.now.value) }
{
    let head = position_bytes(pair.position);
    put_bytes(out, head.as_slice())?;
    put_value_of(out, &pair.value)?;
    Ok(())
}

#[tactic(auto, using(crate::proofs::Appending::by_both, crate::proofs::Appending::by_none, crate::proofs::Appending::twice))]
/// Appends votes at positions.
fn put_entries(out: &mut Vec<u8>, entries: &[Entry]) -> Result<(), AllocError>
    ensures put { OnOk result (out.new.items ≡ out.old.items ++ flat_map entry_spelling entries.now) }
    ensures kept { Extends out.old.items out.new.items }
    ensures fields { OnOk result (All (λ e. IsValue e.vote.value) entries.now) }
{
    let [first, rest @ ..] = entries else {
        return Ok(());
    };
    put_entry(out, first)?;
    put_entries(out, rest)?;
    Ok(())
}

#[tactic(auto, using(crate::proofs::Appending::by_both, crate::proofs::Appending::by_none, crate::proofs::Appending::twice))]
/// Appends values at positions.
fn put_pairs(out: &mut Vec<u8>, pairs: &[Pair]) -> Result<(), AllocError>
    ensures put { OnOk result (out.new.items ≡ out.old.items ++ flat_map pair_spelling pairs.now) }
    ensures kept { Extends out.old.items out.new.items }
    ensures fields { OnOk result (All (λ e. IsValue e.value) pairs.now) }
{
    let [first, rest @ ..] = pairs else {
        return Ok(());
    };
    put_pair(out, first)?;
    put_pairs(out, rest)?;
    Ok(())
}

/// The length of a text.
fn length_bytes(length: u16) -> [u8; 2]
    ensures { result ≡ big_bytes 2 length }
{
    let mut bytes = [0; 2];
    BigEndian::write_u16(&mut bytes, length);
    bytes
}

#[tactic(auto, using(crate::proofs::Appending::by_both))]
/// Appends a text, after its length.
fn put_text(out: &mut Vec<u8>, text: &str) -> Result<(), AllocError>
    requires { length text.now < 2 ^ 16 }
    ensures put { OnOk result (out.new.items ≡ out.old.items ++ text_spelling text.now) }
    ensures kept { Extends out.old.items out.new.items }
    ensures utf8 { is_utf8 text.now ≡ true }
{
    let head = length_bytes(text.len() as u16);
    put_bytes(out, head.as_slice())?;
    put_bytes(out, text.as_bytes())?;
    Ok(())
}

/// The bytes of a window before its votes.
fn window_head(window: &Window) -> [u8; 18]
    requires { length window.now.entries.items ≤ most_entries }
    ensures { result ≡ ballot_spelling window.now.ballot ++ position_spelling window.now.from ++ position_spelling window.now.covered ++ length window.now.entries.items ∷ [] }
{
    let mut bytes = [0; 18];
    BigEndian::write_u64(&mut bytes, window.ballot.round);
    bytes[8] = window.ballot.member;
    BigEndian::write_u32(&mut bytes[9..], window.from);
    BigEndian::write_u32(&mut bytes[13..], window.covered);
    bytes[17] = window.entries.len() as u8;
    bytes
}

#[tactic(auto, using(crate::proofs::Appending::by_both))]
/// Appends a Promise.
fn put_window(out: &mut Vec<u8>, window: &Window) -> Result<(), AllocError>
    requires { length window.now.entries.items ≤ most_entries }
    ensures put { OnOk result (out.new.items ≡ out.old.items ++ body_spelling (Promise (window_of window.now))) }
    ensures kept { Extends out.old.items out.new.items }
    ensures fields { OnOk result (HasFields (Promise (window_of window.now))) }
{
    let head = window_head(window);
    put_bytes(out, head.as_slice())?;
    put_entries(out, window.entries.as_slice())?;
    Ok(())
}

#[tactic(auto, using(crate::proofs::Appending::by_both, crate::proofs::Appending::twice))]
/// Appends a Chosen.
fn put_chosen(out: &mut Vec<u8>, pairs: &[Pair]) -> Result<(), AllocError>
    requires { length pairs.now ≤ most_entries }
    ensures put { OnOk result (out.new.items ≡ out.old.items ++ body_spelling (Chosen pairs.now)) }
    ensures kept { Extends out.old.items out.new.items }
    ensures fields { OnOk result (HasFields (Chosen pairs.now)) }
{
    put_bytes(out, &[pairs.len() as u8])?;
    put_pairs(out, pairs)?;
    Ok(())
}

/// The bytes of a request before its text.
fn request_head(request: &Request) -> [u8; 13]
    ensures spelt { result ≡ big_bytes 4 request.now.client ++ big_bytes 8 request.now.number ++ request.now.level ∷ [] }
    ensures id { IsId request.now.client request.now.number }
    ensures level { is_level request.now.level ≡ true }
{
    let mut bytes = [0; 13];
    BigEndian::write_u32(&mut bytes, request.id().client);
    BigEndian::write_u64(&mut bytes[4..], request.id().number);
    bytes[12] = request.level();
    bytes
}

#[tactic(auto, using(crate::proofs::Appending::by_both))]
/// Appends a Submit.
fn put_submit(out: &mut Vec<u8>, request: &Request) -> Result<(), AllocError>
    ensures put { OnOk result (out.new.items ≡ out.old.items ++ body_spelling (Submit request.now)) }
    ensures kept { Extends out.old.items out.new.items }
    ensures fields { OnOk result (HasFields (Submit request.now)) }
{
    let head = request_head(request);
    put_bytes(out, head.as_slice())?;
    put_text(out, request.text())?;
    Ok(())
}

#[tactic(auto, unfolding(ballots::specs::Values::positions))]
/// The bytes of a question before its text.
fn ask_head(ask: &Ask) -> [u8; 17]
    ensures spelt { result ≡ id_spelling ask.now.client ask.now.number ++ big_bytes 4 ask.now.floor ++ ask.now.level ∷ [] }
    ensures id { IsId ask.now.client ask.now.number }
    ensures floor { IsApplied ask.now.floor }
    ensures level { is_level ask.now.level ≡ true }
{
    let mut bytes = [0; 17];
    BigEndian::write_u32(&mut bytes, ask.id().client);
    BigEndian::write_u64(&mut bytes[4..], ask.id().number);
    BigEndian::write_u32(&mut bytes[12..], ask.floor());
    bytes[16] = ask.level();
    bytes
}

#[tactic(auto, using(crate::proofs::Appending::by_both))]
/// Appends an Ask.
fn put_ask(out: &mut Vec<u8>, ask: &Ask) -> Result<(), AllocError>
    ensures put { OnOk result (out.new.items ≡ out.old.items ++ body_spelling (OfAsk ask.now)) }
    ensures kept { Extends out.old.items out.new.items }
    ensures fields { OnOk result (HasFields (OfAsk ask.now)) }
{
    let head = ask_head(ask);
    put_bytes(out, head.as_slice())?;
    put_text(out, ask.text())?;
    Ok(())
}

/// A client, a number, and how far a member has applied.
fn applied_bytes(client: u32, number: u64, applied: u32) -> [u8; 16]
    ensures spelt { result ≡ id_spelling client number ++ big_bytes 4 applied }
    ensures id { IsId client number }
{
    let mut bytes = [0; 16];
    BigEndian::write_u32(&mut bytes, client);
    BigEndian::write_u64(&mut bytes[4..], number);
    BigEndian::write_u32(&mut bytes[12..], applied);
    bytes
}

#[tactic(auto, using(crate::proofs::Appending::by_both, crate::proofs::Appending::twice))]
/// Appends what a question gives.
fn put_answered(out: &mut Vec<u8>, answer: &Answer) -> Result<(), AllocError>
    requires { IsWithin (answered answer.now) }
    ensures put { OnOk result (out.new.items ≡ out.old.items ++ answer_spelling (answered answer.now)) }
    ensures kept { Extends out.old.items out.new.items }
    ensures fields { OnOk result (IsAnswer (answered answer.now)) }
{
    match answer {
        Answer::Text(text) => {
            put_bytes(out, &[0])?;
            put_text(out, text.as_str())?;
            Ok(())
        }
        Answer::Fault(code) => put_bytes(out, &[code.number()]),
    }
}

#[tactic(auto, using(crate::proofs::Appending::by_both))]
/// Appends an Answer.
fn put_answer(
    out: &mut Vec<u8>,
    client: u32,
    number: u64,
    applied: u32,
    answer: &Answer,
) -> Result<(), AllocError>
    requires { IsWithin (answered answer.now) }
    ensures put { OnOk result (out.new.items ≡ out.old.items ++ body_spelling (OfAnswer client number applied (answered answer.now))) }
    ensures kept { Extends out.old.items out.new.items }
    ensures fields { OnOk result (IsApplied applied → HasFields (OfAnswer client number applied (answered answer.now))) }
{
    let head = applied_bytes(client, number, applied);
    put_bytes(out, head.as_slice())?;
    put_answered(out, answer)?;
    Ok(())
}

/// A Reply's client, number and outcome.
fn reply_bytes(client: u32, number: u64, reply: Reply) -> [u8; 17]
    ensures spelt { result ≡ id_spelling client number ++ reply_spelling reply }
    ensures id { IsId client number }
{
    let (outcome, position) = match reply {
        Reply::Done(position) => (0, position),
        Reply::Fault(code, position) => (code.number(), position),
    };
    let mut bytes = [0; 17];
    BigEndian::write_u32(&mut bytes, client);
    BigEndian::write_u64(&mut bytes[4..], number);
    bytes[12] = outcome;
    BigEndian::write_u32(&mut bytes[13..], position);
    bytes
}

/// A client, a number, and another member.
fn elsewhere_bytes(client: u32, number: u64, member: u8) -> [u8; 13]
    ensures spelt { result ≡ id_spelling client number ++ member ∷ [] }
    ensures id { IsId client number }
{
    let mut bytes = [0; 13];
    BigEndian::write_u32(&mut bytes, client);
    BigEndian::write_u64(&mut bytes[4..], number);
    bytes[12] = member;
    bytes
}

#[tactic(auto, using(crate::proofs::Appending::by_both))]
/// Appends the body of a message.
fn put_body(out: &mut Vec<u8>, message: &Message) -> Result<(), AllocError>
    requires fits { Fits (body_of message.now) }
    ensures put { OnOk result (out.new.items ≡ out.old.items ++ body_spelling (body_of message.now)) }
    ensures kept { Extends out.old.items out.new.items }
    ensures fields { OnOk result (AreInRange (body_of message.now) → HasFields (body_of message.now)) }
{
    match message {
        Message::Prepare(ballot, from) => put_bytes(out, proposal(*ballot, *from).as_slice()),
        Message::Promise(window) => put_window(out, window),
        Message::Accept(position, vote) => put_proposal(out, vote.ballot, *position, &vote.value),
        Message::Accepted(position, vote) => put_proposal(out, vote.ballot, *position, &vote.value),
        Message::Chosen(pairs) => put_chosen(out, pairs.as_slice()),
        Message::CatchUp(from) => put_bytes(out, position_bytes(*from).as_slice()),
        Message::Submit(request) => put_submit(out, request),
        Message::Reply(client, number, reply) => put_bytes(
            out,
            reply_bytes(*client, *number, *reply).as_slice(),
        ),
        Message::Ask(ask) => put_ask(out, ask),
        Message::Answer(client, number, applied, answer) => put_answer(
            out, *client, *number, *applied, answer,
        ),
        Message::Behind(client, number, applied) => put_bytes(
            out,
            applied_bytes(*client, *number, *applied).as_slice(),
        ),
        Message::Elsewhere(client, number, member) => put_bytes(
            out,
            elsewhere_bytes(*client, *number, *member).as_slice(),
        ),
    }
}

/// The number of a message's kind.
fn kind_of(message: &Message) -> u8
    ensures { result ≡ kind (body_of message.now) }
{
    match message {
        Message::Prepare(..) => 1,
        Message::Promise(_) => 2,
        Message::Accept(..) => 3,
        Message::Accepted(..) => 4,
        Message::Chosen(_) => 5,
        Message::CatchUp(_) => 6,
        Message::Submit(_) => 7,
        Message::Reply(..) => 8,
        Message::Ask(_) => 9,
        Message::Answer(..) => 10,
        Message::Behind(..) => 11,
        Message::Elsewhere(..) => 12,
    }
}

/// A header.
fn header(group: u32, sender: u8, kind: u8) -> [u8; 10]
    ensures { result ≡ big_bytes 4 mark ++ big_bytes 4 group ++ sender ∷ kind ∷ [] }
{
    let mut bytes = [0; 10];
    BigEndian::write_u32(&mut bytes, MARK);
    BigEndian::write_u32(&mut bytes[4..], group);
    bytes[8] = sender;
    bytes[9] = kind;
    bytes
}

#[tactic(auto, using(crate::proofs::Appending::by_both))]
/// Appends a header and the body of a message.
fn put_message(
    out: &mut Vec<u8>,
    message: &Message,
    group: u32,
    sender: u8,
) -> Result<(), AllocError>
    requires fits { Fits (body_of message.now) }
    ensures put { OnOk result (out.new.items ≡ out.old.items ++ spelling (record { group = group; sender = sender; body = body_of message.now })) }
    ensures kept { Extends out.old.items out.new.items }
    ensures fields { OnOk result (AreInRange (body_of message.now) → HasFields (body_of message.now)) }
{
    let head = header(group, sender, kind_of(message));
    put_bytes(out, head.as_slice())?;
    put_body(out, message)?;
    Ok(())
}

#[tactic(auto, using(crate::proofs::Appending::without))]
/// Appends the spelling of a message of a group from a sender, a member (1 to 63) or the clients (0).
///
/// A message that may not be sent is spelt as well, but nothing reads so (`IsDatagram`); it only may not have more entries or a longer answer
/// than there is room for. What it spells has its fields, where the numbers that its type doesn't bound are in range. Where memory is refused
/// nothing is appended.
pub fn encode(
    message: &Message,
    group: u32,
    sender: u8,
    out: &mut Vec<u8>,
) -> Result<(), AllocError>
    requires { Fits (body_of message.now) }
    ensures put { OnOk result (out.new.items ≡ out.old.items ++ spelling (record { group = group; sender = sender; body = body_of message.now })) }
    ensures fields { OnOk result (AreInRange (body_of message.now) → HasFields (body_of message.now)) }
    ensures refused { OnErr result (out.new.items ≡ out.old.items) }
{
    let length = out.len();
    match put_message(out, message, group, sender) {
        Ok(()) => Ok(()),
        Err(refused) => {
            out.truncate(length);
            Err(refused)
        }
    }
}
