//! The fields of messages, each read at the front of bytes.

ghost use Rattle.std.specs.Prelude.{◌≡◌, ◌≢◌, ◌<◌, ◌≤◌, ◌+◌, length, drop, IfOk, IfErr};
ghost use Rattle.std.specs.Prelude.{None};
ghost use Rattle.ballots.specs.Ballot.{last_round};
ghost use Rattle.messages.specs.Reading.{Gives, Fails, bytes_read, number_read, between_read, text_read, position_read, ballot_read, own_ballot_read, a_value, outcome_read};

use super::fault::WireFault;
use ballots::limits::{LAST_ROUND, MOST_MEMBERS};
use ballots::{Ballot, Value, take_value};
use byteorder::{BigEndian, ByteOrder};
use fault_codes::Code;
use std::alloc::Global;

/// So many bytes, and the bytes after them.
///
/// Fault: `Short` where there are fewer.
pub(super) fn split(bytes: &[u8], count: usize) -> Result<(&[u8], &[u8]), WireFault>
    ensures value { IfOk result (λ p. bytes_read count bytes.now ≡ Gives p.0.now p.1.now) }
    ensures within { IfOk result (λ p. count ≤ length bytes.now) }
    ensures fault { IfErr result (λ f. f ≡ WireFault.Short) }
    ensures short { IfErr result (λ f. length bytes.now < count) }
    ensures suffix { IfOk result (λ p. p.1.now ≡ drop count bytes.now) }
{
    match bytes.split_at_checked(count) {
        Some(parts) => Ok(parts),
        None => Err(WireFault::Short),
    }
}

/// The first byte, and the bytes after it.
///
/// Fault: `Short` where there is none.
pub(super) fn split_u8(bytes: &[u8]) -> Result<(u8, &[u8]), WireFault>
    ensures value { IfOk result (λ p. number_read 1 bytes.now ≡ Gives p.0 p.1.now) }
    ensures fault { IfErr result (λ f. number_read 1 bytes.now ≡ Fails f) }
{
    let (field, rest) = split(bytes, 1)?;
    Ok((field[0], rest))
}

/// The number in the first four bytes, and the bytes after them.
///
/// Fault: `Short` where there are fewer.
pub(super) fn split_u32(bytes: &[u8]) -> Result<(u32, &[u8]), WireFault>
    ensures value { IfOk result (λ p. number_read 4 bytes.now ≡ Gives p.0 p.1.now) }
    ensures fault { IfErr result (λ f. number_read 4 bytes.now ≡ Fails f) }
{
    let (_, rest) = split(bytes, 4)?;
    Ok((BigEndian::read_u32(bytes), rest))
}

/// The number in the first two bytes, and the bytes after them.
///
/// Fault: `Short` where there are fewer.
pub(super) fn split_u16(bytes: &[u8]) -> Result<(u16, &[u8]), WireFault>
    ensures value { IfOk result (λ p. number_read 2 bytes.now ≡ Gives p.0 p.1.now) }
    ensures fault { IfErr result (λ f. number_read 2 bytes.now ≡ Fails f) }
{
    let (_, rest) = split(bytes, 2)?;
    Ok((BigEndian::read_u16(bytes), rest))
}

/// The number in the first eight bytes, and the bytes after them.
///
/// Fault: `Short` where there are fewer.
pub(super) fn split_u64(bytes: &[u8]) -> Result<(u64, &[u8]), WireFault>
    ensures value { IfOk result (λ p. number_read 8 bytes.now ≡ Gives p.0 p.1.now) }
    ensures fault { IfErr result (λ f. number_read 8 bytes.now ≡ Fails f) }
{
    let (_, rest) = split(bytes, 8)?;
    Ok((BigEndian::read_u64(bytes), rest))
}

/// The first byte, a number from `least` to `most`, and the bytes after it.
///
/// Faults: `Short` where there is none; `Number` where it is no such number.
pub(super) fn split_small(bytes: &[u8], least: u8, most: u8) -> Result<(u8, &[u8]), WireFault>
    ensures value { IfOk result (λ p. between_read 1 least most bytes.now ≡ Gives p.0 p.1.now) }
    ensures between { IfOk result (λ p. (least ≤ p.0) × (p.0 ≤ most)) }
    ensures fault { IfErr result (λ f. between_read 1 least most bytes.now ≡ Fails f) }
{
    let (number, rest) = split_u8(bytes)?;
    if number < least || number > most {
        return Err(WireFault::Number);
    }
    Ok((number, rest))
}

/// The position in the first four bytes, from `least` to `most`, and the bytes after them.
///
/// Faults: `Short` where there are fewer; `Number` where they are no such position.
pub(super) fn split_position(bytes: &[u8], least: u32, most: u32) -> Result<(u32, &[u8]), WireFault>
    ensures value { IfOk result (λ p. position_read least most bytes.now ≡ Gives p.0 p.1.now) }
    ensures between { IfOk result (λ p. (least ≤ p.0) × (p.0 ≤ most)) }
    ensures fault { IfErr result (λ f. position_read least most bytes.now ≡ Fails f) }
{
    let (number, rest) = split_u32(bytes)?;
    if number < least || number > most {
        return Err(WireFault::Number);
    }
    Ok((number, rest))
}

/// The ballot at the front of the bytes, and the bytes after it.
///
/// Fault: the first from the left: `Short` where the bytes end before; `Number` where the round or the member is out of range.
#[tactic(auto, unfolding(ballots::specs::Ballot::last_round))]
pub(super) fn split_ballot(bytes: &[u8]) -> Result<(Ballot, &[u8]), WireFault>
    ensures value { IfOk result (λ p. ballot_read bytes.now ≡ Gives p.0 p.1.now) }
    ensures fault { IfErr result (λ f. ballot_read bytes.now ≡ Fails f) }
{
    let (round, rest) = split_u64(bytes)?;
    if round < 1 || round > LAST_ROUND {
        return Err(WireFault::Number);
    }
    let (member, rest) = split_small(rest, 1, MOST_MEMBERS)?;
    Ok((Ballot { round, member }, rest))
}

/// The ballot at the front of the bytes, which has to be the sender's own, and the bytes after it.
///
/// Faults: those of `split_ballot`; `Number` where it is another's.
pub(super) fn split_own_ballot(bytes: &[u8], sender: u8) -> Result<(Ballot, &[u8]), WireFault>
    ensures value { IfOk result (λ p. own_ballot_read sender bytes.now ≡ Gives p.0 p.1.now) }
    ensures fault { IfErr result (λ f. own_ballot_read sender bytes.now ≡ Fails f) }
{
    let (ballot, rest) = split_ballot(bytes)?;
    if ballot.member != sender {
        return Err(WireFault::Number);
    }
    Ok((ballot, rest))
}

/// The text at the front of the bytes, after its length, and the bytes after it.
///
/// Faults: `Short` where the bytes end before; `Number` where the length is above `most`; `NotUtf8` where it is no UTF-8.
pub(super) fn split_text(bytes: &[u8], most: usize) -> Result<(&str, &[u8]), WireFault>
    ensures value { IfOk result (λ p. text_read most bytes.now ≡ Gives p.0.now p.1.now) }
    ensures most { IfOk result (λ p. length p.0.now ≤ most) }
    ensures fault { IfErr result (λ f. text_read most bytes.now ≡ Fails f) }
{
    let (length, rest) = split_u16(bytes)?;
    let length = usize::from(length);
    if length > most {
        return Err(WireFault::Number);
    }
    let (text, rest) = split(rest, length)?;
    match str::from_utf8(text) {
        Ok(text) => Ok((text, rest)),
        Err(_) => Err(WireFault::NotUtf8),
    }
}

#[tactic(auto, using(crate::proofs::Readings::not_memory))]
/// The value at the front of the bytes, and the bytes after it.
///
/// Fault: the first from the left, `Short`, `Number` or `NotUtf8`; want of memory (`Memory`) may come in its place.
pub(super) fn split_value(alloc: Global, bytes: &[u8]) -> Result<(Value, &[u8]), WireFault>
    ensures value { IfOk result (λ p. a_value bytes.now ≡ Gives p.0 p.1.now) }
    ensures fault { IfErr result (λ f. f ≢ WireFault.Memory → a_value bytes.now ≡ Fails f) }
{
    match take_value(alloc, bytes) {
        Ok((value, length)) => Ok((value, &bytes[length..])),
        Err(fault) => Err(WireFault::from(fault)),
    }
}

/// What came of a request or a question at the front of the bytes, its fault's code if it has one, and the bytes after it.
///
/// Faults: `Short` where there is no byte; `Number` where it is the number of no code.
pub(super) fn split_outcome(bytes: &[u8]) -> Result<(Option<Code>, &[u8]), WireFault>
    ensures value { IfOk result (λ p. outcome_read bytes.now ≡ Gives p.0 p.1.now) }
    ensures fault { IfErr result (λ f. outcome_read bytes.now ≡ Fails f) }
{
    let (number, rest) = split_u8(bytes)?;
    if number == 0 {
        return Ok((None, rest));
    }
    match Code::of_number(number) {
        Some(code) => Ok((Some(code), rest)),
        None => Err(WireFault::Number),
    }
}
