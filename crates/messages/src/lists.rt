//! Lists of votes and of values in messages, each by rising position.

ghost use Rattle.std.specs.Prelude.{◌≡◌, ◌≢◌, ◌≤◌, ◌<◌, ◌+◌, IfOk, IfErr};
ghost use Rattle.ballots.specs.Values.{positions};
ghost use Rattle.messages.specs.Reading.{Gives, Fails, entry_read, entries_read, pair_read, pairs_read};

use super::fault::WireFault;
use super::fields::{split_ballot, split_position, split_value};
use ballots::limits::POSITIONS;
use ballots::{Ballot, Entry, Pair, Vote};
use std::alloc::Global;

/// The vote at the front of the bytes, at a position from `least` to `most` and of a ballot that is not above the highest, and the
/// bytes after it.
fn split_entry(
    alloc: Global,
    bytes: &[u8],
    highest: Ballot,
    least: u32,
    most: u32,
) -> Result<(Entry, &[u8]), WireFault>
    ensures value { IfOk result (λ p. entry_read highest least most bytes.now ≡ Gives p.0 p.1.now) }
    ensures between { IfOk result (λ p. p.0.position ≤ most) }
    ensures fault { IfErr result (λ f. f ≢ WireFault.Memory → entry_read highest least most bytes.now ≡ Fails f) }
{
    let (position, rest) = split_position(bytes, least, most)?;
    let (ballot, rest) = split_ballot(rest)?;
    if highest.is_below(ballot) {
        return Err(WireFault::Number);
    }
    let (value, rest) = split_value(alloc, rest)?;
    Ok((
        Entry {
            position,
            vote: Vote { ballot, value },
        },
        rest,
    ))
}

/// So many votes at the front of the bytes, by rising position from `least` to `most`, and the bytes after them.
///
/// Fault: the first from the left, `Short`, `Number` or `NotUtf8`; want of memory (`Memory`) may come in its place.
pub(super) fn split_entries(
    alloc: Global,
    bytes: &[u8],
    count: u8,
    highest: Ballot,
    least: u32,
    most: u32,
) -> Result<(Vec<Entry>, &[u8]), WireFault>
    requires { most < 4294967295 }
    ensures value { IfOk result (λ p. entries_read count highest least most bytes.now ≡ Gives p.0.items p.1.now) }
    ensures fault { IfErr result (λ f. f ≢ WireFault.Memory → entries_read count highest least most bytes.now ≡ Fails f) }
{
    let mut entries: Vec<Entry> = Vec::new(alloc);
    let (mut rest, mut next, mut left) = (bytes, least, count);
    while left > 0 {
        let (entry, after) = match split_entry(alloc, rest, highest, next, most) {
            Ok(read) => read,
            Err(fault) => return Err(fault),
        };
        (rest, next, left) = (after, entry.position + 1, left - 1);
        if entries.push(entry).is_err() {
            return Err(WireFault::Memory);
        }
    }
    Ok((entries, rest))
}

/// The value at a position from `least` on at the front of the bytes, and the bytes after it.
#[tactic(auto, unfolding(ballots::specs::Values::positions))]
fn split_pair(alloc: Global, bytes: &[u8], least: u32) -> Result<(Pair, &[u8]), WireFault>
    ensures value { IfOk result (λ p. pair_read least bytes.now ≡ Gives p.0 p.1.now) }
    ensures most { IfOk result (λ p. p.0.position ≤ positions) }
    ensures fault { IfErr result (λ f. f ≢ WireFault.Memory → pair_read least bytes.now ≡ Fails f) }
{
    let (position, rest) = split_position(bytes, least, POSITIONS)?;
    let (value, rest) = split_value(alloc, rest)?;
    Ok((Pair { position, value }, rest))
}

/// So many values at the front of the bytes, by rising position from 1 on, and the bytes after them.
///
/// Fault: the first from the left, `Short`, `Number` or `NotUtf8`; want of memory (`Memory`) may come in its place.
#[tactic(auto, unfolding(ballots::specs::Values::positions))]
pub(super) fn split_pairs(
    alloc: Global,
    bytes: &[u8],
    count: u8,
) -> Result<(Vec<Pair>, &[u8]), WireFault>
    ensures value { IfOk result (λ p. pairs_read count 1 bytes.now ≡ Gives p.0.items p.1.now) }
    ensures fault { IfErr result (λ f. f ≢ WireFault.Memory → pairs_read count 1 bytes.now ≡ Fails f) }
{
    let mut pairs: Vec<Pair> = Vec::new(alloc);
    let (mut rest, mut next, mut left) = (bytes, 1, count);
    while left > 0 {
        let (pair, after) = match split_pair(alloc, rest, next) {
            Ok(read) => read,
            Err(fault) => return Err(fault),
        };
        (rest, next, left) = (after, pair.position + 1, left - 1);
        if pairs.push(pair).is_err() {
            return Err(WireFault::Memory);
        }
    }
    Ok((pairs, rest))
}
