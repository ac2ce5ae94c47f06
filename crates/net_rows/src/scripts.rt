//! Scripts on groups, over a wire in memory.

use super::flooded_wire::FloodedWire;
use super::nodes::small;
use paxq_local::run_local;
use rows::{RowFault, Words, bytes_of, hex_bytes, shown, text_of};
use sessions::State;
use std::alloc::Global;
use wires::{Calls, ScriptedWire, Wire};

/// What a run came to.
#[derive(Drop)]
pub(super) struct Outcome {
    status: Option<u8>,
    output: Vec<u8>,
    errors: Vec<u8>,
}

impl Outcome {
    /// The status, the output and the error output.
    pub(super) fn shown(&self, alloc: Global) -> Result<String, RowFault> {
        shown(alloc, self.status, &self.output, &self.errors)
    }

    fn is_same(&self, other: &Outcome) -> bool {
        self.status == other.status
            && self.output.as_slice() == other.output.as_slice()
            && self.errors.as_slice() == other.errors.as_slice()
    }
}

/// Runs a script on a group of so many members over a wire.
pub(super) fn run_on<W: Wire>(alloc: Global, members: u8, wire: &mut W, script: &[u8]) -> Outcome {
    let mut reader = script;
    let mut output: Vec<u8> = Vec::new(alloc);
    let mut errors: Vec<u8> = Vec::new(alloc);
    let ended = run_local::<State, W, _, _, _>(
        alloc,
        members,
        wire,
        "script.pxq",
        &mut reader,
        &mut output,
        &mut errors,
    );
    Outcome {
        status: ended.ok(),
        output,
        errors,
    }
}

/// A number of members.
pub(super) fn members_of(words: &mut Words<'_>) -> Result<u8, RowFault> {
    match words.number()? {
        count @ 1..=15 => u8::try_from(count).ok().ok_or(RowFault::NotARow),
        _ => Err(RowFault::NotARow),
    }
}

/// A wire of so many members and a client, on which some calls fail.
fn wire_of(alloc: Global, members: u8, sends: Calls, receives: Calls) -> ScriptedWire {
    ScriptedWire::new(alloc, members.saturating_add(1), sends, receives)
}

/// `scripted N BYTES`: the exit status, the output and the error output, and how often the wire was given a datagram and asked for one.
pub(super) fn scripted(alloc: Global, words: &mut Words<'_>) -> Result<String, RowFault> {
    let members = members_of(words)?;
    let script = bytes_of(alloc, words)?;
    counted(alloc, members, &script, Calls::NONE, Calls::NONE)
}

/// `unsent N BYTES`: the same, where all sends fail.
pub(super) fn unsent(alloc: Global, words: &mut Words<'_>) -> Result<String, RowFault> {
    let members = members_of(words)?;
    let script = bytes_of(alloc, words)?;
    counted(alloc, members, &script, Calls::ALL, Calls::NONE)
}

/// `unheard N BYTES`: the same, where all receives fail.
pub(super) fn unheard(alloc: Global, words: &mut Words<'_>) -> Result<String, RowFault> {
    let members = members_of(words)?;
    let script = bytes_of(alloc, words)?;
    counted(alloc, members, &script, Calls::NONE, Calls::ALL)
}

/// What a run over a wire in memory came to, with its calls.
fn counted(
    alloc: Global,
    members: u8,
    script: &[u8],
    sends: Calls,
    receives: Calls,
) -> Result<String, RowFault> {
    let mut wire = wire_of(alloc, members, sends, receives);
    let outcome = run_on(alloc, members, &mut wire, script);
    with_calls(alloc, &outcome, &wire)
}

/// What a run came to, and how often its wire was given a datagram and asked for one.
fn with_calls(alloc: Global, outcome: &Outcome, wire: &ScriptedWire) -> Result<String, RowFault> {
    let shown = outcome.shown(alloc)?;
    let (sends, receives) = (wire.sends(), wire.receives());
    Ok(format!(in alloc; "{shown} {sends} sends {receives} receives")?)
}

/// `hurried N EACH BYTES`: the same, where a while passes with each so many times that the wire is asked whether one has.
pub(super) fn hurried(alloc: Global, words: &mut Words<'_>) -> Result<String, RowFault> {
    let members = members_of(words)?;
    let each = each_of(words)?;
    let script = bytes_of(alloc, words)?;
    let mut wire = wire_of(alloc, members, Calls::NONE, Calls::NONE).with_a_while(each);
    let outcome = run_on(alloc, members, &mut wire, &script);
    with_calls(alloc, &outcome, &wire)
}

/// `flooded N EACH BYTES`: the same, where moreover a datagram of no bytes comes to the client wherever nothing else does.
pub(super) fn flooded(alloc: Global, words: &mut Words<'_>) -> Result<String, RowFault> {
    let members = members_of(words)?;
    let each = each_of(words)?;
    let script = bytes_of(alloc, words)?;
    let quiet = wire_of(alloc, members, Calls::NONE, Calls::NONE);
    let mut wire = FloodedWire::new(quiet, each);
    let outcome = run_on(alloc, members, &mut wire, &script);
    with_calls(alloc, &outcome, wire.wire())
}

/// `drowned N EACH BYTES`: the same, where moreover all sends fail.
pub(super) fn drowned(alloc: Global, words: &mut Words<'_>) -> Result<String, RowFault> {
    let members = members_of(words)?;
    let each = each_of(words)?;
    let script = bytes_of(alloc, words)?;
    let quiet = wire_of(alloc, members, Calls::ALL, Calls::NONE);
    let mut wire = FloodedWire::new(quiet, each);
    let outcome = run_on(alloc, members, &mut wire, &script);
    with_calls(alloc, &outcome, wire.wire())
}

/// After how many times a while passes, which is not never.
pub(super) fn each_of(words: &mut Words<'_>) -> Result<u64, RowFault> {
    match words.number()? {
        0 => Err(RowFault::NotARow),
        each => Ok(each),
    }
}

/// `prints N BYTES gives BYTES`: the exit status, the output or that it is as given, and the error output.
pub(super) fn prints(alloc: Global, words: &mut Words<'_>) -> Result<String, RowFault> {
    let members = members_of(words)?;
    let script = bytes_of(alloc, words)?;
    let given = bytes_of(alloc, words)?;
    let mut wire = wire_of(alloc, members, Calls::NONE, Calls::NONE);
    let outcome = run_on(alloc, members, &mut wire, &script);
    if outcome.output.as_slice() != given.as_slice() {
        return outcome.shown(alloc);
    }
    let status = outcome.status.ok_or(RowFault::Memory)?;
    let errors = text_of(&outcome.errors)?;
    Ok(format!(in alloc; "{status} as given {errors:?}")?)
}

/// `forged N FROM HEX BYTES`: the exit status, the output and the error output, where a datagram that nobody sent comes to the client first, from that
/// address.
pub(super) fn forged(alloc: Global, words: &mut Words<'_>) -> Result<String, RowFault> {
    let members = members_of(words)?;
    let from = small(words)?;
    let datagram = hex_bytes(alloc, words.plain()?)?;
    let script = bytes_of(alloc, words)?;
    let mut wire = wire_of(alloc, members, Calls::NONE, Calls::NONE);
    if wire.put(from, 0, &datagram).is_err() {
        return Err(RowFault::Memory);
    }
    run_on(alloc, members, &mut wire, &script).shown(alloc)
}

/// `failing N BYTES`: of how many sends, and of how many receives, the run came to the same where that one alone fails.
pub(super) fn failing(alloc: Global, words: &mut Words<'_>) -> Result<String, RowFault> {
    let members = members_of(words)?;
    let script = bytes_of(alloc, words)?;
    let mut wire = wire_of(alloc, members, Calls::NONE, Calls::NONE);
    let outcome = run_on(alloc, members, &mut wire, &script);
    let (sends, receives) = (wire.sends(), wire.receives());
    let mut same_sends = 0u64;
    for number in 1..=sends {
        let fail = (Calls::only(number), Calls::NONE);
        same_sends = same_sends.saturating_add(same_with(alloc, members, &script, fail, &outcome));
    }
    let mut same_receives = 0u64;
    for number in 1..=receives {
        let fail = (Calls::NONE, Calls::only(number));
        same_receives = same_receives.saturating_add(same_with(
            alloc, members, &script, fail, &outcome,
        ));
    }
    Ok(format!(in alloc; "{same_sends} of {sends} sends, {same_receives} of {receives} receives")?)
}

/// 1 where the run comes to the same if these sends and receives fail, else 0.
fn same_with(
    alloc: Global,
    members: u8,
    script: &[u8],
    (sends, receives): (Calls, Calls),
    outcome: &Outcome,
) -> u64 {
    let mut wire = wire_of(alloc, members, sends, receives);
    u64::from(run_on(alloc, members, &mut wire, script).is_same(outcome))
}
