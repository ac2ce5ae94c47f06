//! Steps of a member, each of which sees that a draft and what is refused leave what the member shows as it was.

ghost use Rattle.std.specs.Prelude.{◌≡◌, true, IfOk};
ghost use Rattle.member.specs.Drafts.{IsReady};
ghost use Rattle.member.specs.Steps.{IsHeard, input_of};

use ballots::{Ballot, Value};
use member::{Draft, Input, Member, MemberFault, Outcome};
use records::{PlannedRecords, Records, RecordsFault};
use rows::RowFault;
use std::alloc::Global;

/// Why no step is made.
#[derive(Clone, Copy, Debug, PartialEq, Eq)]
pub(super) enum Refusal {
    /// Such a message may not come from its sender.
    Unheard,
    /// Positions or rounds are spent.
    Spent,
    /// The store failed.
    Store,
    /// The store failed before.
    Stopped,
    /// Memory was refused.
    Memory,
    /// What the member shows is not as it was.
    Changed,
}

/// The number of the request that a member has learnt at a position, 0 of the no-op.
fn learnt<R: Records + Drop>(member: &Member<R>, position: u32) -> Option<u64> {
    match member.learned(position) {
        Some(Value::Request(request)) => Some(request.id().number),
        Some(Value::NoOp) => Some(0),
        None => None,
    }
}

/// What a member shows: its promise, how many positions it has learnt without a gap, and what it has learnt at the first three.
fn shown<R: Records + Drop>(member: &Member<R>) -> (Ballot, u32, [Option<u64>; 3]) {
    let first = [learnt(member, 1), learnt(member, 2), learnt(member, 3)];
    (member.promised(), member.prefix(), first)
}

/// Whether an input may come to a member.
fn may_come<R: Records + Drop>(member: &Member<R>, input: &Input) -> bool
    ensures { result ≡ true → IsHeard member.now.members (input_of member.now.number input.now) }
{
    match input {
        Input::Message(sender, message) => member.hears(*sender, *message),
        Input::Tick(_) => true,
    }
}

/// What is drafted for an input.
pub(super) fn draft<R: Records + Drop>(
    alloc: Global,
    member: &mut Member<R>,
    input: &Input,
) -> Result<Draft, Refusal>
    ensures ready { IfOk result (λ d. IsReady member.new d) }
{
    if member.has_stopped() {
        return Err(Refusal::Stopped);
    }
    if !may_come(member, input) {
        return Err(Refusal::Unheard);
    }
    let before = shown(member);
    let drafted = member.draft(alloc, input);
    let is_as_it_was = shown(member) == before;
    match drafted {
        Ok(draft) if is_as_it_was => Ok(draft),
        Err(MemberFault::Memory) if is_as_it_was => Err(Refusal::Memory),
        Err(MemberFault::Spent) if is_as_it_was => Err(Refusal::Spent),
        _ => Err(Refusal::Changed),
    }
}

/// Why a write was not made, after which a member is to show what it showed before.
fn refused<R: Records + Drop>(
    member: &Member<R>,
    before: (Ballot, u32, [Option<u64>; 3]),
    fault: RecordsFault,
) -> Refusal {
    if shown(member) != before {
        return Refusal::Changed;
    }
    match fault {
        RecordsFault::Memory => Refusal::Memory,
        RecordsFault::Store => Refusal::Store,
    }
}

/// What comes of a draft.
fn commit<R: Records + Drop>(
    alloc: Global,
    member: &mut Member<R>,
    draft: Draft,
) -> Result<Outcome, Refusal>
    requires ready { IsReady member.old draft }
{
    let before = shown(member);
    match member.commit(alloc, draft) {
        Ok(outcome) => Ok(outcome),
        Err(fault) => Err(refused(member, before, fault)),
    }
}

/// A member stops inside the write of a draft.
pub(super) fn cut<R: PlannedRecords + Drop>(
    alloc: Global,
    member: &mut Member<R>,
    draft: Draft,
) -> Result<(), Refusal>
    requires ready { IsReady member.old draft }
{
    let before = shown(member);
    match member.cut(alloc, draft) {
        Ok(()) => Ok(()),
        Err(fault) => Err(refused(member, before, fault)),
    }
}

/// An input comes, once.
fn step_once<R: Records + Drop>(
    alloc: Global,
    member: &mut Member<R>,
    input: &Input,
) -> Result<Outcome, Refusal> {
    let draft = draft(alloc, member, input)?;
    commit(alloc, member, draft)
}

/// An input comes; where memory is refused, it comes again.
pub(super) fn step<R: Records + Drop>(
    alloc: Global,
    member: &mut Member<R>,
    input: &Input,
) -> Result<Outcome, Refusal> {
    match step_once(alloc, member, input) {
        Err(Refusal::Memory) => step_once(alloc, member, input),
        given => given,
    }
}
