//! What members say to the client of their group, each from its own address.

ghost use Rattle.std.specs.Prelude.{◌≡◌, ℕ, ◌+◌, true, List, ◌++◌, Some, IfOk, IfSome, MatchOption, string_bytes};
ghost use Rattle.clients.specs.Hearing.{heard_in};
ghost use Rattle.messages.specs.Reading.{datagram_read};
ghost use Rattle.paxq_local.specs.Asking.{GivesNothing};
ghost use Rattle.paxq_local.specs.Members.{HoldsSaid, IsAt, IsSaidBy, IsToldByAll, own_group};
ghost use Rattle.paxq_local.specs.Told.{Brings, HasComeFrom, answer_told, told_at};
ghost use Rattle.wires.specs.Wires.{Carried};

use super::answers::{Answers, Told};
use super::asked::{Asked, Said, answer_in, said_in};
use super::group::{GROUP, Group};
use applications::Application;
use ballots::RequestId;
use std::alloc::{AllocError, Global};
use wires::Wire;

/// An answer of a member.
#[derive(Drop)]
struct MemberAnswer {
    /// The member, counted from 0.
    member: usize,
    /// What is printed of it.
    text: String,
}

/// Whether an address is that of a member, counted from 0, where these are the addresses of all.
fn is_at<D: Copy + Eq + Drop>(peers: &[D], member: usize, address: D) -> bool
    ensures { result ≡ true → IsAt D.eq peers.now member address }
{
    match peers.get(member) {
        Some(peer) => address == *peer,
        None => false,
    }
}

/// What is printed where bytes that came from an address are the first member's, and answer what it was asked. It fails where memory is refused.
fn said_by_first<D: Copy + Eq + Drop>(
    alloc: Global,
    peers: &[D],
    asked: &Asked,
    from: D,
    bytes: &[u8],
) -> Result<Option<Said>, AllocError>
    ensures { (brought : List (Carried D)) → HasComeFrom brought from bytes.now
        → IfOk result (λ said. IfSome said (λ s. IsSaidBy D.eq peers.now brought 0 (told_at asked.now.form) asked.now.id (string_bytes s.text, s.position))) }
{
    if is_at(peers, 0, from) {
        said_in(alloc, GROUP, asked, bytes)
    } else {
        Ok(None)
    }
}

/// Notes what is printed of a member's answer to a question, where bytes that came from an address are that and it is the member's, and says what came
/// of the question, if it is known then. It fails where memory is refused.
fn note_answer<D: Copy + Eq + Drop>(
    alloc: Global,
    peers: &[D],
    id: RequestId,
    from: D,
    bytes: &[u8],
    answers: &mut Answers,
) -> Result<Option<Told>, AllocError>
    ensures { (members : ℕ) (brought : List (Carried D)) → HasComeFrom brought from bytes.now → HoldsSaid D.eq peers.now brought members id answers.old
        → IfOk result (λ told. MatchOption told (HoldsSaid D.eq peers.now brought members id answers.new) (IsToldByAll D.eq peers.now brought members id)) }
{
    let answer = answer_from(alloc, peers, id, from, bytes)?;
    match answer {
        Some(answer) => Ok(answers.told_with(answer.member, answer.text)),
        None => Ok(None),
    }
}

/// What a member answers to a question in bytes that came from its address. It fails where memory is refused.
fn answer_from<D: Copy + Eq + Drop>(
    alloc: Global,
    peers: &[D],
    id: RequestId,
    from: D,
    bytes: &[u8],
) -> Result<Option<MemberAnswer>, AllocError>
    ensures is_at { IfOk result (λ said. IfSome said (λ a. IsAt D.eq peers.now a.member from)) }
    ensures says { IfOk result (λ said. IfSome said (λ a. answer_told (heard_in own_group id (datagram_read bytes.now)) ≡ Some (a.member + 1, string_bytes a.text))) }
{
    match answer_in(alloc, GROUP, id, bytes)? {
        Some((member, text)) if member > 0 && is_at(peers, usize::from(member) - 1, from) => {
            Ok(Some(MemberAnswer {
                member: usize::from(member) - 1,
                text,
            }))
        }
        _ => Ok(None),
    }
}

/// Has the members work until the first one answers what it was asked, or nothing more comes to anybody, or this try is over. The buffer has
/// room for a datagram. It fails where memory is refused.
pub(super) fn listen_to_first<A: Application + Drop, D: Copy + Eq + Drop, W: Wire<Address = D>>(
    alloc: Global,
    group: &mut Group<A, D>,
    wire: &mut W,
    peers: &[D],
    asked: &Asked,
    buffer: &mut [u8],
) -> Result<Option<Said>, AllocError>
    ensures given { GivesNothing W.was_given wire.old wire.new }
    ensures said { Brings W.has_brought wire.old wire.new (λ brought. IfOk result (λ said. IfSome said (λ s. IsSaidBy D.eq peers.now brought 0 (told_at asked.now.form) asked.now.id (string_bytes s.text, s.position)))) }
{
    for _datagram in 0..u64::MAX {
        let Some(arrival) = group.work(alloc, wire, buffer) else {
            return Ok(None);
        };
        let bytes = &buffer[..arrival.length];
        let heard = said_by_first(alloc, peers, asked, arrival.from, bytes)?;
        if let Some(said) = heard {
            return Ok(Some(said));
        }
        if group.is_over(wire) {
            return Ok(None);
        }
    }
    Ok(None)
}

/// Has the members work until all have answered a question, or two answers differ, or nothing more comes to anybody, or this try is over. The
/// buffer has room for a datagram. It fails where memory is refused.
pub(super) fn listen_to_all<A: Application + Drop, D: Copy + Eq + Drop, W: Wire<Address = D>>(
    alloc: Global,
    group: &mut Group<A, D>,
    wire: &mut W,
    peers: &[D],
    id: RequestId,
    answers: &mut Answers,
    buffer: &mut [u8],
) -> Result<Option<Told>, AllocError>
    ensures given { GivesNothing W.was_given wire.old wire.new }
    ensures said { Brings W.has_brought wire.old wire.new (λ brought. (members : ℕ) (before : List (Carried D)) → HoldsSaid D.eq peers.now before members id answers.old
        → IfOk result (λ told. MatchOption told (HoldsSaid D.eq peers.now (before ++ brought) members id answers.new) (IsToldByAll D.eq peers.now (before ++ brought) members id))) }
{
    for _datagram in 0..u64::MAX {
        let Some(arrival) = group.work(alloc, wire, buffer) else {
            return Ok(None);
        };
        let bytes = &buffer[..arrival.length];
        let heard = note_answer(alloc, peers, id, arrival.from, bytes, answers)?;
        if let Some(told) = heard {
            return Ok(Some(told));
        }
        if group.is_over(wire) {
            return Ok(None);
        }
    }
    Ok(None)
}
