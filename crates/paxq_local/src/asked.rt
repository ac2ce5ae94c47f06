//! What a line asks, and what is printed of what members say to it.

ghost use Rattle.std.specs.Prelude.{◌≡◌, IfOk, IfSome, Some, Ok, string_bytes};
ghost use Rattle.std.specs.Option.{option_map, IsSome};
ghost use Rattle.messages.specs.Reading.{datagram_read};
ghost use Rattle.clients.specs.Hearing.{heard_in, heard_term};
ghost use Rattle.paxq_files.specs.Commands.{command_term};
ghost use Rattle.paxq_local.specs.Told.{answer_told, position_in, position_of, told};
ghost use Rattle.paxq_local.specs.Asking.{CanBeAsked, IsAsked, IsInBounds};

use ballots::{Reply, RequestId};
use clients::{Heard, hear, question, request};
use paxq_files::Command;
use printed_replies::{answer_text, behind_text, reply_text};
use std::alloc::{AllocError, Global};

/// What kind of line asks, which says what answers it.
#[derive(Clone, Copy, PartialEq, Eq, Debug)]
pub(super) enum Form {
    /// A request: its reply answers it.
    Submit,
    /// A question: its answer does.
    Ask,
    /// A question with a floor: its answer does, and that fewer positions are applied.
    AskAt,
}

/// A datagram that asks something of a member, and what it is known by.
#[derive(Drop)]
pub(super) struct Asked {
    pub(super) id: RequestId,
    pub(super) form: Form,
    pub(super) bytes: Vec<u8>,
}

/// What a command asks of members of a group; a question goes by `id`, and one without a floor has `floor`.
///
/// There is nothing where a question has no level that there is, its text is longer than 4,096 bytes or its floor above 1,000,000, which no script
/// has. It fails where memory is refused.
pub(super) fn asked_of(
    alloc: Global,
    group: u32,
    command: Command,
    id: RequestId,
    floor: u32,
) -> Result<Option<Asked>, AllocError>
    ensures asked { IfOk result (λ asked. IfSome asked (IsAsked group id floor (command_term command))) }
    ensures in_bounds { IfOk result (λ asked. IfSome asked (λ _. IsInBounds floor (command_term command))) }
    ensures is_asked { CanBeAsked floor (command_term command) → IfOk result IsSome }
{
    match command {
        Command::Submit(asked) => {
            let id = asked.id();
            let bytes = request(alloc, group, asked)?;
            Ok(Some(Asked {
                id,
                form: Form::Submit,
                bytes,
            }))
        }
        Command::Ask(level, text) => {
            let bytes = question(alloc, group, id, floor, level, text.as_str())?;
            Ok(with_bytes(id, Form::Ask, bytes))
        }
        Command::AskAt(level, floor, text) => {
            let bytes = question(alloc, group, id, floor, level, text.as_str())?;
            Ok(with_bytes(id, Form::AskAt, bytes))
        }
    }
}

/// What these bytes ask, if there are any.
fn with_bytes(id: RequestId, form: Form, bytes: Option<Vec<u8>>) -> Option<Asked>
    ensures asked { IfSome result (λ asked. (asked.id ≡ id) × (asked.form ≡ form) × (bytes ≡ Some asked.bytes)) }
    ensures is_asked { IsSome bytes → IsSome result }
{
    match bytes {
        Some(bytes) => Some(Asked { id, form, bytes }),
        None => None,
    }
}

/// What is printed of an answer, and the position that a reply names: 0 where it is none.
#[derive(Drop)]
pub(super) struct Said {
    pub(super) text: String,
    pub(super) position: u32,
}

/// What is printed where a datagram answers what was asked in a group. It fails where memory is refused.
pub(super) fn said_in(
    alloc: Global,
    group: u32,
    asked: &Asked,
    bytes: &[u8],
) -> Result<Option<Said>, AllocError>
    ensures text { IfOk result (λ said. option_map (λ s. string_bytes s.text) said ≡ told asked.now.form (heard_in group asked.now.id (datagram_read bytes.now))) }
    ensures position { IfOk result (λ said. IfSome said (λ s. s.position ≡ position_in (heard_in group asked.now.id (datagram_read bytes.now)))) }
{
    match hear(alloc, group, asked.id, bytes)? {
        Some(heard) => said_of(alloc, asked.form, &heard),
        None => Ok(None),
    }
}

/// What is printed where what was heard answers what was asked. It fails where memory is refused.
pub(super) fn said_of(alloc: Global, form: Form, heard: &Heard) -> Result<Option<Said>, AllocError>
    ensures text { IfOk result (λ said. option_map (λ s. string_bytes s.text) said ≡ told form (Some (heard_term heard.now))) }
    ensures position { IfOk result (λ said. IfSome said (λ s. s.position ≡ position_in (Some (heard_term heard.now)))) }
{
    match form {
        Form::Submit => reply_of(alloc, heard),
        Form::Ask => answer_of(alloc, heard),
        Form::AskAt => match heard {
            Heard::Behind(applied) => with_position(behind_text(alloc, *applied), 0),
            _ => answer_of(alloc, heard),
        },
    }
}

/// What is printed of a reply.
fn reply_of(alloc: Global, heard: &Heard) -> Result<Option<Said>, AllocError>
    ensures text { IfOk result (λ said. option_map (λ s. string_bytes s.text) said ≡ told (Form.Submit) (Some (heard_term heard.now))) }
    ensures position { IfOk result (λ said. IfSome said (λ s. s.position ≡ position_in (Some (heard_term heard.now)))) }
{
    match heard {
        Heard::Reply(reply) => with_position(reply_text(alloc, *reply), position_of(*reply)),
        _ => Ok(None),
    }
}

/// What is printed of an answer.
fn answer_of(alloc: Global, heard: &Heard) -> Result<Option<Said>, AllocError>
    ensures text { IfOk result (λ said. option_map (λ s. string_bytes s.text) said ≡ told (Form.Ask) (Some (heard_term heard.now))) }
    ensures position { IfOk result (λ said. IfSome said (λ s. s.position ≡ position_in (Some (heard_term heard.now)))) }
{
    match heard {
        Heard::Answer(_, applied, answer) => {
            with_position(answer_text(alloc, *applied, answer), 0)
        }
        _ => Ok(None),
    }
}

/// A text, if it was made, with its position.
pub(super) fn with_position(
    text: Result<String, AllocError>,
    position: u32,
) -> Result<Option<Said>, AllocError>
    ensures text { IfOk result (λ said. IfSome said (λ s. text ≡ Ok s.text)) }
    ensures position { IfOk result (λ said. IfSome said (λ s. s.position ≡ position)) }
    ensures is_some { IfOk result IsSome }
{
    match text {
        Ok(text) => Ok(Some(Said { text, position })),
        Err(error) => Err(error),
    }
}

/// The position that a reply names.
fn position_of(reply: Reply) -> u32
    ensures { result ≡ position_of reply }
{
    match reply {
        Reply::Done(position) | Reply::Fault(_, position) => position,
    }
}

/// The member that answers a question in a datagram, and what is printed of its answer. It fails where memory is refused.
pub(super) fn answer_in(
    alloc: Global,
    group: u32,
    id: RequestId,
    bytes: &[u8],
) -> Result<Option<(u8, String)>, AllocError>
    ensures { IfOk result (λ said. option_map (λ a. (a.0, string_bytes a.1)) said ≡ answer_told (heard_in group id (datagram_read bytes.now))) }
{
    match hear(alloc, group, id, bytes)? {
        Some(Heard::Answer(member, applied, answer)) => {
            let text = answer_text(alloc, applied, &answer)?;
            Ok(Some((member, text)))
        }
        _ => Ok(None),
    }
}
