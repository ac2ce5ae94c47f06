//! What the lines of an event file ask for.

ghost use Rattle.std.specs.Prelude.{◌≡◌, true, IfOk, IfSome, option_map};
ghost use Rattle.ballots.specs.Terms.{is_level};
ghost use Rattle.event_files.specs.Forms.{command_of, command_with, deliver_of, step_of, stop_in_of, submit_of, number_to, tick_of};
ghost use Rattle.event_files.specs.Within.{IsCommandOf, IsStepOf};

use super::lines::utf8_of;
use super::parts::{read_kept, read_member};
use ballots::Members;
use events::{Event, Step, Tick};
use line_parts::{cut_at, read_number, read_request};
use std::alloc::{AllocError, Global};

/// What a line asks for.
#[derive(Drop)]
pub enum Command {
    /// This happens.
    Happens(Event),
    /// `deliver all`: messages are delivered; which ones and in what order is for the caller to say.
    DeliverAll,
}

/// Reads a line that asks for something of so many members. Any other line gives `None`. It fails where memory is refused.
#[tactic(auto, unfolding(crate::specs::Forms::command_of))]
pub(crate) fn read_command(
    alloc: Global,
    members: Members,
    line: &[u8],
) -> Result<Option<Command>, AllocError>
    ensures value { IfOk result (λ command. command ≡ command_of members line.now) }
    ensures within { IfOk result (λ command. IfSome command (IsCommandOf members)) }
{
    let Some(line) = utf8_of(line) else {
        return Ok(None);
    };
    let (word, parts) = cut_at(' ', line);
    command_with(alloc, members, word, parts)
}

// The command of that word.
#[tactic(auto, unfolding(crate::specs::Forms::command_with))]
fn command_with(
    alloc: Global,
    members: Members,
    word: &str,
    parts: &str,
) -> Result<Option<Command>, AllocError>
    ensures value { IfOk result (λ command. command ≡ command_with members word.now parts.now) }
    ensures within { IfOk result (λ command. IfSome command (IsCommandOf members)) }
{
    match word {
        "begin" => Ok(read_tick(members, Tick::Begin, parts)),
        "resend" => Ok(read_tick(members, Tick::Resend, parts)),
        "catchup" => Ok(read_tick(members, Tick::CatchUp, parts)),
        "keep" => Ok(read_tick(members, Tick::Keep, parts)),
        "submit" => read_submit(alloc, members, 1, parts),
        "submit2" => read_submit(alloc, members, 2, parts),
        "deliver" => Ok(read_deliver(parts)),
        "stopin" => Ok(read_stop_in(members, parts)),
        "stop" => Ok(read_stop(members, parts)),
        "start" => Ok(read_start(members, parts)),
        _ => Ok(None),
    }
}

// Reads `M`, the member to which a tick comes.
fn read_tick(members: Members, tick: Tick, parts: &str) -> Option<Command>
    ensures value { result ≡ tick_of members tick parts.now }
    ensures within { IfSome result (IsCommandOf members) }
{
    let member = read_member(members, parts)?;
    Some(Command::Happens(Event::Tick(member, tick)))
}

// Reads `M`, the member that stops.
fn read_stop(members: Members, parts: &str) -> Option<Command>
    ensures value { result ≡ option_map (λ member. Command.Happens (Event.Stop member)) (number_to members parts.now) }
    ensures within { IfSome result (IsCommandOf members) }
{
    let member = read_member(members, parts)?;
    Some(Command::Happens(Event::Stop(member)))
}

// Reads `M`, the member that starts.
fn read_start(members: Members, parts: &str) -> Option<Command>
    ensures value { result ≡ option_map (λ member. Command.Happens (Event.Start member)) (number_to members parts.now) }
    ensures within { IfSome result (IsCommandOf members) }
{
    let member = read_member(members, parts)?;
    Some(Command::Happens(Event::Start(member)))
}

// Reads `all`, or the number of a message.
fn read_deliver(parts: &str) -> Option<Command>
    ensures { result ≡ deliver_of parts.now }
{
    match parts {
        "all" => Some(Command::DeliverAll),
        _ => {
            let message = read_number(parts)?;
            Some(Command::Happens(Event::Deliver(message)))
        }
    }
}

// Reads a step in whose write a member stops, and whether its record is kept.
fn read_stop_in(members: Members, parts: &str) -> Option<Command>
    ensures value { result ≡ stop_in_of members parts.now }
    ensures within { IfSome result (IsCommandOf members) }
{
    let (word, rest) = cut_at(' ', parts);
    let (number, kept) = cut_at(' ', rest);
    let step = read_step(members, word, number)?;
    let kept = read_kept(kept)?;
    Some(Command::Happens(Event::StopIn(step, kept)))
}

// Reads the step `deliver K`, `begin M` or `keep M`.
#[tactic(auto, unfolding(crate::specs::Forms::step_of))]
fn read_step(members: Members, word: &str, parts: &str) -> Option<Step>
    ensures value { result ≡ step_of members word.now parts.now }
    ensures within { IfSome result (IsStepOf members) }
{
    match word {
        "deliver" => Some(Step::Deliver(read_number(parts)?)),
        "begin" => Some(Step::Begin(read_member(members, parts)?)),
        "keep" => Some(Step::Keep(read_member(members, parts)?)),
        _ => None,
    }
}

// Reads `M CLIENT NUMBER TEXT`, a request of that language level.
fn read_submit(
    alloc: Global,
    members: Members,
    level: u8,
    parts: &str,
) -> Result<Option<Command>, AllocError>
    requires { is_level level ≡ true }
    ensures value { IfOk result (λ command. command ≡ submit_of members level parts.now) }
    ensures within { IfOk result (λ command. IfSome command (IsCommandOf members)) }
{
    let (member, rest) = cut_at(' ', parts);
    let Some(member) = read_member(members, member) else {
        return Ok(None);
    };
    match read_request(alloc, level, rest)? {
        Some(request) => Ok(Some(Command::Happens(Event::Submit(member, request)))),
        None => Ok(None),
    }
}
