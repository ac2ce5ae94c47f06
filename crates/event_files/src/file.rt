//! Event files.

ghost use Rattle.std.specs.Prelude.{◌≡◌, ◌+◌, ◌<◌, ◌^◌, List, [], IfErr, IfOk, All, length};
ghost use Rattle.event_files.specs.EventFiles.{IsFaultOf, commands_from, event_file, failures_from, file_of, file_term, lines_of};
ghost use Rattle.event_files.specs.Within.{IsCommandOf, IsFailureOf};

use super::command::{Command, read_command};
use super::first::{Failure, Group, read_failure, read_group};
use super::lines::first_line;
use ballots::Members;
use std::alloc::{AllocError, Global};

/// What an event file says.
#[derive(Drop)]
pub struct EventFile {
    /// How many members there are, and the names of their documents.
    pub group: Group,
    /// The writes that fail, in the order of the file.
    pub failures: Vec<Failure>,
    /// What happens, in the order of the file. Each member that is named there is one of the group's.
    pub commands: Vec<Command>,
}

/// Why bytes are no event file.
#[derive(Clone, Copy, PartialEq, Eq, Debug)]
pub enum EventFileFault {
    /// Memory was refused.
    Memory,
    /// The first wrong line, counted from 1.
    Line(u64),
}

impl From<AllocError> for EventFileFault {
    ghost use Rattle.event_files.specs.declared.file.EventFileFault.TheVariants.{Memory};

    ghost from_gives = { λ _ fault. fault ≡ Memory };

    fn from(_refused: AllocError) -> EventFileFault {
        EventFileFault::Memory
    }
}

/// Reads an event file: lines that end with line feeds, of which the last need not. No line is skipped.
///
/// Single spaces stand between the parts of a line. The first line is `members N NAME ..`: N members, 1 to 63, and the names of
/// the documents as [`document_names::Names`] takes them. The lines after it that begin with `fail` are `fail M W kept` or `fail M W lost`:
/// write W, from 1, of member M fails, and leaves its record or the one before it. Each further line is one of
///
/// - `begin M`, `resend M`, `catchup M`, `keep M`: a tick comes to member M;
/// - `submit M CLIENT NUMBER TEXT`: a client sends member M a request at the language level 1. CLIENT goes up to 2^32 - 1, and
///   TEXT, the rest of the line, is 1 to 4,096 bytes of UTF-8;
/// - `deliver K`: message K is delivered, which there may be or not, or `deliver all`;
/// - `stopin deliver K kept`, `stopin begin M kept`, `stopin keep M kept`, or `lost`: a member stops inside the write of that step, which leaves its
///   record or the one before it;
/// - `stop M`, `start M`: member M stops or starts.
///
/// M is 1 to N. All numbers are decimal, without a sign, leading zeros are taken, and they go up to 2^64 - 1 where nothing else is
/// said.
///
/// Any other bytes end in [`EventFileFault::Line`], with the number of their first wrong line (1 where there are no bytes), and in
/// [`EventFileFault::Memory`] where memory is refused before that line.
#[tactic(auto, unfolding(crate::specs::EventFiles::file_of))]
pub fn read_event_file(alloc: Global, bytes: &[u8]) -> Result<EventFile, EventFileFault>
    ensures read { IfOk result (λ f. file_of bytes.now ≡ event_file (file_term f)) }
    ensures wrong { IfErr result (IsFaultOf (file_of bytes.now)) }
    ensures failures_within { IfOk result (λ f. All (IsFailureOf f.group.members) f.failures.items) }
    ensures commands_within { IfOk result (λ f. All (IsCommandOf f.group.members) f.commands.items) }
{
    let Some(line) = first_line(bytes) else {
        return Err(EventFileFault::Line(1));
    };
    let Some(group) = read_group(alloc, line.bytes)? else {
        return Err(EventFileFault::Line(1));
    };
    let (failures, after) = read_failures(alloc, group.members, line.rest)?;
    match read_commands(alloc, group.members, after.number, after.bytes) {
        Ok(commands) => Ok(EventFile {
            group,
            failures,
            commands,
        }),
        Err(fault) => Err(fault),
    }
}

/// Lines that are still to be read.
#[derive(Clone, Copy, Debug)]
struct Rest<'a> {
    /// The number of the first of them.
    number: u64,
    /// Their bytes.
    bytes: &'a [u8],
}

// The writes that fail, which the lines from the second on begin with, and the lines after them.
fn read_failures(
    alloc: Global,
    members: Members,
    bytes: &[u8],
) -> Result<(Vec<Failure>, Rest<'_>), AllocError>
    requires { 2 + length bytes.now < 2 ^ 64 }
    ensures read { IfOk result (λ r. (group : Group) → group.members ≡ members →
        failures_from group [] 2 (lines_of bytes.now) ≡ commands_from group r.0.items [] r.1.number (lines_of r.1.bytes.now)) }
    ensures within { IfOk result (λ r. All (IsFailureOf members) r.0.items) }
    ensures room { IfOk result (λ r. r.1.number + length r.1.bytes.now < 2 ^ 64) }
{
    let mut failures = Vec::new(alloc);
    let mut rest = bytes;
    let mut number: u64 = 2;
    while let Some(line) = first_line(rest) {
        let Some(failure) = read_failure(members, line.bytes) else {
            return Ok((
                failures,
                Rest {
                    number,
                    bytes: rest,
                },
            ));
        };
        failures.push(failure)?;
        rest = line.rest;
        number += 1;
    }
    Ok((
        failures,
        Rest {
            number,
            bytes: rest,
        },
    ))
}

// The commands to so many members that lines are, the first of which has that number.
fn read_commands(
    alloc: Global,
    members: Members,
    number: u64,
    bytes: &[u8],
) -> Result<Vec<Command>, EventFileFault>
    requires { number + length bytes.now < 2 ^ 64 }
    ensures read { IfOk result (λ commands. (group : Group) (failures : List Failure) → group.members ≡ members →
        commands_from group failures [] number (lines_of bytes.now) ≡ event_file (record { group = group; failures = failures; commands = commands.items })) }
    ensures within { IfOk result (λ commands. All (IsCommandOf members) commands.items) }
    ensures wrong { IfErr result (λ fault. (group : Group) (failures : List Failure) → group.members ≡ members →
        IsFaultOf (commands_from group failures [] number (lines_of bytes.now)) fault) }
{
    let mut commands = Vec::new(alloc);
    let mut rest = bytes;
    let mut number = number;
    while let Some(line) = first_line(rest) {
        let Some(command) = read_command(alloc, members, line.bytes)? else {
            return Err(EventFileFault::Line(number));
        };
        commands.push(command).map_err(AllocError::from)?;
        rest = line.rest;
        number += 1;
    }
    Ok(commands)
}
