//! The first line of an event file, and the writes that fail.

ghost use Rattle.std.specs.Prelude.{◌≡◌, IfOk, IfSome};
ghost use Rattle.event_files.specs.Forms.{failure_of, failure_with, group_of, group_with};
ghost use Rattle.event_files.specs.Within.{IsFailureOf};

use super::lines::utf8_of;
use super::parts::{read_count, read_kept, read_member, read_number_to};
use ballots::Members;
use document_names::{Names, NamesFault};
use line_parts::{cut_at, read_names};
use std::alloc::{AllocError, Global};

/// How many members there are, and the names of the documents that each of them has.
#[derive(Drop)]
pub struct Group {
    /// How many members there are.
    pub members: Members,
    /// The names of the documents.
    pub names: Names,
}

/// A write of a member's records that fails.
#[derive(Clone, Copy, PartialEq, Eq, Debug)]
pub struct Failure {
    /// The member, from 1.
    pub member: u8,
    /// Which of the member's writes it is, from 1.
    pub write: u64,
    /// Whether the record that was written is left (`true`), or the one before it.
    pub kept: bool,
}

/// Reads a line `members N NAME ..`. Any other line gives `None`. It fails where memory is refused.
#[tactic(auto, unfolding(crate::specs::Forms::group_of))]
pub(crate) fn read_group(alloc: Global, line: &[u8]) -> Result<Option<Group>, AllocError>
    ensures { IfOk result (λ group. group ≡ group_of line.now) }
{
    let Some(line) = utf8_of(line) else {
        return Ok(None);
    };
    let (word, parts) = cut_at(' ', line);
    match word {
        "members" => read_members(alloc, parts),
        _ => Ok(None),
    }
}

// Reads `N NAME ..`.
#[tactic(auto, unfolding(crate::specs::Forms::group_with))]
fn read_members(alloc: Global, parts: &str) -> Result<Option<Group>, AllocError>
    ensures { IfOk result (λ group. group ≡ group_with parts.now) }
{
    let (count, list) = cut_at(' ', parts);
    let Some(members) = read_count(count) else {
        return Ok(None);
    };
    match read_names(alloc, list) {
        Ok(names) => Ok(Some(Group { members, names })),
        Err(NamesFault::Memory) => Err(AllocError),
        Err(NamesFault::Wrong) => Ok(None),
    }
}

/// Reads a line `fail M W kept` or `fail M W lost`, of one of so many members. Any other line gives `None`.
#[tactic(auto, unfolding(crate::specs::Forms::failure_of))]
pub(crate) fn read_failure(members: Members, line: &[u8]) -> Option<Failure>
    ensures value { result ≡ failure_of members line.now }
    ensures within { IfSome result (IsFailureOf members) }
{
    let line = utf8_of(line)?;
    let (word, parts) = cut_at(' ', line);
    match word {
        "fail" => read_failing(members, parts),
        _ => None,
    }
}

// Reads `M W kept` or `M W lost`.
#[tactic(auto, unfolding(crate::specs::Forms::failure_with))]
fn read_failing(members: Members, parts: &str) -> Option<Failure>
    ensures value { result ≡ failure_with members parts.now }
    ensures within { IfSome result (IsFailureOf members) }
{
    let (member, rest) = cut_at(' ', parts);
    let (write, rest) = cut_at(' ', rest);
    let member = read_member(members, member)?;
    let write = read_number_to(u64::MAX, write)?;
    let kept = read_kept(rest)?;
    Some(Failure {
        member,
        write,
        kept,
    })
}
