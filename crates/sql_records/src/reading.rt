//! From rows to a record.

ghost use Rattle.std.specs.Prelude.{◌≡◌, ◌≢◌, ◌⊎◌, ◌≤◌, ◌<◌, ◌+◌, ◌^◌, [], ◌∷◌, ◌↔◌, ℕ, suc, pos, length, IfOk, IsErrOf, IsTrue, OnOk};
ghost use Rattle.ballots.specs.Terms.{IsPlace, Setup as Owner};
ghost use Rattle.ballots.specs.Values.{positions};
ghost use Rattle.sqlite_value.specs.Order.{column};
ghost use Rattle.sqlite.specs.declared.types.Value.TheVariants.{Int, Null, Text};
ghost use Rattle.ballots.specs.Spelling.{AreBytes, IsValue, value_spelling};
ghost use Rattle.ballots.specs.declared.ballot.Ballot.{Ballot as BallotTerm};
ghost use Rattle.ballots.specs.declared.value.Entry.{Entry as EntryTerm};
ghost use Rattle.ballots.specs.declared.value.Value.{Value as ValueTerm};
ghost use Rattle.paxos.specs.Records.{NewLearnt, with_vote, written};
ghost use Rattle.record_tables.specs.Versions.{number_of};
ghost use Rattle.record_writes.specs.Stored.{IsPromise, joined};
ghost use Rattle.sql_records.specs.Reading.{IsSetup, Shows, ShowsAnother, ShowsLearnt, ShowsMember, ShowsNoMember, ShowsNotNext, ShowsNoVote, ShowsOwner};

use super::docs;
use ballots::laws::spellings;
use ballots::limits::{MOST_MEMBERS, POSITIONS, is_position};
use ballots::{Ballot, Entry, Setup, SpellingFault, Value, Vote, take_value};
use record_tables::Version;
use records::Record;
use sqlite::types::FromSql;
use sqlite::{Error, ErrorCode, Row};
use sqlite_value::value::ValueRef;
use std::alloc::Global;

/// Why a database is not opened.
#[derive(Clone, Copy, PartialEq, Eq, Debug)]
pub enum OpenFault {
    /// Memory was refused (1).
    Memory,
    /// The store failed (2).
    Store,
    /// They are another member's records (3).
    Other,
    /// They are damaged (4).
    Damaged,
}

/// The value in a column.
fn column<T: FromSql>(row: &Row, at: usize) -> Result<T, OpenFault>
    ensures value { IfOk result (λ x. T.FromSql.reads_as (column row.now at) x) }
    ensures not_other { IsErrOf result OpenFault.Other → ⊥ }
    ensures not_store { IsErrOf result OpenFault.Store → ⊥ }
    ensures damaged { IsErrOf result OpenFault.Damaged → column row.now at ≢ Null → ¬ T.FromSql.is_readable (column row.now at) }
{
    match row.get(at) {
        Ok(value) => Ok(value),
        Err(Error::SqliteFailure(ErrorCode::OutOfMemory)) => Err(OpenFault::Memory),
        Err(_) => Err(OpenFault::Damaged),
    }
}

/// The ballot in two columns.
fn read_ballot(row: &Row, round: usize, leader: usize) -> Result<Ballot, OpenFault>
    ensures not_other { IsErrOf result OpenFault.Other → ⊥ }
    ensures not_store { IsErrOf result OpenFault.Store → ⊥ }
    ensures round { IfOk result (λ b. column row.now round ≡ Int (pos b.round)) }
    ensures leader { IfOk result (λ b. column row.now leader ≡ Int (pos b.member)) }
    ensures damaged { IsErrOf result OpenFault.Damaged → (n : ℕ) (b : BallotTerm) → IsPromise n b → column row.now round ≡ Int (pos b.round) → column row.now leader ≢ Int (pos b.member) }
{
    let round: u64 = column(row, round)?;
    let leader: u32 = column(row, leader)?;
    match u8::try_from(leader) {
        Ok(member) => Ok(Ballot { round, member }),
        Err(_) => Err(OpenFault::Damaged),
    }
}

/// Whether there may be that promise among so many members.
fn is_promise(ballot: Ballot, members: u32) -> bool
    ensures { IsTrue result ↔ IsPromise members ballot }
{
    ballot == Ballot::NONE || ballot.is_of(members)
}

/// Bytes are numbers below 256.
fn are_bytes(bytes: &[u8])
    ensures { AreBytes bytes.now }
{}

/// The value that bytes spell.
fn read_value(alloc: Global, bytes: &[u8]) -> Result<Value, OpenFault>
    ensures not_other { IsErrOf result OpenFault.Other → ⊥ }
    ensures not_store { IsErrOf result OpenFault.Store → ⊥ }
    ensures value { IfOk result (λ v. bytes.now ≡ value_spelling v) }
    ensures spelt { IfOk result IsValue }
    ensures damaged { IsErrOf result OpenFault.Damaged → (v : ValueTerm) → IsValue v → bytes.now ≢ value_spelling v }
{
    spellings();
    are_bytes(bytes);
    match take_value(alloc, bytes) {
        Ok((value, length)) => {
            if length == bytes.len() {
                Ok(value)
            } else {
                Err(OpenFault::Damaged)
            }
        }
        Err(SpellingFault::Memory) => Err(OpenFault::Memory),
        Err(_) => Err(OpenFault::Damaged),
    }
}

/// The vote that a row shows, with a ballot that is not above the promise.
#[tactic(auto, unfolding(ballots::specs::Values::positions))]
fn read_vote(alloc: Global, row: &Row, promise: Ballot, members: u32) -> Result<Entry, OpenFault>
    ensures not_other { IsErrOf result OpenFault.Other → ⊥ }
    ensures not_store { IsErrOf result OpenFault.Store → ⊥ }
    ensures shows { IfOk result (Shows members promise row.now) }
    ensures least { IfOk result (λ e. 1 ≤ e.position) }
    ensures damaged { IsErrOf result OpenFault.Damaged → ShowsNoVote members promise row.now }
{
    let position: u32 = column(row, 0)?;
    let ballot = read_ballot(row, 1, 2)?;
    if !is_position(position) || !ballot.is_of(members) || promise.is_below(ballot) {
        return Err(OpenFault::Damaged);
    }
    let Ok(ValueRef::Blob(bytes)) = row.get_ref(3) else {
        return Err(OpenFault::Damaged);
    };
    let value = read_value(alloc, bytes)?;
    Ok(Entry {
        position,
        vote: Vote { ballot, value },
    })
}

/// Puts the vote that a row shows into a record. Its position has to be above the last one, and becomes the last.
///
/// Faults: `Memory` where memory is refused; `Damaged` where the row shows no vote under the promise, or one that is not above the last.
/// What the record and the last position are then isn't said.
pub(super) fn add_vote(
    alloc: Global,
    row: &Row,
    promise: Ballot,
    members: u32,
    found: &mut Record,
    last: &mut u32,
) -> Result<(), OpenFault>
    ensures not_other { IsErrOf result OpenFault.Other → ⊥ }
    ensures not_store { IsErrOf result OpenFault.Store → ⊥ }
    ensures added { OnOk result ((e : EntryTerm) × Shows members promise row.now e × (last.old < e.position) × (last.new ≡ e.position) × (found.new.votes ≡ with_vote e.position e.vote found.old.votes)) }
    ensures learnt { OnOk result (found.new.learnt ≡ found.old.learnt) }
    ensures damaged { IsErrOf result OpenFault.Damaged → ShowsNoVote members promise row.now ⊎ ((e : EntryTerm) × Shows members promise row.now e × (1 ≤ e.position) × (e.position ≤ last.old)) }
{
    let entry = read_vote(alloc, row, promise, members)?;
    if entry.position <= *last {
        return Err(OpenFault::Damaged);
    }
    *last = entry.position;
    match found.set_vote(entry.position, entry.vote) {
        Ok(()) => Ok(()),
        Err(_) => Err(OpenFault::Memory),
    }
}

/// The value that a row shows as learnt at a position.
fn read_learnt(alloc: Global, row: &Row, next: u32) -> Result<Value, OpenFault>
    ensures not_other { IsErrOf result OpenFault.Other → ⊥ }
    ensures not_store { IsErrOf result OpenFault.Store → ⊥ }
    ensures shows { IfOk result (ShowsLearnt next row.now) }
    ensures damaged { IsErrOf result OpenFault.Damaged → (v : ValueTerm) → ¬ ShowsLearnt next row.now v }
{
    let position: u32 = column(row, 0)?;
    if position != next {
        return Err(OpenFault::Damaged);
    }
    let Ok(ValueRef::Blob(bytes)) = row.get_ref(1) else {
        return Err(OpenFault::Damaged);
    };
    read_value(alloc, bytes)
}

/// Keeps the value that a row shows as learnt behind the last one of a record. Its position has to be the next one.
///
/// Faults, which leave the record as it is: `Memory` where memory is refused; `Damaged` where there is no further position, or the row
/// shows no value that is learnt there.
#[tactic(auto, unfolding(ballots::specs::Values::positions))]
pub(super) fn add_learnt(alloc: Global, row: &Row, found: &mut Record) -> Result<(), OpenFault>
    ensures not_other { IsErrOf result OpenFault.Other → ⊥ }
    ensures not_store { IsErrOf result OpenFault.Store → ⊥ }
    ensures few { length found.old.learnt ≤ positions }
    ensures added { OnOk result ((v : ValueTerm) × ShowsLearnt (suc (length found.old.learnt)) row.now v × (length found.old.learnt < positions) × (found.new ≡ written (NewLearnt v) found.old)) }
    ensures damaged { IsErrOf result OpenFault.Damaged → ShowsNotNext (suc (length found.old.learnt)) row.now }
{
    let last = found.learnt_to();
    if last >= POSITIONS {
        return Err(OpenFault::Damaged);
    }
    let value = read_learnt(alloc, row, last + 1)?;
    match found.push_learnt(value) {
        Ok(()) => Ok(()),
        Err(_) => Err(OpenFault::Memory),
    }
}

/// The promise in the row of this member, in that version.
///
/// Faults: `Memory` where memory is refused; `Other` where the row is another member's, in whatever version; `Damaged` where there is not just one
/// row, or it is that of no member, or this member's in another version.
pub(super) fn read_member(
    alloc: Global,
    rows: &[Row],
    setup: &Setup,
    version: Version,
) -> Result<Ballot, OpenFault>
    ensures other { IsErrOf result OpenFault.Other → ShowsAnother setup.now rows.now }
    ensures not_store { IsErrOf result OpenFault.Store → ⊥ }
    ensures shows { IfOk result (λ b. (row : _) × (rows.now ≡ row ∷ []) × ShowsMember (number_of version) setup.now b row) }
    ensures damaged { IsErrOf result OpenFault.Damaged → ShowsNoMember version setup.now rows.now }
{
    let [row] = rows else {
        return Err(OpenFault::Damaged);
    };
    let id: u32 = column(row, 0)?;
    let number: u32 = column(row, 1)?;
    let members: u32 = column(row, 4)?;
    let ballot = read_ballot(row, 6, 7)?;
    if id != 1 || !is_promise(ballot, members) {
        return Err(OpenFault::Damaged);
    }
    // Another member's records are not judged by their version: whoever opens them took the wrong file.
    if !is_of(alloc, row, setup)? {
        return Err(OpenFault::Other);
    }
    if number != version.number() {
        return Err(OpenFault::Damaged);
    }
    Ok(ballot)
}

/// Whether there may be that member of so many.
fn is_place(member: u32, members: u32) -> bool
    ensures { IsTrue result ↔ IsPlace member members }
{
    1 <= member && member <= members && members <= u32::from(MOST_MEMBERS)
}

/// The numbers of a setup are in range.
pub(super) fn are_numbers(setup: &Setup)
    ensures { IsSetup setup.now }
{
    let _group = setup.group();
    let _member = setup.member();
}

/// Whether the row is that of this member.
fn is_of(alloc: Global, row: &Row, setup: &Setup) -> Result<bool, OpenFault>
    ensures someone { IfOk result (λ _. (p : Owner) × IsSetup p × ShowsOwner p row.now) }
    ensures not_other { IsErrOf result OpenFault.Other → ⊥ }
    ensures not_store { IsErrOf result OpenFault.Store → ⊥ }
    ensures damaged { IsErrOf result OpenFault.Damaged → (p : Owner) → IsSetup p → ¬ ShowsOwner p row.now }
    ensures own { IfOk result (λ b. IsTrue b ↔ ((column row.now 2 ≡ Int (pos setup.now.group)) × (column row.now 3 ≡ Int (pos setup.now.member)) × (column row.now 4 ≡ Int (pos setup.now.members)) × (column row.now 5 ≡ Text (joined setup.now.names)))) }
{
    let group: u32 = column(row, 2)?;
    let member: u32 = column(row, 3)?;
    let members: u32 = column(row, 4)?;
    let Ok(ValueRef::Text(names)) = row.get_ref(5) else {
        return Err(OpenFault::Damaged);
    };
    if !is_place(member, members) {
        return Err(OpenFault::Damaged);
    }
    let Ok(docs) = docs::joined(alloc, setup.names()) else {
        return Err(OpenFault::Memory);
    };
    Ok(
        group == setup.group()
            && member == u32::from(setup.member())
            && members == u32::from(setup.members().count())
            && names == docs.as_bytes(),
    )
}
