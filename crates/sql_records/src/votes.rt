//! The votes of a record, one row at a time.

ghost use Rattle.std.specs.Prelude.{◌≡◌, List, [], map, IfOk, IsErrOf, OnOk, IsPermutation};
ghost use Rattle.sqlite.specs.State.{HasCleanDisk, IsUnchanged, Survives};
ghost use Rattle.sqlite.specs.Order.{Row as RowTerm};
ghost use Rattle.sqlite.specs.Held.{state};
ghost use Rattle.ballots.specs.Values.{positions};
ghost use Rattle.ballots.specs.declared.value.Entry.{Entry as EntryTerm};
ghost use Rattle.paxos.specs.WellFormed.{AreVotes as MayBeVotes};
ghost use Rattle.records.specs.Kept.{IsRising};
ghost use Rattle.record_writes.specs.Faults.{StoreFailed};
ghost use Rattle.record_writes.specs.Holds.{Ended};
ghost use Rattle.sql_records.specs.Reading.{AreShown, AreVotes, vote_shown};
ghost use Rattle.record_tables.specs.Versions.{AreTables};

use super::load::fault_of;
use super::reading::{OpenFault, add_vote};
use ballots::Ballot;
use ballots::limits::POSITIONS;
use records::Record;
use sqlite::{Alter, Connection};
use std::alloc::Global;

/// The record of that promise and the votes that the table shows, whose positions rise, with nothing kept as learnt. Beside the record it holds some rows at a time.
///
/// Faults: `Memory` where memory is refused; `Store` where the store failed; `Damaged` where the rows are not those of votes that may stand
/// under that promise. Nothing has changed then, or what was under way was rolled back.
pub(super) fn load_votes<S: Alter>(
    alloc: Global,
    connection: &mut Connection<S>,
    promise: Ballot,
    members: u32,
) -> Result<Record, OpenFault>
    requires { HasCleanDisk (state S.Store connection.old) → AreTables (state S.Store connection.old).now.schema }
    ensures votes { HasCleanDisk (state S.Store connection.new) → IfOk result (λ r. (rows : List RowTerm) × IsPermutation (map vote_shown ((state S.Store connection.old).now.trees 1)) rows × AreShown members promise rows r.votes) }
    ensures sound { IfOk result (λ r. MayBeVotes members promise 1 positions r.votes) }
    ensures promise { IfOk result (λ r. r.promise ≡ promise) }
    ensures rising { IfOk result IsRising }
    ensures learnt { IfOk result (λ r. r.learnt ≡ []) }
    ensures not_other { IsErrOf result OpenFault.Other → ⊥ }
    ensures store { HasCleanDisk (state S.Store connection.new) → IsErrOf result OpenFault.Store → StoreFailed (state S.Store connection.old) (state S.Store connection.new) }
    ensures damaged { HasCleanDisk (state S.Store connection.new) → IsErrOf result OpenFault.Damaged → (votes : List EntryTerm) → ¬ AreVotes members promise ((state S.Store connection.old).now.trees 1) votes }
    ensures same { HasCleanDisk (state S.Store connection.new) → OnOk result (IsUnchanged (state S.Store connection.old) (state S.Store connection.new)) }
    ensures ended { HasCleanDisk (state S.Store connection.new) → Ended (state S.Store connection.old) (state S.Store connection.new) }
    ensures survives { Survives (state S.Store connection.old) (state S.Store connection.new) (λ _. ⊥) }
{
    let mut record = Record::new(alloc);
    let mut last = 0;
    let mut rows = match connection.query(
        "SELECT position, round, leader, value FROM votes ORDER BY position",
        &[],
    ) {
        Ok(rows) => rows,
        Err(error) => return Err(fault_of(&error)),
    };
    'votes: for _ in 0..=POSITIONS {
        if let Err(error) = rows.advance() {
            return Err(fault_of(&error));
        }
        let Some(row) = rows.get() else {
            record.set_promise(promise);
            let _promise = record.promise();
            return Ok(record);
        };
        add_vote(alloc, row, promise, members, &mut record, &mut last)?;
    }
    Err(OpenFault::Damaged)
}
