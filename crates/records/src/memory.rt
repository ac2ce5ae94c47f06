//! A record in memory.

ghost use Rattle.std.specs.Prelude.{◌≡◌, ◌⊎◌, ◌≤◌, ◌<◌, ℕ, length, None, Some, false, IfErr, IfOk, OnErr, OnOk};
ghost use Rattle.ballots.specs.Values.{positions};
ghost use Rattle.paxos.specs.Records.{NewVote, NewLearnt, empty_record, written};
ghost use Rattle.paxos.specs.WellFormed.{IsRecord};
ghost use Rattle.records.specs.Group.{AreWrites, HasRoom, IsWrite, MayBeWritten, after, write_of};

use super::group::{GroupRecords, Write};
use super::kept::Record;
use super::records::{FlushRecords, PlannedRecords, Records, RecordsFault};
use ballots::{Ballot, Value, Vote};
use std::alloc::Global;
use std::marker::Model;

/// A record in memory: it outlives the acceptor, and not the program. It never fails.
#[derive(Drop)]
pub struct MemRecords {
    kept: Record,
}

impl Model for MemRecords {
    ghost use Rattle.paxos.specs.Records.{Record as RecordTerm};
    ghost use Rattle.records.specs.Kept.{record_code};

    ghost Value = { RecordTerm };

    ghost coded = { record_code };

    ghost view = { λ s. s.kept };
}

impl MemRecords {
    /// No promise and no votes, and nothing kept as learnt.
    #[tactic(auto, using(crate::proofs::Empty::is_record_empty))]
    pub fn new(alloc: Global) -> MemRecords
        ensures empty { result ≡ empty_record }
        ensures suits { (n : ℕ) → IsRecord n result }
    {
        MemRecords {
            kept: Record::new(alloc),
        }
    }
}

impl Records for MemRecords {
    ghost stands = { λ s a b. (s ≡ a) ⊎ (s ≡ b) };

    ghost is_kept = { λ s. Unit {0} };

    ghost failed = { λ s. 0 };

    ghost fates = { λ s k. Some None };

    ghost passes = { λ s. false };

    ghost base = { λ s a. ⊥ };

    ghost suits = { λ s n. IsRecord n s };

    fn load(&mut self, alloc: Global) -> Result<Record, RecordsFault> {
        match self.kept.clone() {
            Ok(kept) => Ok(kept),
            Err(_) => Err(RecordsFault::Memory),
        }
    }

    fn put_promise(&mut self, alloc: Global, ballot: Ballot) -> Result<(), RecordsFault> {
        self.kept.set_promise(ballot);
        Ok(())
    }

    fn put_vote(
        &mut self,
        alloc: Global,
        ballot: Ballot,
        position: u32,
        value: &Value,
    ) -> Result<(), RecordsFault> {
        copy_vote(&mut self.kept, ballot, position, value)
    }

    fn put_learnt(
        &mut self,
        alloc: Global,
        position: u32,
        value: &Value,
    ) -> Result<(), RecordsFault> {
        copy_learnt(&mut self.kept, value)
    }

    fn failures(&self) -> u64 {
        0
    }
}

impl PlannedRecords for MemRecords {
    fn let_pass(&mut self) {}
}

/// Each write is acknowledged as it is made, so there is nothing to flush.
impl FlushRecords for MemRecords {
    ghost leaves = { λ s a b. (s ≡ a) ⊎ (s ≡ b) };

    ghost left = { λ s a h. absurd h };

    fn flush(&mut self, alloc: Global) -> Result<(), RecordsFault> {
        Ok(())
    }
}

/// It makes the writes on a copy of the record, which takes its place: so several writes at once cost as much as the whole record does.
impl GroupRecords for MemRecords {
    fn put_all(&mut self, alloc: Global, writes: &[Write]) -> Result<(), RecordsFault> {
        if writes.is_empty() {
            return Ok(());
        }
        copy_all(&mut self.kept, writes)
    }
}

/// Makes several writes on a copy of the record, which takes its place. Where memory is refused, nothing changes.
pub(super) fn copy_all(kept: &mut Record, writes: &[Write]) -> Result<(), RecordsFault>
    requires writes { AreWrites writes.now }
    requires due { MayBeWritten writes.now kept.old }
    ensures made { OnOk result (kept.new ≡ after writes.now kept.old) }
    ensures refused { OnErr result (kept.new ≡ kept.old) }
    ensures memory { IfErr result (λ fault. fault ≡ RecordsFault.Memory) }
{
    *kept = with_all(kept, writes)?;
    Ok(())
}

/// A copy of a record with those writes made on it. It fails for want of memory alone.
fn with_all(kept: &Record, writes: &[Write]) -> Result<Record, RecordsFault>
    requires writes { AreWrites writes.now }
    requires due { MayBeWritten writes.now kept.now }
    ensures made { IfOk result (λ r. r ≡ after writes.now kept.now) }
    ensures memory { IfErr result (λ fault. fault ≡ RecordsFault.Memory) }
{
    let Ok(mut next) = kept.clone() else {
        return Err(RecordsFault::Memory);
    };
    for write in writes.iter() {
        copy_write(&mut next, write)?;
    }
    Ok(next)
}

/// Makes a write with a copy of its value. Where memory is refused, nothing changes.
pub(super) fn copy_write(kept: &mut Record, write: &Write) -> Result<(), RecordsFault>
    requires write { IsWrite write.now }
    requires room { HasRoom write.now kept.old }
    ensures made { OnOk result (kept.new ≡ written (write_of write.now) kept.old) }
    ensures refused { OnErr result (kept.new ≡ kept.old) }
    ensures memory { IfErr result (λ fault. fault ≡ RecordsFault.Memory) }
{
    match write {
        Write::Promise(ballot) => {
            kept.set_promise(*ballot);
            Ok(())
        }
        Write::Vote(position, vote) => copy_vote(kept, vote.ballot, *position, &vote.value),
        Write::Learnt(_, value) => copy_learnt(kept, value),
    }
}

/// Records a vote for a copy of a value. Where memory is refused, nothing changes.
pub(super) fn copy_vote(
    kept: &mut Record,
    ballot: Ballot,
    position: u32,
    value: &Value,
) -> Result<(), RecordsFault>
    requires least { 1 ≤ position }
    ensures voted { OnOk result (kept.new ≡ written (NewVote position (record { ballot = ballot; value = value.now })) kept.old) }
    ensures refused { OnErr result (kept.new ≡ kept.old) }
    ensures memory { IfErr result (λ fault. fault ≡ RecordsFault.Memory) }
{
    let Ok(value) = value.clone() else {
        return Err(RecordsFault::Memory);
    };
    match kept.set_vote(position, Vote { ballot, value }) {
        Ok(()) => Ok(()),
        Err(_) => Err(RecordsFault::Memory),
    }
}

/// Keeps a copy of a value as learnt at the next position. Where memory is refused, nothing changes.
pub(super) fn copy_learnt(kept: &mut Record, value: &Value) -> Result<(), RecordsFault>
    requires few { length kept.old.learnt < positions }
    ensures learnt { OnOk result (kept.new ≡ written (NewLearnt value.now) kept.old) }
    ensures refused { OnErr result (kept.new ≡ kept.old) }
    ensures memory { IfErr result (λ fault. fault ≡ RecordsFault.Memory) }
{
    let Ok(value) = value.clone() else {
        return Err(RecordsFault::Memory);
    };
    match kept.push_learnt(value) {
        Ok(()) => Ok(()),
        Err(_) => Err(RecordsFault::Memory),
    }
}
