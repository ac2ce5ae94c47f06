//! A record in memory whose writes fail by a plan.

ghost use Rattle.std.specs.Prelude.{◌≡◌, ◌⊎◌, ◌≤◌, ◌==◌, ℕ, ◌<◌, length, Bool, if◌then◌else◌, cond, false, None, Some, IfErr, IfOk, OnOk, is_some, Ok, Err};
ghost use Rattle.ballots.specs.Ballot.{below};
ghost use Rattle.ballots.specs.Values.{positions};
ghost use Rattle.position_map.specs.Slots.{value_at};
ghost use Rattle.paxos.specs.Records.{Record as RecordTerm, NewPromise, NewVote, NewLearnt, empty_record, written};
ghost use Rattle.paxos.specs.WellFormed.{IsRecord};
ghost use Rattle.records.specs.Group.{AreWrites, MayBeWritten, after};
ghost use Rattle.records.specs.Law.{Counts, Goes, Puts};
ghost use Rattle.records.specs.Script.{Script, GoesBy, IsKept, Stands, fails_at, fates_of, first_of, next_fate, one_more, stopping};

use super::group::{GroupRecords, Write};
use super::kept::Record;
use super::memory::{copy_all, copy_learnt, copy_vote};
use super::records::{FlushRecords, PlannedRecords, Records, RecordsFault};
use ballots::{Ballot, Value, Vote};
use std::alloc::{AllocError, Global};
use std::collections::BTreeMap;
use std::marker::Model;

/// A record in memory whose writes fail by a plan, to try what a failing store does.
///
/// Writes are numbered from 1, those that fail too, and a write that finds no memory is none.
#[derive(Drop)]
pub struct ScriptRecords {
    kept: Record,
    plan: Vec<(u64, bool)>,
    /// What the plan says of each number that stands there.
    fates: BTreeMap<u64, bool>,
    writes: u64,
    failures: u64,
    passes: bool,
}

impl Model for ScriptRecords {
    ghost use Rattle.records.specs.Script.{AreFates, Script, script_code};

    ghost Value = { Script };

    ghost coded = { script_code };

    ghost view = { λ s.
        record {
          kept = s.kept;
          plan = s.plan.items;
          writes = s.writes;
          failures = s.failures;
          passes = s.passes;
        } };

    ghost invariant = { λ s. AreFates s.fates.entries s.plan.items };
}

impl ScriptRecords {
    /// No promise and no votes, nothing kept as learnt, and which writes fail: the number of each, and whether its record is left (`true`) or the one
    /// before it.
    ///
    /// The numbers may stand in any order. Of a number that stands there twice, the first counts. It fails where memory is refused.
    #[tactic(auto, using(crate::proofs::Empty::is_record_empty))]
    pub fn new(alloc: Global, plan: &[(u64, bool)]) -> Result<ScriptRecords, AllocError>
        ensures empty { IfOk result (λ s. s ≡ record { kept = empty_record; plan = plan.now; writes = 0; failures = 0; passes = false }) }
        ensures suits { IfOk result (λ s. (n : ℕ) → IsRecord n s.kept) }
    {
        let mut fates: BTreeMap<u64, bool> = BTreeMap::new(alloc);
        for (number, is_made) in plan.iter() {
            note(&mut fates, *number, *is_made)?;
        }
        Ok(ScriptRecords {
            kept: Record::new(alloc),
            plan: Vec::from_slice(alloc, plan)?,
            fates,
            writes: 0,
            failures: 0,
            passes: false,
        })
    }

    /// How many writes there were.
    pub fn writes(&self) -> u64
        ensures { result ≡ self.now.writes }
    {
        self.writes
    }

    /// Where the write of a number fails: whether its record is left.
    pub fn fails_at(&self, number: u64) -> Option<bool>
        ensures { result ≡ fails_at number self.now.plan }
    {
        match self.fates.get(&number) {
            Some(is_made) => Some(*is_made),
            None => None,
        }
    }

    /// Where the next write fails: whether its record is left. No more is let pass then.
    fn take_fate(&mut self) -> Option<bool>
        ensures fate { result ≡ next_fate self.old }
        ensures stopped { self.new ≡ stopping self.old }
    {
        if self.passes {
            self.passes = false;
            return None;
        }
        self.fails_at(self.writes.saturating_add(1))
    }

    /// Makes several writes as one write of the plan.
    fn put_some(&mut self, writes: &[Write]) -> Result<(), RecordsFault>
        requires writes { AreWrites writes.now }
        requires due { MayBeWritten writes.now self.old.kept }
        ensures law { (last : RecordTerm) → Stands self.old last last → Puts (Stands self.new) last (after writes.now last) result }
        ensures goes { (last : RecordTerm) → Stands self.old last last
            → Goes (Stands self.new) (fates_of self.old) (fates_of self.new) self.old.passes last (after writes.now last) result }
        ensures counts { Counts self.old.failures self.new.failures result }
        ensures passes { self.new.passes ≡ false }
    {
        let fate = self.take_fate();
        if fate.unwrap_or(true) {
            copy_all(&mut self.kept, writes)?;
        }
        self.end_write(fate)
    }

    /// Counts a write, and answers it.
    fn end_write(&mut self, fate: Option<bool>) -> Result<(), RecordsFault>
        ensures counted { self.new ≡ record { kept = self.old.kept; plan = self.old.plan; writes = one_more self.old.writes; failures = cond (is_some fate) (one_more self.old.failures) self.old.failures; passes = self.old.passes } }
        ensures fails { result ≡ cond (is_some fate) (Err RecordsFault.Store) (Ok tt) }
    {
        self.writes = self.writes.saturating_add(1);
        if fate.is_none() {
            return Ok(());
        }
        self.failures = self.failures.saturating_add(1);
        Err(RecordsFault::Store)
    }
}

/// Notes whether the write of a number is made, where nothing is noted of it yet.
fn note(fates: &mut BTreeMap<u64, bool>, number: u64, is_made: bool) -> Result<(), AllocError>
    ensures { OnOk result ((n : ℕ) → value_at n fates.new.entries ≡ first_of (value_at n fates.old.entries) (if n == number then Some is_made else None)) }
{
    if fates.contains_key(&number) {
        return Ok(());
    }
    match fates.insert(number, is_made) {
        Ok(_) => Ok(()),
        Err(_) => Err(AllocError),
    }
}

impl Records for ScriptRecords {
    ghost stands = { Stands };

    ghost is_kept = { IsKept };

    ghost failed = { λ s. s.failures };

    ghost fates = { fates_of };

    ghost passes = { λ s. s.passes };

    ghost base = { λ s a. ⊥ };

    ghost suits = { λ s n. IsRecord n s.kept };

    fn load(&mut self, alloc: Global) -> Result<Record, RecordsFault>
        ensures found { IsKept self.new
            → IfOk result (λ r. Stands self.new r r × ((a b : RecordTerm) → Stands self.old a b → (r ≡ a) ⊎ (r ≡ b))) }
        ensures crash { IsKept self.new → (a b : RecordTerm) → Stands self.old a b → Stands self.new a b }
        ensures kept { IsKept self.new → IsKept self.old }
        ensures counts { Counts self.old.failures self.new.failures result }
        ensures fates { (k : ℕ) → fates_of self.new k ≡ fates_of self.old k }
        ensures sound { (n : ℕ) → IsRecord n self.old.kept → IfOk result (λ r. IsRecord n r) }
        ensures script { (self.new ≡ stopping self.old) × IfErr result (λ fault. fault ≡ RecordsFault.Memory) }
    {
        self.passes = false;
        match self.kept.clone() {
            Ok(kept) => Ok(kept),
            Err(_) => Err(RecordsFault::Memory),
        }
    }

    fn put_promise(&mut self, alloc: Global, ballot: Ballot) -> Result<(), RecordsFault>
        ensures law { IsKept self.new → (last : RecordTerm) → Stands self.old last last
            → Puts (Stands self.new) last (written (NewPromise ballot) last) result }
        ensures goes { IsKept self.new → (last : RecordTerm) → Stands self.old last last
            → Goes (Stands self.new) (fates_of self.old) (fates_of self.new) self.old.passes last (written (NewPromise ballot) last) result }
        ensures kept { IsKept self.new → IsKept self.old }
        ensures counts { Counts self.old.failures self.new.failures result }
        ensures script { GoesBy self.old (NewPromise ballot) self.new result }
        ensures sure { IfErr result (λ fault. fault ≡ RecordsFault.Store) }
    {
        let fate = self.take_fate();
        if fate.unwrap_or(true) {
            self.kept.set_promise(ballot);
        }
        self.end_write(fate)
    }

    fn put_vote(
        &mut self,
        alloc: Global,
        ballot: Ballot,
        position: u32,
        value: &Value,
    ) -> Result<(), RecordsFault>
        requires least { 1 ≤ position }
        ensures law { IsKept self.new → (last : RecordTerm) → Stands self.old last last
            → Puts (Stands self.new) last (written (NewVote position (record { ballot = ballot; value = value.now })) last) result }
        ensures goes { IsKept self.new → (last : RecordTerm) → Stands self.old last last
            → Goes (Stands self.new) (fates_of self.old) (fates_of self.new) self.old.passes last (written (NewVote position (record { ballot = ballot; value = value.now })) last) result }
        ensures kept { IsKept self.new → IsKept self.old }
        ensures counts { Counts self.old.failures self.new.failures result }
        ensures script { GoesBy self.old (NewVote position (record { ballot = ballot; value = value.now })) self.new result }
    {
        let fate = self.take_fate();
        if fate.unwrap_or(true) {
            copy_vote(&mut self.kept, ballot, position, value)?;
        }
        self.end_write(fate)
    }

    fn put_learnt(
        &mut self,
        alloc: Global,
        position: u32,
        value: &Value,
    ) -> Result<(), RecordsFault>
        requires few { length self.old.kept.learnt < positions }
        ensures law { IsKept self.new → (last : RecordTerm) → Stands self.old last last
            → Puts (Stands self.new) last (written (NewLearnt value.now) last) result }
        ensures goes { IsKept self.new → (last : RecordTerm) → Stands self.old last last
            → Goes (Stands self.new) (fates_of self.old) (fates_of self.new) self.old.passes last (written (NewLearnt value.now) last) result }
        ensures kept { IsKept self.new → IsKept self.old }
        ensures counts { Counts self.old.failures self.new.failures result }
        ensures script { GoesBy self.old (NewLearnt value.now) self.new result }
    {
        let fate = self.take_fate();
        if fate.unwrap_or(true) {
            copy_learnt(&mut self.kept, value)?;
        }
        self.end_write(fate)
    }

    fn failures(&self) -> u64 {
        self.failures
    }
}

/// Several writes at once are one write of the plan.
impl GroupRecords for ScriptRecords {
    fn put_all(&mut self, alloc: Global, writes: &[Write]) -> Result<(), RecordsFault> {
        if writes.is_empty() {
            self.passes = false;
            return Ok(());
        }
        self.put_some(writes)
    }
}

impl PlannedRecords for ScriptRecords {
    fn let_pass(&mut self) {
        self.passes = true;
    }
}

/// Each write is acknowledged as it is made, so there is nothing to flush, and a flush is no write of the plan.
impl FlushRecords for ScriptRecords {
    ghost leaves = { Stands };

    ghost left = { λ s a h. absurd h };

    fn flush(&mut self, alloc: Global) -> Result<(), RecordsFault> {
        Ok(())
    }
}
