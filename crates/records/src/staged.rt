//! Records that take writes in memory, and write them in one.

ghost use Rattle.std.specs.Prelude.{◌≡◌, ◌⊎◌, ◌≤◌, ◌++◌, ◌∷◌, [], ℕ, length, false, true, IfErr, IfOk, IsErrOf, IsOk, OnErr, OnOk};
ghost use Rattle.paxos.specs.Records.{Record as RecordTerm};
ghost use Rattle.paxos.specs.WellFormed.{IsRecord};
ghost use Rattle.records.specs.Group.{GoTogether, HasRoom, IsBehind, IsDue, IsWrite, after, fates_of};
ghost use Rattle.records.specs.Law.{Counts, Grew, Puts};

use super::group::{GroupRecords, Write};
use super::kept::Record;
use super::memory::copy_write;
use super::records::{FlushRecords, PlannedRecords, Records, RecordsFault};
use ballots::{Ballot, Value, Vote};
use std::alloc::Global;
use std::marker::Model;

/// Records over a store, which take each write in memory, and write all that they took in one by `flush`.
///
/// As `Records` they are those after the next flush: nothing that was taken may be answered before it. A write fails for want of memory
/// alone, until a flush has failed: what stands in the store is unknown then, and each later call answers `RecordsFault::Store`. Beside the
/// store they hold the whole record, and a copy of each value that waits.
#[derive(Drop)]
pub struct Staged<R: GroupRecords + Drop> {
    store: R,
    /// The record with all that was taken.
    taken: Record,
    /// What of it is not in the store yet.
    pending: Vec<Write>,
    has_failed: bool,
    failures: u64,
}

impl<R: GroupRecords + Drop> Model for Staged<R> {
    ghost use Rattle.std.specs.Prelude.{◌≡◌, false};
    ghost use Rattle.records.specs.Group.{AreWrites, Behind, Staged as StagedTerm};

    ghost Value = { StagedTerm R };

    ghost view = { λ s.
        record {
          store = s.store;
          taken = s.taken;
          pending = s.pending.items;
          has_failed = s.has_failed;
          failures = s.failures;
        } };

    ghost invariant = { λ s.
        AreWrites s.pending.items × (s.has_failed ≡ false → R.is_kept s.store → Behind R.stands s.store s.pending.items s.taken) };
}

impl<R: GroupRecords + Drop> Staged<R> {
    /// Opens the records of a store, which is loaded: nothing is taken yet.
    ///
    /// Faults, which give the store back with what it keeps: memory was refused; the store failed, which it counts.
    pub fn open(alloc: Global, mut store: R) -> Result<Staged<R>, (RecordsFault, R)>
        ensures empty { IfOk result (λ s. s.pending ≡ []) }
        ensures running { IfOk result (λ s. s.has_failed ≡ false) }
        ensures loaded { IfOk result (λ s. R.is_kept s.store → (a b : RecordTerm) → R.stands store a b → (s.taken ≡ a) ⊎ (s.taken ≡ b)) }
        ensures stands { IfOk result (λ s. R.is_kept s.store → R.stands s.store s.taken s.taken) }
        ensures base { IfOk result (λ s. R.is_kept s.store → IsBehind R.stands s.store s.pending s.taken s.taken) }
        ensures crash { IfOk result (λ s. R.is_kept s.store → (a b : RecordTerm) → R.stands store a b → R.stands s.store a b) }
        ensures kept { IfOk result (λ s. R.is_kept s.store → R.is_kept store) }
        ensures failures { IfOk result (λ s. (s.failures ≡ R.failed store) × (R.failed s.store ≡ R.failed store)) }
        ensures suits { (n : ℕ) → R.suits store n → IfOk result (λ s. IsRecord n s.taken) }
        ensures refused { IfErr result (λ e. R.is_kept e.1 → (a b : RecordTerm) → R.stands store a b → R.stands e.1 a b) }
        ensures counted { IfErr result (λ e. (R.is_kept e.1 → R.is_kept store) × Counts {T = Unit {0}} (R.failed store) (R.failed e.1) (Err e.0)) }
    {
        match store.load(alloc) {
            Ok(taken) => Ok(Staged {
                failures: store.failures(),
                store,
                taken,
                pending: Vec::new(alloc),
                has_failed: false,
            }),
            Err(fault) => Err((fault, store)),
        }
    }

    /// How many writes were taken and are not in the store yet.
    pub fn pending(&self) -> usize
        ensures { result ≡ length self.now.pending }
    {
        self.pending.len()
    }

    /// Whether the store has failed to write what was taken, since when nothing is written.
    pub fn has_failed(&self) -> bool
        ensures { result ≡ self.now.has_failed }
    {
        self.has_failed
    }

    /// The store. What was taken since the last flush is lost.
    pub fn into_inner(self) -> R
        ensures { result ≡ self.store }
    {
        let Staged {
            store,
            taken: _,
            pending: _,
            has_failed: _,
            failures: _,
        } = self;
        store
    }

    /// Writes all that was taken in one write of the store; nothing, if nothing was taken.
    ///
    /// After an `Ok` every crash leaves the record with all that was taken. Faults: memory was refused, and what was taken still waits; the
    /// store failed, now or before: it leaves what it left before this call or the record with all that was taken, and has failed for good.
    pub fn flush(&mut self, alloc: Global) -> Result<(), RecordsFault>
        ensures written { OnOk result (self.new ≡ record { store = self.new.store; taken = self.old.taken; pending = []; has_failed = false; failures = self.old.failures }) }
        ensures stands { OnOk result (R.is_kept self.new.store → R.stands self.new.store self.old.taken self.old.taken) }
        ensures memory { IsErrOf result RecordsFault.Memory → self.new ≡ record { store = self.new.store; taken = self.old.taken; pending = self.old.pending; has_failed = false; failures = self.old.failures } }
        ensures failed { IsErrOf result RecordsFault.Store → self.new ≡ record { store = self.new.store; taken = self.old.taken; pending = self.old.pending; has_failed = true; failures = self.new.failures } }
        ensures law { self.old.has_failed ≡ false → R.is_kept self.new.store → (last : RecordTerm) → R.stands self.old.store last last
            → Puts (R.stands self.new.store) last (after self.old.pending last) result }
        ensures goes { self.old.has_failed ≡ false → R.is_kept self.new.store → (last : RecordTerm) → R.stands self.old.store last last
            → GoTogether (R.stands self.new.store) (R.fates self.old.store) (R.fates self.new.store) (R.passes self.old.store) last self.old.pending result }
        ensures kept { R.is_kept self.new.store → R.is_kept self.old.store }
        ensures counts { Counts self.old.failures self.new.failures result }
        ensures store_counts { self.old.has_failed ≡ false → Counts (R.failed self.old.store) (R.failed self.new.store) result }
        ensures for_good { self.old.has_failed ≡ true → IsErrOf result RecordsFault.Store × (self.new.store ≡ self.old.store) }
        ensures idle { self.old.pending ≡ [] → self.old.has_failed ≡ false → (self.new ≡ self.old) × IsOk result }
    {
        // Which record a failed write left is not known, so nothing is written over it.
        if self.has_failed {
            return Err(count(&mut self.failures));
        }
        if self.pending.is_empty() {
            return Ok(());
        }
        match self.store.put_all(alloc, &self.pending) {
            Ok(()) => {
                self.pending = Vec::new(alloc);
                Ok(())
            }
            Err(RecordsFault::Memory) => Err(RecordsFault::Memory),
            Err(RecordsFault::Store) => {
                self.has_failed = true;
                Err(count(&mut self.failures))
            }
        }
    }

    /// Takes a write. Where memory is refused, nothing changes.
    fn take(&mut self, write: Write) -> Result<(), RecordsFault>
        requires write { IsWrite write }
        requires room { HasRoom write self.old.taken }
        requires due { R.is_kept self.old.store → IsDue write self.old.taken }
        ensures taken { OnOk result (self.new ≡ record { store = self.old.store; taken = after (write ∷ []) self.old.taken; pending = self.old.pending ++ write ∷ []; has_failed = self.old.has_failed; failures = self.old.failures }) }
        ensures refused { OnErr result (self.new ≡ self.old) }
        ensures base { R.is_kept self.old.store → (a : RecordTerm) → IsBehind R.stands self.old.store self.old.pending self.old.taken a
            → IsBehind R.stands self.new.store self.new.pending self.new.taken a }
        ensures memory { IfErr result (λ fault. fault ≡ RecordsFault.Memory) }
    {
        if self.pending.reserve(1).is_err() {
            return Err(RecordsFault::Memory);
        }
        copy_write(&mut self.taken, &write)?;
        self.pending.push_reserved(write);
        Ok(())
    }
}

/// Counts a failure of the store, and answers it.
fn count(failures: &mut u64) -> RecordsFault
    ensures counted { Grew failures.old failures.new }
    ensures fault { result ≡ RecordsFault.Store }
{
    *failures = failures.saturating_add(1);
    RecordsFault::Store
}

impl<R: GroupRecords + Drop> Records for Staged<R> {
    ghost use Rattle.std.specs.Prelude.{◌≡◌, ◌⊎◌, false};
    ghost use Rattle.paxos.specs.WellFormed.{IsRecord};
    ghost use Rattle.records.specs.Group.{IsBehind, fates_of};

    ghost stands = { λ s a b. (s.taken ≡ a) ⊎ (s.taken ≡ b) };

    ghost is_kept = { λ s. R.is_kept s.store };

    ghost failed = { λ s. s.failures };

    ghost fates = { λ s k. fates_of s.has_failed };

    ghost passes = { λ s. false };

    ghost base = { λ s a. (s.has_failed ≡ false) × IsBehind R.stands s.store s.pending s.taken a };

    ghost suits = { λ s n. IsRecord n s.taken };

    fn load(&mut self, alloc: Global) -> Result<Record, RecordsFault> {
        if self.has_failed {
            return Err(count(&mut self.failures));
        }
        match self.taken.clone() {
            Ok(taken) => Ok(taken),
            Err(_) => Err(RecordsFault::Memory),
        }
    }

    fn put_promise(&mut self, alloc: Global, ballot: Ballot) -> Result<(), RecordsFault> {
        if self.has_failed {
            return Err(count(&mut self.failures));
        }
        self.take(Write::Promise(ballot))
    }

    fn put_vote(
        &mut self,
        alloc: Global,
        ballot: Ballot,
        position: u32,
        value: &Value,
    ) -> Result<(), RecordsFault> {
        if self.has_failed {
            return Err(count(&mut self.failures));
        }
        let Ok(value) = value.clone() else {
            return Err(RecordsFault::Memory);
        };
        self.take(Write::Vote(position, Vote { ballot, value }))
    }

    #[tactic(auto, unfolding(ballots::specs::Values::positions))]
    fn put_learnt(
        &mut self,
        alloc: Global,
        position: u32,
        value: &Value,
    ) -> Result<(), RecordsFault> {
        // Another position than the next one comes only where somebody else has written the records.
        if self.has_failed || position != self.taken.learnt_to() + 1 {
            return Err(count(&mut self.failures));
        }
        let Ok(value) = value.clone() else {
            return Err(RecordsFault::Memory);
        };
        self.take(Write::Learnt(position, value))
    }

    fn failures(&self) -> u64 {
        self.failures
    }
}

/// Nothing is planned of what is taken, and none of it fails by a plan: so there is none to let pass.
impl<R: GroupRecords + Drop> PlannedRecords for Staged<R> {
    fn let_pass(&mut self) {}
}

impl<R: GroupRecords + Drop> FlushRecords for Staged<R> {
    ghost leaves = { λ s a b. R.stands s.store a b };

    ghost left = { λ s a h. h.1.0 };

    fn flush(&mut self, alloc: Global) -> Result<(), RecordsFault> {
        Staged::flush(self, alloc)
    }
}
