//! One acceptor ("Paxos Made Simple", sections 2.2 and 2.5) over any records.

ghost use Rattle.std.specs.Prelude.{◌≡◌, ◌⊎◌, ◌≤◌, ◌<◌, ◌↔◌, ℕ, length, true, false, IfOk, IfErr, IsOk, OnOk, OnErr, IsErrOf, option_map};
ghost use Rattle.ballots.specs.Ballot.{IsBallot, below};
ghost use Rattle.ballots.specs.Values.{positions};
ghost use Rattle.ballots.specs.Messages.{window_of};
ghost use Rattle.std.specs.Option.{option_copied};
ghost use Rattle.paxos.specs.Lists.{at};
ghost use Rattle.paxos.specs.Records.{Record as RecordTerm, NewPromise, NewLearnt, writes, written};
ghost use Rattle.paxos.specs.WellFormed.{IsRecord};
ghost use Rattle.records.specs.Kept.{IsRising};
ghost use Rattle.records.specs.Law.{Counts, Puts, Went};
ghost use Rattle.acceptor.specs.Drafts.{IsDue, IsRefused, write_of};
ghost use Rattle.acceptor.specs.Steps.{FlushFailed, Took, Stopped, IsAsWas, on_prepare_writes, on_prepare_answers, on_accept_writes, on_accept_answers};

use super::draft::Draft;
use ballots::{Ballot, Value, Vote, Window};
use records::{FlushRecords, PlannedRecords, Record, Records, RecordsFault, Write};
use std::alloc::Global;
use std::marker::Model;

/// An acceptor: it answers only what its records have acknowledged.
///
/// Once the store has failed, what stands there is unknown: the acceptor has stopped, and each call that may write answers
/// `RecordsFault::Store`, until its records are opened again.
#[derive(Drop)]
pub struct Acceptor<R: Records + Drop> {
    records: R,
    kept: Record,
    is_stopped: bool,
}

impl<R: Records + Drop> Model for Acceptor<R> {
    ghost use Rattle.std.specs.Prelude.{◌≡◌, false};
    ghost use Rattle.acceptor.specs.Steps.{Acceptor as AcceptorTerm};

    ghost Value = { AcceptorTerm R };

    ghost view = { λ a. record { records = a.records; kept = a.kept; is_stopped = a.is_stopped } };

    ghost invariant = { λ a. (R.passes a.records ≡ false) × (a.is_stopped ≡ false → R.is_kept a.records → R.stands a.records a.kept a.kept) };
}

impl<R: Records + Drop> Acceptor<R> {
    /// Opens records: what they keep, the acceptor has promised and accepted.
    ///
    /// Faults, which give the records back with what they keep: memory was refused; the store failed, which the records count.
    pub fn open(alloc: Global, mut records: R) -> Result<Acceptor<R>, (RecordsFault, R)>
        ensures running { IfOk result (λ a. a.is_stopped ≡ false) }
        ensures loaded { IfOk result (λ a. R.is_kept a.records → (x y : RecordTerm) → R.stands records x y → (a.kept ≡ x) ⊎ (a.kept ≡ y)) }
        ensures stands { IfOk result (λ a. R.is_kept a.records → R.stands a.records a.kept a.kept) }
        ensures crash { IfOk result (λ a. R.is_kept a.records → (x y : RecordTerm) → R.stands records x y → R.stands a.records x y) }
        ensures kept { IfOk result (λ a. R.is_kept a.records → R.is_kept records) }
        ensures base { IfOk result (λ a. R.is_kept a.records → (x : RecordTerm) → R.base records x → R.base a.records x) }
        ensures counts { IfOk result (λ a. R.failed a.records ≡ R.failed records) }
        ensures fates { IfOk result (λ a. (k : ℕ) → R.fates a.records k ≡ R.fates records k) }
        ensures suits { (n : ℕ) → R.suits records n → IfOk result (λ a. IsRecord n a.kept) }
        ensures refused { IfErr result (λ e. IsRefused R.stands R.is_kept R.failed R.fates records e.1 e.0) }
    {
        match records.load(alloc) {
            Ok(kept) => Ok(Acceptor {
                records,
                kept,
                is_stopped: false,
            }),
            Err(fault) => Err((fault, records)),
        }
    }

    /// The highest ballot that it has promised, `Ballot::NONE` if there is none.
    pub fn promised(&self) -> Ballot
        ensures promise { result ≡ self.now.kept.promise }
        ensures rising { IsRising self.now.kept }
    {
        self.kept.promise()
    }

    /// Whether its store has failed, since when it writes and answers nothing.
    pub fn has_stopped(&self) -> bool
        ensures { result ≡ self.now.is_stopped }
    {
        self.is_stopped
    }

    /// Promises a ballot of its own, above the promise ("Paxos Made Simple", section 2.5: what a proposer has tried outlives stops).
    ///
    /// Faults: memory was refused, and nothing has changed; the store failed, now or before, and the acceptor has stopped.
    pub fn on_begin(&mut self, alloc: Global, ballot: Ballot) -> Result<(), RecordsFault>
        requires ballot { IsBallot ballot }
        requires above { below self.old.kept.promise ballot ≡ true }
        ensures took { OnOk result (Took self.old self.new (NewPromise ballot)) }
        ensures memory { IsErrOf result RecordsFault.Memory → IsAsWas R.failed self.old self.new }
        ensures store { IsErrOf result RecordsFault.Store → Stopped R.stands R.is_kept R.failed self.old self.new (NewPromise ballot) }
        ensures stopped { self.old.is_stopped ≡ true → IsErrOf result RecordsFault.Store }
        ensures went { self.old.is_stopped ≡ false → R.is_kept self.new.records → Went (R.stands self.new.records) (R.fates self.old.records) (R.fates self.new.records) false self.old.kept (NewPromise ballot) result }
        ensures kept { R.is_kept self.new.records → R.is_kept self.old.records }
        ensures base { R.is_kept self.new.records → (a : RecordTerm) → R.base self.old.records a → R.base self.new.records a }
    {
        let draft = self.draft_begin(ballot)?;
        self.commit(alloc, draft)
    }

    /// Answers a Prepare: nothing below the promise, else the votes from a position on, at most 8. A ballot above the promise is
    /// promised first.
    ///
    /// Faults: as of `on_begin`.
    pub fn on_prepare(
        &mut self,
        alloc: Global,
        ballot: Ballot,
        from: u32,
    ) -> Result<Option<Window>, RecordsFault>
        requires ballot { IsBallot ballot }
        ensures answer { IfOk result (λ o. option_map window_of o ≡ on_prepare_answers self.old.kept ballot from) }
        ensures took { OnOk result (Took self.old self.new (on_prepare_writes self.old.kept ballot)) }
        ensures memory { IsErrOf result RecordsFault.Memory → IsAsWas R.failed self.old self.new }
        ensures store { IsErrOf result RecordsFault.Store → Stopped R.stands R.is_kept R.failed self.old self.new (on_prepare_writes self.old.kept ballot) }
        ensures stopped { self.old.is_stopped ≡ true → IsErrOf result RecordsFault.Store }
        ensures quiet { writes (on_prepare_writes self.old.kept ballot) ≡ false → self.new ≡ self.old }
        ensures silent { below ballot self.old.kept.promise ≡ true → self.old.is_stopped ≡ false → IsOk result }
        ensures went { self.old.is_stopped ≡ false → R.is_kept self.new.records → Went (R.stands self.new.records) (R.fates self.old.records) (R.fates self.new.records) false self.old.kept (on_prepare_writes self.old.kept ballot) result }
        ensures kept { R.is_kept self.new.records → R.is_kept self.old.records }
        ensures base { R.is_kept self.new.records → (a : RecordTerm) → R.base self.old.records a → R.base self.new.records a }
    {
        let draft = self.draft_prepare(alloc, ballot, from)?;
        self.commit(alloc, draft)
    }

    /// Answers an Accept: `false` below the promise, else `true`. The vote and the promise of its ballot are recorded first, in one
    /// write, unless that very vote stands there.
    ///
    /// Faults: as of `on_begin`.
    pub fn on_accept(
        &mut self,
        alloc: Global,
        position: u32,
        vote: &Vote,
    ) -> Result<bool, RecordsFault>
        requires ballot { IsBallot vote.now.ballot }
        requires least { 1 ≤ position }
        requires most { position ≤ positions }
        ensures answer { IfOk result (λ yes. yes ≡ on_accept_answers self.old.kept vote.now) }
        ensures took { OnOk result (Took self.old self.new (on_accept_writes self.old.kept position vote.now)) }
        ensures memory { IsErrOf result RecordsFault.Memory → IsAsWas R.failed self.old self.new }
        ensures store { IsErrOf result RecordsFault.Store → Stopped R.stands R.is_kept R.failed self.old self.new (on_accept_writes self.old.kept position vote.now) }
        ensures stopped { self.old.is_stopped ≡ true → IsErrOf result RecordsFault.Store }
        ensures quiet { writes (on_accept_writes self.old.kept position vote.now) ≡ false
            → (self.new ≡ self.old) × (self.old.is_stopped ≡ false → IsOk result) }
        ensures went { self.old.is_stopped ≡ false → R.is_kept self.new.records → Went (R.stands self.new.records) (R.fates self.old.records) (R.fates self.new.records) false self.old.kept (on_accept_writes self.old.kept position vote.now) result }
        ensures kept { R.is_kept self.new.records → R.is_kept self.old.records }
        ensures base { R.is_kept self.new.records → (a : RecordTerm) → R.base self.old.records a → R.base self.new.records a }
    {
        let draft = self.draft_accept(alloc, position, vote)?;
        self.commit(alloc, draft)
    }

    /// Keeps the value that is learnt at the first position past those that it has kept.
    ///
    /// Faults: as of `on_begin`.
    pub fn on_keep(&mut self, alloc: Global, value: &Value) -> Result<(), RecordsFault>
        requires few { length self.old.kept.learnt < positions }
        ensures took { OnOk result (Took self.old self.new (NewLearnt value.now)) }
        ensures memory { IsErrOf result RecordsFault.Memory → IsAsWas R.failed self.old self.new }
        ensures store { IsErrOf result RecordsFault.Store → Stopped R.stands R.is_kept R.failed self.old self.new (NewLearnt value.now) }
        ensures stopped { self.old.is_stopped ≡ true → IsErrOf result RecordsFault.Store }
        ensures went { self.old.is_stopped ≡ false → R.is_kept self.new.records → Went (R.stands self.new.records) (R.fates self.old.records) (R.fates self.new.records) false self.old.kept (NewLearnt value.now) result }
        ensures kept { R.is_kept self.new.records → R.is_kept self.old.records }
        ensures base { R.is_kept self.new.records → (a : RecordTerm) → R.base self.old.records a → R.base self.new.records a }
    {
        let draft = self.draft_keep(value)?;
        self.commit(alloc, draft)
    }

    /// How many values it has kept as learnt: those at the positions from 1 on.
    pub fn kept(&self) -> u32
        ensures count { result ≡ length self.now.kept.learnt }
        ensures few { length self.now.kept.learnt ≤ positions }
    {
        self.kept.learnt_to()
    }

    /// The values that it has kept as learnt, at the positions from 1 on.
    pub fn learnt(&self) -> &[Value]
        ensures values { result.now ≡ self.now.kept.learnt }
        ensures few { length self.now.kept.learnt ≤ positions }
    {
        self.kept.learnt()
    }

    /// The value that it has kept as learnt at a position, if there is one.
    pub fn held(&self, position: u32) -> Option<&Value>
        ensures { option_copied result ≡ at self.now.kept.learnt position }
    {
        if position == 0 {
            return None;
        }
        self.kept.learnt().get(position as usize - 1)
    }

    /// What `on_begin` is about to write.
    ///
    /// Faults: the acceptor has stopped.
    pub fn draft_begin(&self, ballot: Ballot) -> Result<Draft<()>, RecordsFault>
        requires ballot { IsBallot ballot }
        requires above { below self.now.kept.promise ballot ≡ true }
        ensures write { IfOk result (λ d. d.write ≡ NewPromise ballot) }
        ensures due { IfOk result (λ d. IsDue self.now.kept d.write) }
        ensures running { OnOk result (self.now.is_stopped ≡ false) }
        ensures stopped { OnErr result (self.now.is_stopped ≡ true) }
        ensures fault { IfErr result (λ fault. fault ≡ RecordsFault.Store) }
    {
        if self.is_stopped {
            return Err(RecordsFault::Store);
        }
        Ok(Draft {
            answer: (),
            write: Some(Write::Promise(ballot)),
        })
    }

    /// What `on_prepare` is about to write and to answer.
    ///
    /// Faults: memory was refused; the acceptor has stopped.
    pub fn draft_prepare(
        &self,
        alloc: Global,
        ballot: Ballot,
        from: u32,
    ) -> Result<Draft<Option<Window>>, RecordsFault>
        requires ballot { IsBallot ballot }
        ensures answer { IfOk result (λ d. option_map window_of d.answer ≡ on_prepare_answers self.now.kept ballot from) }
        ensures write { IfOk result (λ d. d.write ≡ on_prepare_writes self.now.kept ballot) }
        ensures due { IfOk result (λ d. IsDue self.now.kept d.write) }
        ensures running { OnOk result (self.now.is_stopped ≡ false) }
        ensures stopped { IsErrOf result RecordsFault.Store ↔ (self.now.is_stopped ≡ true) }
        ensures silent { below ballot self.now.kept.promise ≡ true → self.now.is_stopped ≡ false → IsOk result }
    {
        if self.is_stopped {
            return Err(RecordsFault::Store);
        }
        let promise = self.promised();
        if ballot.is_below(promise) {
            return Ok(Draft {
                answer: None,
                write: None,
            });
        }
        let Ok(window) = self.kept.window(alloc, ballot, from) else {
            return Err(RecordsFault::Memory);
        };
        // A Prepare that comes again is answered again, since the first answer may be lost; the record says it already.
        let write = if promise.is_below(ballot) {
            Some(Write::Promise(ballot))
        } else {
            None
        };
        Ok(Draft {
            answer: Some(window),
            write,
        })
    }

    /// What `on_accept` is about to write and to answer.
    ///
    /// Faults: memory was refused; the acceptor has stopped.
    pub fn draft_accept(
        &self,
        alloc: Global,
        position: u32,
        vote: &Vote,
    ) -> Result<Draft<bool>, RecordsFault>
        requires ballot { IsBallot vote.now.ballot }
        requires least { 1 ≤ position }
        requires most { position ≤ positions }
        ensures answer { IfOk result (λ d. d.answer ≡ on_accept_answers self.now.kept vote.now) }
        ensures write { IfOk result (λ d. d.write ≡ on_accept_writes self.now.kept position vote.now) }
        ensures due { IfOk result (λ d. IsDue self.now.kept d.write) }
        ensures running { OnOk result (self.now.is_stopped ≡ false) }
        ensures stopped { IsErrOf result RecordsFault.Store ↔ (self.now.is_stopped ≡ true) }
        ensures quiet { writes (on_accept_writes self.now.kept position vote.now) ≡ false → self.now.is_stopped ≡ false → IsOk result }
    {
        if self.is_stopped {
            return Err(RecordsFault::Store);
        }
        if vote.ballot.is_below(self.promised()) {
            return Ok(Draft {
                answer: false,
                write: None,
            });
        }
        // The vote is told again, since that may have been lost; the record has it already.
        if self.kept.has_vote(position, vote) {
            return Ok(Draft {
                answer: true,
                write: None,
            });
        }
        let Ok(copy) = vote.clone() else {
            return Err(RecordsFault::Memory);
        };
        Ok(Draft {
            answer: true,
            write: Some(Write::Vote(position, copy)),
        })
    }

    /// What `on_keep` is about to write.
    ///
    /// Faults: memory was refused; the acceptor has stopped.
    #[tactic(auto, unfolding(ballots::specs::Values::positions))]
    pub fn draft_keep(&self, value: &Value) -> Result<Draft<()>, RecordsFault>
        requires few { length self.now.kept.learnt < positions }
        ensures write { IfOk result (λ d. d.write ≡ NewLearnt value.now) }
        ensures due { IfOk result (λ d. IsDue self.now.kept d.write) }
        ensures running { OnOk result (self.now.is_stopped ≡ false) }
        ensures stopped { IsErrOf result RecordsFault.Store ↔ (self.now.is_stopped ≡ true) }
    {
        if self.is_stopped {
            return Err(RecordsFault::Store);
        }
        let Ok(copy) = value.clone() else {
            return Err(RecordsFault::Memory);
        };
        Ok(Draft {
            answer: (),
            write: Some(Write::Learnt(self.kept() + 1, copy)),
        })
    }

    /// Makes what was drafted for this very acceptor, which has not changed since, and gives the answer.
    ///
    /// Faults: as of `on_begin`.
    pub fn commit<A: Drop>(&mut self, alloc: Global, draft: Draft<A>) -> Result<A, RecordsFault>
        requires due { IsDue self.old.kept draft.write }
        ensures answer { IfOk result (λ a. a ≡ draft.answer) }
        ensures took { OnOk result (Took self.old self.new draft.write) }
        ensures memory { IsErrOf result RecordsFault.Memory → IsAsWas R.failed self.old self.new }
        ensures store { IsErrOf result RecordsFault.Store → Stopped R.stands R.is_kept R.failed self.old self.new draft.write }
        ensures stopped { self.old.is_stopped ≡ true → IsErrOf result RecordsFault.Store }
        ensures quiet { writes draft.write ≡ false → (self.new ≡ self.old) × (self.old.is_stopped ≡ false → IsOk result) }
        ensures went { self.old.is_stopped ≡ false → R.is_kept self.new.records → Went (R.stands self.new.records) (R.fates self.old.records) (R.fates self.new.records) false self.old.kept draft.write result }
        ensures kept { R.is_kept self.new.records → R.is_kept self.old.records }
        ensures base { R.is_kept self.new.records → (a : RecordTerm) → R.base self.old.records a → R.base self.new.records a }
    {
        let Draft { answer, write } = draft;
        match self.write(alloc, write) {
            Ok(()) => Ok(answer),
            Err(fault) => Err(fault),
        }
    }

    /// Makes a write.
    fn write(&mut self, alloc: Global, write: Option<Write>) -> Result<(), RecordsFault>
        requires due { IsDue self.old.kept (write_of write) }
        ensures took { OnOk result (Took self.old self.new (write_of write)) }
        ensures memory { IsErrOf result RecordsFault.Memory → IsAsWas R.failed self.old self.new }
        ensures store { IsErrOf result RecordsFault.Store → Stopped R.stands R.is_kept R.failed self.old self.new (write_of write) }
        ensures stopped { self.old.is_stopped ≡ true → IsErrOf result RecordsFault.Store }
        ensures quiet { writes (write_of write) ≡ false → (self.new ≡ self.old) × (self.old.is_stopped ≡ false → IsOk result) }
        ensures went { self.old.is_stopped ≡ false → R.is_kept self.new.records → Went (R.stands self.new.records) (R.fates self.old.records) (R.fates self.new.records) false self.old.kept (write_of write) result }
        ensures kept { R.is_kept self.new.records → R.is_kept self.old.records }
        ensures base { R.is_kept self.new.records → (a : RecordTerm) → R.base self.old.records a → R.base self.new.records a }
    {
        if self.is_stopped {
            return Err(RecordsFault::Store);
        }
        match make(alloc, &mut self.records, &mut self.kept, write) {
            Ok(()) => Ok(()),
            Err(RecordsFault::Memory) => Err(RecordsFault::Memory),
            Err(RecordsFault::Store) => {
                self.is_stopped = true;
                Err(RecordsFault::Store)
            }
        }
    }

    /// The records, as they were left.
    pub fn into_records(self) -> R
        ensures { result ≡ self.records }
    {
        self.records
    }
}

impl<R: FlushRecords + Drop> Acceptor<R> {
    /// Acknowledges all that was written since the last flush, if its records hold that back: what a call has given out since rests on it.
    ///
    /// Faults: memory was refused, and all of it is still held back; the store failed, now or before, and the acceptor has stopped.
    pub fn flush(&mut self, alloc: Global) -> Result<(), RecordsFault>
        ensures same { OnOk result (IsAsWas R.failed self.old self.new) }
        ensures running { OnOk result (self.new.is_stopped ≡ false) }
        ensures flushed { OnOk result (R.is_kept self.new.records → R.leaves self.new.records self.old.kept self.old.kept) }
        ensures renewed { OnOk result (R.is_kept self.new.records → (a : RecordTerm) → R.base self.old.records a → R.base self.new.records self.old.kept) }
        ensures memory { IsErrOf result RecordsFault.Memory → IsAsWas R.failed self.old self.new }
        ensures held { IsErrOf result RecordsFault.Memory → R.is_kept self.new.records → (a : RecordTerm) → R.base self.old.records a
            → R.base self.new.records a × R.leaves self.new.records a a }
        ensures store { IsErrOf result RecordsFault.Store → self.old.is_stopped ≡ false → FlushFailed R.base R.leaves R.is_kept R.failed self.old self.new }
        ensures stopped { self.old.is_stopped ≡ true → IsErrOf result RecordsFault.Store × (self.new ≡ self.old) }
        ensures kept { R.is_kept self.new.records → R.is_kept self.old.records }
        ensures fates { (IsErrOf result RecordsFault.Store → ⊥) → (k : ℕ) → R.fates self.new.records k ≡ R.fates self.old.records k }
    {
        if self.is_stopped {
            return Err(RecordsFault::Store);
        }
        match self.records.flush(alloc) {
            Ok(()) => Ok(()),
            Err(RecordsFault::Memory) => Err(RecordsFault::Memory),
            Err(RecordsFault::Store) => {
                self.is_stopped = true;
                Err(RecordsFault::Store)
            }
        }
    }
}

impl<R: PlannedRecords + Drop> Acceptor<R> {
    /// Makes the write of what was drafted for this very acceptor, which has not changed since. Its member stops in this write, so a
    /// store that would fail by a plan makes it.
    ///
    /// Faults: as of `on_begin`.
    pub fn cut<A: Drop>(&mut self, alloc: Global, draft: Draft<A>) -> Result<(), RecordsFault>
        requires due { IsDue self.old.kept draft.write }
        ensures took { OnOk result (Took self.old self.new draft.write) }
        ensures memory { IsErrOf result RecordsFault.Memory → IsAsWas R.failed self.old self.new }
        ensures store { IsErrOf result RecordsFault.Store → Stopped R.stands R.is_kept R.failed self.old self.new draft.write }
        ensures stopped { self.old.is_stopped ≡ true → IsErrOf result RecordsFault.Store }
        ensures quiet { writes draft.write ≡ false → (self.new ≡ self.old) × (self.old.is_stopped ≡ false → IsOk result) }
        ensures went { self.old.is_stopped ≡ false → R.is_kept self.new.records → Went (R.stands self.new.records) (R.fates self.old.records) (R.fates self.new.records) true self.old.kept draft.write result }
        ensures kept { R.is_kept self.new.records → R.is_kept self.old.records }
        ensures base { R.is_kept self.new.records → (a : RecordTerm) → R.base self.old.records a → R.base self.new.records a }
    {
        if self.is_stopped {
            return Err(RecordsFault::Store);
        }
        match cut(alloc, &mut self.records, &mut self.kept, draft.write) {
            Ok(()) => Ok(()),
            Err(RecordsFault::Memory) => Err(RecordsFault::Memory),
            Err(RecordsFault::Store) => {
                self.is_stopped = true;
                Err(RecordsFault::Store)
            }
        }
    }
}

/// Makes a write, and then the same change of the record.
fn make<R: Records>(
    alloc: Global,
    records: &mut R,
    kept: &mut Record,
    write: Option<Write>,
) -> Result<(), RecordsFault>
    requires due { IsDue kept.old (write_of write) }
    requires stands { R.is_kept records.old → R.stands records.old kept.old kept.old }
    requires passes { R.passes records.old ≡ false }
    ensures made { OnOk result (kept.new ≡ written (write_of write) kept.old) }
    ensures refused { OnErr result (kept.new ≡ kept.old) }
    ensures law { R.is_kept records.new → Puts (R.stands records.new) kept.old (written (write_of write) kept.old) result }
    ensures went { R.is_kept records.new → Went (R.stands records.new) (R.fates records.old) (R.fates records.new) false kept.old (write_of write) result }
    ensures kept { R.is_kept records.new → R.is_kept records.old }
    ensures base { R.is_kept records.new → (a : RecordTerm) → R.base records.old a → R.base records.new a }
    ensures counts { Counts (R.failed records.old) (R.failed records.new) result }
    ensures quiet { writes (write_of write) ≡ false → IsOk result × (records.new ≡ records.old) }
    ensures passes { R.passes records.new ≡ false }
{
    match write {
        None => Ok(()),
        Some(Write::Promise(ballot)) => kept.put_promise(alloc, records, ballot),
        Some(Write::Vote(position, vote)) => kept.put_vote(alloc, records, position, vote),
        Some(Write::Learnt(_, value)) => kept.put_learnt(alloc, records, value),
    }
}

/// Makes a write that does not fail by a plan, and then the same change of the record.
fn cut<R: PlannedRecords>(
    alloc: Global,
    records: &mut R,
    kept: &mut Record,
    write: Option<Write>,
) -> Result<(), RecordsFault>
    requires due { IsDue kept.old (write_of write) }
    requires stands { R.is_kept records.old → R.stands records.old kept.old kept.old }
    requires passes { R.passes records.old ≡ false }
    ensures made { OnOk result (kept.new ≡ written (write_of write) kept.old) }
    ensures refused { OnErr result (kept.new ≡ kept.old) }
    ensures law { R.is_kept records.new → Puts (R.stands records.new) kept.old (written (write_of write) kept.old) result }
    ensures went { R.is_kept records.new → Went (R.stands records.new) (R.fates records.old) (R.fates records.new) true kept.old (write_of write) result }
    ensures kept { R.is_kept records.new → R.is_kept records.old }
    ensures base { R.is_kept records.new → (a : RecordTerm) → R.base records.old a → R.base records.new a }
    ensures counts { Counts (R.failed records.old) (R.failed records.new) result }
    ensures quiet { writes (write_of write) ≡ false → IsOk result × (records.new ≡ records.old) }
    ensures passes { R.passes records.new ≡ false }
{
    match write {
        None => Ok(()),
        Some(Write::Promise(ballot)) => kept.cut_promise(alloc, records, ballot),
        Some(Write::Vote(position, vote)) => kept.cut_vote(alloc, records, position, vote),
        Some(Write::Learnt(_, value)) => kept.cut_learnt(alloc, records, value),
    }
}
