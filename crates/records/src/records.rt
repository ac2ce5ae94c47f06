//! Where an acceptor keeps its record, so that it outlives stops.

ghost use Rattle.std.specs.Prelude.{◌≡◌, ◌⊎◌, ◌≤◌, ℕ, suc, length, Bool, None, Some, false, true, IfOk, IsErrOf, OnOk};
ghost use Rattle.ballots.specs.Ballot.{IsBallot, below};
ghost use Rattle.ballots.specs.Values.{positions};
ghost use Rattle.paxos.specs.Records.{Record as RecordTerm, NewPromise, NewVote, NewLearnt, written};
ghost use Rattle.paxos.specs.WellFormed.{IsRecord};
ghost use Rattle.records.specs.Law.{Counts, Fate, Goes, Puts};

use super::kept::Record;
use ballots::{Ballot, Value};
use std::alloc::Global;

/// Why a record is not written or read.
#[derive(Clone, Copy, PartialEq, Eq, Debug)]
pub enum RecordsFault {
    /// Memory was refused (1): the record is as it was.
    Memory,
    /// The store failed (2): the record is the old one or the new one, and the next load tells which.
    Store,
}

/// A store for one acceptor's record, which outlives the acceptor ("Paxos Made Simple", section 2.5).
///
/// Its law: after an `Ok` every crash leaves the new record; after a failure of the store the old or the new one, and `failures`
/// has grown by one in that call; after want of memory the old one. What `load` gives lasts until a later write changes it.
pub trait Records {
    /// Whatever a crash at this moment leaves, and the next load finds, is the one record or the other.
    ghost stands: { Self → RecordTerm → RecordTerm → Type 0 };

    /// So far nobody else has written the records, and what was written was returned.
    ghost is_kept: { Self → Type 0 };

    /// In how many calls the store has failed.
    ghost failed: { Self → ℕ };

    /// What is known of the writes to come, the next one first.
    ghost fates: { Self → ℕ → Fate };

    /// The next write is let pass.
    ghost passes: { Self → Bool };

    /// All that was written since a flush is held back: whatever it was, a crash leaves this record. Where nothing is held back, it is so of no
    /// record.
    ghost base: { Self → RecordTerm → Type 0 };

    /// What a load gives is a record that one of so many members may keep: a number out of its range, or a vote above the promise, is refused
    /// where it is read. It need not stay so over a write.
    ghost suits: { Self → (members : ℕ) → Type 0 };

    /// The record that was left. A store of which it is known what it does with writes gives it.
    fn load(&mut self, alloc: Global) -> Result<Record, RecordsFault>
        ensures found { is_kept self.new
            → IfOk result (λ r. stands self.new r r × ((a b : RecordTerm) → stands self.old a b → (r ≡ a) ⊎ (r ≡ b))) }
        ensures crash { is_kept self.new → (a b : RecordTerm) → stands self.old a b → stands self.new a b }
        ensures kept { is_kept self.new → is_kept self.old }
        ensures base { is_kept self.new → (a : RecordTerm) → base self.old a → base self.new a }
        ensures counts { Counts (failed self.old) (failed self.new) result }
        ensures fates { (k : ℕ) → fates self.new k ≡ fates self.old k }
        ensures passes { passes self.new ≡ false }
        ensures sure { IsErrOf result RecordsFault.Store → fates self.old 0 ≡ None }
        ensures sound { (n : ℕ) → suits self.old n → IfOk result (λ r. IsRecord n r) }
        ensures suits { (n : ℕ) → suits self.old n → suits self.new n };

    /// Acknowledges a promise, which is not below the one that stands.
    fn put_promise(&mut self, alloc: Global, ballot: Ballot) -> Result<(), RecordsFault>
        requires ballot { IsBallot ballot }
        requires not_below { is_kept self.old → (last : RecordTerm) × stands self.old last last × (below ballot last.promise ≡ false) }
        ensures law { is_kept self.new → (last : RecordTerm) → stands self.old last last
            → Puts (stands self.new) last (written (NewPromise ballot) last) result }
        ensures goes { is_kept self.new → (last : RecordTerm) → stands self.old last last
            → Goes (stands self.new) (fates self.old) (fates self.new) (passes self.old) last (written (NewPromise ballot) last) result }
        ensures kept { is_kept self.new → is_kept self.old }
        ensures base { is_kept self.new → (a : RecordTerm) → base self.old a → base self.new a }
        ensures counts { Counts (failed self.old) (failed self.new) result }
        ensures passes { passes self.new ≡ false };

    /// Acknowledges a vote, and its ballot as the promise, in one write. Its ballot is not below the promise that stands.
    fn put_vote(
        &mut self,
        alloc: Global,
        ballot: Ballot,
        position: u32,
        value: &Value,
    ) -> Result<(), RecordsFault>
        requires ballot { IsBallot ballot }
        requires least { 1 ≤ position }
        requires most { position ≤ positions }
        requires not_below { is_kept self.old → (last : RecordTerm) × stands self.old last last × (below ballot last.promise ≡ false) }
        ensures law { is_kept self.new → (last : RecordTerm) → stands self.old last last
            → Puts (stands self.new) last (written (NewVote position (record { ballot = ballot; value = value.now })) last) result }
        ensures goes { is_kept self.new → (last : RecordTerm) → stands self.old last last
            → Goes (stands self.new) (fates self.old) (fates self.new) (passes self.old) last (written (NewVote position (record { ballot = ballot; value = value.now })) last) result }
        ensures kept { is_kept self.new → is_kept self.old }
        ensures base { is_kept self.new → (a : RecordTerm) → base self.old a → base self.new a }
        ensures counts { Counts (failed self.old) (failed self.new) result }
        ensures passes { passes self.new ≡ false };

    /// Acknowledges that a value is learnt at a position, which is the first one past those that the record keeps as learnt.
    fn put_learnt(
        &mut self,
        alloc: Global,
        position: u32,
        value: &Value,
    ) -> Result<(), RecordsFault>
        requires most { position ≤ positions }
        requires next { is_kept self.old → (last : RecordTerm) × stands self.old last last × (position ≡ suc (length last.learnt)) }
        ensures law { is_kept self.new → (last : RecordTerm) → stands self.old last last
            → Puts (stands self.new) last (written (NewLearnt value.now) last) result }
        ensures goes { is_kept self.new → (last : RecordTerm) → stands self.old last last
            → Goes (stands self.new) (fates self.old) (fates self.new) (passes self.old) last (written (NewLearnt value.now) last) result }
        ensures kept { is_kept self.new → is_kept self.old }
        ensures base { is_kept self.new → (a : RecordTerm) → base self.old a → base self.new a }
        ensures counts { Counts (failed self.old) (failed self.new) result }
        ensures passes { passes self.new ≡ false };

    /// In how many calls the store has failed; at 2^64 - 1 it stays.
    fn failures(&self) -> u64
        ensures { result ≡ failed self.now };
}

/// Records whose writes fail by a plan, if they fail: what a member that stops inside a write leaves can be told of them alone.
pub trait PlannedRecords: Records {
    /// Lets the next write pass, if it is one that fails by the plan: the member stops in it, and what is left of it is said elsewhere. It
    /// ends with the next call. Records that never fail do nothing.
    fn let_pass(&mut self)
        ensures crash { Self.is_kept self.new → (a b : RecordTerm) → Self.stands self.old a b → Self.stands self.new a b }
        ensures kept { Self.is_kept self.new → Self.is_kept self.old }
        ensures base { Self.is_kept self.new → (a : RecordTerm) → Self.base self.old a → Self.base self.new a }
        ensures failed { Self.failed self.new ≡ Self.failed self.old }
        ensures fates { (k : ℕ) → Self.fates self.new k ≡ Self.fates self.old k }
        ensures passes { (left : Bool) → Self.fates self.old 0 ≡ Some (Some left) → Self.passes self.new ≡ true };
}

/// Records that may hold back what is written until a flush, which acknowledges it.
///
/// As `Records` they are what they will be after the next flush. What a crash leaves until then is said by `base`, and at each moment by
/// `leaves`.
pub trait FlushRecords: Records {
    /// Whatever a crash at this moment leaves, and the next start finds, is the one record or the other.
    ghost leaves: { Self → RecordTerm → RecordTerm → Type 0 };

    /// Acknowledges all that was written; nothing, where nothing is held back.
    ///
    /// After an `Ok` every crash leaves the record with all of it. Faults: memory was refused, and all of it is still held back; the store
    /// failed, now or before: a crash leaves what it left before this call, or the record with all of it.
    fn flush(&mut self, alloc: Global) -> Result<(), RecordsFault>
        ensures flushed { OnOk result (Self.is_kept self.new → (a : RecordTerm) → Self.stands self.new a a → Self.leaves self.new a a) }
        ensures renewed { OnOk result (Self.is_kept self.new → (a b : RecordTerm) → Self.base self.old a → Self.stands self.new b b → Self.base self.new b) }
        ensures memory { IsErrOf result RecordsFault.Memory → Self.is_kept self.new → (a : RecordTerm) → Self.base self.old a
            → Self.base self.new a × Self.leaves self.new a a }
        ensures store { IsErrOf result RecordsFault.Store → Self.is_kept self.new → (a b : RecordTerm) → Self.base self.old a → Self.stands self.old b b
            → Self.leaves self.new a b }
        ensures stands { Self.is_kept self.new → (a b : RecordTerm) → Self.stands self.old a b → Self.stands self.new a b }
        ensures kept { Self.is_kept self.new → Self.is_kept self.old }
        ensures counts { Counts (Self.failed self.old) (Self.failed self.new) result }
        ensures fates { (IsErrOf result RecordsFault.Store → ⊥) → (k : ℕ) → Self.fates self.new k ≡ Self.fates self.old k }
        ensures passes { Self.passes self.new ≡ Self.passes self.old };

    /// Where all since a flush is held back, a crash at this moment leaves the record of that flush.
    ghost left: { (s : Self) → (a : RecordTerm) → Self.base s a → leaves s a a };
}
