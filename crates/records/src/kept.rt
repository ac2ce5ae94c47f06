//! The record that an acceptor keeps over stops.

ghost use Rattle.std.specs.Prelude.{◌≡◌, ◌≤◌, ◌<◌, length, false, true, IfErr, IfOk, OnErr, OnOk};
ghost use Rattle.ballots.specs.Ballot.{IsBallot, below};
ghost use Rattle.ballots.specs.Values.{positions};
ghost use Rattle.ballots.specs.Messages.{window_of};
ghost use Rattle.paxos.specs.Records.{Record as RecordTerm, NewPromise, NewVote, NewLearnt, empty_record, has_vote, vote_at, window, with_vote, written};
ghost use Rattle.position_map.specs.Slots.{HasSlot, Rise, filled};
ghost use Rattle.records.specs.Kept.{IsRising, entries_of};
ghost use Rattle.records.specs.Law.{Counts, Goes, Puts};

use super::records::{PlannedRecords, Records, RecordsFault};
use ballots::limits::{MOST_ENTRIES, POSITIONS};
use ballots::{Ballot, Entry, Value, Vote, Window};
use position_map::PositionMap;
use std::alloc::{AllocError, Global};
use std::marker::Model;

/// What an acceptor keeps over stops ("Paxos Made Simple", sections 2.2 and 2.5): its promise, and its last vote at each position; and
/// the values that its member has learnt at the first positions, as far as they were kept.
#[derive(Drop)]
pub struct Record {
    promise: Ballot,
    votes: PositionMap<Vote>,
    learnt: Vec<Value>,
}

impl Model for Record {
    ghost use Rattle.paxos.specs.Records.{Record as RecordTerm};
    ghost use Rattle.records.specs.Kept.{record_code};

    ghost Value = { RecordTerm };

    ghost coded = { record_code };

    ghost use Rattle.std.specs.Prelude.{◌≤◌, length};
    ghost use Rattle.ballots.specs.Values.{positions};
    ghost use Rattle.position_map.specs.Slots.{Rise, filled};
    ghost use Rattle.records.specs.Kept.{entries_of};

    ghost view = { λ r. record { promise = r.promise; votes = entries_of (filled r.votes); learnt = r.learnt.items } };

    ghost invariant = { λ r. Rise 0 r.votes × (length r.learnt.items ≤ positions) };
}

impl Record {
    /// No promise and no votes, and nothing kept as learnt.
    pub fn new(alloc: Global) -> Record
        ensures { result ≡ empty_record }
    {
        Record {
            promise: Ballot::NONE,
            votes: PositionMap::new(alloc),
            learnt: Vec::new(alloc),
        }
    }

    /// The highest ballot that is promised, `Ballot::NONE` if there is none.
    pub fn promise(&self) -> Ballot
        ensures promise { result ≡ self.now.promise }
        ensures rising { IsRising self.now }
    {
        self.promise
    }

    /// Whether this very vote stands at a position.
    pub fn has_vote(&self, position: u32, vote: &Vote) -> bool
        ensures { result ≡ has_vote (vote_at position self.now.votes) vote.now }
    {
        match self.votes.get(position) {
            Some(old) => old.is_same(vote),
            None => false,
        }
    }

    /// The window that answers a Prepare of a ballot, from a position on: the votes there, lowest first, at most 8.
    ///
    /// It fails where memory is refused.
    pub fn window(&self, alloc: Global, ballot: Ballot, from: u32) -> Result<Window, AllocError>
        ensures { IfOk result (λ w. window_of w ≡ window ballot from self.now.votes) }
    {
        let mut entries: Vec<Entry> = Vec::new(alloc);
        let mut next = self.votes.next_from(from);
        while let Some(position) = next {
            if entries.len() == MOST_ENTRIES {
                let covered = entries[MOST_ENTRIES - 1].position;
                return Ok(Window {
                    ballot,
                    from,
                    covered,
                    entries,
                });
            }
            if let Some(vote) = self.votes.get(position) {
                entries.push(Entry {
                    position,
                    vote: vote.clone()?,
                })?;
            }
            next = self.votes.next_after(position);
        }
        Ok(Window {
            ballot,
            from,
            covered: POSITIONS,
            entries,
        })
    }

    /// Promises a ballot.
    pub fn set_promise(&mut self, ballot: Ballot)
        ensures { self.new ≡ written (NewPromise ballot) self.old }
    {
        self.promise = ballot;
    }

    /// Records a vote at a position, and its ballot as the promise.
    ///
    /// It fails where memory is refused, and then nothing has changed.
    pub fn set_vote(&mut self, position: u32, vote: Vote) -> Result<(), AllocError>
        requires least { 1 ≤ position }
        ensures voted { OnOk result (self.new ≡ written (NewVote position vote) self.old) }
        ensures refused { OnErr result (self.new ≡ self.old) }
    {
        self.votes.reserve(position)?;
        self.promise = vote.ballot;
        fill(&mut self.votes, position, vote);
        Ok(())
    }

    /// The values kept as learnt, at the positions from 1 on.
    pub fn learnt(&self) -> &[Value]
        ensures values { result.now ≡ self.now.learnt }
        ensures few { length self.now.learnt ≤ positions }
    {
        &self.learnt
    }

    /// How many values are kept as learnt.
    #[tactic(auto, unfolding(ballots::specs::Values::positions))]
    pub fn learnt_to(&self) -> u32
        ensures count { result ≡ length self.now.learnt }
        ensures few { length self.now.learnt ≤ positions }
    {
        self.learnt.len() as u32
    }

    /// Keeps a value as learnt at the next position.
    ///
    /// It fails where memory is refused, and then nothing has changed.
    pub fn push_learnt(&mut self, value: Value) -> Result<(), AllocError>
        requires few { length self.old.learnt < positions }
        ensures kept { OnOk result (self.new ≡ written (NewLearnt value) self.old) }
        ensures refused { OnErr result (self.new ≡ self.old) }
    {
        self.learnt.reserve(1)?;
        self.learnt.push_reserved(value);
        Ok(())
    }

    /// Promises a ballot once records have acknowledged it.
    ///
    /// Faults, which leave the record as it is: memory was refused; the store failed.
    pub fn put_promise<R: Records>(
        &mut self,
        alloc: Global,
        records: &mut R,
        ballot: Ballot,
    ) -> Result<(), RecordsFault>
        requires ballot { IsBallot ballot }
        requires not_below { below ballot self.old.promise ≡ false }
        requires stands { R.is_kept records.old → R.stands records.old self.old self.old }
        requires passes { R.passes records.old ≡ false }
        ensures made { OnOk result (self.new ≡ written (NewPromise ballot) self.old) }
        ensures refused { OnErr result (self.new ≡ self.old) }
        ensures law { R.is_kept records.new → Puts (R.stands records.new) self.old (written (NewPromise ballot) self.old) result }
        ensures goes { R.is_kept records.new → Goes (R.stands records.new) (R.fates records.old) (R.fates records.new) false self.old (written (NewPromise ballot) self.old) result }
        ensures kept { R.is_kept records.new → R.is_kept records.old }
        ensures base { R.is_kept records.new → (a : RecordTerm) → R.base records.old a → R.base records.new a }
        ensures counts { Counts (R.failed records.old) (R.failed records.new) result }
        ensures passes { R.passes records.new ≡ false }
    {
        records.put_promise(alloc, ballot)?;
        self.set_promise(ballot);
        Ok(())
    }

    /// Records a vote, and its ballot as the promise, once records have acknowledged it.
    ///
    /// Faults: as of `put_promise`.
    pub fn put_vote<R: Records>(
        &mut self,
        alloc: Global,
        records: &mut R,
        position: u32,
        vote: Vote,
    ) -> Result<(), RecordsFault>
        requires ballot { IsBallot vote.ballot }
        requires least { 1 ≤ position }
        requires most { position ≤ positions }
        requires not_below { below vote.ballot self.old.promise ≡ false }
        requires stands { R.is_kept records.old → R.stands records.old self.old self.old }
        requires passes { R.passes records.old ≡ false }
        ensures made { OnOk result (self.new ≡ written (NewVote position vote) self.old) }
        ensures refused { OnErr result (self.new ≡ self.old) }
        ensures law { R.is_kept records.new → Puts (R.stands records.new) self.old (written (NewVote position vote) self.old) result }
        ensures goes { R.is_kept records.new → Goes (R.stands records.new) (R.fates records.old) (R.fates records.new) false self.old (written (NewVote position vote) self.old) result }
        ensures kept { R.is_kept records.new → R.is_kept records.old }
        ensures base { R.is_kept records.new → (a : RecordTerm) → R.base records.old a → R.base records.new a }
        ensures counts { Counts (R.failed records.old) (R.failed records.new) result }
        ensures passes { R.passes records.new ≡ false }
    {
        // The room comes first, so that nothing fails once the records have acknowledged the vote.
        make_room(&mut self.votes, position)?;
        records.put_vote(alloc, vote.ballot, position, &vote.value)?;
        self.promise = vote.ballot;
        fill(&mut self.votes, position, vote);
        Ok(())
    }

    /// Keeps a value as learnt at the next position once records have acknowledged it.
    ///
    /// Faults: as of `put_promise`.
    #[tactic(auto, unfolding(ballots::specs::Values::positions))]
    pub fn put_learnt<R: Records>(
        &mut self,
        alloc: Global,
        records: &mut R,
        value: Value,
    ) -> Result<(), RecordsFault>
        requires few { length self.old.learnt < positions }
        requires stands { R.is_kept records.old → R.stands records.old self.old self.old }
        requires passes { R.passes records.old ≡ false }
        ensures made { OnOk result (self.new ≡ written (NewLearnt value) self.old) }
        ensures refused { OnErr result (self.new ≡ self.old) }
        ensures law { R.is_kept records.new → Puts (R.stands records.new) self.old (written (NewLearnt value) self.old) result }
        ensures goes { R.is_kept records.new → Goes (R.stands records.new) (R.fates records.old) (R.fates records.new) false self.old (written (NewLearnt value) self.old) result }
        ensures kept { R.is_kept records.new → R.is_kept records.old }
        ensures base { R.is_kept records.new → (a : RecordTerm) → R.base records.old a → R.base records.new a }
        ensures counts { Counts (R.failed records.old) (R.failed records.new) result }
        ensures passes { R.passes records.new ≡ false }
    {
        let position = self.learnt_to() + 1;
        // The room comes first, so that nothing fails once the records have acknowledged the value.
        if self.learnt.reserve(1).is_err() {
            return Err(RecordsFault::Memory);
        }
        records.put_learnt(alloc, position, &value)?;
        self.learnt.push_reserved(value);
        Ok(())
    }

    /// Promises a ballot as `put_promise` does, in a write that does not fail by a plan.
    ///
    /// Faults: as of `put_promise`.
    pub fn cut_promise<R: PlannedRecords>(
        &mut self,
        alloc: Global,
        records: &mut R,
        ballot: Ballot,
    ) -> Result<(), RecordsFault>
        requires ballot { IsBallot ballot }
        requires not_below { below ballot self.old.promise ≡ false }
        requires stands { R.is_kept records.old → R.stands records.old self.old self.old }
        requires passes { R.passes records.old ≡ false }
        ensures made { OnOk result (self.new ≡ written (NewPromise ballot) self.old) }
        ensures refused { OnErr result (self.new ≡ self.old) }
        ensures law { R.is_kept records.new → Puts (R.stands records.new) self.old (written (NewPromise ballot) self.old) result }
        ensures goes { R.is_kept records.new → Goes (R.stands records.new) (R.fates records.old) (R.fates records.new) true self.old (written (NewPromise ballot) self.old) result }
        ensures kept { R.is_kept records.new → R.is_kept records.old }
        ensures base { R.is_kept records.new → (a : RecordTerm) → R.base records.old a → R.base records.new a }
        ensures counts { Counts (R.failed records.old) (R.failed records.new) result }
        ensures passes { R.passes records.new ≡ false }
    {
        records.let_pass();
        records.put_promise(alloc, ballot)?;
        self.set_promise(ballot);
        Ok(())
    }

    /// Records a vote as `put_vote` does, in a write that does not fail by a plan.
    ///
    /// Faults: as of `put_promise`.
    pub fn cut_vote<R: PlannedRecords>(
        &mut self,
        alloc: Global,
        records: &mut R,
        position: u32,
        vote: Vote,
    ) -> Result<(), RecordsFault>
        requires ballot { IsBallot vote.ballot }
        requires least { 1 ≤ position }
        requires most { position ≤ positions }
        requires not_below { below vote.ballot self.old.promise ≡ false }
        requires stands { R.is_kept records.old → R.stands records.old self.old self.old }
        requires passes { R.passes records.old ≡ false }
        ensures made { OnOk result (self.new ≡ written (NewVote position vote) self.old) }
        ensures refused { OnErr result (self.new ≡ self.old) }
        ensures law { R.is_kept records.new → Puts (R.stands records.new) self.old (written (NewVote position vote) self.old) result }
        ensures goes { R.is_kept records.new → Goes (R.stands records.new) (R.fates records.old) (R.fates records.new) true self.old (written (NewVote position vote) self.old) result }
        ensures kept { R.is_kept records.new → R.is_kept records.old }
        ensures base { R.is_kept records.new → (a : RecordTerm) → R.base records.old a → R.base records.new a }
        ensures counts { Counts (R.failed records.old) (R.failed records.new) result }
        ensures passes { R.passes records.new ≡ false }
    {
        // The room comes first, so that nothing fails once the records have acknowledged the vote.
        make_room(&mut self.votes, position)?;
        records.let_pass();
        records.put_vote(alloc, vote.ballot, position, &vote.value)?;
        self.promise = vote.ballot;
        fill(&mut self.votes, position, vote);
        Ok(())
    }

    /// Keeps a value as learnt as `put_learnt` does, in a write that does not fail by a plan.
    ///
    /// Faults: as of `put_promise`.
    #[tactic(auto, unfolding(ballots::specs::Values::positions))]
    pub fn cut_learnt<R: PlannedRecords>(
        &mut self,
        alloc: Global,
        records: &mut R,
        value: Value,
    ) -> Result<(), RecordsFault>
        requires few { length self.old.learnt < positions }
        requires stands { R.is_kept records.old → R.stands records.old self.old self.old }
        requires passes { R.passes records.old ≡ false }
        ensures made { OnOk result (self.new ≡ written (NewLearnt value) self.old) }
        ensures refused { OnErr result (self.new ≡ self.old) }
        ensures law { R.is_kept records.new → Puts (R.stands records.new) self.old (written (NewLearnt value) self.old) result }
        ensures goes { R.is_kept records.new → Goes (R.stands records.new) (R.fates records.old) (R.fates records.new) true self.old (written (NewLearnt value) self.old) result }
        ensures kept { R.is_kept records.new → R.is_kept records.old }
        ensures base { R.is_kept records.new → (a : RecordTerm) → R.base records.old a → R.base records.new a }
        ensures counts { Counts (R.failed records.old) (R.failed records.new) result }
        ensures passes { R.passes records.new ≡ false }
    {
        let position = self.learnt_to() + 1;
        // The room comes first, so that nothing fails once the records have acknowledged the value.
        if self.learnt.reserve(1).is_err() {
            return Err(RecordsFault::Memory);
        }
        records.let_pass();
        records.put_learnt(alloc, position, &value)?;
        self.learnt.push_reserved(value);
        Ok(())
    }
}

/// Makes room for a vote at a position, and takes away what room a refused write has left elsewhere. The votes stay the same.
///
/// It fails where memory is refused.
fn make_room(votes: &mut PositionMap<Vote>, position: u32) -> Result<(), RecordsFault>
    requires least { 1 ≤ position }
    ensures room { OnOk result (HasSlot position votes.new) }
    ensures same { filled votes.new ≡ filled votes.old }
    ensures rise { Rise 0 votes.new }
    ensures memory { IfErr result (λ fault. fault ≡ RecordsFault.Memory) }
{
    votes.forget_rooms();
    match votes.reserve(position) {
        Ok(()) => Ok(()),
        Err(_) => Err(RecordsFault::Memory),
    }
}

/// Puts a vote where there is room or a vote. Room that is left is taken away.
fn fill(votes: &mut PositionMap<Vote>, position: u32, vote: Vote)
    requires room { HasSlot position votes.old }
    requires rise { Rise 0 votes.old }
    ensures put { entries_of (filled votes.new) ≡ with_vote position vote (entries_of (filled votes.old)) }
    ensures rise { Rise 0 votes.new }
{
    votes.fill(position, vote);
    votes.forget_rooms();
}

impl Clone for Record {
    ghost is_clone = { λ r s. s ≡ r };

    fn clone(&self) -> Result<Record, AllocError> {
        Ok(Record {
            promise: self.promise,
            votes: self.votes.clone()?,
            learnt: self.learnt.clone()?,
        })
    }
}
