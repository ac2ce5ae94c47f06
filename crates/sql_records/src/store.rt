//! Records in a SQLite database.

ghost use Rattle.std.specs.Prelude.{◌≡◌, ◌≤◌, ◌↔◌, None, Some, false, IsTrue};
ghost use Rattle.paxos.specs.WellFormed.{IsRecord};
ghost use Rattle.records.specs.Law.{Counts, Grew};
ghost use Rattle.record_writes.specs.Members.{HasMember, HasMembers};
ghost use Rattle.sql_records.specs.Faults.{told};
ghost use Rattle.sql_records.specs.Opened.{IsCurrent, connection_of};

use super::load::load;
use super::reading::OpenFault;
use ballots::laws::spellings;
use ballots::{Ballot, Setup, Value, put_value};
use record_writes::{WriteFault, put_all, put_learnt, put_promise, put_vote};
use records::{GroupRecords, PlannedRecords, Record, Records, RecordsFault, Write};
use sqlite::{Alter, Connection};
use std::alloc::Global;
use std::marker::Model;

/// The record of one member in a SQLite database.
#[derive(Drop)]
pub struct SqlRecords<S: Alter> {
    connection: Connection<S>,
    setup: Setup,
    failures: u64,
    /// The record that was read when they were opened, up to the first load or write.
    read: Option<Record>,
}

impl<S: Alter> Model for SqlRecords<S> {
    ghost use Rattle.std.specs.Prelude.{IfSome};
    ghost use Rattle.paxos.specs.WellFormed.{IsRecord};
    ghost use Rattle.sql_records.specs.Opened.{Opened, opened_code, IsCurrent};

    ghost Value = { Opened S };

    ghost coded = { opened_code S.code };

    ghost view = { λ s. record { connection = s.connection; setup = s.setup; failures = s.failures } };

    ghost invariant = { λ s. IsCurrent S.Store s.connection s.setup s.read × IfSome s.read (λ r. IsRecord s.setup.members r) };
}

impl<S: Alter> SqlRecords<S> {
    /// The records over a connection, with no failures, and the record that was read there.
    pub(super) fn new(connection: Connection<S>, setup: Setup, read: Record) -> SqlRecords<S>
        requires current { IsCurrent S.Store connection setup (Some read) }
        requires sound { IsRecord setup.members read }
        ensures { result ≡ record { connection = connection; setup = setup; failures = 0 } }
    {
        SqlRecords {
            connection,
            setup,
            failures: 0,
            read: Some(read),
        }
    }

    /// The connection.
    pub fn into_connection(self) -> Connection<S>
        ensures { result ≡ connection_of self }
    {
        let SqlRecords {
            connection,
            setup: _,
            failures: _,
            read: _,
        } = self;
        connection
    }
}

/// Nothing is planned of writes to a database, and none of them fails by a plan: so there is none to let pass.
impl<S: Alter> PlannedRecords for SqlRecords<S> {
    fn let_pass(&mut self) {}
}

/// Counts a failure of the store, and answers it.
fn count(failures: &mut u64) -> RecordsFault
    ensures counted { Grew failures.old failures.new }
    ensures fault { result ≡ RecordsFault.Store }
{
    *failures = failures.saturating_add(1);
    RecordsFault::Store
}

/// Answers a write, and counts its failure.
fn answer(failures: &mut u64, done: Result<(), WriteFault>) -> Result<(), RecordsFault>
    ensures counts { Counts failures.old failures.new result }
    ensures result { result ≡ told done }
{
    match done {
        Ok(()) => Ok(()),
        Err(WriteFault::Memory) => Err(RecordsFault::Memory),
        Err(WriteFault::Store | WriteFault::Unseen) => Err(count(failures)),
    }
}

/// Whether there is the ballot's member.
fn has_member(setup: &Setup, ballot: Ballot) -> bool
    ensures { IsTrue result ↔ (ballot.member ≤ setup.now.members) }
{
    ballot.member <= setup.members().count()
}

/// Whether there is the member of a write's ballot.
fn is_of_member(setup: &Setup, write: &Write) -> bool
    ensures { IsTrue result ↔ HasMember setup.now.members write.now }
{
    match write {
        Write::Promise(ballot) => has_member(setup, *ballot),
        Write::Vote(_, vote) => has_member(setup, vote.ballot),
        Write::Learnt(_, _) => true,
    }
}

/// Whether there is the member of each ballot.
fn are_of_members(setup: &Setup, writes: &[Write]) -> bool
    ensures { IsTrue result ↔ HasMembers setup.now.members writes.now }
{
    for write in writes.iter() {
        if !is_of_member(setup, write) {
            return false;
        }
    }
    true
}

impl<S: Alter> Records for SqlRecords<S> {
    ghost use Rattle.std.specs.Prelude.{◌≡◌};
    ghost use Rattle.sqlite.specs.State.{HasCleanDisk};
    ghost use Rattle.sqlite.specs.Held.{state};
    ghost use Rattle.record_writes.specs.Holds.{Holds};
    ghost use Rattle.sql_records.specs.Opened.{connection_of, owner};

    ghost stands = { λ s a b. Holds (state S.Store (connection_of s)) (owner s) a b };

    ghost is_kept = { λ s. HasCleanDisk (state S.Store (connection_of s)) };

    ghost failed = { λ s. s.failures };

    ghost fates = { λ s k. None };

    ghost passes = { λ s. false };

    ghost base = { λ s a. ⊥ };

    ghost suits = { λ s n. n ≡ (owner s).members };

    fn load(&mut self, alloc: Global) -> Result<Record, RecordsFault> {
        spellings();
        if let Some(record) = self.read.take() {
            return Ok(record);
        }
        match load(alloc, &mut self.connection, &self.setup) {
            Ok(record) => Ok(record),
            Err(OpenFault::Memory) => Err(RecordsFault::Memory),
            Err(_) => Err(count(&mut self.failures)),
        }
    }

    fn put_promise(&mut self, _alloc: Global, ballot: Ballot) -> Result<(), RecordsFault> {
        spellings();
        self.read = None;
        if !has_member(&self.setup, ballot) {
            return Err(count(&mut self.failures));
        }
        let done = put_promise(&mut self.connection, ballot);
        answer(&mut self.failures, done)
    }

    fn put_vote(
        &mut self,
        alloc: Global,
        ballot: Ballot,
        position: u32,
        value: &Value,
    ) -> Result<(), RecordsFault> {
        spellings();
        self.read = None;
        if !has_member(&self.setup, ballot) {
            return Err(count(&mut self.failures));
        }
        let mut bytes = Vec::new(alloc);
        if put_value(value, &mut bytes).is_err() {
            return Err(RecordsFault::Memory);
        }
        let done = put_vote(&mut self.connection, ballot, position, bytes.as_slice());
        answer(&mut self.failures, done)
    }

    fn put_learnt(
        &mut self,
        alloc: Global,
        position: u32,
        value: &Value,
    ) -> Result<(), RecordsFault> {
        spellings();
        self.read = None;
        let mut bytes = Vec::new(alloc);
        if put_value(value, &mut bytes).is_err() {
            return Err(RecordsFault::Memory);
        }
        let done = put_learnt(&mut self.connection, position, bytes.as_slice());
        answer(&mut self.failures, done)
    }

    fn failures(&self) -> u64 {
        self.failures
    }
}

/// The writes are one transaction, so that the disk is synced once for all of them.
impl<S: Alter> GroupRecords for SqlRecords<S> {
    fn put_all(&mut self, alloc: Global, writes: &[Write]) -> Result<(), RecordsFault> {
        spellings();
        if writes.is_empty() {
            return Ok(());
        }
        self.read = None;
        if !are_of_members(&self.setup, writes) {
            return Err(count(&mut self.failures));
        }
        let done = put_all(alloc, &mut self.connection, writes);
        answer(&mut self.failures, done)
    }
}
