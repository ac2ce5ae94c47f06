//! A node.

ghost use Rattle.std.specs.Prelude.{◌≡◌, ◌≤◌, ◌⊎◌, ◌↔◌, ℕ, length, [], false, true, is_some, IfOk, IfErr, OnOk, IsErrOf};
ghost use Rattle.std.specs.Option.{option_copied};
ghost use Rattle.acceptor.specs.Drafts.{IsRefused};
ghost use Rattle.acceptor.specs.Steps.{FlushFailed, IsAsWas, Stopped};
ghost use Rattle.ballots.specs.Messages.{Packet as Posted};
ghost use Rattle.member.specs.Drafts.{IsReady, write_in};
ghost use Rattle.member.specs.Steps.{Input as InputTerm, Hears, ticked};
ghost use Rattle.messages.specs.Reading.{Fails, Gives, datagram_read};
ghost use Rattle.messages.specs.Spelling.{Datagram, spelling};
ghost use Rattle.messages.specs.declared.fault.WireFault.{WireFault as WireFaultTerm};
ghost use Rattle.node.specs.Nodes.{HasFailed, HasStarted, HasStayed, IsDrafted, IsFrom, IsOfTick, IsSpent, IsStrange, IsUnchanged, Reads, RunsAs, Steps, of_records, records_fault};
ghost use Rattle.paxos.specs.Knowledge.{learnt as learnt_at, news, prefix};
ghost use Rattle.paxos.specs.Records.{Record as RecordTerm, writes, written};
ghost use Rattle.paxos.specs.Step.{Running, may_begin, values_of};
ghost use Rattle.paxos.specs.WellFormed.{IsRecord};
ghost use Rattle.proposer.specs.Following.{is_followed};
ghost use Rattle.records.specs.Law.{Went};

use super::answers::Answers;
use super::applying::apply_learnt;
use super::draft::Draft;
use super::fault::{NodeFault, OpenFault};
use super::outbox::{Outbox, Reading};
use applications::Application;
use ballots::{Setup, Value};
use member::{Member, Tick};
use messages::{WireFault, decode};
use records::{FlushRecords, PlannedRecords, Records, RecordsFault};
use std::alloc::Global;
use std::marker::Model;

/// A node: one of the members of a group, with the application that it replicates.
#[derive(Drop)]
pub struct Node<R: Records + Drop, A: Application + Drop> {
    pub(super) setup: Setup,
    pub(super) member: Member<R>,
    pub(super) application: A,
    /// The latest answers of the application as it is.
    pub(super) answers: Answers,
}

impl<R: Records + Drop, A: Application + Drop> Model for Node<R, A> {
    ghost use Rattle.std.specs.Prelude.{◌≡◌, ◌≤◌};
    ghost use Rattle.ballots.specs.Terms.{IsPlace};
    ghost use Rattle.node.specs.Answering.{AreAnswers};
    ghost use Rattle.node.specs.Nodes.{Node as NodeTerm};

    ghost Value = { NodeTerm R A };

    ghost view = { λ x. record { setup = x.setup; member = x.member; application = x.application } };

    ghost invariant = { λ x. (x.member.members ≡ x.setup.members) × (x.member.number ≡ x.setup.member) × IsPlace x.setup.member x.setup.members
        × AreAnswers A.has_applied A.meaning x.application x.answers.kept.items };
}

/// Why a node does not open over records that are refused.
fn open_fault(fault: RecordsFault) -> OpenFault
    ensures { records_fault result ≡ fault }
{
    match fault {
        RecordsFault::Memory => OpenFault::Memory,
        RecordsFault::Store => OpenFault::Store,
    }
}

impl<R: Records + Drop, A: Application + Drop> Node<R, A> {
    /// Opens records as the member that the setup names: it has promised and accepted what they keep, has learnt what they keep as learnt,
    /// and has heard nothing else. It applies what is learnt, while memory is found, and says whether it stopped short of that: a later call
    /// applies the rest.
    ///
    /// The records are those of this member among as many. Records that suit as many members are, as those of a file that was opened for this
    /// setup; of others it is known where the record that they keep is one that a member of so many may keep.
    ///
    /// Faults, which give the setup back, and the records with what they keep: memory was refused (3); the store failed (4), which the records
    /// count.
    pub fn open(
        alloc: Global,
        setup: Setup,
        records: R,
    ) -> Result<(Node<R, A>, bool), (OpenFault, Setup, R)>
        ensures setup { IfOk result (λ o. o.0.setup ≡ setup) }
        ensures started { IfOk result (λ o. IsRecord setup.members o.0.member.acceptor.kept → HasStarted A.has_applied o.0 o.1) }
        ensures running { IfOk result (λ o. o.0.member.acceptor.is_stopped ≡ false) }
        ensures loaded { IfOk result (λ o. R.is_kept o.0.member.acceptor.records → (a b : RecordTerm) → R.stands records a b → (o.0.member.acceptor.kept ≡ a) ⊎ (o.0.member.acceptor.kept ≡ b)) }
        ensures stands { IfOk result (λ o. R.is_kept o.0.member.acceptor.records → R.stands o.0.member.acceptor.records o.0.member.acceptor.kept o.0.member.acceptor.kept) }
        ensures kept { IfOk result (λ o. R.is_kept o.0.member.acceptor.records → R.is_kept records) }
        ensures base { IfOk result (λ o. R.is_kept o.0.member.acceptor.records → (a : RecordTerm) → R.base records a → R.base o.0.member.acceptor.records a) }
        ensures counts { IfOk result (λ o. R.failed o.0.member.acceptor.records ≡ R.failed records) }
        ensures fates { IfOk result (λ o. (k : ℕ) → R.fates o.0.member.acceptor.records k ≡ R.fates records k) }
        ensures suits { (n : ℕ) → R.suits records n → IfOk result (λ o. IsRecord n o.0.member.acceptor.kept) }
        ensures begun { R.suits records setup.members → IfOk result (λ o. HasStarted A.has_applied o.0 o.1) }
        ensures refused { IfErr result (λ e. (e.1 ≡ setup) × IsRefused R.stands R.is_kept R.failed R.fates records e.2 (records_fault e.0)) }
    {
        let Ok(mut application) = A::new(alloc, setup.names()) else {
            return Err((OpenFault::Memory, setup, records));
        };
        match Member::open(alloc, setup.members(), setup.member(), records) {
            Ok(member) => {
                let mut answers = Answers::new(alloc);
                let is_short = apply_learnt(alloc, &member, &mut application, &mut answers);
                let node = Node {
                    setup,
                    member,
                    application,
                    answers,
                };
                Ok((node, is_short))
            }
            Err((fault, records)) => Err((open_fault(fault), setup, records)),
        }
    }

    /// What it was told when it was set up.
    pub fn setup(&self) -> &Setup
        ensures { result.now ≡ self.now.setup }
    {
        &self.setup
    }

    /// What comes of received bytes: what it writes, sends and tells once it is committed. Nothing that shows has changed, but the room that it
    /// takes.
    ///
    /// Faults: the node has stopped; the bytes are no message; the message is of another group, from or about a member that there is not, or of
    /// a kind that goes to clients; memory was refused.
    pub fn draft(&mut self, alloc: Global, bytes: &[u8]) -> Result<Draft, NodeFault>
        ensures drafted { IfOk result (λ d. (k : Posted) × IsFrom self.new.setup bytes.now k × IsDrafted A.has_applied (A.meaning self.new.setup.names) (Hears k) self.new d) }
        ensures same { HasStayed A.has_applied self.old self.new }
        ensures wire { (f : WireFaultTerm) → IsErrOf result (NodeFault.Wire f) → datagram_read bytes.now ≡ Fails f }
        ensures stranger { IsErrOf result NodeFault.Stranger → (d : Datagram) × (bytes.now ≡ spelling d) × (datagram_read bytes.now ≡ Gives d []) × IsStrange self.old.setup d }
        ensures stopped { IsErrOf result NodeFault.Stopped ↔ (self.old.member.acceptor.is_stopped ≡ true) }
        ensures store { IsErrOf result NodeFault.Store → ⊥ }
        ensures spent { (u : Running) → RunsAs A.has_applied u self.new → IsErrOf result NodeFault.Spent → ⊥ }
    {
        if self.member.has_stopped() {
            return Err(NodeFault::Stopped);
        }
        match decode(alloc, bytes) {
            Ok(packet) => self.draft_packet(alloc, &packet),
            Err(WireFault::Memory) => Err(NodeFault::Memory),
            Err(fault) => Err(NodeFault::Wire(fault)),
        }
    }

    /// Makes what was drafted for this very node, which has not changed since: first what its records are to keep. Then it applies what is
    /// learnt, while memory is found.
    ///
    /// Faults: memory was refused, and nothing that shows has changed; the store failed, and the node has stopped.
    pub fn commit(&mut self, alloc: Global, draft: Draft) -> Result<Outbox, NodeFault>
        requires ready { IsReady self.old.member draft.member }
        ensures took { IfOk result (λ o. (i : InputTerm) → IsDrafted A.has_applied (A.meaning self.old.setup.names) i self.old draft
            → Steps A.has_applied (A.meaning self.old.setup.names) i self.old self.new o) }
        ensures says { IfOk result (λ o. (o.sent.items ≡ draft.sent.items) × (o.tells.items ≡ draft.member.tells.items)) }
        ensures memory { IsErrOf result NodeFault.Memory → IsAsWas R.failed self.old.member.acceptor self.new.member.acceptor
            × ((u : Running) → RunsAs A.has_applied u self.old → RunsAs A.has_applied u self.new) }
        ensures store { IsErrOf result NodeFault.Store → Stopped R.stands R.is_kept R.failed self.old.member.acceptor self.new.member.acceptor (write_in draft.member.change) }
        ensures faults { IfErr result (λ fault. (fault ≡ NodeFault.Memory) ⊎ (fault ≡ NodeFault.Store)) }
        ensures runs { OnOk result (self.old.member.acceptor.is_stopped ≡ false → self.new.member.acceptor.is_stopped ≡ false) }
        ensures writes { IsErrOf result NodeFault.Store → self.old.member.acceptor.is_stopped ≡ false → writes (write_in draft.member.change) ≡ true }
        ensures went { self.old.member.acceptor.is_stopped ≡ false → R.is_kept self.new.member.acceptor.records → Went (R.stands self.new.member.acceptor.records) (R.fates self.old.member.acceptor.records) (R.fates self.new.member.acceptor.records) false self.old.member.acceptor.kept (write_in draft.member.change) (of_records result) }
        ensures kept { R.is_kept self.new.member.acceptor.records → R.is_kept self.old.member.acceptor.records }
        ensures base { R.is_kept self.new.member.acceptor.records → (a : RecordTerm) → R.base self.old.member.acceptor.records a → R.base self.new.member.acceptor.records a }
        ensures setup { self.new.setup ≡ self.old.setup }
    {
        let Draft { member, sent } = draft;
        match self.member.commit(alloc, member) {
            Ok(outcome) => {
                let is_short = apply_learnt(
                    alloc,
                    &self.member,
                    &mut self.application,
                    &mut self.answers,
                );
                Ok(Outbox {
                    sent,
                    tells: outcome.tells,
                    is_short,
                })
            }
            Err(RecordsFault::Memory) => Err(NodeFault::Memory),
            Err(RecordsFault::Store) => Err(NodeFault::Store),
        }
    }

    /// Takes the step of received bytes: what it writes is acknowledged before anything that rests on it is given, and what is learnt is applied
    /// while memory is found.
    ///
    /// Faults, each of which but the fourth changes nothing that shows: the bytes are no message (1); the message is of another group, from or
    /// about a member that there is not, or of a kind that goes to clients (2); memory was refused (3); the store failed, and the node has
    /// stopped, with the old record or the new one (4); it had stopped before (5).
    pub fn receive(&mut self, alloc: Global, bytes: &[u8]) -> Result<Outbox, NodeFault>
        ensures took { IfOk result (λ o. (k : Posted) × IsFrom self.old.setup bytes.now k × Steps A.has_applied (A.meaning self.old.setup.names) (Hears k) self.old self.new o) }
        ensures wire { (f : WireFaultTerm) → IsErrOf result (NodeFault.Wire f) → datagram_read bytes.now ≡ Fails f }
        ensures stranger { IsErrOf result NodeFault.Stranger → (d : Datagram) × (bytes.now ≡ spelling d) × (datagram_read bytes.now ≡ Gives d []) × IsStrange self.old.setup d }
        ensures stopped { IsErrOf result NodeFault.Stopped ↔ (self.old.member.acceptor.is_stopped ≡ true) }
        ensures store { IsErrOf result NodeFault.Store → (k : Posted) × IsFrom self.old.setup bytes.now k × HasFailed R.stands R.is_kept R.failed A.has_applied (A.meaning self.old.setup.names) (Hears k) self.old self.new }
        ensures spent { (u : Running) → RunsAs A.has_applied u self.old → IsErrOf result NodeFault.Spent → ⊥ }
        ensures refused { IfErr result (λ fault. (fault ≡ NodeFault.Store → ⊥) → IsUnchanged A.has_applied R.failed self.old self.new) }
        ensures kept { R.is_kept self.new.member.acceptor.records → R.is_kept self.old.member.acceptor.records }
        ensures base { R.is_kept self.new.member.acceptor.records → (a : RecordTerm) → R.base self.old.member.acceptor.records a → R.base self.new.member.acceptor.records a }
        ensures setup { self.new.setup ≡ self.old.setup }
    {
        let draft = self.draft(alloc, bytes)?;
        self.commit(alloc, draft)
    }

    /// What comes of a tick: what it writes and sends once it is committed. Nothing that shows has changed.
    ///
    /// Faults: the node has stopped; memory was refused; positions or rounds are spent, so that no ballot begins.
    pub fn draft_tick(&mut self, alloc: Global, tick: Tick) -> Result<Draft, NodeFault>
        ensures drafted { IfOk result (λ d. IsDrafted A.has_applied (A.meaning self.new.setup.names) (ticked tick) self.new d) }
        ensures begins { OnOk result ((u : Running) → RunsAs A.has_applied u self.new → IsSpent self.new u (ticked tick) → ⊥) }
        ensures same { HasStayed A.has_applied self.old self.new }
        ensures stopped { IsErrOf result NodeFault.Stopped ↔ (self.old.member.acceptor.is_stopped ≡ true) }
        ensures faults { IfErr result (λ fault. (fault ≡ NodeFault.Stopped) ⊎ (fault ≡ NodeFault.Memory) ⊎ (fault ≡ NodeFault.Spent)) }
        ensures spent { (u : Running) → RunsAs A.has_applied u self.old → IsErrOf result NodeFault.Spent
            → (tick ≡ Tick.Begin) × (may_begin self.old.setup.members self.old.member.acceptor.kept u ≡ false) }
        ensures still_spent { (u : Running) → RunsAs A.has_applied u self.new → IsErrOf result NodeFault.Spent → IsSpent self.new u (ticked tick) }
    {
        if self.member.has_stopped() {
            return Err(NodeFault::Stopped);
        }
        let draft = self.plan_tick(alloc, tick)?;
        self.spell(alloc, draft)
    }

    /// Takes the step of a tick, as [`Node::receive`] does that of bytes.
    ///
    /// Faults: memory was refused (3); the store failed, and the node has stopped (4); it had stopped before (5); positions or rounds are
    /// spent, so that no ballot begins (6).
    pub fn tick(&mut self, alloc: Global, tick: Tick) -> Result<Outbox, NodeFault>
        ensures took { IfOk result (λ o. Steps A.has_applied (A.meaning self.old.setup.names) (ticked tick) self.old self.new o) }
        ensures stopped { IsErrOf result NodeFault.Stopped ↔ (self.old.member.acceptor.is_stopped ≡ true) }
        ensures store { IsErrOf result NodeFault.Store → HasFailed R.stands R.is_kept R.failed A.has_applied (A.meaning self.old.setup.names) (ticked tick) self.old self.new }
        ensures spent { (u : Running) → RunsAs A.has_applied u self.old → IsErrOf result NodeFault.Spent
            → (tick ≡ Tick.Begin) × (may_begin self.old.setup.members self.old.member.acceptor.kept u ≡ false) }
        ensures refused { IfErr result (λ fault. (fault ≡ NodeFault.Store → ⊥) → IsUnchanged A.has_applied R.failed self.old self.new) }
        ensures kept { R.is_kept self.new.member.acceptor.records → R.is_kept self.old.member.acceptor.records }
        ensures base { R.is_kept self.new.member.acceptor.records → (a : RecordTerm) → R.base self.old.member.acceptor.records a → R.base self.new.member.acceptor.records a }
        ensures begins { OnOk result ((u : Running) → RunsAs A.has_applied u self.old → IsSpent self.old u (ticked tick) → ⊥) }
        ensures faults { IfErr result IsOfTick }
        ensures setup { self.new.setup ≡ self.old.setup }
    {
        let draft = self.draft_tick(alloc, tick)?;
        self.commit(alloc, draft)
    }

    /// Whether it leads: it has begun a ballot, and has not yielded to a higher one since.
    pub fn leads(&self) -> bool
        ensures { (u : Running) → RunsAs A.has_applied u self.now → result ≡ is_some u.leader }
    {
        self.member.leads()
    }

    /// Whether it leads, and a majority of the members has promised its ballot.
    pub fn is_followed(&self) -> bool
        ensures { (u : Running) → RunsAs A.has_applied u self.now → result ≡ is_followed self.now.setup.members u.heard u.leader }
    {
        self.member.is_followed()
    }

    /// How many positions it has applied, from 1 on.
    pub fn applied(&self) -> u32
        ensures { (u : Running) → RunsAs A.has_applied u self.now → result ≡ u.applied }
    {
        self.application.applied()
    }

    /// How many values its record keeps as learnt: those at the positions from 1 on.
    pub fn kept(&self) -> u32
        ensures { result ≡ length self.now.member.acceptor.kept.learnt }
    {
        self.member.kept()
    }

    /// How many positions it has learnt from 1 on without a gap.
    pub fn prefix(&self) -> u32
        ensures { (u : Running) → RunsAs A.has_applied u self.now → result ≡ prefix self.now.setup.members (news u.heard) }
    {
        self.member.prefix()
    }

    /// The value that it has learnt at a position, if there is one.
    pub fn learned(&self, position: u32) -> Option<&Value>
        ensures { (u : Running) → RunsAs A.has_applied u self.now → option_copied result ≡ learnt_at self.now.setup.members position (news u.heard) }
    {
        self.member.learned(position)
    }

    /// The application: what it has applied are the first values that the node has learnt.
    pub fn state(&self) -> &A
        ensures state { result.now ≡ self.now.application }
        ensures applied { (u : Running) → RunsAs A.has_applied u self.now → A.has_applied self.now.setup.names (values_of self.now.setup.members u) result.now }
    {
        &self.application
    }

    /// The answer to a question of that text at a level of the language, where as many positions are applied as the floor says.
    ///
    /// Faults: the node has stopped (5); memory was refused (3).
    pub fn answer(
        &self,
        alloc: Global,
        floor: u32,
        level: u8,
        text: &str,
    ) -> Result<Reading, NodeFault>
        ensures reads { IfOk result (λ reading. (u : Running) → RunsAs A.has_applied u self.now → Reads (A.meaning self.now.setup.names) self.now.setup.members u floor level text.now reading) }
        ensures stopped { IsErrOf result NodeFault.Stopped ↔ (self.now.member.acceptor.is_stopped ≡ true) }
        ensures faults { IfErr result (λ fault. (fault ≡ NodeFault.Stopped) ⊎ (fault ≡ NodeFault.Memory)) }
    {
        if self.member.has_stopped() {
            return Err(NodeFault::Stopped);
        }
        let applied = self.application.applied();
        if applied < floor {
            return Ok(Reading::Behind(applied));
        }
        let answer = self.application.answer(alloc, level, text)?;
        Ok(Reading::At(applied, answer))
    }

    /// The records, as they were left.
    pub fn into_records(self) -> R
        ensures records { result ≡ self.member.acceptor.records }
        ensures stands { self.member.acceptor.is_stopped ≡ false → R.is_kept result → R.stands result self.member.acceptor.kept self.member.acceptor.kept }
    {
        self.member.into_records()
    }

    /// What it was told when it was set up, and the records, as they were left: all that opens it again.
    pub fn into_parts(self) -> (Setup, R)
        ensures setup { result.0 ≡ self.setup }
        ensures records { result.1 ≡ self.member.acceptor.records }
        ensures stands { self.member.acceptor.is_stopped ≡ false → R.is_kept result.1 → R.stands result.1 self.member.acceptor.kept self.member.acceptor.kept }
    {
        (self.setup, self.member.into_records())
    }
}

impl<R: FlushRecords + Drop, A: Application + Drop> Node<R, A> {
    /// Acknowledges all that was written since the last flush, if its records hold that back. What a call has given out, an outbox, an answer
    /// or a reading, is sent only after a flush that came behind it and went well: until then a crash may take back what it rests on.
    ///
    /// Faults: memory was refused, all of it is still held back, and nothing that shows has changed (3); the store failed, and the node has
    /// stopped, with what a crash before the call left or with all that was written (4); it had stopped before, and nothing has changed (5).
    pub fn flush(&mut self, alloc: Global) -> Result<(), NodeFault>
        ensures same { OnOk result (IsUnchanged A.has_applied R.failed self.old self.new) }
        ensures flushed { OnOk result (R.is_kept self.new.member.acceptor.records
            → R.leaves self.new.member.acceptor.records self.old.member.acceptor.kept self.old.member.acceptor.kept) }
        ensures renewed { OnOk result (R.is_kept self.new.member.acceptor.records → (a : RecordTerm) → R.base self.old.member.acceptor.records a
            → R.base self.new.member.acceptor.records self.old.member.acceptor.kept) }
        ensures memory { IsErrOf result NodeFault.Memory → IsUnchanged A.has_applied R.failed self.old self.new }
        ensures held { IsErrOf result NodeFault.Memory → R.is_kept self.new.member.acceptor.records → (a : RecordTerm) → R.base self.old.member.acceptor.records a
            → R.base self.new.member.acceptor.records a × R.leaves self.new.member.acceptor.records a a }
        ensures store { IsErrOf result NodeFault.Store → FlushFailed R.base R.leaves R.is_kept R.failed self.old.member.acceptor self.new.member.acceptor }
        ensures stopped { IsErrOf result NodeFault.Stopped ↔ (self.old.member.acceptor.is_stopped ≡ true) }
        ensures still { IsErrOf result NodeFault.Stopped → self.new ≡ self.old }
        ensures faults { IfErr result (λ fault. (fault ≡ NodeFault.Stopped) ⊎ (fault ≡ NodeFault.Memory) ⊎ (fault ≡ NodeFault.Store)) }
        ensures kept { R.is_kept self.new.member.acceptor.records → R.is_kept self.old.member.acceptor.records }
        ensures fates { (IsErrOf result NodeFault.Store → ⊥) → (k : ℕ) → R.fates self.new.member.acceptor.records k ≡ R.fates self.old.member.acceptor.records k }
        ensures others { (self.new.setup ≡ self.old.setup) × (self.new.application ≡ self.old.application) }
    {
        if self.member.has_stopped() {
            return Err(NodeFault::Stopped);
        }
        match self.member.flush(alloc) {
            Ok(()) => Ok(()),
            Err(RecordsFault::Memory) => Err(NodeFault::Memory),
            Err(RecordsFault::Store) => Err(NodeFault::Store),
        }
    }
}

impl<R: PlannedRecords + Drop, A: Application + Drop> Node<R, A> {
    /// Makes just the write of what was drafted for this very node, which has not changed since: what a stop inside the write leaves, where the
    /// write is kept. The node may only be stopped then.
    ///
    /// Faults: memory was refused, and nothing that shows has changed; the store failed, and the node has stopped.
    pub fn cut(&mut self, alloc: Global, draft: Draft) -> Result<(), NodeFault>
        requires ready { IsReady self.old.member draft.member }
        ensures wrote { OnOk result (self.old.member.acceptor.is_stopped ≡ false
            → (self.new.member.acceptor.kept ≡ written (write_in draft.member.change) self.old.member.acceptor.kept) × (self.new.member.acceptor.is_stopped ≡ false)) }
        ensures memory { IsErrOf result NodeFault.Memory → IsAsWas R.failed self.old.member.acceptor self.new.member.acceptor
            × ((u : Running) → RunsAs A.has_applied u self.old → RunsAs A.has_applied u self.new) }
        ensures store { IsErrOf result NodeFault.Store → Stopped R.stands R.is_kept R.failed self.old.member.acceptor self.new.member.acceptor (write_in draft.member.change) }
        ensures faults { IfErr result (λ fault. (fault ≡ NodeFault.Memory) ⊎ (fault ≡ NodeFault.Store)) }
        ensures writes { IsErrOf result NodeFault.Store → self.old.member.acceptor.is_stopped ≡ false → writes (write_in draft.member.change) ≡ true }
        ensures went { self.old.member.acceptor.is_stopped ≡ false → R.is_kept self.new.member.acceptor.records → Went (R.stands self.new.member.acceptor.records) (R.fates self.old.member.acceptor.records) (R.fates self.new.member.acceptor.records) true self.old.member.acceptor.kept (write_in draft.member.change) (of_records result) }
        ensures kept { R.is_kept self.new.member.acceptor.records → R.is_kept self.old.member.acceptor.records }
        ensures base { R.is_kept self.new.member.acceptor.records → (a : RecordTerm) → R.base self.old.member.acceptor.records a → R.base self.new.member.acceptor.records a }
        ensures setup { self.new.setup ≡ self.old.setup }
    {
        match self.member.cut(alloc, draft.member) {
            Ok(()) => Ok(()),
            Err(RecordsFault::Memory) => Err(NodeFault::Memory),
            Err(RecordsFault::Store) => Err(NodeFault::Store),
        }
    }
}
