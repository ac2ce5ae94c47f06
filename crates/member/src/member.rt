//! A member.

ghost use Rattle.std.specs.Prelude.{◌≡◌, ◌≤◌, ◌⊎◌, ◌↔◌, ℕ, length, false, true, is_some, IfOk, IfErr, OnOk, OnErr, IsErrOf};
ghost use Rattle.paxos.specs.Records.{Record as RecordTerm};
ghost use Rattle.paxos.specs.Knowledge.{learnt as learnt_at, news, prefix};
ghost use Rattle.paxos.specs.Step.{Running, resumed};
ghost use Rattle.paxos.specs.Records.{written, writes};
ghost use Rattle.paxos.specs.WellFormed.{IsRecord};
ghost use Rattle.std.specs.Option.{option_copied};
ghost use Rattle.acceptor.specs.Drafts.{IsRefused};
ghost use Rattle.records.specs.Law.{Went};
ghost use Rattle.acceptor.specs.Steps.{FlushFailed, IsAsWas, Stopped};
ghost use Rattle.ballots.specs.Messages.{body_of, packet};
ghost use Rattle.paxos.specs.Application.{Application};
ghost use Rattle.proposer.specs.Following.{is_followed};
ghost use Rattle.ballots.specs.Ballot.{most_members};
ghost use Rattle.ballots.specs.Values.{positions};
ghost use Rattle.proposer.specs.Submitting.{IsReady as MayBeLed};
ghost use Rattle.member.specs.Drafts.{AreShort, HasMade, IsDrafted, IsMade, IsReady, IsSpent, MayBeMade, Plans, write_in};
ghost use Rattle.member.specs.Steps.{Input as InputTerm, Hears, IsHeard, IsThis, MayCome, Took, effect_of, input_of};

use super::draft::{Change, Draft};
use super::fault::MemberFault;
use super::hearing::may_come;
use super::input::{Input, Tick};
use super::outcome::Outcome;
use acceptor::Acceptor;
use ballots::{Ballot, Members, Message, Value};
use learner::Learner;
use proposer::{Draft as ProposerDraft, Proposer};
use records::{FlushRecords, PlannedRecords, Records, RecordsFault};
use std::alloc::Global;
use std::marker::Model;

/// One of the members: an acceptor, a proposer and a learner ("Paxos Made Simple", section 2.5: each server plays every part).
#[derive(Drop)]
pub struct Member<R: Records + Drop> {
    pub(super) members: Members,
    pub(super) number: u8,
    pub(super) acceptor: Acceptor<R>,
    pub(super) proposer: Proposer,
    pub(super) learner: Learner,
}

impl<R: Records + Drop> Model for Member<R> {
    ghost use Rattle.std.specs.Prelude.{◌≡◌, ◌≤◌};
    ghost use Rattle.member.specs.Steps.{Member as MemberTerm};
    ghost use Rattle.ballots.specs.Ballot.{most_members};

    ghost Value = { MemberTerm R };

    ghost view = { λ x. record { members = x.members; number = x.number; acceptor = x.acceptor; proposer = x.proposer; learner = x.learner } };

    ghost invariant = { λ x. (1 ≤ x.number) × (x.number ≤ x.members) × (x.members ≤ most_members) × (x.proposer.members ≡ x.members)
        × (x.proposer.member ≡ x.number) × (x.learner.members ≡ x.members) };
}

impl<R: Records + Drop> Member<R> {
    /// Opens records as the member of that number: it has promised and accepted what they keep, has learnt what they keep as learnt, and
    /// has heard nothing else.
    ///
    /// Faults, which give the records back with what they keep: memory was refused; the store failed, which the records count.
    pub fn open(
        alloc: Global,
        members: Members,
        number: u8,
        records: R,
    ) -> Result<Member<R>, (RecordsFault, R)>
        requires least { 1 ≤ number }
        requires most { number ≤ members }
        ensures place { IfOk result (λ x. (x.members ≡ members) × (x.number ≡ number)) }
        ensures started { IfOk result (λ x. IsRecord members x.acceptor.kept → IsThis (resumed number x.acceptor.kept) x) }
        ensures running { IfOk result (λ x. x.acceptor.is_stopped ≡ false) }
        ensures loaded { IfOk result (λ x. R.is_kept x.acceptor.records → (a b : RecordTerm) → R.stands records a b → (x.acceptor.kept ≡ a) ⊎ (x.acceptor.kept ≡ b)) }
        ensures stands { IfOk result (λ x. R.is_kept x.acceptor.records → R.stands x.acceptor.records x.acceptor.kept x.acceptor.kept) }
        ensures kept { IfOk result (λ x. R.is_kept x.acceptor.records → R.is_kept records) }
        ensures base { IfOk result (λ x. R.is_kept x.acceptor.records → (a : RecordTerm) → R.base records a → R.base x.acceptor.records a) }
        ensures counts { IfOk result (λ x. R.failed x.acceptor.records ≡ R.failed records) }
        ensures fates { IfOk result (λ x. (k : ℕ) → R.fates x.acceptor.records k ≡ R.fates records k) }
        ensures suits { (n : ℕ) → R.suits records n → IfOk result (λ x. IsRecord n x.acceptor.kept) }
        ensures refused { IfErr result (λ e. IsRefused R.stands R.is_kept R.failed R.fates records e.1 e.0) }
    {
        let acceptor = Acceptor::open(alloc, records)?;
        let Ok(learner) = Learner::resume(alloc, members, acceptor.learnt()) else {
            return Err((RecordsFault::Memory, acceptor.into_records()));
        };
        // Members are at most 63, as their count says.
        let _count = members.count();
        Ok(Member {
            members,
            number,
            acceptor,
            proposer: Proposer::new(members, number),
            learner,
        })
    }

    /// How many members there are.
    pub fn members(&self) -> Members
        ensures { result ≡ self.now.members }
    {
        self.members
    }

    /// Which one it is.
    pub fn number(&self) -> u8
        ensures { result ≡ self.now.number }
    {
        self.number
    }

    /// The highest ballot that it has promised, `Ballot::NONE` if there is none.
    pub fn promised(&self) -> Ballot
        ensures { result ≡ self.now.acceptor.kept.promise }
    {
        self.acceptor.promised()
    }

    /// Whether it leads: it has begun a ballot, and has not yielded to a higher one since.
    pub fn leads(&self) -> bool
        ensures { (u : Running) → IsThis u self.now → result ≡ is_some u.leader }
    {
        self.proposer.leads().is_some()
    }

    /// Whether it leads, and a majority of the members has promised its ballot.
    pub fn is_followed(&self) -> bool
        ensures { (u : Running) → IsThis u self.now → result ≡ is_followed self.now.members u.heard u.leader }
    {
        self.proposer.is_followed()
    }

    /// Whether its store has failed, since when nothing may come to it.
    pub fn has_stopped(&self) -> bool
        ensures { result ≡ self.now.acceptor.is_stopped }
    {
        self.acceptor.has_stopped()
    }

    /// How many values its record keeps as learnt: those at the positions from 1 on.
    pub fn kept(&self) -> u32
        ensures { result ≡ length self.now.acceptor.kept.learnt }
    {
        self.acceptor.kept()
    }

    /// How many positions it has learnt from 1 on without a gap.
    pub fn prefix(&self) -> u32
        ensures heard { (u : Running) → IsThis u self.now → result ≡ prefix self.now.members (news u.heard) }
        ensures most { result ≤ positions }
    {
        self.learner.prefix()
    }

    /// The value that it has learnt at a position, if there is one.
    pub fn learned(&self, position: u32) -> Option<&Value>
        ensures { (u : Running) → IsThis u self.now → option_copied result ≡ learnt_at self.now.members position (news u.heard) }
    {
        self.learner.learned(position)
    }

    /// Whether a message may come from a member, or from the clients (0): its numbers are in range, and its sender may say it. Members
    /// send nothing else. A question is not heard, since it is answered where requests are run.
    pub fn hears(&self, sender: u8, message: &Message) -> bool
        ensures sound { result ≡ true → IsHeard self.now.members (Hears (packet sender (body_of message.now) self.now.number)) }
        ensures complete { IsHeard self.now.members (Hears (packet sender (body_of message.now) self.now.number)) → result ≡ true }
    {
        may_come(self.members, sender, self.number, message)
    }

    /// What comes of an input: what it writes, sends and tells once it is committed. Nothing that shows has changed, but the room that
    /// it takes.
    ///
    /// Faults: memory was refused; positions or rounds are spent, so that no ballot begins.
    pub fn draft(&mut self, alloc: Global, input: &Input) -> Result<Draft, MemberFault>
        requires heard { IsHeard self.old.members (input_of self.old.number input.now) }
        requires runs { self.old.acceptor.is_stopped ≡ false }
        ensures drafted { IfOk result (λ d. IsDrafted (input_of self.old.number input.now) self.new d) }
        ensures ready { IfOk result (λ d. IsReady self.new d) }
        ensures short { IfOk result (λ d. AreShort d.sends.items) }
        ensures same { (u : Running) → IsThis u self.old → IsThis u self.new }
        ensures record_same { self.new.acceptor ≡ self.old.acceptor }
        ensures place { (self.new.members ≡ self.old.members) × (self.new.number ≡ self.old.number) }
        ensures spent { (u : Running) → IsThis u self.old → (IsErrOf result MemberFault.Spent ↔ IsSpent self.old u (input_of self.old.number input.now)) }
        ensures still_spent { (u : Running) → IsThis u self.new → (IsErrOf result MemberFault.Spent ↔ IsSpent self.new u (input_of self.old.number input.now)) }
    {
        match input {
            Input::Message(sender, message) => self.draft_message(alloc, *sender, *message),
            Input::Tick(Tick::Begin) => self.draft_begin(alloc),
            Input::Tick(Tick::Resend) => self.draft_resend(alloc),
            Input::Tick(Tick::CatchUp) => self.draft_catch_up(alloc),
            Input::Tick(Tick::Keep) => self.draft_keep(alloc),
        }
    }

    /// Makes what was drafted for this very member, which has not changed since: first what the acceptor writes. It gives what is sent and
    /// told. Whatever step the draft plans is taken.
    ///
    /// Faults: memory was refused, and nothing has changed; the store failed, and the
    /// acceptor has stopped.
    pub fn commit(&mut self, alloc: Global, draft: Draft) -> Result<Outcome, RecordsFault>
        requires ready { IsReady self.old draft }
        ensures took { IfOk result (λ outcome. (app : Application) (i : InputTerm) (u : Running) → MayCome self.old.members i → IsThis u self.old
            → Plans (effect_of app self.old.members self.old.number self.old.acceptor.kept u i) self.old draft
            → Took (effect_of app self.old.members self.old.number self.old.acceptor.kept u i) self.old self.new outcome) }
        ensures runs { OnOk result (self.old.acceptor.is_stopped ≡ false → self.new.acceptor.is_stopped ≡ false) }
        ensures says { IfOk result (λ outcome. (outcome.sends.items ≡ draft.sends.items) × (outcome.tells.items ≡ draft.tells.items)) }
        ensures memory { IsErrOf result RecordsFault.Memory → IsAsWas R.failed self.old.acceptor self.new.acceptor × ((u : Running) → IsThis u self.old → IsThis u self.new) }
        ensures stops { IsErrOf result RecordsFault.Store → Stopped R.stands R.is_kept R.failed self.old.acceptor self.new.acceptor (write_in draft.change) }
        ensures writes { IsErrOf result RecordsFault.Store → self.old.acceptor.is_stopped ≡ false → writes (write_in draft.change) ≡ true }
        ensures went { self.old.acceptor.is_stopped ≡ false → R.is_kept self.new.acceptor.records → Went (R.stands self.new.acceptor.records) (R.fates self.old.acceptor.records) (R.fates self.new.acceptor.records) false self.old.acceptor.kept (write_in draft.change) result }
        ensures kept { R.is_kept self.new.acceptor.records → R.is_kept self.old.acceptor.records }
        ensures base { R.is_kept self.new.acceptor.records → (a : RecordTerm) → R.base self.old.acceptor.records a → R.base self.new.acceptor.records a }
        ensures place { (self.new.members ≡ self.old.members) × (self.new.number ≡ self.old.number) }
    {
        let Draft {
            sends,
            tells,
            change,
        } = draft;
        self.make(alloc, change)?;
        Ok(Outcome { sends, tells })
    }

    /// Makes a change: first what the acceptor writes.
    fn make(&mut self, alloc: Global, change: Change) -> Result<(), RecordsFault>
        requires ready { MayBeMade self.old change }
        ensures range { (1 ≤ self.old.number) × (self.old.number ≤ self.old.members) × (self.old.members ≤ most_members) }
        ensures made { OnOk result (self.old.acceptor.is_stopped ≡ false → IsMade self.old change self.new) }
        ensures memory { IsErrOf result RecordsFault.Memory → IsAsWas R.failed self.old.acceptor self.new.acceptor }
        ensures store { IsErrOf result RecordsFault.Store → Stopped R.stands R.is_kept R.failed self.old.acceptor self.new.acceptor (write_in change) }
        ensures writes { IsErrOf result RecordsFault.Store → self.old.acceptor.is_stopped ≡ false → writes (write_in change) ≡ true }
        ensures went { self.old.acceptor.is_stopped ≡ false → R.is_kept self.new.acceptor.records → Went (R.stands self.new.acceptor.records) (R.fates self.old.acceptor.records) (R.fates self.new.acceptor.records) false self.old.acceptor.kept (write_in change) result }
        ensures refused { OnErr result ((self.new.proposer ≡ self.old.proposer) × (self.new.learner ≡ self.old.learner)) }
        ensures kept { R.is_kept self.new.acceptor.records → R.is_kept self.old.acceptor.records }
        ensures base { R.is_kept self.new.acceptor.records → (a : RecordTerm) → R.base self.old.acceptor.records a → R.base self.new.acceptor.records a }
        ensures place { (self.new.members ≡ self.old.members) × (self.new.number ≡ self.old.number) }
    {
        // What the store can refuse comes first: the proposer and the learner are then as they were.
        match change {
            Change::Nothing => {}
            Change::Answer(draft, ballot) => {
                self.acceptor.commit(alloc, draft)?;
                self.proposer.yield_to(ballot);
            }
            Change::Begin(draft, promised) => {
                self.acceptor.commit(alloc, draft)?;
                lead(&mut self.proposer, promised);
            }
            Change::Promise(draft) => {
                lead(&mut self.proposer, draft);
            }
            Change::News(heard, learnt) => {
                self.learner.commit(heard);
                lead(&mut self.proposer, learnt);
            }
            Change::Submit(draft) => {
                lead(&mut self.proposer, draft);
            }
            Change::Keep(draft) => self.acceptor.commit(alloc, draft)?,
        }
        Ok(())
    }

    /// The records, as they were left.
    pub fn into_records(self) -> R
        ensures records { result ≡ self.acceptor.records }
        ensures stands { self.acceptor.is_stopped ≡ false → R.is_kept result → R.stands result self.acceptor.kept self.acceptor.kept }
    {
        self.acceptor.into_records()
    }
}

impl<R: FlushRecords + Drop> Member<R> {
    /// Acknowledges all that was written since the last flush, if its records hold that back: what it has sent and told since rests on it.
    ///
    /// Faults: memory was refused, and all of it is still held back; the store failed, now or before, and the acceptor has stopped.
    pub fn flush(&mut self, alloc: Global) -> Result<(), RecordsFault>
        ensures same { OnOk result (IsAsWas R.failed self.old.acceptor self.new.acceptor × ((u : Running) → IsThis u self.old → IsThis u self.new)) }
        ensures running { OnOk result (self.new.acceptor.is_stopped ≡ false) }
        ensures flushed { OnOk result (R.is_kept self.new.acceptor.records → R.leaves self.new.acceptor.records self.old.acceptor.kept self.old.acceptor.kept) }
        ensures renewed { OnOk result (R.is_kept self.new.acceptor.records → (a : RecordTerm) → R.base self.old.acceptor.records a
            → R.base self.new.acceptor.records self.old.acceptor.kept) }
        ensures memory { IsErrOf result RecordsFault.Memory → IsAsWas R.failed self.old.acceptor self.new.acceptor × ((u : Running) → IsThis u self.old → IsThis u self.new) }
        ensures held { IsErrOf result RecordsFault.Memory → R.is_kept self.new.acceptor.records → (a : RecordTerm) → R.base self.old.acceptor.records a
            → R.base self.new.acceptor.records a × R.leaves self.new.acceptor.records a a }
        ensures store { IsErrOf result RecordsFault.Store → self.old.acceptor.is_stopped ≡ false
            → FlushFailed R.base R.leaves R.is_kept R.failed self.old.acceptor self.new.acceptor }
        ensures stopped { self.old.acceptor.is_stopped ≡ true → IsErrOf result RecordsFault.Store × (self.new ≡ self.old) }
        ensures others { (self.new.proposer ≡ self.old.proposer) × (self.new.learner ≡ self.old.learner) }
        ensures kept { R.is_kept self.new.acceptor.records → R.is_kept self.old.acceptor.records }
        ensures fates { (IsErrOf result RecordsFault.Store → ⊥) → (k : ℕ) → R.fates self.new.acceptor.records k ≡ R.fates self.old.acceptor.records k }
        ensures place { (self.new.members ≡ self.old.members) × (self.new.number ≡ self.old.number) }
    {
        self.acceptor.flush(alloc)
    }
}

impl<R: PlannedRecords + Drop> Member<R> {
    /// Makes the write of what was drafted for this very member, which has not changed since, and nothing else: a member that stops
    /// inside its write. What follows is `into_records`. A store that would fail in this write by a plan makes it.
    ///
    /// Faults: as of `commit`.
    pub fn cut(&mut self, alloc: Global, draft: Draft) -> Result<(), RecordsFault>
        requires ready { IsReady self.old draft }
        ensures wrote { OnOk result (self.old.acceptor.is_stopped ≡ false → (self.new.acceptor.kept ≡ written (write_in draft.change) self.old.acceptor.kept) × (self.new.acceptor.is_stopped ≡ false)) }
        ensures memory { IsErrOf result RecordsFault.Memory → IsAsWas R.failed self.old.acceptor self.new.acceptor × ((u : Running) → IsThis u self.old → IsThis u self.new) }
        ensures stops { IsErrOf result RecordsFault.Store → Stopped R.stands R.is_kept R.failed self.old.acceptor self.new.acceptor (write_in draft.change) }
        ensures same { (self.new.proposer ≡ self.old.proposer) × (self.new.learner ≡ self.old.learner) }
        ensures writes { IsErrOf result RecordsFault.Store → self.old.acceptor.is_stopped ≡ false → writes (write_in draft.change) ≡ true }
        ensures went { self.old.acceptor.is_stopped ≡ false → R.is_kept self.new.acceptor.records → Went (R.stands self.new.acceptor.records) (R.fates self.old.acceptor.records) (R.fates self.new.acceptor.records) true self.old.acceptor.kept (write_in draft.change) result }
        ensures kept { R.is_kept self.new.acceptor.records → R.is_kept self.old.acceptor.records }
        ensures base { R.is_kept self.new.acceptor.records → (a : RecordTerm) → R.base self.old.acceptor.records a → R.base self.new.acceptor.records a }
        ensures place { (self.new.members ≡ self.old.members) × (self.new.number ≡ self.old.number) }
    {
        self.write(alloc, draft.change)
    }

    /// Makes what the acceptor writes in a change, in which the member stops.
    fn write(&mut self, alloc: Global, change: Change) -> Result<(), RecordsFault>
        requires ready { MayBeMade self.old change }
        ensures wrote { OnOk result (self.old.acceptor.is_stopped ≡ false → (self.new.acceptor.kept ≡ written (write_in change) self.old.acceptor.kept) × (self.new.acceptor.is_stopped ≡ false)) }
        ensures memory { IsErrOf result RecordsFault.Memory → IsAsWas R.failed self.old.acceptor self.new.acceptor }
        ensures store { IsErrOf result RecordsFault.Store → Stopped R.stands R.is_kept R.failed self.old.acceptor self.new.acceptor (write_in change) }
        ensures same { (self.new.proposer ≡ self.old.proposer) × (self.new.learner ≡ self.old.learner) }
        ensures writes { IsErrOf result RecordsFault.Store → self.old.acceptor.is_stopped ≡ false → writes (write_in change) ≡ true }
        ensures went { self.old.acceptor.is_stopped ≡ false → R.is_kept self.new.acceptor.records → Went (R.stands self.new.acceptor.records) (R.fates self.old.acceptor.records) (R.fates self.new.acceptor.records) true self.old.acceptor.kept (write_in change) result }
        ensures kept { R.is_kept self.new.acceptor.records → R.is_kept self.old.acceptor.records }
        ensures base { R.is_kept self.new.acceptor.records → (a : RecordTerm) → R.base self.old.acceptor.records a → R.base self.new.acceptor.records a }
        ensures place { (self.new.members ≡ self.old.members) × (self.new.number ≡ self.old.number) }
    {
        match change {
            Change::Answer(draft, _) => self.acceptor.cut(alloc, draft),
            Change::Begin(draft, _) => self.acceptor.cut(alloc, draft),
            Change::Keep(draft) => self.acceptor.cut(alloc, draft),
            Change::Nothing => Ok(()),
            Change::Promise(_) => Ok(()),
            Change::News(_, _) => Ok(()),
            Change::Submit(_) => Ok(()),
        }
    }
}

/// A proposer makes its change.
fn lead<A: Drop>(proposer: &mut Proposer, draft: ProposerDraft<A>)
    requires ready { MayBeLed proposer.old draft.change }
    ensures made { HasMade proposer.old draft.change proposer.new }
    ensures place { (proposer.new.members ≡ proposer.old.members) × (proposer.new.member ≡ proposer.old.member) }
{
    proposer.commit(draft);
}
