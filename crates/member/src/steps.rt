//! The steps of a member: what comes of each input, before any of it is done.

ghost use Rattle.std.specs.Prelude.{◌≡◌, ◌<◌, ◌≤◌, ◌↔◌, false, IfOk, IfErr, IsErrOf};
ghost use Rattle.paxos.specs.Knowledge.{news, prefix};
ghost use Rattle.paxos.specs.Step.{Running, may_begin};
ghost use Rattle.paxos.specs.WellFormed.{ArePairs};
ghost use Rattle.ballots.specs.Messages.{Accept, Accepted, CatchUp, Chosen, Prepare, Promise, Submit, body_of, packet, window_of};
ghost use Rattle.proposer.specs.Hearing.{IsWindow};
ghost use Rattle.ballots.specs.Ballot.{below, last_round};
ghost use Rattle.ballots.specs.Values.{positions};
ghost use Rattle.learner.specs.Hearing.{AreAbove};
ghost use Rattle.std.specs.List.{All};
ghost use Rattle.member.specs.Drafts.{AreShort, IsDrafted, IsReady, IsUnchanged};
ghost use Rattle.member.specs.Steps.{Hears, Begins, Resends, CatchesUp, KeepsLearnt, IsHeard, IsThis};

use super::draft::{Change, Draft};
use super::fault::MemberFault;
use super::learnt::{lowest_pairs, positions_from};
use super::member::Member;
use super::outcome::Target;
use super::sends::{accepts_first, prepares_first, prepares_then_accepts, quiet, say};
use super::told::{told_among, told_at};
use ballots::limits::{LAST_ROUND, POSITIONS};
use ballots::{Ballot, Message, Pair, Request, Vote, Window};
use proposer::ProposerFault;
use records::Records;
use std::alloc::Global;

impl<R: Records + Drop> Member<R> {
    /// What comes of a message from a member, or from the clients.
    ///
    /// Fault: memory was refused.
    pub(super) fn draft_message(
        &mut self,
        alloc: Global,
        sender: u8,
        message: &Message,
    ) -> Result<Draft, MemberFault>
        requires heard { IsHeard self.old.members (Hears (packet sender (body_of message.now) self.old.number)) }
        requires runs { self.old.acceptor.is_stopped ≡ false }
        ensures drafted { IfOk result (λ d. IsDrafted (Hears (packet sender (body_of message.now) self.old.number)) self.new d) }
        ensures ready { IfOk result (λ d. IsReady self.new d) }
        ensures short { IfOk result (λ d. AreShort d.sends.items) }
        ensures same { IsUnchanged self.old self.new }
        ensures fault { IfErr result (λ fault. fault ≡ MemberFault.Memory) }
    {
        match message {
            Message::Prepare(ballot, from) => self.draft_prepare(alloc, sender, *ballot, *from),
            Message::Promise(window) => self.draft_promise(alloc, sender, window),
            Message::Accept(position, vote) => self.draft_accept(alloc, sender, *position, vote),
            Message::Accepted(position, vote) => {
                self.draft_accepted(alloc, sender, *position, vote)
            }
            Message::Chosen(pairs) => self.draft_chosen(alloc, sender, pairs),
            Message::CatchUp(from) => self.draft_answer(alloc, sender, *from),
            Message::Submit(request) => self.draft_submit(alloc, sender, request),
            // What is said to clients, and questions, which are answered where requests are run.
            Message::Reply(_, _, _) => Ok(quiet(alloc)),
            Message::Ask(_) => Ok(quiet(alloc)),
            Message::Answer(_, _, _, _) => Ok(quiet(alloc)),
            Message::Behind(_, _, _) => Ok(quiet(alloc)),
            Message::Elsewhere(_, _, _) => Ok(quiet(alloc)),
        }
    }

    /// What comes of the tick Begin: a ballot of the next round after the promise is promised, and all members are asked for it, from the
    /// first position on that is not learnt ("Paxos Made Simple", sections 2.2 and 3).
    ///
    /// Faults: memory was refused; positions or rounds are spent.
    pub(super) fn draft_begin(&self, alloc: Global) -> Result<Draft, MemberFault>
        requires runs { self.now.acceptor.is_stopped ≡ false }
        ensures drafted { IfOk result (λ d. IsDrafted Begins self.now d) }
        ensures ready { IfOk result (λ d. IsReady self.now d) }
        ensures short { IfOk result (λ d. AreShort d.sends.items) }
        ensures spent { (u : Running) → IsThis u self.now → (IsErrOf result MemberFault.Spent ↔ (may_begin self.now.members self.now.acceptor.kept u ≡ false)) }
    {
        let prefix = self.prefix();
        if prefix >= POSITIONS {
            return Err(MemberFault::Spent);
        }
        let promise = self.promised();
        if promise.round >= LAST_ROUND {
            return Err(MemberFault::Spent);
        }
        self.draft_ballot(alloc, prefix)
    }

    #[tactic(auto, unfolding(ballots::specs::Values::positions, ballots::specs::Ballot::last_round))]
    /// The ballot of the next round, from the first position on that is not learnt.
    ///
    /// Fault: memory was refused.
    fn draft_ballot(&self, alloc: Global, learnt: u32) -> Result<Draft, MemberFault>
        requires runs { self.now.acceptor.is_stopped ≡ false }
        requires learnt { (u : Running) → IsThis u self.now → learnt ≡ prefix self.now.members (news u.heard) }
        requires place { learnt < positions }
        requires round { self.now.acceptor.kept.promise.round < last_round }
        ensures drafted { IfOk result (λ d. IsDrafted Begins self.now d) }
        ensures ready { IfOk result (λ d. IsReady self.now d) }
        ensures short { IfOk result (λ d. AreShort d.sends.items) }
        ensures fault { IfErr result (λ fault. fault ≡ MemberFault.Memory) }
    {
        let from = learnt + 1;
        let known = positions_from(alloc, &self.learner, from)?;
        // The next round after its own promise, which is no lower than any ballot that it began: so no ballot begins twice, after a restart either.
        let promise = self.promised();
        let ballot = Ballot {
            round: promise.round + 1,
            member: self.number,
        };
        let Ok(promised) = self.acceptor.draft_begin(ballot) else {
            return Err(MemberFault::Memory);
        };
        let Ok(lead) = self.proposer.draft_begin(alloc, promise, from, &known) else {
            return Err(MemberFault::Memory);
        };
        Ok(say(
            alloc,
            Target::All,
            Message::Prepare(ballot, from),
            Change::Begin(promised, lead),
        )?)
    }

    /// What comes of the tick Resend: what the leader says again, since it may have been lost. Nothing changes.
    ///
    /// Fault: memory was refused.
    pub(super) fn draft_resend(&self, alloc: Global) -> Result<Draft, MemberFault>
        ensures drafted { IfOk result (λ d. IsDrafted Resends self.now d) }
        ensures ready { IfOk result (λ d. IsReady self.now d) }
        ensures short { IfOk result (λ d. AreShort d.sends.items) }
        ensures fault { IfErr result (λ fault. fault ≡ MemberFault.Memory) }
    {
        // Of these members, and this one.
        let _ = &self.members;
        let said = self.proposer.resend(alloc)?;
        Ok(Draft {
            sends: accepts_first(alloc, &said)?,
            tells: Vec::new(alloc),
            change: Change::Nothing,
        })
    }

    #[tactic(auto, unfolding(ballots::specs::Values::positions))]
    /// What comes of the tick CatchUp: all other members are asked for what is chosen from the first position on that is not learnt.
    /// Nothing changes.
    ///
    /// Fault: memory was refused.
    pub(super) fn draft_catch_up(&self, alloc: Global) -> Result<Draft, MemberFault>
        ensures drafted { IfOk result (λ d. IsDrafted CatchesUp self.now d) }
        ensures ready { IfOk result (λ d. IsReady self.now d) }
        ensures short { IfOk result (λ d. AreShort d.sends.items) }
        ensures fault { IfErr result (λ fault. fault ≡ MemberFault.Memory) }
    {
        let prefix = self.prefix();
        if prefix >= POSITIONS {
            return Ok(quiet(alloc));
        }
        Ok(say(
            alloc,
            Target::Others,
            Message::CatchUp(prefix + 1),
            Change::Nothing,
        )?)
    }

    /// What comes of the tick Keep: the first value past those that the record keeps as learnt, if all positions up to it are learnt.
    ///
    /// Fault: memory was refused.
    #[tactic(auto, unfolding(ballots::specs::Values::positions))]
    pub(super) fn draft_keep(&self, alloc: Global) -> Result<Draft, MemberFault>
        requires runs { self.now.acceptor.is_stopped ≡ false }
        ensures drafted { IfOk result (λ d. IsDrafted KeepsLearnt self.now d) }
        ensures ready { IfOk result (λ d. IsReady self.now d) }
        ensures short { IfOk result (λ d. AreShort d.sends.items) }
        ensures fault { IfErr result (λ fault. fault ≡ MemberFault.Memory) }
    {
        let kept = self.kept();
        let prefix = self.prefix();
        if kept >= prefix {
            return Ok(quiet(alloc));
        }
        let Some(value) = self.learned(kept + 1) else {
            return Ok(quiet(alloc));
        };
        let Ok(draft) = self.acceptor.draft_keep(value) else {
            return Err(MemberFault::Memory);
        };
        Ok(Draft {
            sends: Vec::new(alloc),
            tells: Vec::new(alloc),
            change: Change::Keep(draft),
        })
    }

    /// What comes of a Prepare from a member: the promise, with the votes from a position on ("Paxos Made Simple", section 2.2); nothing
    /// below what was promised.
    ///
    /// Fault: memory was refused.
    fn draft_prepare(
        &self,
        alloc: Global,
        sender: u8,
        ballot: Ballot,
        from: u32,
    ) -> Result<Draft, MemberFault>
        requires heard { IsHeard self.now.members (Hears (packet sender (Prepare ballot from) self.now.number)) }
        requires runs { self.now.acceptor.is_stopped ≡ false }
        ensures drafted { IfOk result (λ d. IsDrafted (Hears (packet sender (Prepare ballot from) self.now.number)) self.now d) }
        ensures ready { IfOk result (λ d. IsReady self.now d) }
        ensures short { IfOk result (λ d. AreShort d.sends.items) }
        ensures fault { IfErr result (λ fault. fault ≡ MemberFault.Memory) }
    {
        let Ok(draft) = self.acceptor.draft_prepare(alloc, ballot, from) else {
            return Err(MemberFault::Memory);
        };
        let (answer, draft) = draft.split();
        let Some(window) = answer else {
            return Ok(quiet(alloc));
        };
        Ok(say(
            alloc,
            Target::One(ballot.member),
            Message::Promise(window),
            Change::Answer(draft, ballot),
        )?)
    }

    /// What comes of an Accept from a member ("Paxos Made Simple", section 2.2): all hear that it is accepted; nothing below what was
    /// promised.
    ///
    /// Fault: memory was refused.
    fn draft_accept(
        &self,
        alloc: Global,
        sender: u8,
        position: u32,
        vote: &Vote,
    ) -> Result<Draft, MemberFault>
        requires heard { IsHeard self.now.members (Hears (packet sender (Accept position vote.now) self.now.number)) }
        requires runs { self.now.acceptor.is_stopped ≡ false }
        ensures drafted { IfOk result (λ d. IsDrafted (Hears (packet sender (Accept position vote.now) self.now.number)) self.now d) }
        ensures ready { IfOk result (λ d. IsReady self.now d) }
        ensures short { IfOk result (λ d. AreShort d.sends.items) }
        ensures fault { IfErr result (λ fault. fault ≡ MemberFault.Memory) }
    {
        let Ok(draft) = self.acceptor.draft_accept(alloc, position, vote) else {
            return Err(MemberFault::Memory);
        };
        let (accepted, draft) = draft.split();
        if !accepted {
            return Ok(quiet(alloc));
        }
        Ok(say(
            alloc,
            Target::All,
            Message::Accepted(position, vote.clone()?),
            Change::Answer(draft, vote.ballot),
        )?)
    }

    /// What comes of a promise from a member: nothing, where it is of a ballot above its own promise, for which it has not asked. Nothing
    /// but room has changed.
    ///
    /// Fault: memory was refused.
    fn draft_promise(
        &mut self,
        alloc: Global,
        sender: u8,
        window: &Window,
    ) -> Result<Draft, MemberFault>
        requires heard { IsHeard self.old.members (Hears (packet sender (Promise (window_of window.now)) self.old.number)) }
        requires least { 1 ≤ sender }
        requires most { sender ≤ self.old.members }
        requires window { IsWindow (window_of window.now) }
        ensures drafted { IfOk result (λ d. IsDrafted (Hears (packet sender (Promise (window_of window.now)) self.old.number)) self.new d) }
        ensures ready { IfOk result (λ d. IsReady self.new d) }
        ensures short { IfOk result (λ d. AreShort d.sends.items) }
        ensures same { IsUnchanged self.old self.new }
        ensures fault { IfErr result (λ fault. fault ≡ MemberFault.Memory) }
    {
        if self.promised().is_below(window.ballot) {
            return Ok(quiet(alloc));
        }
        self.draft_window(alloc, sender, window)
    }

    /// What comes of a promise for which it has asked ("Paxos Made Simple", sections 2.2 and 3). Nothing but room has changed.
    ///
    /// Fault: memory was refused.
    fn draft_window(
        &mut self,
        alloc: Global,
        sender: u8,
        window: &Window,
    ) -> Result<Draft, MemberFault>
        requires heard { IsHeard self.old.members (Hears (packet sender (Promise (window_of window.now)) self.old.number)) }
        requires least { 1 ≤ sender }
        requires most { sender ≤ self.old.members }
        requires called_for { below self.old.acceptor.kept.promise window.now.ballot ≡ false }
        requires window { IsWindow (window_of window.now) }
        ensures drafted { IfOk result (λ d. IsDrafted (Hears (packet sender (Promise (window_of window.now)) self.old.number)) self.new d) }
        ensures ready { IfOk result (λ d. IsReady self.new d) }
        ensures short { IfOk result (λ d. AreShort d.sends.items) }
        ensures same { IsUnchanged self.old self.new }
        ensures fault { IfErr result (λ fault. fault ≡ MemberFault.Memory) }
    {
        let draft = self.proposer.draft_promise(alloc, sender, window)?;
        Ok(Draft {
            sends: prepares_first(alloc, &draft.answer)?,
            tells: Vec::new(alloc),
            change: Change::Promise(draft),
        })
    }

    /// What comes of an acceptance by a member ("Paxos Made Simple", section 2.3): what is learnt by it is told, and the leader goes on.
    /// Nothing but room has changed.
    ///
    /// Fault: memory was refused.
    fn draft_accepted(
        &mut self,
        alloc: Global,
        sender: u8,
        position: u32,
        vote: &Vote,
    ) -> Result<Draft, MemberFault>
        requires heard { IsHeard self.old.members (Hears (packet sender (Accepted position vote.now) self.old.number)) }
        requires least_sender { 1 ≤ sender }
        requires most_sender { sender ≤ self.old.members }
        requires least { 1 ≤ position }
        requires most { position ≤ positions }
        ensures drafted { IfOk result (λ d. IsDrafted (Hears (packet sender (Accepted position vote.now) self.old.number)) self.new d) }
        ensures ready { IfOk result (λ d. IsReady self.new d) }
        ensures short { IfOk result (λ d. AreShort d.sends.items) }
        ensures same { IsUnchanged self.old self.new }
        ensures fault { IfErr result (λ fault. fault ≡ MemberFault.Memory) }
    {
        let heard = self.learner.draft_accepted(alloc, sender, position, vote)?;
        let learnt = self.proposer.draft_learned(alloc, heard.news())?;
        Ok(Draft {
            sends: prepares_first(alloc, &learnt.answer)?,
            tells: told_at(alloc, heard.news(), &vote.value)?,
            change: Change::News(heard, learnt),
        })
    }

    /// What comes of values that a member tells as chosen: those that were not learnt are told, and the leader goes on. Nothing but room
    /// has changed.
    ///
    /// Fault: memory was refused.
    fn draft_chosen(
        &mut self,
        alloc: Global,
        sender: u8,
        pairs: &[Pair],
    ) -> Result<Draft, MemberFault>
        requires heard { IsHeard self.old.members (Hears (packet sender (Chosen pairs.now) self.old.number)) }
        requires rising { AreAbove 0 pairs.now }
        requires most { All (λ e. e.position ≤ positions) pairs.now }
        requires pairs { ArePairs 1 pairs.now }
        ensures drafted { IfOk result (λ d. IsDrafted (Hears (packet sender (Chosen pairs.now) self.old.number)) self.new d) }
        ensures ready { IfOk result (λ d. IsReady self.new d) }
        ensures short { IfOk result (λ d. AreShort d.sends.items) }
        ensures same { IsUnchanged self.old self.new }
        ensures fault { IfErr result (λ fault. fault ≡ MemberFault.Memory) }
    {
        let heard = self.learner.draft_chosen(alloc, pairs)?;
        let learnt = self.proposer.draft_learned(alloc, heard.news())?;
        Ok(Draft {
            sends: prepares_first(alloc, &learnt.answer)?,
            tells: told_among(alloc, &self.learner, pairs)?,
            change: Change::News(heard, learnt),
        })
    }

    /// What comes of a CatchUp from a member: it hears the lowest 8 values that are learnt from a position on, if there are any.
    ///
    /// Fault: memory was refused.
    fn draft_answer(&self, alloc: Global, sender: u8, from: u32) -> Result<Draft, MemberFault>
        requires heard { IsHeard self.now.members (Hears (packet sender (CatchUp from) self.now.number)) }
        ensures drafted { IfOk result (λ d. IsDrafted (Hears (packet sender (CatchUp from) self.now.number)) self.now d) }
        ensures ready { IfOk result (λ d. IsReady self.now d) }
        ensures short { IfOk result (λ d. AreShort d.sends.items) }
        ensures fault { IfErr result (λ fault. fault ≡ MemberFault.Memory) }
    {
        let pairs = lowest_pairs(alloc, &self.learner, from)?;
        if pairs.is_empty() {
            return Ok(quiet(alloc));
        }
        Ok(say(
            alloc,
            Target::One(sender),
            Message::Chosen(pairs),
            Change::Nothing,
        )?)
    }

    /// What comes of a client's request: a leader with place proposes it, unless one of its client and number is open; a member that
    /// does not lead names the one that it has promised.
    ///
    /// Fault: memory was refused.
    fn draft_submit(
        &self,
        alloc: Global,
        sender: u8,
        request: &Request,
    ) -> Result<Draft, MemberFault>
        requires heard { IsHeard self.now.members (Hears (packet sender (Submit request.now) self.now.number)) }
        ensures drafted { IfOk result (λ d. IsDrafted (Hears (packet sender (Submit request.now) self.now.number)) self.now d) }
        ensures ready { IfOk result (λ d. IsReady self.now d) }
        ensures short { IfOk result (λ d. AreShort d.sends.items) }
        ensures fault { IfErr result (λ fault. fault ≡ MemberFault.Memory) }
    {
        let id = request.id();
        // What is open is replied to once it is applied; a second proposal would only take a place.
        if self.proposer.has_open(id.client, id.number) {
            return Ok(quiet(alloc));
        }
        match self.proposer.draft_submit(alloc, request) {
            Ok(draft) => Ok(Draft {
                sends: prepares_then_accepts(alloc, &draft.answer)?,
                tells: Vec::new(alloc),
                change: Change::Submit(draft),
            }),
            Err(ProposerFault::NotLeading) => Ok(say(
                alloc,
                Target::Client,
                Message::Elsewhere(id.client, id.number, self.promised().member),
                Change::Nothing,
            )?),
            // A client that hears nothing asks again, when a place may be free.
            Err(ProposerFault::NoPlace) => Ok(quiet(alloc)),
            Err(_) => Err(MemberFault::Memory),
        }
    }
}
