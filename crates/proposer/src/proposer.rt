//! A proposer.

ghost use Rattle.std.specs.Prelude.{◌≡◌, ◌≢◌, ◌≤◌, ◌<◌, ◌↔◌, ℕ, suc, false, List, [], ◌∷◌, map, Option, None, Some, IfOk, IfErr, IsErrOf, OnErr, option_map};
ghost use Rattle.ballots.specs.Ballot.{last_round};
ghost use Rattle.ballots.specs.Messages.{Packet, Prepare, Promise, packet, to_all, window_of};
ghost use Rattle.ballots.specs.Terms.{Request as RequestTerm};
ghost use Rattle.ballots.specs.Values.{positions, IsRising};
ghost use Rattle.ballots.specs.declared.value.Pair.{Pair};
ghost use Rattle.ballots.specs.declared.value.Value.{Value};
ghost use Rattle.paxos.specs.Knowledge.{Heard, newly, news, news_of, prefix};
ghost use Rattle.paxos.specs.Records.{Record};
ghost use Rattle.paxos.specs.Step.{Leader, begins, on_new_request, on_news, on_promise, on_resend, yields};
ghost use Rattle.proposer.specs.Beginning.{IsBegun, IsFresh};
ghost use Rattle.proposer.specs.Following.{is_followed};
ghost use Rattle.proposer.specs.Hearing.{IsUnchanged, IsWindow, TakesLearnt, TakesPromise};
ghost use Rattle.proposer.specs.Knowing.{IsStopped, Knows, TookPart, accepts_first, prepares_first};
ghost use Rattle.proposer.specs.declared.draft.News.{News};
ghost use Rattle.proposer.specs.Taking.{HasTaken};
ghost use Rattle.proposer.specs.Submitting.{IsReady, IsSubmitted, takes_request};
ghost use Rattle.proposer.specs.Terms.{Leading, is_open, proposing, yielded};

use super::draft::{Change, Draft};
use super::fault::ProposerFault;
use super::lead::{Lead, copy_entries};
use super::sends::Sends;
use ballots::limits::{LAST_ROUND, POSITIONS};
use ballots::{Ballot, Members, Request, Value, Window};
use std::alloc::{AllocError, Global};
use std::marker::Model;

/// A proposer ("Paxos Made Simple", section 2.2), which leads from the moment that it begins a ballot until it yields to a higher one.
#[derive(Drop)]
pub struct Proposer {
    members: Members,
    member: u8,
    lead: Option<Lead>,
}

impl Model for Proposer {
    ghost use Rattle.std.specs.Prelude.{◌≤◌};
    ghost use Rattle.proposer.specs.Terms.{Proposer as ProposerTerm, proposer_code};

    ghost Value = { ProposerTerm };

    ghost coded = { proposer_code };

    ghost view = { λ p. record { members = p.members; member = p.member; lead = p.lead } };

    ghost use Rattle.std.specs.Prelude.{◌≡◌, Some, length};
    ghost use Rattle.proposer.specs.Terms.{Leading};

    ghost invariant = { λ p. (1 ≤ p.member) × (p.member ≤ p.members) × ((l : Leading) → p.lead ≡ Some l → length l.covers ≡ p.members) };
}

impl Proposer {
    /// A proposer that doesn't lead: the member of that number, of so many members.
    pub fn new(members: Members, member: u8) -> Proposer
        requires least { 1 ≤ member }
        requires most { member ≤ members }
        ensures { result ≡ record { members = members; member = member; lead = None } }
    {
        Proposer {
            members,
            member,
            lead: None,
        }
    }

    /// How many members there are.
    pub fn members(&self) -> Members
        ensures { result ≡ self.now.members }
    {
        self.members
    }

    /// The ballot that it leads with, if it leads.
    pub fn leads(&self) -> Option<Ballot>
        ensures ballot { result ≡ option_map (λ (l : Leading). l.ballot) self.now.lead }
        ensures heard { (heard : List Packet) (leader : Option Leader) → Knows heard leader self.now → result ≡ option_map (λ (l : Leader). l.ballot) leader }
    {
        match &self.lead {
            Some(lead) => Some(lead.ballot),
            None => None,
        }
    }

    /// Whether it leads, and a majority of the members has promised its ballot.
    pub fn is_followed(&self) -> bool
        ensures { (heard : List Packet) (leader : Option Leader) → Knows heard leader self.now → result ≡ is_followed self.now.members heard leader }
    {
        match &self.lead {
            Some(lead) => lead.is_followed(self.members),
            None => false,
        }
    }

    /// Whether a request of this client and number is among its open proposals.
    pub fn has_open(&self, client: u32, number: u64) -> bool
        ensures { (q : RequestTerm) → q.client ≡ client → q.number ≡ number → result ≡ is_open q self.now }
    {
        match &self.lead {
            Some(lead) => lead.has_open(client, number),
            None => false,
        }
    }

    /// What it says again, since it may have been lost: its open Accepts, to all, and to each member that is not covered to the end its
    /// next Prepare. Nothing where it doesn't lead.
    ///
    /// It fails where memory is refused.
    pub fn resend(&self, alloc: Global) -> Result<Option<Sends>, AllocError>
        ensures took { IfOk result (λ sends. (heard : List Packet) (leader : Option Leader) (applied : ℕ) → Knows heard leader self.now
            → TookPart (on_resend self.now.members self.now.member (record { heard = heard; leader = leader; applied = applied }))
            (accepts_first self.now.members self.now.member sends) self.now) }
    {
        match &self.lead {
            Some(lead) => Ok(Some(lead.say_again(alloc, self.members)?)),
            None => Ok(None),
        }
    }

    /// Leads no more, if its ballot is below this one.
    pub fn yield_to(&mut self, ballot: Ballot)
        ensures changed { self.new ≡ yielded ballot self.old }
        ensures heard { (heard : List Packet) (leader : Option Leader) → Knows heard leader self.old → Knows heard (yields ballot leader) self.new }
    {
        if let Some(own) = self.leads() {
            if own.is_below(ballot) {
                self.lead = None;
            }
        }
    }

    /// Leads with the ballot of the next round after a promise, from a position on: the first that isn't learnt, 1 to 1,000,001.
    /// `learnt` has the positions from there on that are learnt, rising. The answer is the ballot; once it is promised, a Prepare of it
    /// from that position on goes to all members.
    ///
    /// Faults: memory was refused; positions are spent; rounds are spent.
    pub fn begin(
        &mut self,
        alloc: Global,
        promise: Ballot,
        from: u32,
        learnt: &[u32],
    ) -> Result<Ballot, ProposerFault>
        requires least { 1 ≤ from }
        requires rising { IsRising from learnt.now }
        ensures took { IfOk result (λ ballot. (heard : List Packet) (leader : Option Leader) (applied : ℕ) (r : Record)
            → r.promise ≡ promise → from ≡ suc (prefix self.old.members (news heard)) → IsFresh self.old.members heard ballot from learnt.now
            → TookPart (begins self.old.members self.old.member r (record { heard = heard; leader = leader; applied = applied }))
            (to_all self.old.members self.old.member (Prepare ballot from)) self.new) }
        ensures place { (self.new.members ≡ self.old.members) × (self.new.member ≡ self.old.member) }
        ensures stopped { IfOk result (λ _. IsStopped self.new) }
        ensures no_place { IsErrOf result ProposerFault.NoPlace ↔ (positions < from) }
        ensures no_round { IsErrOf result ProposerFault.NoRound ↔ ((from ≤ positions) × (last_round ≤ promise.round)) }
        ensures fault { IfErr result (λ fault. fault ≢ ProposerFault.NotLeading) }
        ensures refused { OnErr result (self.new ≡ self.old) }
    {
        let draft = self.draft_begin(alloc, promise, from, learnt)?;
        Ok(self.commit(draft))
    }

    #[tactic(auto, unfolding(ballots::specs::Values::positions, ballots::specs::Ballot::last_round))]
    /// What `begin` is about to answer and to change.
    ///
    /// Faults: as of `begin`.
    pub fn draft_begin(
        &self,
        alloc: Global,
        promise: Ballot,
        from: u32,
        learnt: &[u32],
    ) -> Result<Draft<Ballot>, ProposerFault>
        requires least { 1 ≤ from }
        requires rising { IsRising from learnt.now }
        ensures ballot { IfOk result (λ d. d.answer ≡ record { round = suc promise.round; member = self.now.member }) }
        ensures begun { IfOk result (λ d. (lead : Leading) × (d.change ≡ Change.Begin lead) × IsBegun self.now.members d.answer from learnt.now lead) }
        ensures ready { IfOk result (λ d. IsReady self.now d.change) }
        ensures no_place { IsErrOf result ProposerFault.NoPlace ↔ (positions < from) }
        ensures no_round { IsErrOf result ProposerFault.NoRound ↔ ((from ≤ positions) × (last_round ≤ promise.round)) }
        ensures fault { IfErr result (λ fault. fault ≢ ProposerFault.NotLeading) }
    {
        if from > POSITIONS {
            return Err(ProposerFault::NoPlace);
        }
        if promise.round >= LAST_ROUND {
            return Err(ProposerFault::NoRound);
        }
        let ballot = Ballot {
            round: promise.round + 1,
            member: self.member,
        };
        let lead = Lead::begin(alloc, self.members, ballot, from, learnt)?;
        Ok(Draft {
            answer: ballot,
            change: Change::Begin(lead),
        })
    }

    /// Proposes a request at the next position, where it finds a place; no request of its client and number is open. The answer is its
    /// Accept, to all members.
    ///
    /// Faults: memory was refused; it does not lead; there is no place: 16 proposals are open, no majority covers the next position,
    /// something is reported or learnt there or above, or positions are spent.
    pub fn submit(&mut self, alloc: Global, request: &Request) -> Result<Sends, ProposerFault>
        requires fresh { is_open request.now self.old ≡ false }
        ensures took { IfOk result (λ sends. (heard : List Packet) (leader : Option Leader) (applied : ℕ) (r : Record) → Knows heard leader self.old
            → TookPart (on_new_request self.old.members self.old.member r (record { heard = heard; leader = leader; applied = applied }) request.now leader)
            (prepares_first self.old.members self.old.member (Some sends)) self.new) }
        ensures place { (self.new.members ≡ self.old.members) × (self.new.member ≡ self.old.member) }
        ensures stopped { IfOk result (λ _. IsStopped self.new) }
        ensures not_leading { IsErrOf result ProposerFault.NotLeading ↔ (self.old.lead ≡ None) }
        ensures no_place { (l : Leading) → self.old.lead ≡ Some l → (IsErrOf result ProposerFault.NoPlace ↔ (takes_request self.old.members l ≡ false)) }
        ensures fault { IfErr result (λ fault. fault ≢ ProposerFault.NoRound) }
        ensures refused { OnErr result (self.new ≡ self.old) }
    {
        let draft = self.draft_submit(alloc, request)?;
        Ok(self.commit(draft))
    }

    /// What `submit` is about to answer and to change.
    ///
    /// Faults: as of `submit`.
    pub fn draft_submit(
        &self,
        alloc: Global,
        request: &Request,
    ) -> Result<Draft<Sends>, ProposerFault>
        ensures submitted { IfOk result (λ d. (l : Leading) × IsSubmitted request.now self.now l d.change d.answer) }
        ensures ready { IfOk result (λ d. IsReady self.now d.change) }
        ensures not_leading { IsErrOf result ProposerFault.NotLeading ↔ (self.now.lead ≡ None) }
        ensures no_place { (l : Leading) → self.now.lead ≡ Some l → (IsErrOf result ProposerFault.NoPlace ↔ (takes_request self.now.members l ≡ false)) }
        ensures fault { IfErr result (λ fault. fault ≢ ProposerFault.NoRound) }
    {
        let Some(lead) = &self.lead else {
            return Err(ProposerFault::NotLeading);
        };
        if !lead.has_free_place(self.members) {
            return Err(ProposerFault::NoPlace);
        }
        let sends = lead.accept_next(alloc, Value::Request(request.clone()?))?;
        Ok(Draft {
            answer: sends,
            change: Change::Propose(Value::Request(request.clone()?)),
        })
    }

    /// Takes in a promise of a member. A window of its ballot that joins is merged, and proposing goes on. The answer is the next
    /// Prepare to that member, if it is not covered to the end, and the Accepts of what is proposed; nothing where it does not lead or
    /// the window does not join.
    ///
    /// It fails where memory is refused, and nothing but room has changed then.
    pub fn on_promise(
        &mut self,
        alloc: Global,
        sender: u8,
        window: &Window,
    ) -> Result<Option<Sends>, AllocError>
        requires least { 1 ≤ sender }
        requires most { sender ≤ self.old.members }
        requires window { IsWindow (window_of window.now) }
        ensures took { IfOk result (λ sends. (heard : List Packet) (leader : Option Leader) (applied : ℕ) (target : ℕ) → Knows heard leader self.old
            → TookPart (on_promise self.old.members self.old.member heard
            (record { heard = packet sender (Promise (window_of window.now)) target ∷ heard; leader = leader; applied = applied }) sender (window_of window.now) leader)
            (prepares_first self.old.members self.old.member sends) self.new) }
        ensures place { (self.new.members ≡ self.old.members) × (self.new.member ≡ self.old.member) }
        ensures stopped { IfOk result (λ _. IsStopped self.old → IsStopped self.new) }
        ensures refused { OnErr result (IsUnchanged self.old self.new) }
    {
        let draft = self.draft_promise(alloc, sender, window)?;
        Ok(self.commit(draft))
    }

    /// Takes in the positions that one message told newly, rising. Their proposals are closed, and proposing goes on. The answer is the
    /// Accepts of what is proposed; nothing where it does not lead or nothing is told.
    ///
    /// It fails where memory is refused, and nothing but room has changed then.
    pub fn on_learned(&mut self, alloc: Global, learnt: &[u32]) -> Result<Option<Sends>, AllocError>
        requires rising { IsRising 1 learnt.now }
        ensures took { IfOk result (λ sends. (heard : List Packet) (leader : Option Leader) (applied : ℕ) (k : Packet) (h : Heard)
            → news_of k.sender k.body ≡ h ∷ [] → learnt.now ≡ map (λ (e : Pair). e.position) (newly self.old.members h (news heard)) → Knows heard leader self.old
            → TookPart (on_news self.old.members self.old.member heard (record { heard = k ∷ heard; leader = leader; applied = applied }) h)
            (prepares_first self.old.members self.old.member sends) self.new) }
        ensures place { (self.new.members ≡ self.old.members) × (self.new.member ≡ self.old.member) }
        ensures stopped { IfOk result (λ _. IsStopped self.old → IsStopped self.new) }
        ensures refused { OnErr result (IsUnchanged self.old self.new) }
    {
        let draft = self.draft_learned(alloc, learnt)?;
        Ok(self.commit(draft))
    }

    /// What `on_promise` is about to answer and to change, with the room that it takes.
    ///
    /// It fails where memory is refused.
    pub fn draft_promise(
        &mut self,
        alloc: Global,
        sender: u8,
        window: &Window,
    ) -> Result<Draft<Option<Sends>>, AllocError>
        requires least { 1 ≤ sender }
        requires most { sender ≤ self.old.members }
        requires window { IsWindow (window_of window.now) }
        ensures same { IsUnchanged self.old self.new }
        ensures takes { IfOk result (λ d. TakesPromise self.new.members self.new.lead sender (window_of window.now) d.change d.answer) }
        ensures ready { IfOk result (λ d. IsReady self.new d.change) }
    {
        if let Some(lead) = &mut self.lead {
            // What does not join is of another ballot, tells nothing new, or leaves a gap behind what its member has told: in the gap it may have
            // voted, so it is asked for that again.
            if lead.joins(sender, window) {
                let entries = copy_entries(&window.entries)?;
                let news = lead.news(
                    alloc,
                    self.members,
                    sender,
                    window.covered,
                    entries,
                    Vec::new(alloc),
                )?;
                return Ok(Draft {
                    answer: Some(lead.sends_of(alloc, &news)?),
                    change: Change::Take(news),
                });
            }
        }
        Ok(Draft {
            answer: None,
            change: Change::Nothing,
        })
    }

    /// What `on_learned` is about to answer and to change, with the room that it takes.
    ///
    /// It fails where memory is refused.
    pub fn draft_learned(
        &mut self,
        alloc: Global,
        learnt: &[u32],
    ) -> Result<Draft<Option<Sends>>, AllocError>
        requires rising { IsRising 1 learnt.now }
        ensures same { IsUnchanged self.old self.new }
        ensures takes { IfOk result (λ d. TakesLearnt self.new.members self.new.lead learnt.now d.change d.answer) }
        ensures ready { IfOk result (λ d. IsReady self.new d.change) }
    {
        if let Some(lead) = &mut self.lead {
            if !learnt.is_empty() {
                let positions = Vec::from_slice(alloc, learnt)?;
                let news = lead.news(alloc, self.members, 0, 0, Vec::new(alloc), positions)?;
                return Ok(Draft {
                    answer: Some(lead.sends_of(alloc, &news)?),
                    change: Change::Take(news),
                });
            }
        }
        Ok(Draft {
            answer: None,
            change: Change::Nothing,
        })
    }

    /// Makes the change of a draft that this proposer made, and has not changed since, and gives its answer. It takes no memory.
    pub fn commit<A>(&mut self, draft: Draft<A>) -> A
        requires ready { IsReady self.old draft.change }
        ensures answer { result ≡ draft.answer }
        ensures place { (self.new.members ≡ self.old.members) × (self.new.member ≡ self.old.member) }
        ensures nothing { draft.change ≡ Change.Nothing → self.new ≡ self.old }
        ensures taken { (l : Leading) (news : News) → self.old.lead ≡ Some l → draft.change ≡ Change.Take news
            → (x : Leading) × (self.new ≡ record { members = self.old.members; member = self.old.member; lead = Some x }) × HasTaken l news x }
        ensures begun { (lead : Leading) → draft.change ≡ Change.Begin lead
            → self.new ≡ record { members = self.old.members; member = self.old.member; lead = Some lead } }
        ensures proposed { (l : Leading) (value : Value) → self.old.lead ≡ Some l → draft.change ≡ Change.Propose value
            → self.new ≡ record { members = self.old.members; member = self.old.member; lead = Some (proposing value l) } }
    {
        let Draft { answer, change } = draft;
        match change {
            Change::Nothing => {}
            Change::Begin(lead) => self.lead = Some(lead),
            Change::Propose(value) => {
                if let Some(lead) = &mut self.lead {
                    lead.propose(value);
                }
            }
            Change::Take(news) => {
                if let Some(lead) = &mut self.lead {
                    lead.take(news);
                }
            }
        }
        answer
    }
}
