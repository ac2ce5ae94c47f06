//! What comes of packets, messages and ticks, before any of it is done.

ghost use Rattle.std.specs.Prelude.{◌≡◌, ◌⊎◌, false, map, IfOk, IfErr, OnOk, IsErrOf, None};
ghost use Rattle.ballots.specs.Ballot.{most_members};
ghost use Rattle.ballots.specs.Messages.{Packet as Posted, Ask as Asks, body_of, packet as packet_of};
ghost use Rattle.member.specs.Steps.{Hears, IsNew, IsNoQuestion, all_packets, ticked};
ghost use Rattle.messages.specs.Spelling.{AreInRange, Fits, IsDatagram};
ghost use Rattle.messages.specs.declared.fault.WireFault.{WireFault as WireFaultTerm};
ghost use Rattle.node.specs.Nodes.{AreAll, HasStayed, IsDrafted, IsForClients, IsPlanned, IsSpent, IsStrange, ReadsBack, RunsAs, posted, spelt};
ghost use Rattle.paxos.specs.Lists.{Has};
ghost use Rattle.paxos.specs.Step.{Running, may_begin, values_of};
ghost use Rattle.paxos.specs.WellFormed.{IsMessage, IsSender};

use super::draft::Draft;
use super::fault::NodeFault;
use super::node::Node;
use super::spelling::spell_all;
use applications::Application;
use ballots::{Ask, Message};
use held_values::beside;
use member::{Draft as MemberDraft, Input, Tick};
use messages::Packet;
use records::Records;
use std::alloc::Global;

impl<R: Records + Drop, A: Application + Drop> Node<R, A> {
    /// What comes of a packet.
    pub(super) fn draft_packet(
        &mut self,
        alloc: Global,
        packet: &Packet,
    ) -> Result<Draft, NodeFault>
        requires runs { self.old.member.acceptor.is_stopped ≡ false }
        requires may_be_sent { IsDatagram (record { group = packet.now.group; sender = packet.now.sender; body = body_of packet.now.message }) }
        ensures drafted { IfOk result (λ d. (packet.now.group ≡ self.new.setup.group)
            × IsMessage self.new.setup.members (packet_of packet.now.sender (body_of packet.now.message) self.new.setup.member)
            × IsDrafted A.has_applied (A.meaning self.new.setup.names) (Hears (packet_of packet.now.sender (body_of packet.now.message) self.new.setup.member)) self.new d) }
        ensures for_members { IfOk result (λ d. IsForClients (body_of packet.now.message) → ⊥) }
        ensures same { HasStayed A.has_applied self.old self.new }
        ensures wire { (f : WireFaultTerm) → IsErrOf result (NodeFault.Wire f) → ⊥ }
        ensures stranger { IsErrOf result NodeFault.Stranger → IsStrange self.old.setup (record { group = packet.now.group; sender = packet.now.sender; body = body_of packet.now.message }) }
        ensures stopped { IsErrOf result NodeFault.Stopped → ⊥ }
        ensures store { IsErrOf result NodeFault.Store → ⊥ }
        ensures spent { (u : Running) → RunsAs A.has_applied u self.new → IsErrOf result NodeFault.Spent → ⊥ }
    {
        if packet.group != self.setup.group() {
            return Err(NodeFault::Stranger);
        }
        let draft = self.draft_message(alloc, packet.sender, &packet.message)?;
        self.spell(alloc, draft)
    }

    /// A member's draft, with what it sends as bytes.
    pub(super) fn spell(&self, alloc: Global, draft: MemberDraft) -> Result<Draft, NodeFault>
        requires fits { AreAll Fits draft.sends.items }
        ensures member { IfOk result (λ d. d.member ≡ draft) }
        ensures sends { IfOk result (λ d. posted self.now.setup.members self.now.setup.member d.sent.items ≡ map (spelt self.now.setup.group) (all_packets self.now.setup.members self.now.setup.member draft.sends.items)) }
        ensures reads { OnOk result (AreAll AreInRange draft.sends.items → (k : Posted) → Has (all_packets self.now.setup.members self.now.setup.member draft.sends.items) k → IsMessage self.now.setup.members k → ReadsBack self.now.setup.group k) }
        ensures fault { IfErr result (λ fault. fault ≡ NodeFault.Memory) }
    {
        let group = self.setup.group();
        let sent = spell_all(alloc, group, self.setup.member(), draft.sends());
        let (member, sent) = beside(draft, sent)?;
        Ok(Draft { member, sent })
    }

    /// What comes of a message.
    fn draft_message(
        &mut self,
        alloc: Global,
        sender: u8,
        message: &Message,
    ) -> Result<MemberDraft, NodeFault>
        requires runs { self.old.member.acceptor.is_stopped ≡ false }
        requires sender { IsSender most_members sender (body_of message.now) }
        ensures planned { IfOk result (λ d. IsPlanned A.has_applied (A.meaning self.new.setup.names) (Hears (packet_of sender (body_of message.now) self.new.setup.member)) self.new d) }
        ensures same { HasStayed A.has_applied self.old self.new }
        ensures for_members { IfOk result (λ d. IsForClients (body_of message.now) → ⊥) }
        ensures stranger { IsErrOf result NodeFault.Stranger → IsForClients (body_of message.now) ⊎ (IsMessage self.old.setup.members (packet_of sender (body_of message.now) self.old.setup.member) → ⊥) }
        ensures faults { IfErr result (λ fault. (fault ≡ NodeFault.Stranger) ⊎ (fault ≡ NodeFault.Memory) ⊎ (fault ≡ NodeFault.Spent)) }
        ensures spent { (u : Running) → RunsAs A.has_applied u self.new → IsErrOf result NodeFault.Spent → ⊥ }
    {
        match message {
            Message::Submit(request) => {
                let id = request.id();
                match self.application.reply_of(id.client, id.number) {
                    Some(reply) => Ok(MemberDraft::to_client(
                        alloc,
                        Message::Reply(id.client, id.number, reply),
                    )?),
                    None => self.draft_heard(alloc, sender, message),
                }
            }
            Message::Ask(ask) => self.draft_question(alloc, ask),
            Message::Reply(_, _, _)
            | Message::Answer(_, _, _, _)
            | Message::Behind(_, _, _)
            | Message::Elsewhere(_, _, _) => Err(NodeFault::Stranger),
            Message::Prepare(_, _)
            | Message::Promise(_)
            | Message::Accept(_, _)
            | Message::Accepted(_, _)
            | Message::Chosen(_)
            | Message::CatchUp(_) => self.draft_heard(alloc, sender, message),
        }
    }

    /// What comes of a message that the member hears, to which no reply is kept.
    fn draft_heard(
        &mut self,
        alloc: Global,
        sender: u8,
        message: &Message,
    ) -> Result<MemberDraft, NodeFault>
        requires runs { self.old.member.acceptor.is_stopped ≡ false }
        requires new { (u : Running) → A.has_applied self.old.setup.names (values_of self.old.setup.members u) self.old.application → IsNew (A.meaning self.old.setup.names) (values_of self.old.setup.members u) (body_of message.now) }
        requires no_question { IsNoQuestion (body_of message.now) }
        ensures planned { IfOk result (λ d. IsPlanned A.has_applied (A.meaning self.new.setup.names) (Hears (packet_of sender (body_of message.now) self.new.setup.member)) self.new d) }
        ensures same { HasStayed A.has_applied self.old self.new }
        ensures stranger { IsErrOf result NodeFault.Stranger → IsMessage self.old.setup.members (packet_of sender (body_of message.now) self.old.setup.member) → ⊥ }
        ensures faults { IfErr result (λ fault. (fault ≡ NodeFault.Stranger) ⊎ (fault ≡ NodeFault.Memory) ⊎ (fault ≡ NodeFault.Spent)) }
        ensures spent { (u : Running) → RunsAs A.has_applied u self.new → IsErrOf result NodeFault.Spent → ⊥ }
    {
        if !self.member.hears(sender, message) {
            return Err(NodeFault::Stranger);
        }
        Ok(self.member.draft(alloc, &Input::Message(sender, message))?)
    }

    /// What comes of a question: its answer, or how far the node is where that is less than the floor.
    fn draft_question(&mut self, alloc: Global, ask: &Ask) -> Result<MemberDraft, NodeFault>
        ensures planned { IfOk result (λ d. IsPlanned A.has_applied (A.meaning self.old.setup.names) (Hears (packet_of 0 (Asks ask.now) self.old.setup.member)) self.old d) }
        ensures same { self.new ≡ self.old }
        ensures fault { IfErr result (λ fault. fault ≡ NodeFault.Memory) }
    {
        let id = ask.id();
        let applied = self.application.applied();
        if applied < ask.floor() {
            let behind = Message::Behind(id.client, id.number, applied);
            return Ok(MemberDraft::to_client(alloc, behind)?);
        }
        let answer = self
            .answers
            .answer(alloc, &self.application, ask.level(), ask.text())?;
        let answer = Message::Answer(id.client, id.number, applied, answer);
        Ok(MemberDraft::to_client(alloc, answer)?)
    }

    /// What its member makes of a tick.
    pub(super) fn plan_tick(&mut self, alloc: Global, tick: Tick) -> Result<MemberDraft, NodeFault>
        requires runs { self.old.member.acceptor.is_stopped ≡ false }
        ensures planned { IfOk result (λ d. IsPlanned A.has_applied (A.meaning self.new.setup.names) (ticked tick) self.new d) }
        ensures begins { OnOk result ((u : Running) → RunsAs A.has_applied u self.new → IsSpent self.new u (ticked tick) → ⊥) }
        ensures same { HasStayed A.has_applied self.old self.new }
        ensures faults { IfErr result (λ fault. (fault ≡ NodeFault.Memory) ⊎ (fault ≡ NodeFault.Spent)) }
        ensures spent { (u : Running) → RunsAs A.has_applied u self.old → IsErrOf result NodeFault.Spent
            → (tick ≡ Tick.Begin) × (may_begin self.old.setup.members self.old.member.acceptor.kept u ≡ false) }
        ensures still_spent { (u : Running) → RunsAs A.has_applied u self.new → IsErrOf result NodeFault.Spent → IsSpent self.new u (ticked tick) }
    {
        Ok(self.member.draft(alloc, &Input::Tick(tick))?)
    }
}
