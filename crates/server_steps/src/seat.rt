//! A node at its seat, which takes steps; what they send is held.

ghost use Rattle.std.specs.Prelude.{◌≡◌, ◌⊎◌, ℕ, true, false, IfOk, OnErr, OnOk, List, ◌++◌};
ghost use Rattle.node.specs.Nodes.{IsOfTick};
ghost use Rattle.server_steps.specs.Hold.{held_by};
ghost use Rattle.server_steps.specs.Refusals.{IsHalted, IsRefused, IsRefusedTick};
ghost use Rattle.server_steps.specs.Moves.{Halts, Stays, Takes, Ticks};
ghost use Rattle.wires.specs.Wires.{Carried};

use super::fault::ServeFault;
use super::hold::{HeldOutbox, Hold};
use applications::Application;
use ballots::{RequestId, Value};
use member::{Target, Tick};
use node::{Node, NodeFault, Sent};
use records::FlushRecords;
use std::alloc::Global;

/// What a step sent.
#[derive(Clone, Copy, PartialEq, Eq, Debug)]
pub(super) enum Told {
    /// Something to the client that it heard.
    Client,
    /// Something, but nothing to a client.
    Members,
    /// Nothing.
    Nobody,
    /// There was no step.
    Unheard,
}

/// A node that serves.
#[derive(Drop)]
pub(super) struct Seat<R: FlushRecords + Drop, A: Application + Drop> {
    pub(super) node: Node<R, A>,
    /// Whether memory was ever refused to what came.
    pub(super) has_lost: bool,
}

/// Whom a step told something.
fn told_by(sent: &[Sent]) -> Told {
    if sent.is_empty() {
        return Told::Nobody;
    }
    if sent.iter().any(|one| one.to == Target::Client) {
        return Told::Client;
    }
    Told::Members
}

/// What the refusal of a write of the records comes to. The fault: it ends the node's service.
fn refuse_write(fault: NodeFault) -> Result<bool, ServeFault>
    requires { (fault ≡ NodeFault.Stopped) ⊎ (fault ≡ NodeFault.Memory) ⊎ (fault ≡ NodeFault.Store) }
    ensures held { IfOk result (λ is. (is ≡ false) × (fault ≡ NodeFault.Memory)) }
    ensures halted { OnErr result (IsHalted fault) }
{
    match fault {
        NodeFault::Memory => Ok(false),
        NodeFault::Store => Err(ServeFault::Store),
        NodeFault::Stopped => Err(ServeFault::Store),
        // No write refuses so.
        NodeFault::Spent => Ok(false),
        NodeFault::Wire(_) => Ok(false),
        NodeFault::Stranger => Ok(false),
    }
}

impl<R: FlushRecords + Drop, A: Application + Drop> Seat<R, A> {
    /// Takes a datagram from an address: the node takes the step of its message, and what that sends is held.
    ///
    /// What is no message to this node, or says that it is sent by a member from whose address it does not come, is dropped. What memory was
    /// refused to is lost: room for what the step sends is found before it is taken. The fault: the store failed, and nothing more is held.
    pub(super) fn hear<D: Copy + Eq + Drop>(
        &mut self,
        alloc: Global,
        hold: &mut Hold<D>,
        from: D,
        bytes: &[u8],
    ) -> Result<Told, ServeFault>
        ensures heard { IfOk result (λ _. (end : ℕ) → (sent : List (Carried D)) × Takes A.has_applied A.meaning R.failed D.eq hold.old.place (record { end = end; peer = from; bytes = bytes.now }) self.old self.new sent
            × (held_by hold.new.place hold.new.outboxes.items ≡ held_by hold.old.place hold.old.outboxes.items ++ sent)) }
        ensures halted { OnErr result (Halts A.has_applied A.meaning R.failed R.stands R.is_kept R.base R.leaves self.old self.new
            × (held_by hold.new.place hold.new.outboxes.items ≡ held_by hold.old.place hold.old.outboxes.items)) }
        ensures place { hold.new.place ≡ hold.old.place }
    {
        if !hold.place.is_from_sender(from, bytes) {
            return Ok(Told::Unheard);
        }
        if hold.reserve().is_err() {
            self.has_lost = true;
            return Ok(Told::Unheard);
        }
        let members = self.node.setup().members().count();
        let member = self.node.setup().member();
        match self.node.receive(alloc, bytes) {
            Ok(outbox) => {
                let told = told_by(outbox.sent());
                hold.push(HeldOutbox {
                    client: Some(from),
                    members,
                    member,
                    outbox,
                });
                Ok(told)
            }
            Err(fault) => self.refuse(fault),
        }
    }

    /// What a refusal comes to. The fault: it ends the node's service.
    fn refuse(&mut self, fault: NodeFault) -> Result<Told, ServeFault>
        ensures refused { OnOk result (IsRefused fault self.old.has_lost self.new.has_lost) }
        ensures halted { OnErr result (IsHalted fault) }
        ensures same { self.new.node ≡ self.old.node }
    {
        match fault {
            NodeFault::Wire(_) => Ok(Told::Unheard),
            NodeFault::Stranger => Ok(Told::Unheard),
            NodeFault::Memory => {
                self.has_lost = true;
                Ok(Told::Unheard)
            }
            // No message spends a ballot.
            NodeFault::Spent => {
                self.has_lost = true;
                Ok(Told::Unheard)
            }
            NodeFault::Store => Err(ServeFault::Store),
            NodeFault::Stopped => Err(ServeFault::Store),
        }
    }

    /// Ticks: the node takes that step, and what it sends is held. Where memory was refused there is no step. The fault: the store failed, and
    /// nothing more is held.
    pub(super) fn tick<D: Copy + Eq + Drop>(
        &mut self,
        alloc: Global,
        hold: &mut Hold<D>,
        tick: Tick,
    ) -> Result<(), ServeFault>
        ensures ticked { OnOk result ((sent : List (Carried D)) × Ticks A.has_applied A.meaning R.failed hold.old.place tick self.old self.new sent
            × (held_by hold.new.place hold.new.outboxes.items ≡ held_by hold.old.place hold.old.outboxes.items ++ sent)) }
        ensures halted { OnErr result (Halts A.has_applied A.meaning R.failed R.stands R.is_kept R.base R.leaves self.old self.new
            × (held_by hold.new.place hold.new.outboxes.items ≡ held_by hold.old.place hold.old.outboxes.items)) }
        ensures place { hold.new.place ≡ hold.old.place }
    {
        if hold.reserve().is_err() {
            self.has_lost = true;
            return Ok(());
        }
        let members = self.node.setup().members().count();
        let member = self.node.setup().member();
        match self.node.tick(alloc, tick) {
            Ok(outbox) => {
                hold.push(HeldOutbox {
                    client: None,
                    members,
                    member,
                    outbox,
                });
                Ok(())
            }
            Err(fault) => self.refuse_tick(fault),
        }
    }

    /// What the refusal of a tick comes to. The fault: it ends the node's service.
    fn refuse_tick(&mut self, fault: NodeFault) -> Result<(), ServeFault>
        requires { IsOfTick fault }
        ensures refused { OnOk result (IsRefusedTick fault self.old.has_lost self.new.has_lost) }
        ensures halted { OnErr result (IsHalted fault) }
        ensures same { self.new.node ≡ self.old.node }
    {
        match fault {
            NodeFault::Spent => Ok(()),
            NodeFault::Memory => {
                self.has_lost = true;
                Ok(())
            }
            // No tick is a message, so these two are not reached.
            NodeFault::Wire(_) => Ok(()),
            NodeFault::Stranger => Ok(()),
            NodeFault::Store => Err(ServeFault::Store),
            NodeFault::Stopped => Err(ServeFault::Store),
        }
    }

    /// Writes in one what its node's records hold back. Says whether they have it: they have not where memory was refused, and hold all of it on.
    ///
    /// The fault: the store failed, and the node has stopped.
    pub(super) fn write(&mut self, alloc: Global) -> Result<bool, ServeFault>
        ensures stays { OnOk result (Stays A.has_applied A.meaning R.failed self.old self.new) }
        ensures written { IfOk result (λ is. is ≡ true → R.is_kept self.new.node.member.acceptor.records → R.leaves self.new.node.member.acceptor.records self.new.node.member.acceptor.kept self.new.node.member.acceptor.kept) }
        ensures halted { OnErr result (Halts A.has_applied A.meaning R.failed R.stands R.is_kept R.base R.leaves self.old self.new) }
    {
        match self.node.flush(alloc) {
            Ok(()) => Ok(true),
            Err(fault) => refuse_write(fault),
        }
    }

    /// Whose request, and which, is the value that the node has learnt at a position, if it is one.
    pub(super) fn request_at(&self, position: u32) -> Option<RequestId> {
        match self.node.learned(position)? {
            Value::Request(request) => Some(request.id()),
            Value::NoOp => None,
        }
    }
}
