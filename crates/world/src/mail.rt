//! All messages that were ever sent, by number.

ghost use Rattle.std.specs.Prelude.{◌≡◌, ◌<◌, ℕ, ◌+◌, ◌≤◌, ◌++◌, ◌∷◌, [], IfOk, IfSome, OnErr, OnOk, map, length, vec_len, vec_capacity, slice_get};
ghost use Rattle.std.specs.Option.{option_copied, option_map};
ghost use Rattle.ballots.specs.Messages.{Submit, packet};
ghost use Rattle.messages.specs.Reading.{Gives, datagram_read};
ghost use Rattle.paxos.specs.Lists.{at};
ghost use Rattle.world.specs.Posts.{packet_of, sent_in, IsWhole, delivery, deliveries, all_deliveries};

use ballots::{Members, Message, Request};
use member::Target;
use messages::encode;
use node::Sent;
use std::alloc::{AllocError, Global};

/// A message to one target.
#[derive(Clone, Copy, PartialEq, Eq, Debug)]
pub(super) struct Delivery {
    /// The index of what was sent.
    pub(super) message: usize,
    /// The member to which it goes, or 0 for a client.
    pub(super) target: u8,
}

/// The bytes of all messages that were ever sent. Each is there once for all its targets, and each of these has a number, from 1.
#[derive(Drop)]
pub(super) struct Mail {
    pub(super) messages: Vec<Sent>,
    pub(super) deliveries: Vec<Delivery>,
}

/// Adds the deliveries of a message to all members.
///
/// It fails where memory is refused.
fn deliver_to_all(
    plan: &mut Vec<Delivery>,
    members: Members,
    message: usize,
) -> Result<(), AllocError>
    ensures { OnOk result (plan.new.items ≡ plan.old.items ++ deliveries members 0 message Target.All) }
{
    for before in 0..members.count() {
        plan.push(Delivery {
            message,
            target: before + 1,
        })?;
    }
    Ok(())
}

/// Adds the deliveries of a message to all others than its sender.
///
/// It fails where memory is refused.
fn deliver_to_others(
    plan: &mut Vec<Delivery>,
    members: Members,
    sender: u8,
    message: usize,
) -> Result<(), AllocError>
    ensures { OnOk result (plan.new.items ≡ plan.old.items ++ deliveries members sender message Target.Others) }
{
    for before in 0..members.count() {
        let target = before + 1;
        if target != sender {
            plan.push(Delivery { message, target })?;
        }
    }
    Ok(())
}

/// Adds the deliveries of a message.
///
/// It fails where memory is refused.
fn deliver_to(
    plan: &mut Vec<Delivery>,
    members: Members,
    sender: u8,
    message: usize,
    to: Target,
) -> Result<(), AllocError>
    ensures { OnOk result (plan.new.items ≡ plan.old.items ++ deliveries members sender message to) }
{
    match to {
        Target::One(target) => plan.push(Delivery { message, target })?,
        Target::All => deliver_to_all(plan, members, message)?,
        Target::Others => deliver_to_others(plan, members, sender, message)?,
        Target::Client => plan.push(Delivery { message, target: 0 })?,
    }
    Ok(())
}

/// A request as a client of the group spells it.
///
/// It fails where memory is refused.
fn spelt(alloc: Global, group: u32, request: &Request) -> Result<Vec<u8>, AllocError>
    ensures reads { IfOk result (λ bytes. datagram_read bytes.items ≡ Gives (record { group = group; sender = 0; body = Submit request.now }) []) }
{
    let message = Message::Submit(request.clone()?);
    let mut bytes = Vec::new(alloc);
    encode(&message, group, 0, &mut bytes)?;
    Ok(bytes)
}

impl Mail {
    /// No messages.
    pub(super) fn new(alloc: Global) -> Mail
        ensures { ((group : ℕ) → sent_in group result ≡ []) × IsWhole result }
    {
        Mail {
            messages: Vec::new(alloc),
            deliveries: Vec::new(alloc),
        }
    }

    /// How many messages were sent.
    pub(super) fn count(&self) -> usize
        ensures { (group : ℕ) → result ≡ length (sent_in group self.now) }
    {
        self.deliveries.len()
    }

    /// The message of a number to its target, if it was sent.
    pub(super) fn delivery(&self, number: u64) -> Option<Delivery>
        ensures sent { (group : ℕ) → option_map (packet_of group self.now.messages.items) result ≡ at (sent_in group self.now) number }
        ensures there { IsWhole self.now → IfSome result (λ d. d.message < length self.now.messages.items) }
    {
        if number == 0 || number > self.deliveries.len() as u64 {
            return None;
        }
        Some(self.deliveries[(number - 1) as usize])
    }

    /// The deliveries of what a member sends, and the room for all of it. What was sent stays as it was.
    ///
    /// It fails where memory is refused.
    pub(super) fn plan(
        &mut self,
        alloc: Global,
        members: Members,
        sender: u8,
        sent: &[Sent],
    ) -> Result<Vec<Delivery>, AllocError>
        ensures planned { IfOk result (λ plan. plan.items ≡ all_deliveries members sender (length self.old.messages.items) sent.now) }
        ensures messages { IfOk result (λ plan. vec_len self.new.messages + length sent.now ≤ vec_capacity self.new.messages) }
        ensures deliveries { IfOk result (λ plan. vec_len self.new.deliveries + vec_len plan ≤ vec_capacity self.new.deliveries) }
        ensures same { (self.new.messages.items ≡ self.old.messages.items) × (self.new.deliveries.items ≡ self.old.deliveries.items) }
    {
        let first = self.messages.len();
        let mut plan = Vec::new(alloc);
        for index in 0..sent.len() {
            deliver_to(&mut plan, members, sender, first + index, sent[index].to)?;
        }
        self.messages.reserve(sent.len())?;
        self.deliveries.reserve(plan.len())?;
        Ok(plan)
    }

    /// Adds messages and their deliveries, where there is room for them. It takes no memory.
    pub(super) fn post(&mut self, sent: Vec<Sent>, plan: Vec<Delivery>)
        requires messages { vec_len self.old.messages + length sent.items ≤ vec_capacity self.old.messages }
        requires deliveries { vec_len self.old.deliveries + length plan.items ≤ vec_capacity self.old.deliveries }
        ensures messages { self.new.messages.items ≡ self.old.messages.items ++ sent.items }
        ensures deliveries { self.new.deliveries.items ≡ self.old.deliveries.items ++ plan.items }
    {
        let mut sent = sent;
        let mut plan = plan;
        self.messages.append(&mut sent).unwrap();
        self.deliveries.append(&mut plan).unwrap();
    }

    /// Adds a request of a client to a member, as its group spells it. It fails where memory is refused, and then nothing was sent.
    pub(super) fn submit(
        &mut self,
        alloc: Global,
        group: u32,
        target: u8,
        request: &Request,
    ) -> Result<(), AllocError>
        requires whole { IsWhole self.old }
        ensures whole { IsWhole self.new }
        ensures asked { OnOk result (sent_in group self.new ≡ sent_in group self.old ++ packet 0 (Submit request.now) target ∷ []) }
        ensures refused { OnErr result (sent_in group self.new ≡ sent_in group self.old) }
    {
        let sent = Sent {
            to: Target::One(target),
            bytes: spelt(alloc, group, request)?,
        };
        self.messages.reserve(1)?;
        self.deliveries.reserve(1)?;
        self.deliveries.push_reserved(Delivery {
            message: self.messages.len(),
            target,
        });
        self.messages.push_reserved(sent);
        Ok(())
    }
}
