//! What a server's steps have sent, until it is given to the wire.

ghost use Rattle.std.specs.Prelude.{◌≡◌, ℕ, ◌+◌, ◌≤◌, ◌++◌, [], List, length, OnOk};
ghost use Rattle.std.specs.Vec.{vec_capacity};
ghost use Rattle.server_steps.specs.Hold.{datagrams_of, held_by};
ghost use Rattle.wires.specs.Wires.{Carried};

use super::place::Place;
use super::requests::is_vote;
use super::sending::post;
use node::Outbox;
use std::alloc::{AllocError, Global};
use wires::Wire;

/// What a step of the member of that number, of so many, sent; and where its message came from, if it heard one.
#[derive(Drop)]
pub(super) struct HeldOutbox<D: Copy + Eq + Drop> {
    pub(super) client: Option<D>,
    pub(super) members: u8,
    pub(super) member: u8,
    pub(super) outbox: Outbox,
}

/// Where a server stands, and what its steps sent that the wire was not given yet, in order.
#[derive(Drop)]
pub(super) struct Hold<D: Copy + Eq + Drop> {
    pub(super) place: Place<D>,
    pub(super) outboxes: Vec<HeldOutbox<D>>,
}

impl<D: Copy + Eq + Drop> Hold<D> {
    /// Nothing is held.
    pub(super) fn new(alloc: Global, place: Place<D>) -> Hold<D>
        ensures place { result.place ≡ place }
        ensures empty { result.outboxes.items ≡ [] }
    {
        Hold {
            place,
            outboxes: Vec::new(alloc),
        }
    }

    /// Makes room for what one more step sends, so that it is not lost once it is sent. It fails where memory is refused; nothing has changed either way.
    pub(super) fn reserve(&mut self) -> Result<(), AllocError>
        ensures same { self.new.outboxes.items ≡ self.old.outboxes.items }
        ensures place { self.new.place ≡ self.old.place }
        ensures room { OnOk result (length self.new.outboxes.items + 1 ≤ vec_capacity self.new.outboxes) }
    {
        self.outboxes.reserve(1)
    }

    /// Holds what a step sent, behind all that is held; there is nothing to hold of one that sent nothing.
    pub(super) fn push(&mut self, held: HeldOutbox<D>)
        requires room { length self.old.outboxes.items + 1 ≤ vec_capacity self.old.outboxes }
        ensures held { held_by self.new.place self.new.outboxes.items ≡ held_by self.old.place self.old.outboxes.items ++ datagrams_of self.old.place held }
        ensures place { self.new.place ≡ self.old.place }
    {
        if !held.outbox.sent().is_empty() {
            self.outboxes.push_reserved(held);
        }
    }

    /// Whether a vote is told by what is held: then the record is to be written before that is given, whatever else is written with it.
    pub(super) fn has_vote(&self) -> bool {
        for held in &self.outboxes {
            if held.outbox.sent().iter().any(|one| is_vote(&one.bytes)) {
                return true;
            }
        }
        false
    }

    /// Gives the wire all that is held, in order: a datagram that it does not take is lost, as one may be on its way. Nothing is held then.
    pub(super) fn give<W: Wire<Address = D>>(&mut self, wire: &mut W)
        ensures given { (ds : List (Carried D)) → W.was_given wire.old ds → W.was_given wire.new (ds ++ held_by self.old.place self.old.outboxes.items) }
        ensures brought { (ds : List (Carried D)) → W.has_brought wire.old ds → W.has_brought wire.new ds }
        ensures waited { (vain failures : ℕ) → W.has_waited wire.old vain failures → W.has_waited wire.new vain failures }
        ensures place { self.new.place ≡ self.old.place }
        ensures empty { self.new.outboxes.items ≡ [] }
    {
        give_all(wire, &self.place, &self.outboxes);
        self.outboxes.clear();
    }
}

/// Gives a wire what steps sent, in order.
fn give_all<D: Copy + Eq + Drop, W: Wire<Address = D>>(
    wire: &mut W,
    place: &Place<D>,
    held: &[HeldOutbox<D>],
)
    ensures given { (ds : List (Carried D)) → W.was_given wire.old ds → W.was_given wire.new (ds ++ held_by place.now held.now) }
    ensures brought { (ds : List (Carried D)) → W.has_brought wire.old ds → W.has_brought wire.new ds }
    ensures waited { (vain failures : ℕ) → W.has_waited wire.old vain failures → W.has_waited wire.new vain failures }
{
    for one in held {
        give(wire, place, one);
    }
}

/// Gives a wire what one step sent.
fn give<W: Wire>(wire: &mut W, place: &Place<W::Address>, held: &HeldOutbox<W::Address>)
    ensures given { (ds : List (Carried W.Address)) → W.was_given wire.old ds → W.was_given wire.new (ds ++ datagrams_of place.now held.now) }
    ensures brought { (ds : List (Carried W.Address)) → W.has_brought wire.old ds → W.has_brought wire.new ds }
    ensures waited { (vain failures : ℕ) → W.has_waited wire.old vain failures → W.has_waited wire.new vain failures }
{
    post(
        wire,
        place,
        held.client,
        held.members,
        held.member,
        held.outbox.sent(),
    );
}
