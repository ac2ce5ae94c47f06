//! Where a server stands, and where the members are.

ghost use Rattle.std.specs.Prelude.{◌≡◌, ℕ, Some, MatchBool, slice_get};
ghost use Rattle.server_steps.specs.Addressed.{address_of};
ghost use Rattle.server_steps.specs.Moves.{IsFromElsewhere, IsFromSender};

use std::marker::Model;

/// Where in a message's bytes its sender stands: after the mark and the group's number.
const SENDER_AT: usize = 8;

/// The end of the wire that is a server's own, and the addresses of all members, in member order.
#[derive(Drop)]
pub(super) struct Place<D: Copy + Eq + Drop> {
    pub(super) end: usize,
    pub(super) peers: Vec<D>,
}

impl<D: Copy + Eq + Drop> Model for Place<D> {
    ghost use Rattle.server_steps.specs.Moves.{Place as PlaceTerm};

    ghost Value = { PlaceTerm D };

    ghost view = { λ x. record { end = x.end; peers = x.peers.items } };
}

impl<D: Copy + Eq + Drop> Place<D> {
    /// The address of a member, or the client's (0), if it has one.
    pub(super) fn address_of(&self, client: Option<D>, target: u8) -> Option<D>
        ensures { result ≡ address_of self.now.peers client target }
    {
        if target == 0 {
            return client;
        }
        self.peers.get(usize::from(target) - 1).copied()
    }

    /// Whether a datagram comes from a client, or from the address of the member that it says it is sent by.
    ///
    /// That keeps out mistakes, such as two members with one number. It keeps out nobody who writes another's address on a datagram.
    pub(super) fn is_from_sender(&self, from: D, bytes: &[u8]) -> bool
        ensures { MatchBool result
            ((sender : ℕ) → slice_get bytes.now 8 ≡ Some sender → IsFromSender D.eq self.now.peers sender from)
            (IsFromElsewhere D.eq self.now.peers bytes.now from) }
    {
        let Some(sender) = sender_of(bytes) else {
            // Too short for a message, as its node will say.
            return true;
        };
        if sender == 0 {
            return true;
        }
        match self.address_of(None, sender) {
            Some(peer) => from == peer,
            None => false,
        }
    }
}

/// The sender that the bytes of a message name.
fn sender_of(bytes: &[u8]) -> Option<u8>
    ensures { result ≡ slice_get bytes.now 8 }
{
    bytes.get(SENDER_AT).copied()
}
