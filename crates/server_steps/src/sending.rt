//! What a node sends, put on a wire.

ghost use Rattle.std.specs.Prelude.{◌≡◌, ◌==◌, ℕ, not, filter, List, [], ◌∷◌, ◌++◌};
ghost use Rattle.std.specs.List.{flat_map};
ghost use Rattle.ballots.specs.Messages.{up_to};
ghost use Rattle.node.specs.Nodes.{posted, targets};
ghost use Rattle.server_steps.specs.Addressed.{addressed, datagram_to};
ghost use Rattle.wires.specs.Wires.{Carried};

use super::place::Place;
use member::Target;
use node::Sent;
use wires::Wire;

/// Sends bytes to a member, or to the client (0), where it has an address. A datagram that the wire does not take is lost, as one may be on its way.
pub(super) fn send_to<W: Wire>(
    wire: &mut W,
    place: &Place<W::Address>,
    client: Option<W::Address>,
    bytes: &[u8],
    target: u8,
)
    ensures given { (ds : List (Carried W.Address)) → W.was_given wire.old ds → W.was_given wire.new (ds ++ datagram_to place.now.end place.now.peers client bytes.now target) }
    ensures brought { (ds : List (Carried W.Address)) → W.has_brought wire.old ds → W.has_brought wire.new ds }
    ensures waited { (vain failures : ℕ) → W.has_waited wire.old vain failures → W.has_waited wire.new vain failures }
{
    if let Some(address) = place.address_of(client, target) {
        let _ = wire.send(place.end, address, bytes);
    }
}

/// Sends bytes to the members up to one, by rising number.
fn send_to_all<W: Wire>(
    wire: &mut W,
    place: &Place<W::Address>,
    client: Option<W::Address>,
    bytes: &[u8],
    count: u8,
)
    ensures given { (ds : List (Carried W.Address)) → W.was_given wire.old ds → W.was_given wire.new (ds ++ flat_map (datagram_to place.now.end place.now.peers client bytes.now) (up_to count)) }
    ensures brought { (ds : List (Carried W.Address)) → W.has_brought wire.old ds → W.has_brought wire.new ds }
    ensures waited { (vain failures : ℕ) → W.has_waited wire.old vain failures → W.has_waited wire.new vain failures }
{
    if count == 0 {
        return;
    }
    send_to_all(wire, place, client, bytes, count - 1);
    send_to(wire, place, client, bytes, count);
}

/// Sends bytes to the members up to one, but for the sender, by rising number.
fn send_to_others<W: Wire>(
    wire: &mut W,
    place: &Place<W::Address>,
    client: Option<W::Address>,
    bytes: &[u8],
    sender: u8,
    count: u8,
)
    ensures given { (ds : List (Carried W.Address)) → W.was_given wire.old ds → W.was_given wire.new (ds ++ flat_map (datagram_to place.now.end place.now.peers client bytes.now) (filter (λ k. not (k == sender)) (up_to count))) }
    ensures brought { (ds : List (Carried W.Address)) → W.has_brought wire.old ds → W.has_brought wire.new ds }
    ensures waited { (vain failures : ℕ) → W.has_waited wire.old vain failures → W.has_waited wire.new vain failures }
{
    if count == 0 {
        return;
    }
    send_to_others(wire, place, client, bytes, sender, count - 1);
    if count != sender {
        send_to(wire, place, client, bytes, count);
    }
}

/// Sends the bytes of one message to whom it goes, of so many members, where this one sends it.
fn send_one<W: Wire>(
    wire: &mut W,
    place: &Place<W::Address>,
    client: Option<W::Address>,
    members: u8,
    member: u8,
    one: &Sent,
)
    ensures given { (ds : List (Carried W.Address)) → W.was_given wire.old ds → W.was_given wire.new (ds ++ flat_map (datagram_to place.now.end place.now.peers client one.now.bytes.items) (targets members member one.now.to)) }
    ensures brought { (ds : List (Carried W.Address)) → W.has_brought wire.old ds → W.has_brought wire.new ds }
    ensures waited { (vain failures : ℕ) → W.has_waited wire.old vain failures → W.has_waited wire.new vain failures }
{
    let bytes = one.bytes.as_slice();
    match one.to {
        Target::One(target) => send_to(wire, place, client, bytes, target),
        Target::All => send_to_all(wire, place, client, bytes, members),
        Target::Others => send_to_others(wire, place, client, bytes, member, members),
        Target::Client => send_to(wire, place, client, bytes, 0),
    }
}

/// Sends what a step of the member of that number, of so many, has given, in order: to members at their addresses, and to the client at the
/// one that its message came from.
pub(super) fn post<W: Wire>(
    wire: &mut W,
    place: &Place<W::Address>,
    client: Option<W::Address>,
    members: u8,
    member: u8,
    sent: &[Sent],
)
    ensures given { (ds : List (Carried W.Address)) → W.was_given wire.old ds → W.was_given wire.new (ds ++ addressed place.now.end place.now.peers client (posted members member sent.now)) }
    ensures brought { (ds : List (Carried W.Address)) → W.has_brought wire.old ds → W.has_brought wire.new ds }
    ensures waited { (vain failures : ℕ) → W.has_waited wire.old vain failures → W.has_waited wire.new vain failures }
{
    let Some((first, others)) = sent.split_first() else {
        return;
    };
    send_one(wire, place, client, members, member, first);
    post(wire, place, client, members, member, others);
}
