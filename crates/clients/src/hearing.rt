//! What a client hears.

ghost use Rattle.std.specs.Prelude.{◌≡◌, ◌&&◌, ◌==◌, IfOk, string_bytes};
ghost use Rattle.std.specs.Option.{option_map};
ghost use Rattle.ballots.specs.Messages.{body_of};
ghost use Rattle.messages.specs.Reading.{datagram_read};
ghost use Rattle.clients.specs.Hearing.{heard_in, heard_term, is_of, said_to};

use ballots::{Answer, Message, Reply, RequestId};
use messages::{Packet, WireFault, decode};
use std::alloc::{AllocError, Global};

/// What a member says to a client about what it asked.
#[derive(Drop)]
pub enum Heard {
    /// What came of the request.
    Reply(Reply),
    /// The number of the member that answers the question, how many positions are applied there, and its answer.
    Answer(u8, u32, Answer),
    /// Fewer positions are applied than the question asks for, so many.
    Behind(u32),
    /// The member that leads, as far as the one that was asked knows, or 0.
    Elsewhere(u8),
}

/// What a datagram says to the client of a group about the request or question of that client and number.
///
/// There is nothing where the bytes are no message, one of another group, one to another client or about another number, or one that no client
/// is sent. It fails where memory is refused.
pub fn hear(
    alloc: Global,
    group: u32,
    id: RequestId,
    bytes: &[u8],
) -> Result<Option<Heard>, AllocError>
    ensures { IfOk result (λ heard. option_map heard_term heard ≡ heard_in group id (datagram_read bytes.now)) }
{
    match decode(alloc, bytes) {
        Ok(packet) => {
            if packet.group == group {
                Ok(said_to(id, packet))
            } else {
                Ok(None)
            }
        }
        Err(WireFault::Memory) => Err(AllocError),
        Err(_) => Ok(None),
    }
}

/// What a message says about that.
fn said_to(id: RequestId, packet: Packet) -> Option<Heard>
    ensures { option_map heard_term result ≡ said_to id packet.sender (body_of packet.message) }
{
    let member = packet.sender;
    match packet.message {
        Message::Reply(client, number, reply) if is_of(id, client, number) => {
            Some(Heard::Reply(reply))
        }
        Message::Answer(client, number, applied, answer) if is_of(id, client, number) => {
            Some(Heard::Answer(member, applied, answer))
        }
        Message::Behind(client, number, applied) if is_of(id, client, number) => {
            Some(Heard::Behind(applied))
        }
        Message::Elsewhere(client, number, leader) if is_of(id, client, number) => {
            Some(Heard::Elsewhere(leader))
        }
        _ => None,
    }
}

/// Whether it is of that client and number.
fn is_of(id: RequestId, client: u32, number: u64) -> bool
    ensures { result ≡ is_of id client number }
{
    id.client == client && id.number == number
}
