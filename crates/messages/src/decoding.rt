//! What bytes read as.

ghost use Rattle.std.specs.Prelude.{◌≡◌, ◌≢◌, ◌≤◌, [], IfOk, IfErr};
ghost use Rattle.ballots.specs.Messages.{body_of};
ghost use Rattle.messages.specs.Spelling.{mark, Datagram, spelling, Fits, IsDatagram};
ghost use Rattle.messages.specs.Reading.{Gives, Fails, is_sender, header_read, datagram_read};

use super::bodies::split_body;
use super::fault::WireFault;
use super::fields::{split_u8, split_u32};
use super::limits::MARK;
use ballots::Message;
use ballots::limits::MOST_MEMBERS;
use std::alloc::Global;

/// What one datagram says.
#[derive(Drop)]
pub struct Packet {
    /// The group that it is for.
    pub group: u32,
    /// The member that sends it, 1 to 63, or 0 for a client.
    pub sender: u8,
    /// The message.
    pub message: Message,
}

/// What a header says after its mark: the group, the sender, and the kind of the message.
#[derive(Clone, Copy)]
struct Header {
    group: u32,
    sender: u8,
    kind: u8,
}

/// Whether such a sender may say messages of a kind: requests and questions come from clients, all else from members.
fn may_send(kind: u8, sender: u8) -> bool
    ensures { result ≡ is_sender kind sender }
{
    if kind == 7 || kind == 9 {
        sender == 0
    } else {
        1 <= sender && sender <= MOST_MEMBERS
    }
}

/// The header at the front of the bytes, and the bytes after it.
fn split_header(bytes: &[u8]) -> Result<(Header, &[u8]), WireFault>
    ensures value { IfOk result (λ p. header_read bytes.now ≡ Gives (p.0.group, (p.0.sender, p.0.kind)) p.1.now) }
    ensures fault { IfErr result (λ f. header_read bytes.now ≡ Fails f) }
{
    // Faults from the left: the first that counts is that of the first wrong field, however the rest reads.
    let (mark, rest) = split_u32(bytes)?;
    if mark != MARK {
        return Err(WireFault::Mark);
    }
    let (group, rest) = split_u32(rest)?;
    let (sender, rest) = split_u8(rest)?;
    let (kind, rest) = split_u8(rest)?;
    if kind < 1 || kind > 12 {
        return Err(WireFault::Kind);
    }
    if !may_send(kind, sender) {
        return Err(WireFault::Number);
    }
    Ok((
        Header {
            group,
            sender,
            kind,
        },
        rest,
    ))
}

/// What the bytes of a datagram say.
fn read_datagram(alloc: Global, bytes: &[u8]) -> Result<Packet, WireFault>
    ensures packet { IfOk result (λ p. datagram_read bytes.now ≡ Gives (record { group = p.group; sender = p.sender; body = body_of p.message }) []) }
    ensures fault { IfErr result (λ f. f ≢ WireFault.Memory → datagram_read bytes.now ≡ Fails f) }
{
    let (header, rest) = split_header(bytes)?;
    let (message, rest) = split_body(alloc, rest, header.kind, header.sender)?;
    if !rest.is_empty() {
        return Err(WireFault::LeftOver);
    }
    Ok(Packet {
        group: header.group,
        sender: header.sender,
        message,
    })
}

/// What the bytes of a datagram say: they are the spelling of that message, of its group and from its sender, and it may be sent so.
///
/// The fault is the first from the left, each field being checked as soon as it is read; want of memory may come in its place.
pub fn decode(alloc: Global, bytes: &[u8]) -> Result<Packet, WireFault>
    ensures packet { IfOk result (λ p. datagram_read bytes.now ≡ Gives (record { group = p.group; sender = p.sender; body = body_of p.message }) []) }
    ensures spelt { IfOk result (λ p. bytes.now ≡ spelling (record { group = p.group; sender = p.sender; body = body_of p.message })) }
    ensures may_be_sent { IfOk result (λ p. IsDatagram (record { group = p.group; sender = p.sender; body = body_of p.message })) }
    ensures fits { IfOk result (λ p. Fits (body_of p.message)) }
    ensures fault { IfErr result (λ f. f ≢ WireFault.Memory → datagram_read bytes.now ≡ Fails f) }
{
    let packet = read_datagram(alloc, bytes)?;
    Ok(packet)
}
