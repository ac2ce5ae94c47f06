//! Messages that are decoded from bytes, and encoded again.

ghost use Rattle.ballots.specs.Messages.{body_of};
ghost use Rattle.messages.specs.Spelling.{Fits};

use messages::{Packet, decode, encode};
use std::alloc::Global;

/// The entries of the longest Promise.
const ENTRIES: u8 = 8;

/// The bytes of the longest text.
const TEXT: [u8; 4096] = [b'a'; 4096];

/// `PXQ1`, group 7, member 1.
const SENDER: [u8; 9] = [b'P', b'X', b'Q', b'1', 0, 0, 0, 7, 1];

/// The ballot (1, 1).
const BALLOT: [u8; 9] = [0, 0, 0, 0, 0, 0, 0, 1, 1];

/// The positions 1 to 1,000,000, and how many entries there are.
const WINDOW: [u8; 9] = [0, 0, 0, 1, 0, 15, 66, 64, ENTRIES];

/// A request of client 9 with number 1 at level 1, and the length of its text.
const REQUEST: [u8; 16] = [1, 0, 0, 0, 9, 0, 0, 0, 0, 0, 0, 0, 1, 1, 16, 0];

/// An Accept of a no-op at position 1.
fn accept(alloc: Global) -> Option<Vec<u8>> {
    let mut bytes = Vec::new(alloc);
    bytes.extend_from_slice(&SENDER).ok()?;
    bytes.push(3).ok()?;
    bytes.extend_from_slice(&BALLOT).ok()?;
    bytes.extend_from_slice(&[0, 0, 0, 1, 0]).ok()?;
    Some(bytes)
}

/// A Promise of eight requests with the longest texts.
fn promise(alloc: Global) -> Option<Vec<u8>> {
    let mut bytes = Vec::new(alloc);
    bytes.extend_from_slice(&SENDER).ok()?;
    bytes.push(2).ok()?;
    bytes.extend_from_slice(&BALLOT).ok()?;
    bytes.extend_from_slice(&WINDOW).ok()?;
    for entry in 0..ENTRIES {
        bytes.extend_from_slice(&[0, 0, 0, entry + 1]).ok()?;
        bytes.extend_from_slice(&BALLOT).ok()?;
        bytes.extend_from_slice(&REQUEST).ok()?;
        bytes.extend_from_slice(&TEXT).ok()?;
    }
    Some(bytes)
}

/// The bytes of a short Accept or of the longest Promise.
fn bytes_of(alloc: Global, is_long: bool) -> Option<Vec<u8>> {
    if is_long {
        promise(alloc)
    } else {
        accept(alloc)
    }
}

/// How many messages were decoded.
pub fn decoded(alloc: Global, is_long: bool, count: u32) -> Option<u32> {
    let bytes = bytes_of(alloc, is_long)?;
    for _turn in 0..count {
        decode(alloc, &bytes).ok()?;
    }
    Some(count)
}

/// How many messages were encoded.
pub fn encoded(alloc: Global, is_long: bool, count: u32) -> Option<u32> {
    let bytes = bytes_of(alloc, is_long)?;
    let packet = decode(alloc, &bytes).ok()?;
    encoded_again(alloc, &packet, &bytes, count)
}

/// Encodes what was decoded from these bytes, so many times.
fn encoded_again(alloc: Global, packet: &Packet, bytes: &[u8], count: u32) -> Option<u32>
    requires { Fits (body_of packet.now.message) }
{
    let mut again = Vec::new(alloc);
    for _turn in 0..count {
        again.clear();
        encode(&packet.message, packet.group, packet.sender, &mut again).ok()?;
    }
    if again.as_slice() == bytes || count == 0 {
        Some(count)
    } else {
        None
    }
}
