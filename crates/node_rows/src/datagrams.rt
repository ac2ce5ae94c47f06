//! Datagrams: `GROUP SENDER` and a message in words.

ghost use Rattle.std.specs.Prelude.{◌≡◌, true};
ghost use Rattle.ballots.specs.Messages.{body_of};
ghost use Rattle.messages.specs.Spelling.{Fits};

use ballots::limits::{MOST_ANSWER, MOST_ENTRIES};
use ballots::{Answer, Message};
use message_words::{message_text, read_message, read_u8, read_u32};
use messages::{Packet, WireFault, decode, encode};
use rows::{RowFault, Words, hex_bytes};
use std::alloc::{AllocError, Global};

/// The next words, a group, a sender and a message: the bytes of that datagram. Faults: `NotARow`, also where the message has more entries or a longer answer than
/// one may have, and `Memory`.
pub(super) fn read_datagram(alloc: Global, words: &mut Words<'_>) -> Result<Vec<u8>, RowFault> {
    let group = read_u32(words)?;
    let sender = read_u8(words)?;
    let message = read_message(alloc, words)?;
    encoded(alloc, &message, group, sender)
}

/// The bytes of a message of a group from a sender.
fn encoded(alloc: Global, message: &Message, group: u32, sender: u8) -> Result<Vec<u8>, RowFault> {
    if !fits(message) {
        return Err(RowFault::NotARow);
    }
    let mut bytes = Vec::new(alloc);
    encode(message, group, sender, &mut bytes)?;
    Ok(bytes)
}

/// Whether a message has no more entries, and no longer an answer, than its spelling has room for.
fn fits(message: &Message) -> bool
    ensures { result ≡ true → Fits (body_of message.now) }
{
    match message {
        Message::Promise(window) => window.entries.len() <= MOST_ENTRIES,
        Message::Chosen(pairs) => pairs.len() <= MOST_ENTRIES,
        Message::Answer(_, _, _, Answer::Text(text)) => text.len() <= MOST_ANSWER,
        _ => true,
    }
}

/// The bytes that a word stands for in hexadecimal digits, `-` for none.
pub(super) fn read_bytes(alloc: Global, words: &mut Words<'_>) -> Result<Vec<u8>, RowFault> {
    match words.plain()? {
        "-" => Ok(Vec::new(alloc)),
        digits => hex_bytes(alloc, digits),
    }
}

/// Appends the digit of a number below 16.
fn push_digit(out: &mut String, digit: u8) -> Result<(), AllocError> {
    match char::from_digit(u32::from(digit), 16) {
        Some(digit) => out.push(digit),
        None => Ok(()),
    }
}

/// Bytes in hexadecimal digits, two each.
fn hex_text(alloc: Global, bytes: &[u8]) -> Result<String, AllocError> {
    let mut out = String::new(alloc);
    for byte in bytes {
        push_digit(&mut out, *byte >> 4)?;
        push_digit(&mut out, *byte & 15)?;
    }
    Ok(out)
}

/// A datagram in words; in hexadecimal digits where it is none.
pub(super) fn datagram_text(alloc: Global, bytes: &[u8]) -> Result<String, AllocError> {
    match decode(alloc, bytes) {
        Ok(packet) => packet_text(alloc, &packet),
        Err(WireFault::Memory) => Err(AllocError),
        Err(_) => hex_text(alloc, bytes),
    }
}

/// What a datagram says, in words.
fn packet_text(alloc: Global, packet: &Packet) -> Result<String, AllocError> {
    let (group, sender) = (packet.group, packet.sender);
    let message = message_text(alloc, &packet.message)?;
    format!(in alloc; "{group} {sender} {message}")
}
