//! `message_rows FILE`: prints what the bytes of each row read as, and whether encoding that gives the same bytes again.
//!
//! Rows: `all HEX..`, where spaces may stand between digits, and `cut N HEX..`, the first N bytes of them. `said MESSAGE` prints the message that its words
//! say, or `refused` where they say none: what is printed reads as that message.
#![tactic(auto)]

ghost use Rattle.ballots.specs.Messages.{body_of};
ghost use Rattle.messages.specs.Spelling.{Fits};

use ballots::Message;
use message_words::{message_text, read_message};
use messages::{Packet, WireFault, decode, encode};
use rows::{Answers, RowFault, Words, hex_bytes, run_table};
use std::alloc::Global;
use std::process::ExitCode;

/// Ends with the table's exit status: 1 where a row is not understood, and where the file cannot be read or memory is refused.
fn main(rt: HostRuntime) -> ExitCode {
    match run_table(&rt, &mut MessageRows) {
        Ok(status) => ExitCode::from(status),
        Err(_) => ExitCode::from(1),
    }
}

/// The rows on messages.
#[derive(Drop)]
struct MessageRows;

impl Answers for MessageRows {
    fn answer(&mut self, alloc: Global, row: &str) -> Result<String, RowFault> {
        let mut words = Words::new(row);
        let most = match words.plain()? {
            "said" => return said(alloc, &mut words),
            "all" => usize::MAX,
            "cut" => usize::try_from(words.number()?)
                .ok()
                .ok_or(RowFault::NotARow)?,
            _ => return Err(RowFault::NotARow),
        };
        let mut bytes = hex_bytes(alloc, words.rest())?;
        bytes.truncate(most);
        read(alloc, &bytes)
    }
}

/// What words say. Faults: `NotARow` where what is printed of it is other words when it is read and printed again, and `Memory`.
fn said(alloc: Global, words: &mut Words<'_>) -> Result<String, RowFault> {
    let said = match said_once(alloc, words) {
        Err(RowFault::NotARow) => return Ok(String::from_str(alloc, "refused")?),
        given => given?,
    };
    let again = said_once(alloc, &mut Words::new(said.as_str()))?;
    if again != said {
        return Err(RowFault::NotARow);
    }
    Ok(said)
}

/// The message that words say, and no others after it, as it is printed.
fn said_once(alloc: Global, words: &mut Words<'_>) -> Result<String, RowFault> {
    let message = read_message(alloc, words)?;
    if !words.is_empty() {
        return Err(RowFault::NotARow);
    }
    Ok(message_text(alloc, &message)?)
}

/// What bytes read as.
fn read(alloc: Global, bytes: &[u8]) -> Result<String, RowFault> {
    match decode(alloc, bytes) {
        Ok(packet) => again(alloc, bytes, &packet),
        Err(WireFault::Memory) => Err(RowFault::Memory),
        Err(fault) => {
            let number = number_of(fault);
            Ok(format!(in alloc; "fault {number}")?)
        }
    }
}

/// What was read, and whether it is encoded as those bytes.
fn again(alloc: Global, bytes: &[u8], packet: &Packet) -> Result<String, RowFault>
    requires { Fits (body_of packet.now.message) }
{
    let mut encoded = Vec::new(alloc);
    encode(&packet.message, packet.group, packet.sender, &mut encoded)?;
    let (kind, group, sender) = (kind_of(&packet.message), packet.group, packet.sender);
    let same = if encoded.as_slice() == bytes {
        "the same again"
    } else {
        "other bytes again"
    };
    Ok(format!(in alloc; "{kind}, group {group}, from {sender}, {same}")?)
}

/// The number of a fault.
fn number_of(fault: WireFault) -> u8 {
    match fault {
        WireFault::Short => 1,
        WireFault::Mark => 2,
        WireFault::Kind => 3,
        WireFault::Number => 4,
        WireFault::NotUtf8 => 5,
        WireFault::LeftOver => 6,
        WireFault::Memory => 7,
    }
}

/// The name of a message's kind.
fn kind_of(message: &Message) -> &'static str {
    match message {
        Message::Prepare(..) => "Prepare",
        Message::Promise(_) => "Promise",
        Message::Accept(..) => "Accept",
        Message::Accepted(..) => "Accepted",
        Message::Chosen(_) => "Chosen",
        Message::CatchUp(_) => "CatchUp",
        Message::Submit(_) => "Submit",
        Message::Reply(..) => "Reply",
        Message::Ask(_) => "Ask",
        Message::Answer(..) => "Answer",
        Message::Behind(..) => "Behind",
        Message::Elsewhere(..) => "Elsewhere",
    }
}
