//! How what a node gives is printed.

use crate::datagrams::datagram_text;
use ballots::Answer;
use member::Target;
use messages::WireFault;
use node::{NodeFault, Outbox, Reading, Sent};
use rows::RowFault;
use std::alloc::{AllocError, Global};

/// The number of a fault of bytes.
fn wire_number(fault: WireFault) -> u8 {
    match fault {
        WireFault::Short => 1,
        WireFault::Mark => 2,
        WireFault::Kind => 3,
        WireFault::Number => 4,
        WireFault::NotUtf8 => 5,
        WireFault::LeftOver => 6,
        WireFault::Memory => 7,
    }
}

/// A fault by its number; that of bytes with the number of why they are no message. Want of memory ends the row.
pub(super) fn fault_text(alloc: Global, fault: NodeFault) -> Result<String, RowFault> {
    let number: u8 = match fault {
        NodeFault::Wire(fault) => {
            let number = wire_number(fault);
            return Ok(format!(in alloc; "fault 1 for {number}")?);
        }
        NodeFault::Stranger => 2,
        NodeFault::Memory => return Err(RowFault::Memory),
        NodeFault::Store => 4,
        NodeFault::Stopped => 5,
        NodeFault::Spent => 6,
    };
    Ok(format!(in alloc; "fault {number}")?)
}

/// To whom something goes.
fn target_text(alloc: Global, to: Target) -> Result<String, AllocError> {
    match to {
        Target::One(member) => format!(in alloc; "to {member} "),
        Target::All => format!(in alloc; "to all "),
        Target::Others => format!(in alloc; "to others "),
        Target::Client => format!(in alloc; "to client "),
    }
}

/// Appends a message, after a comma where something stands there.
fn push_sent(alloc: Global, out: &mut String, sent: &Sent) -> Result<(), AllocError> {
    if !out.is_empty() {
        out.push_str(", ")?;
    }
    out.push_str(target_text(alloc, sent.to)?.as_str())?;
    out.push_str(datagram_text(alloc, &sent.bytes)?.as_str())
}

/// What a step gives.
pub(super) fn outbox_text(alloc: Global, outbox: &Outbox) -> Result<String, RowFault> {
    let mut out = String::new(alloc);
    for sent in outbox.sent() {
        push_sent(alloc, &mut out, sent)?;
    }
    if outbox.short() {
        return Err(RowFault::Memory);
    }
    if out.is_empty() {
        out.push_str("nothing")?;
    }
    Ok(out)
}

/// What a question reads.
pub(super) fn reading_text(alloc: Global, reading: &Reading) -> Result<String, RowFault> {
    match reading {
        Reading::At(position, Answer::Text(text)) => {
            Ok(format!(in alloc; "at {position} {text}")?)
        }
        Reading::At(position, Answer::Fault(code)) => {
            Ok(format!(in alloc; "at {position} fault {code}")?)
        }
        Reading::Behind(applied) => Ok(format!(in alloc; "behind {applied}")?),
    }
}
