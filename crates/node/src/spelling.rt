//! What a member sends, as bytes.

ghost use Rattle.std.specs.Prelude.{◌≡◌, ℕ, IfOk, OnOk, ◌++◌, map};
ghost use Rattle.ballots.specs.Messages.{body_of};
ghost use Rattle.messages.specs.Spelling.{Fits, spelling};
ghost use Rattle.member.specs.Steps.{all_packets};
ghost use Rattle.node.specs.Nodes.{AreAll, HasFieldsInRange, posted, spelt};

use super::outbox::Sent;
use member::Send;
use messages::encode;
use std::alloc::{AllocError, Global};

/// A message as the group's member of that number spells it.
///
/// It fails where memory is refused.
fn spell(alloc: Global, group: u32, number: u8, send: &Send) -> Result<Sent, AllocError>
    requires fits { Fits (body_of send.now.message) }
    ensures to { IfOk result (λ s. s.to ≡ send.now.to) }
    ensures bytes { IfOk result (λ s. s.bytes.items ≡ spelling (record { group = group; sender = number; body = body_of send.now.message })) }
    ensures fields { OnOk result (HasFieldsInRange (body_of send.now.message)) }
{
    let mut bytes = Vec::new(alloc);
    encode(&send.message, group, number, &mut bytes)?;
    Ok(Sent { to: send.to, bytes })
}

/// Adds the spellings of messages.
///
/// It fails where memory is refused.
fn push_spelt(
    alloc: Global,
    group: u32,
    number: u8,
    sends: &[Send],
    sent: &mut Vec<Sent>,
) -> Result<(), AllocError>
    requires fits { AreAll Fits sends.now }
    ensures spelt { OnOk result ((n : ℕ) → posted n number sent.new.items ≡ posted n number sent.old.items ++ map (spelt group) (all_packets n number sends.now)) }
    ensures fields { OnOk result (AreAll HasFieldsInRange sends.now) }
{
    match sends.split_first() {
        None => Ok(()),
        Some((send, others)) => {
            sent.push(spell(alloc, group, number, send)?)?;
            push_spelt(alloc, group, number, others, sent)
        }
    }
}

/// Messages as the group's member of that number spells them, each once for all its targets.
///
/// It fails where memory is refused.
pub(super) fn spell_all(
    alloc: Global,
    group: u32,
    number: u8,
    sends: &[Send],
) -> Result<Vec<Sent>, AllocError>
    requires fits { AreAll Fits sends.now }
    ensures spelt { IfOk result (λ v. (n : ℕ) → posted n number v.items ≡ map (spelt group) (all_packets n number sends.now)) }
    ensures fields { OnOk result (AreAll HasFieldsInRange sends.now) }
{
    let mut sent = Vec::new(alloc);
    push_spelt(alloc, group, number, sends, &mut sent)?;
    Ok(sent)
}
