//! What a client sends.

ghost use Rattle.std.specs.Prelude.{◌≡◌, false, ◌≤◌, ◌<◌, ◌⊎◌, IfOk, MatchOption, length};
ghost use Rattle.ballots.specs.Messages.{Submit, Ask as AskBody};
ghost use Rattle.ballots.specs.Terms.{is_level, most_text};
ghost use Rattle.ballots.specs.Values.{positions};
ghost use Rattle.messages.specs.Spelling.{spelling};

use ballots::{Ask, AskFault, Message, Request, RequestId};
use messages::encode;
use std::alloc::{AllocError, Global};

/// Whom a client's datagrams come from: no member.
const CLIENT: u8 = 0;

/// The datagram that asks a group to run a request. It fails where memory is refused.
pub fn request(alloc: Global, group: u32, request: Request) -> Result<Vec<u8>, AllocError>
    ensures spelt { IfOk result (λ bytes. bytes.items ≡ spelling (record { group = group; sender = 0; body = Submit request })) }
{
    let mut bytes = Vec::new(alloc);
    encode(&Message::Submit(request), group, CLIENT, &mut bytes)?;
    Ok(bytes)
}

/// The datagram that asks a question at a level of the language, of that client and number, to be answered where `floor` positions are applied.
///
/// There is none where there is no such level, the text is longer than 4,096 bytes or the floor is above 1,000,000. It fails where memory is refused.
pub fn question(
    alloc: Global,
    group: u32,
    id: RequestId,
    floor: u32,
    level: u8,
    text: &str,
) -> Result<Option<Vec<u8>>, AllocError>
    ensures spelt { IfOk result (λ asked. MatchOption asked ((is_level level ≡ false) ⊎ (most_text < length text.now) ⊎ (positions < floor))
        (λ bytes. (length text.now ≤ most_text) × (floor ≤ positions)
        × (bytes.items ≡ spelling (record { group = group; sender = 0; body = AskBody (record { client = id.client; number = id.number; floor = floor; level = level; text = text.now }) })))) }
{
    let ask = match Ask::new(alloc, id.client, id.number, floor, level, text) {
        Ok(ask) => ask,
        Err(AskFault::Memory) => return Err(AllocError),
        Err(AskFault::Level | AskFault::TextTooLong | AskFault::Floor) => return Ok(None),
    };
    let mut bytes = Vec::new(alloc);
    encode(&Message::Ask(ask), group, CLIENT, &mut bytes)?;
    Ok(Some(bytes))
}
