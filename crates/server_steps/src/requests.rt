//! Which request a client's datagram makes.

use ballots::RequestId;
use byteorder::{BigEndian, ByteOrder};

/// Where in a message's bytes its kind stands: after the mark, the group's number and the sender.
const KIND_AT: usize = 9;

/// The kinds of a vote that is told, and of a request.
const ACCEPTED: u8 = 4;

const SUBMIT: u8 = 7;

/// Where the client's number and the request's stand, and where they end.
const CLIENT_AT: usize = 10;

const NUMBER_AT: usize = 14;

const TEXT_AT: usize = 22;

/// Whose request the bytes of a message make, and which, if they make one.
pub(super) fn request_in(bytes: &[u8]) -> Option<RequestId> {
    if bytes.len() < TEXT_AT || bytes[KIND_AT] != SUBMIT {
        return None;
    }
    Some(RequestId {
        client: BigEndian::read_u32(&bytes[CLIENT_AT..NUMBER_AT]),
        number: BigEndian::read_u64(&bytes[NUMBER_AT..TEXT_AT]),
    })
}

/// Whether the bytes of a message tell a vote.
pub(super) fn is_vote(bytes: &[u8]) -> bool {
    bytes.get(KIND_AT).copied() == Some(ACCEPTED)
}
