//! Datagrams that an end sends to itself, which no network carries.

ghost use Rattle.std.specs.Prelude.{◌≡◌, ◌≤◌, length};

use std::alloc::{AllocError, Global};
use std::collections::VecDeque;

/// A datagram that waits for the end that it is for, and the end that sent it.
#[derive(Drop)]
pub(super) struct Kept {
    pub(super) from: usize,
    pub(super) to: usize,
    pub(super) bytes: Vec<u8>,
}

/// Adds a datagram behind those that wait. It fails where memory is refused, and nothing has changed.
pub(super) fn keep(
    alloc: Global,
    waiting: &mut VecDeque<Kept>,
    from: usize,
    to: usize,
    bytes: &[u8],
) -> Result<(), AllocError> {
    let bytes = bytes.to_vec(alloc)?;
    waiting
        .push_back(Kept { from, to, bytes })
        .map_err(AllocError::from)
}

/// Copies the front of the bytes, as much as there is room for, and says how much.
pub(super) fn copy_front(bytes: &[u8], buffer: &mut [u8]) -> usize
    ensures fits { result ≤ length buffer.new }
    ensures room { length buffer.new ≡ length buffer.old }
{
    let length = bytes.len().min(buffer.len());
    buffer[..length].copy_from_slice(&bytes[..length]);
    length
}
