//! A wire that brings what a row gives, and keeps what is sent.

ghost use Rattle.std.specs.Prelude.{◌≡◌, ◌≤◌, length, IfOk, IfSome};

use rows::{RowFault, Words, hex_bytes};
use std::alloc::{AllocError, Global};
use std::collections::VecDeque;
use wires::{Arrival, Lost, Unheard, Wire};

/// A datagram, and the address that it comes from or goes to.
#[derive(Drop)]
pub(super) struct Datagram {
    pub(super) peer: u8,
    pub(super) bytes: Vec<u8>,
}

/// It has end 0 alone, at an address; what that end sends to itself comes last.
#[derive(Drop)]
pub(super) struct TableWire {
    alloc: Global,
    own: u8,
    coming: VecDeque<Datagram>,
    sent: Vec<Datagram>,
}

impl TableWire {
    /// The end's address, and what is still to come.
    pub(super) fn new(alloc: Global, own: u8) -> TableWire {
        TableWire {
            alloc,
            own,
            coming: VecDeque::new(alloc),
            sent: Vec::new(alloc),
        }
    }

    /// Lets datagrams come: FROM HEX each, to the end of the row.
    pub(super) fn bring(&mut self, words: &mut Words<'_>) -> Result<(), RowFault> {
        for _ in 0..1_000 {
            if words.is_empty() {
                return Ok(());
            }
            let peer = u8::try_from(words.number()?).ok().ok_or(RowFault::NotARow)?;
            let bytes = match words.plain()? {
                "-" => Vec::new(self.alloc),
                digits => hex_bytes(self.alloc, digits)?,
            };
            self.come(peer, bytes)?;
        }
        Err(RowFault::NotARow)
    }

    /// Lets a datagram come last.
    fn come(&mut self, peer: u8, bytes: Vec<u8>) -> Result<(), AllocError> {
        self.coming
            .push_back(Datagram { peer, bytes })
            .map_err(AllocError::from)
    }

    /// What was sent to other addresses.
    pub(super) fn sent(&self) -> &[Datagram] {
        &self.sent
    }

    /// What comes next, if something does.
    fn take_next(&mut self, buffer: &mut [u8]) -> Option<Arrival<u8>>
        ensures fits { IfSome result (λ a. a.length ≤ length buffer.new) }
        ensures room { length buffer.new ≡ length buffer.old }
    {
        let datagram = self.coming.pop_front()?;
        let length = datagram.bytes.len().min(buffer.len());
        buffer[..length].copy_from_slice(&datagram.bytes[..length]);
        Some(Arrival {
            end: 0,
            from: datagram.peer,
            length,
        })
    }

    /// Keeps what is sent.
    fn keep(&mut self, peer: u8, bytes: &[u8]) -> Result<(), AllocError> {
        let bytes = bytes.to_vec(self.alloc)?;
        if peer == self.own {
            self.come(peer, bytes)
        } else {
            self.sent
                .push(Datagram { peer, bytes })
                .map_err(AllocError::from)
        }
    }
}

impl Wire for TableWire {
    type Address = u8;

    ghost was_given = { λ w ds. Unit {0} };

    ghost has_brought = { λ w ds. Unit {0} };

    ghost has_waited = { λ w vain failures. Unit {0} };

    fn address(&self, end: usize) -> Option<u8> {
        if end == 0 { Some(self.own) } else { None }
    }

    fn send(&mut self, _end: usize, to: u8, bytes: &[u8]) -> Result<(), Lost> {
        self.keep(to, bytes).map_err(|_| Lost)
    }

    fn receive(&mut self, buffer: &mut [u8]) -> Result<Option<Arrival<u8>>, Unheard> {
        Ok(self.take_next(buffer))
    }

    fn receive_waiting(&mut self, buffer: &mut [u8]) -> Result<Option<Arrival<u8>>, Unheard> {
        Ok(self.take_next(buffer))
    }

    fn has_while_passed(&mut self) -> bool {
        false
    }
}
