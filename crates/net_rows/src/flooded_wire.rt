//! A wire on which something always comes.

ghost use Rattle.std.specs.Prelude.{◌≡◌, ◌≤◌, length, IfOk, IfSome};

use wires::{Arrival, Lost, Unheard, Wire};

/// Another wire, on which a datagram of no bytes comes to end 0 wherever nothing else does. A while passes with each so many times that it is asked
/// whether one has.
#[derive(Drop)]
pub(super) struct FloodedWire<W: Wire + Drop> {
    wire: W,
    each: u64,
    asked: u64,
}

impl<W: Wire + Drop> FloodedWire<W> {
    /// On it a while passes with each so many times; with 0 never.
    pub(super) fn new(wire: W, each: u64) -> FloodedWire<W> {
        FloodedWire {
            wire,
            each,
            asked: 0,
        }
    }

    /// The other wire.
    pub(super) fn wire(&self) -> &W {
        &self.wire
    }
}

impl<W: Wire + Drop> Wire for FloodedWire<W> {
    type Address = W::Address;

    ghost was_given = { λ w ds. Unit {0} };

    ghost has_brought = { λ w ds. Unit {0} };

    ghost has_waited = { λ w vain failures. Unit {0} };

    fn address(&self, end: usize) -> Option<W::Address> {
        self.wire.address(end)
    }

    fn send(&mut self, end: usize, to: W::Address, bytes: &[u8]) -> Result<(), Lost> {
        self.wire.send(end, to, bytes)
    }

    fn receive(&mut self, buffer: &mut [u8]) -> Result<Option<Arrival<W::Address>>, Unheard> {
        if let Some(arrival) = self.wire.receive(buffer)? {
            return Ok(Some(arrival));
        }
        let Some(from) = self.wire.address(0) else {
            return Ok(None);
        };
        Ok(Some(Arrival {
            end: 0,
            from,
            length: 0,
        }))
    }

    /// Only what comes on the other wire waits: the datagram of no bytes comes to one that waits for it.
    fn receive_waiting(
        &mut self,
        buffer: &mut [u8],
    ) -> Result<Option<Arrival<W::Address>>, Unheard> {
        self.wire.receive_waiting(buffer)
    }

    fn has_while_passed(&mut self) -> bool {
        self.asked = self.asked.saturating_add(1);
        self.each != 0 && self.asked.is_multiple_of(self.each)
    }
}
