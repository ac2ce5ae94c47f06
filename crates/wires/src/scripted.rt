//! A wire in memory, which fails where it is told to.

ghost use Rattle.std.specs.Prelude.{◌≡◌, ◌≤◌, ◌++◌, [], ◌∷◌, length, IfOk, IfSome};

use super::kept::{Kept, copy_front, keep};
use super::wire::{Arrival, Lost, Unheard, Wire};
use std::alloc::Global;
use std::collections::VecDeque;

/// Some of the calls of a kind, counted from 1: those from the one up to the other, both included.
#[derive(Clone, Copy, PartialEq, Eq, Debug)]
pub struct Calls {
    /// The first one.
    pub from: u64,
    /// The last one.
    pub to: u64,
}

impl Calls {
    /// No call.
    pub const NONE: Calls = Calls { from: 1, to: 0 };

    /// Every call.
    pub const ALL: Calls = Calls {
        from: 1,
        to: u64::MAX,
    };

    /// The one call of that number.
    pub fn only(number: u64) -> Calls
        ensures { (result.from ≡ number) × (result.to ≡ number) }
    {
        Calls {
            from: number,
            to: number,
        }
    }

    /// Whether the call of that number is one of them.
    fn has(self, number: u64) -> bool {
        self.from <= number && number <= self.to
    }
}

/// Ends in memory, each named by its number: what is sent comes in that order, or never.
///
/// A send that fails loses its datagram, and a receive that fails leaves all as it was. What an end sends to itself counts as no send, and
/// none of those fails. Where memory is refused a datagram is lost.
#[derive(Drop)]
pub struct ScriptedWire {
    alloc: Global,
    ends: u8,
    waiting: VecDeque<Kept>,
    sends: u64,
    receives: u64,
    failing_sends: Calls,
    failing_receives: Calls,
    /// After how many receives a while has passed; 0 for never.
    each: u64,
    asked: u64,
}

impl ScriptedWire {
    /// So many ends, with the sends and the receives that fail.
    pub fn new(alloc: Global, ends: u8, sends: Calls, receives: Calls) -> ScriptedWire {
        ScriptedWire {
            alloc,
            ends,
            waiting: VecDeque::new(alloc),
            sends: 0,
            receives: 0,
            failing_sends: sends,
            failing_receives: receives,
            each: 0,
            asked: 0,
        }
    }

    /// The same, on which a while passes with each so many times that it is asked whether one has; 0 for never.
    pub fn with_a_while(self, each: u64) -> ScriptedWire {
        ScriptedWire { each, ..self }
    }

    /// How many datagrams it was given to send from one end to another; at 2^64 - 1 it stays.
    pub fn sends(&self) -> u64 {
        self.sends
    }

    /// How often it was asked to wait for one; at 2^64 - 1 it stays.
    pub fn receives(&self) -> u64 {
        self.receives
    }

    /// Puts a datagram on its way that nobody sent. `Lost` where memory is refused.
    pub fn put(&mut self, from: u8, to: u8, bytes: &[u8]) -> Result<(), Lost> {
        let (from, to) = (usize::from(from), usize::from(to));
        keep(self.alloc, &mut self.waiting, from, to, bytes).map_err(|_| Lost)
    }

    /// The datagram that waits first, if one does.
    fn take_front(&mut self, buffer: &mut [u8]) -> Option<Arrival<u8>>
        ensures fits { IfSome result (λ a. a.length ≤ length buffer.new) }
        ensures room { length buffer.new ≡ length buffer.old }
    {
        let kept = self.waiting.pop_front()?;
        let from = u8::try_from(kept.from).ok()?;
        Some(Arrival {
            end: kept.to,
            from,
            length: copy_front(&kept.bytes, buffer),
        })
    }

    /// Counts a send from one end to another, and says whether it fails.
    fn fails_to_send(&mut self) -> bool {
        self.sends = self.sends.saturating_add(1);
        self.failing_sends.has(self.sends)
    }
}

impl Wire for ScriptedWire {
    type Address = u8;

    ghost was_given = { λ w ds. Unit {0} };

    ghost has_brought = { λ w ds. Unit {0} };

    ghost has_waited = { λ w vain failures. Unit {0} };

    fn address(&self, end: usize) -> Option<u8> {
        let end = u8::try_from(end).ok()?;
        if end < self.ends { Some(end) } else { None }
    }

    fn send(&mut self, end: usize, to: u8, bytes: &[u8]) -> Result<(), Lost> {
        if end != usize::from(to) && self.fails_to_send() || to >= self.ends {
            return Err(Lost);
        }
        keep(self.alloc, &mut self.waiting, end, usize::from(to), bytes).map_err(|_| Lost)
    }

    fn receive(&mut self, buffer: &mut [u8]) -> Result<Option<Arrival<u8>>, Unheard> {
        self.receives = self.receives.saturating_add(1);
        if self.failing_receives.has(self.receives) {
            return Err(Unheard);
        }
        Ok(self.take_front(buffer))
    }

    /// It counts as no receive, and does not fail.
    fn receive_waiting(&mut self, buffer: &mut [u8]) -> Result<Option<Arrival<u8>>, Unheard> {
        Ok(self.take_front(buffer))
    }

    fn has_while_passed(&mut self) -> bool {
        self.asked = self.asked.saturating_add(1);
        self.each != 0 && self.asked.is_multiple_of(self.each)
    }
}
