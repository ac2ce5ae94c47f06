//! Numbers of messages.

ghost use Rattle.std.specs.Prelude.{◌≡◌, ◌∷◌, ◌||◌, ℕ, [], OnOk};
ghost use Rattle.paxq_sim.specs.Play.{if_waiting, is_among, named_in};

use events::{Event, Step};
use indexmap::IndexSet;
use std::alloc::{AllocError, Global};
use std::marker::Model;

/// Numbers, each once. Contracts see them as a list.
#[derive(Drop)]
pub(crate) struct Numbers {
    set: IndexSet<u64>,
}

impl Model for Numbers {
    ghost use Rattle.std.specs.Prelude.{ℕ, List};
    ghost use Rattle.std.specs.Coded.{coded_list, coded_ℕ};

    ghost Value = { List ℕ };

    ghost coded = { coded_list coded_ℕ };

    ghost view = { λ b. b.set.keys };
}

impl Numbers {
    pub(crate) fn new(alloc: Global) -> Numbers
        ensures { result ≡ [] }
    {
        Numbers {
            set: IndexSet::new(alloc),
        }
    }

    /// Whether the number is among them.
    pub(crate) fn has(&self, number: u64) -> bool
        ensures { result ≡ is_among self.now number }
    {
        self.set.contains(&number)
    }

    /// Adds the number, if it is not among them. It fails where memory is refused.
    fn add(&mut self, number: u64) -> Result<(), AllocError>
        ensures { OnOk result ((k : ℕ) → is_among self.new k ≡ (is_among self.old k || is_among (number ∷ []) k)) }
    {
        self.set.insert(number)?;
        Ok(())
    }

    /// Adds the number of the message that an event names, if it is after those delivered and so many were sent. It fails where memory is
    /// refused.
    pub(crate) fn note(
        &mut self,
        delivered: u64,
        sent: u64,
        event: &Event,
    ) -> Result<(), AllocError>
        ensures { OnOk result ((k : ℕ) → is_among self.new k ≡ (is_among self.old k || is_among (named_in delivered sent event.now) k)) }
    {
        match event {
            Event::Deliver(number) | Event::StopIn(Step::Deliver(number), _) => {
                self.add_waiting(delivered, sent, *number)
            }
            _ => Ok(()),
        }
    }

    /// Adds a number, if it is after those delivered and so many were sent. It fails where memory is refused.
    fn add_waiting(&mut self, delivered: u64, sent: u64, number: u64) -> Result<(), AllocError>
        ensures { OnOk result ((k : ℕ) → is_among self.new k ≡ (is_among self.old k || is_among (if_waiting delivered sent number) k)) }
    {
        if delivered < number && number <= sent {
            self.add(number)
        } else {
            Ok(())
        }
    }

    /// Forgets all of them, with the room that they had, which would be walked whole each time otherwise.
    pub(crate) fn clear(&mut self, alloc: Global)
        ensures { self.new ≡ [] }
    {
        if !self.set.is_empty() {
            self.set = IndexSet::new(alloc);
        }
    }
}
