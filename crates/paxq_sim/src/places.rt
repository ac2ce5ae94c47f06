//! Members and positions of which they were told.

ghost use Rattle.std.specs.Prelude.{◌≡◌, ◌==◌, ◌&&◌, ◌||◌, not, ℕ, [], IfOk, OnOk};
ghost use Rattle.paxq_sim.specs.Places.{is_place};

use indexmap::IndexSet;
use std::alloc::{AllocError, Global};
use std::marker::Model;

/// Members with positions, each pair once. Contracts see them as a list.
#[derive(Drop)]
pub(crate) struct Places {
    set: IndexSet<(u8, u32)>,
}

impl Model for Places {
    ghost use Rattle.std.specs.Prelude.{ℕ, List};
    ghost use Rattle.std.specs.Coded.{coded_list, coded_ℕ, coded×};

    ghost Value = { List (ℕ × ℕ) };

    ghost coded = { coded_list (coded× coded_ℕ coded_ℕ) };

    ghost view = { λ b. b.set.keys };
}

impl Places {
    pub(crate) fn new(alloc: Global) -> Places
        ensures { result ≡ [] }
    {
        Places {
            set: IndexSet::new(alloc),
        }
    }

    /// Adds a member's position, and answers whether it was not among them. It fails where memory is refused.
    pub(crate) fn add(&mut self, member: u8, position: u32) -> Result<bool, AllocError>
        ensures added { IfOk result (λ is_new. is_new ≡ not (is_place self.old member position)) }
        ensures places { OnOk result ((m p : ℕ) → is_place self.new m p ≡ ((m == member) && (p == position) || is_place self.old m p)) }
    {
        Ok(self.set.insert((member, position))?)
    }
}
