//! Names, each once.

ghost use Rattle.std.specs.Prelude.{◌≡◌, ◌||◌, not, ℕ, List, [], IfOk, OnOk};
ghost use Rattle.std.specs.Str.{bytes_eq};
ghost use Rattle.name_sets.specs.NameSets.{is_among};

use indexmap::IndexSet;
use std::alloc::{AllocError, Global};
use std::marker::Model;

/// Names, each once. Contracts see them as a list.
#[derive(Drop)]
pub struct NameSet<'a> {
    names: IndexSet<&'a str>,
}

impl<'a> Model for NameSet<'a> {
    ghost use Rattle.std.specs.Prelude.{ℕ, List, map};
    ghost use Rattle.std.specs.Coded.{coded_list, coded_ℕ};

    ghost Value = { List (List ℕ) };

    ghost coded = { coded_list (coded_list coded_ℕ) };

    ghost view = { λ a. map (λ k. k.now) a.names.keys };
}

impl<'a> NameSet<'a> {
    /// No names. It takes no memory.
    pub fn new(alloc: Global) -> NameSet<'a>
        ensures { result ≡ [] }
    {
        NameSet {
            names: IndexSet::new(alloc),
        }
    }

    /// Adds a name, and answers whether it was not among them. It fails where memory is refused.
    pub fn add(&mut self, name: &'a str) -> Result<bool, AllocError>
        ensures new { IfOk result (λ is_new. is_new ≡ not (is_among name.now self.old)) }
        ensures names { OnOk result ((x : List ℕ) → is_among x self.new ≡ (bytes_eq x name.now || is_among x self.old)) }
    {
        Ok(self.names.insert(name)?)
    }
}
