//! Names of variables that are bound.

ghost use Rattle.std.specs.Prelude.{◌≡◌, [], length, take, OnOk};
ghost use Rattle.static_checks.specs.Scopes.{with_name};
ghost use Rattle.static_checks.specs.Variables.{is_bound};

use indexmap::IndexSet;
use std::alloc::{AllocError, Global};
use std::marker::Model;

/// Names, each once, in the order in which they came. Contracts see them as a list.
#[derive(Drop)]
pub(crate) struct BoundNames<'a> {
    names: IndexSet<&'a str>,
}

impl<'a> Model for BoundNames<'a> {
    ghost use Rattle.std.specs.Prelude.{ℕ, List, map};
    ghost use Rattle.std.specs.Coded.{coded_list, coded_ℕ};

    ghost Value = { List (List ℕ) };

    ghost coded = { coded_list (coded_list coded_ℕ) };

    ghost view = { λ b. map (λ k. k.now) b.names.keys };
}

impl<'a> BoundNames<'a> {
    pub(crate) fn new(alloc: Global) -> BoundNames<'a>
        ensures { result ≡ [] }
    {
        BoundNames {
            names: IndexSet::new(alloc),
        }
    }

    pub(crate) fn len(&self) -> usize
        ensures { result ≡ length self.now }
    {
        self.names.len()
    }

    /// Whether the name is among them.
    #[inline(never)]
    pub(crate) fn has(&self, name: &str) -> bool
        ensures { result ≡ is_bound name.now self.now }
    {
        self.names.contains(name)
    }

    /// Adds the name, if it is not among them. Fails where memory is refused; which names there are then isn't said.
    #[inline(never)]
    pub(crate) fn add(&mut self, name: &'a str) -> Result<(), AllocError>
        ensures { OnOk result (self.new ≡ with_name name.now self.old) }
    {
        self.names.insert(name)?;
        Ok(())
    }

    /// Leaves the first ones, so many.
    #[inline(never)]
    pub(crate) fn truncate(&mut self, len: usize)
        ensures { self.new ≡ take len self.old }
    {
        self.names.truncate(len);
    }
}
