//! The typed values of items.

ghost use Rattle.std.specs.Prelude.{◌≡◌, ◌∷◌, []};

use std::marker::Model;
use std::ops::DerefSlice;
use std::slice;
use values::Atom;

/// The typed values of items, in their order.
pub struct Atoms {
    values: Kept,
}

// By one call, whose contract is all that a caller's proof sees of it.
impl Drop for Atoms {
    fn drop(self) {
        let Atoms { values: _ } = self;
    }
}

/// Values as they are kept. One alone takes no piece of memory, and most items are compared and computed with one by one.
#[derive(Drop)]
enum Kept {
    /// One value.
    Single(Atom),
    /// As many as there are.
    Many(Vec<Atom>),
}

impl Model for Atoms {
    ghost use Rattle.evaluation.specs.Kept.{AtomList, atoms_of};

    ghost Value = { AtomList };

    ghost view = { λ a. atoms_of a.values };
}

impl Atoms {
    /// One value.
    pub(crate) fn one(value: Atom) -> Atoms
        ensures { result.items ≡ value ∷ [] }
    {
        Atoms {
            values: Kept::Single(value),
        }
    }

    /// These values.
    pub(crate) fn of(values: Vec<Atom>) -> Atoms
        ensures { result.items ≡ values.items }
    {
        Atoms {
            values: Kept::Many(values),
        }
    }
}

impl DerefSlice for Atoms {
    type Elem = Atom;

    ghost deref_gives = { λ a xs. xs ≡ a.items };

    fn deref(&self) -> &[Atom]
        ensures value { result.now ≡ self.now.items }
    {
        match &self.values {
            Kept::Single(value) => slice::from_ref(value),
            Kept::Many(values) => values.as_slice(),
        }
    }
}
