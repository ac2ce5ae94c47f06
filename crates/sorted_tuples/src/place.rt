//! Where `return` is evaluated at a tuple: the environment, whole or with the last variable beside it.

ghost use Rattle.std.specs.Prelude.{◌≡◌, ◌∷◌, [], IfOk};
ghost use Rattle.query_meaning.specs.Environment.{with_variable};
ghost use Rattle.sorted_tuples.specs.Places.{place_of};

use evaluation::KeptEnvironment;
use std::alloc::{AllocError, Global};
use std::marker::Model;
use std::rc::Rc;
use values::{Item, Text};

/// The environment of a tuple.
pub struct Place<'f> {
    placed: Placed<'f>,
}

// By one call, whose contract is all that a caller's proof sees of it.
impl<'f> Drop for Place<'f> {
    fn drop(self) {
        let Place { placed: _ } = self;
    }
}

/// An environment as it is held.
#[derive(Drop)]
pub enum Placed<'f> {
    /// It is held whole.
    Kept(KeptEnvironment<'f>),
    /// The one item of the last variable, which is yet to be bound, and what tuples share that differ in it alone.
    Bound(Rc<Binding<'f>>, Item),
}

/// A variable that is to be bound after all others.
pub struct Binding<'f> {
    /// The environment of the others.
    pub others: KeptEnvironment<'f>,
    /// The variable's name.
    pub variable: Text,
}

// By one call, whose contract is all that a caller's proof sees of it.
impl<'f> Drop for Binding<'f> {
    fn drop(self) {
        let Binding {
            others: _,
            variable: _,
        } = self;
    }
}

impl<'f> Binding<'f> {
    /// A variable after those of an environment, for tuples to share. It fails where memory is refused.
    pub fn shared(
        alloc: Global,
        others: KeptEnvironment<'f>,
        variable: Text,
    ) -> Result<Rc<Binding<'f>>, AllocError>
        ensures { IfOk result (λ binding. binding.value ≡ record { others = others.entry; variable = variable }) }
    {
        Ok(Rc::new(alloc, Binding { others, variable })?)
    }
}

impl<'f> Model for Place<'f> {
    ghost use Rattle.query_meaning.specs.Environment.{Environment as Term, environment_code};

    ghost Value = { Term };

    ghost coded = { environment_code };

    ghost use Rattle.sorted_tuples.specs.Places.{place_of};

    ghost view = { λ p. place_of p.placed };
}

impl<'f> Place<'f> {
    /// An environment that is held whole.
    pub fn kept(environment: KeptEnvironment<'f>) -> Place<'f>
        ensures { result ≡ environment.entry }
    {
        Place {
            placed: Placed::Kept(environment),
        }
    }

    /// An environment where a variable is bound to an item after all others.
    pub fn bound(binding: Rc<Binding<'f>>, item: Item) -> Place<'f>
        ensures { result ≡ with_variable binding.entry.value.variable (item ∷ []) binding.entry.value.others }
    {
        Place {
            placed: Placed::Bound(binding, item),
        }
    }

    /// The environment as it is held.
    pub fn get(&self) -> &Placed<'f>
        ensures { place_of result.now ≡ self.now }
    {
        &self.placed
    }
}
