//! `distinct-values` (Functions and Operators, section 15.1.6).

ghost use Rattle.std.specs.Prelude.{◌≡◌, [], IfOk};
ghost use Rattle.values.specs.Comparisons.{as_string};
ghost use Rattle.query_meaning.specs.Functions as functions;
ghost use Rattle.evaluation.specs.Gives.{Gives, Stand};
ghost use Rattle.query_calls.specs.Keys.{IsKey};

use crate::sequences::sequence_of;
use evaluation::{Evaluation, Sequence};
use indexmap::IndexSet;
use std::alloc::{AllocError, Global};
use std::marker::Model;
use values::{Atom, ValueFault};

/// `distinct-values`: of each type and value the first, where an untyped value is a string (Functions and Operators, section 15.1.6).
/// It takes the work of the typed values. Code: PXQ0002 where a string value is too long or too little work is left.
pub fn distinct_values(run: &mut Evaluation, items: &Sequence) -> Result<Sequence, ValueFault>
    requires stand { Stand items.now run.old }
    ensures { Gives (functions.distinct_values items.now) run.old result run.new }
{
    // There are at most 10,000 of them.
    let _most = items.as_slice();
    let values = run.atoms(items)?;
    let distinct = first_of_each(run.alloc(), &values)?;
    sequence_of(run.alloc(), distinct.into_values())
}

/// Of each type and value the first. It fails where memory is refused.
fn first_of_each<'a>(alloc: Global, values: &'a [Atom]) -> Result<Distinct<'a>, AllocError>
    ensures { IfOk result (λ d. d ≡ functions.distinct [] values.now) }
{
    let mut distinct = Distinct::new(alloc);
    for value in values {
        distinct = distinct.and(value)?;
    }
    Ok(distinct)
}

/// What tells values apart: the type and the value, where an untyped value is a string.
#[derive(Clone, Copy, PartialEq, Eq, Hash)]
enum Key<'a> {
    /// A string, or an untyped value.
    Text(&'a str),
    /// A boolean.
    Boolean(bool),
    /// An integer.
    Integer(i64),
}

impl<'a> Key<'a> {
    fn of(value: &'a Atom) -> Key<'a>
        ensures { IsKey result (as_string value.now) }
    {
        match value {
            Atom::String(text) | Atom::Untyped(text) => Key::Text(text.as_str()),
            Atom::Boolean(value) => Key::Boolean(*value),
            Atom::Integer(value) => Key::Integer(*value),
        }
    }
}

/// Values, each of another type or value than the others, in the order in which they came. Contracts see them as a list.
#[derive(Drop)]
struct Distinct<'a> {
    keys: IndexSet<Key<'a>>,
    values: Vec<Atom>,
}

impl<'a> Model for Distinct<'a> {
    ghost use Rattle.std.specs.Prelude.{List};
    ghost use Rattle.std.specs.Coded.{coded_list};
    ghost use Rattle.values.specs.declared.atom.Atom.{Atom};
    ghost use Rattle.values.specs.contracts.atom.Atom as atom;
    ghost use Rattle.query_calls.specs.Distinct.{AreKeys};

    ghost Value = { List Atom };

    ghost coded = { coded_list atom.the_row.coded };

    ghost view = { λ d. d.values.items };

    ghost invariant = { AreKeys };
}

impl<'a> Distinct<'a> {
    fn new(alloc: Global) -> Distinct<'a>
        ensures { result ≡ [] }
    {
        Distinct {
            keys: IndexSet::new(alloc),
            values: Vec::new(alloc),
        }
    }

    /// The values, and another one if no value of its type is equal to it. It fails where memory is refused.
    fn and(self, value: &'a Atom) -> Result<Distinct<'a>, AllocError>
        ensures { IfOk result (λ d. d ≡ functions.and_distinct self.entry (as_string value.now)) }
    {
        let Distinct {
            mut keys,
            mut values,
        } = self;
        if !keys.insert(Key::of(value))? {
            return Ok(Distinct { keys, values });
        }
        values.push(as_string(value)?)?;
        Ok(Distinct { keys, values })
    }

    fn into_values(self) -> Vec<Atom>
        ensures { result.items ≡ self.entry }
    {
        let Distinct { values, .. } = self;
        values
    }
}

/// The same value, a string where it is untyped. It fails where memory is refused.
fn as_string(value: &Atom) -> Result<Atom, AllocError>
    ensures { IfOk result (λ a. a ≡ as_string value.now) }
{
    match value {
        Atom::Untyped(text) => Ok(Atom::String(text.clone()?)),
        _ => value.clone(),
    }
}
