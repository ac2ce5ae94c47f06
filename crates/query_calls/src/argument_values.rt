//! The values of arguments.

ghost use Rattle.std.specs.Prelude.{◌≡◌, ◌∷◌, ◌++◌, [], IfOk};
ghost use Rattle.query_calls.specs.Held.{values_of};

use evaluation::Sequence;
use std::alloc::{AllocError, Global};
use std::marker::Model;
use std::slice;

/// The value of each argument so far, from the left. Contracts see them as a list.
pub(crate) struct Values {
    alloc: Global,
    values: Held,
}

// By one call, whose contract is all that a caller's proof sees of it.
impl Drop for Values {
    fn drop(self) {
        let Values {
            alloc: _,
            values: _,
        } = self;
    }
}

/// Values as they are held. One or two take no piece of memory, and most calls have no more.
#[derive(Drop)]
enum Held {
    /// One value.
    Single(Sequence),
    /// Two values.
    Pair([Sequence; 2]),
    /// As many as there are.
    Many(Vec<Sequence>),
}

impl Model for Values {
    ghost use Rattle.std.specs.Prelude.{List};
    ghost use Rattle.std.specs.Coded.{coded_list};
    ghost use Rattle.values.specs.declared.atom.Item.{Item};
    ghost use Rattle.values.specs.contracts.atom.Item as item;

    ghost Value = { List (List Item) };

    ghost coded = { coded_list (coded_list item.the_row.coded) };

    ghost use Rattle.query_calls.specs.Held.{values_of};

    ghost view = { λ v. values_of v.values };
}

impl Values {
    /// None, with room for so many. It fails where memory is refused, which two at the most do not ask for.
    pub(crate) fn with_capacity(alloc: Global, count: usize) -> Result<Values, AllocError>
        ensures { IfOk result (λ values. values ≡ []) }
    {
        let values = if count > 2 {
            Vec::with_capacity(alloc, count)?
        } else {
            Vec::new(alloc)
        };
        Ok(Values {
            alloc,
            values: Held::Many(values),
        })
    }

    /// One more. It fails where memory is refused.
    pub(crate) fn and(self, value: Sequence) -> Result<Values, AllocError>
        ensures { IfOk result (λ values. values ≡ self ++ value ∷ []) }
    {
        let Values { alloc, values } = self;
        let values = with_value(alloc, values, value)?;
        Ok(Values { alloc, values })
    }

    /// The values.
    pub(crate) fn as_slice(&self) -> &[Sequence]
        ensures { result.now ≡ self.now }
    {
        match &self.values {
            Held::Single(value) => slice::from_ref(value),
            Held::Pair(values) => values.as_slice(),
            Held::Many(values) => values.as_slice(),
        }
    }
}

/// Values, and one more. Where there was no room for more, the first two are held without a list.
fn with_value(alloc: Global, values: Held, value: Sequence) -> Result<Held, AllocError>
    ensures { IfOk result (λ held. values_of held ≡ values_of values ++ value ∷ []) }
{
    match values {
        Held::Single(first) => Ok(Held::Pair([first, value])),
        Held::Pair([first, second]) => {
            let mut values = Vec::with_capacity(alloc, 3)?;
            values.push(first)?;
            values.push(second)?;
            values.push(value)?;
            Ok(Held::Many(values))
        }
        Held::Many(values) => {
            if values.is_empty() && values.capacity() == 0 {
                return Ok(Held::Single(value));
            }
            let mut values = values;
            values.push(value)?;
            Ok(Held::Many(values))
        }
    }
}
