//! The context of an expression (XQuery 1.0, section 2.1.2).

ghost use Rattle.std.specs.Prelude.{◌≡◌, ◌≤◌, ◌<◌, ◌+◌, ◌^◌, [], ◌∷◌, None, Some, length, option_map, IfOk, IfSome, IfNone};
ghost use Rattle.std.specs.List.{All};
ghost use Rattle.std.specs.Option.{option_copied};
ghost use Rattle.std.specs.Str.{bytes_eq};
ghost use Rattle.query_meaning.specs.Environment.{looked_at, value_in, with_focus};
ghost use Rattle.query_meaning.specs.Running.{most_items};
ghost use Rattle.evaluation.specs.Around.{item_in, position_in, size_in};
ghost use Rattle.evaluation.specs.Rebound.{rebound};

use crate::sequence::Sequence;
use std::alloc::{AllocError, Global};
use std::marker::Model;
use std::rc::Rc;
use values::{Item, Text};

/// Variables and their values, the one that was bound last first. A clone shares them.
#[cycle(variables)]
#[derive(Drop)]
pub struct Variables {
    last: Link,
}

#[cycle(variables)]
#[derive(Drop)]
enum Link {
    End,
    More(Rc<Binding>),
}

/// A variable with its items, and those that were bound before it.
#[cycle(variables)]
#[derive(Drop)]
struct Binding {
    name: Text,
    items: Sequence,
    others: Variables,
}

impl Model for Variables {
    ghost use Rattle.std.specs.Prelude.{List, length};
    ghost use Rattle.std.specs.Coded.{coded_list};
    ghost use Rattle.query_meaning.specs.Environment.{Bound, bound_code};

    ghost Value = { List Bound };

    ghost coded = { coded_list bound_code };

    ghost use Rattle.evaluation.specs.Linked.{variables_of, HasFew};

    ghost view = { λ a. variables_of a.last };

    ghost invariant = { HasFew };

    ghost size = { length };

    ghost use Rattle.std.proofs.Common.{arith, length-append};

    ghost size_decreases = { λ a h. Prim.grind (arith, length-append) };
}

impl Variables {
    /// No variables.
    pub fn new() -> Variables
        ensures { result ≡ [] }
    {
        Variables { last: Link::End }
    }

    /// A variable of that name with those items, bound after the others. It fails where memory is refused.
    pub fn and(
        alloc: Global,
        name: &Text,
        items: Sequence,
        others: &Variables,
    ) -> Result<Variables, AllocError>
        ensures { IfOk result (λ v. v ≡ record { variable = name.now; items = items } ∷ others.now) }
    {
        others.facts();
        let _few = items.as_slice();
        let binding = Binding {
            name: name.clone()?,
            items,
            others: others.clone()?,
        };
        Ok(Variables {
            last: Link::More(Rc::new(alloc, binding)?),
        })
    }

    /// These variables, the one that was bound last with those items in place of its own; no variables where there are none. Where nobody shares
    /// that one it is written over and takes no memory. It fails where memory is refused.
    pub fn rebound(self, alloc: Global, items: Sequence) -> Result<Variables, AllocError>
        ensures { IfOk result (λ v. v ≡ rebound items self) }
    {
        let Link::More(mut binding) = self.last else {
            return Ok(Variables::new());
        };
        let Some(alone) = Rc::get_mut(&mut binding) else {
            return Variables::and(alloc, &binding.name, items, &binding.others);
        };
        let _few = items.as_slice();
        alone.others.facts();
        alone.items = items;
        Ok(Variables {
            last: Link::More(binding),
        })
    }

    /// No value has more than 10,000 items. It does nothing.
    pub fn facts(&self)
        ensures few { All (λ b. length b.items ≤ most_items) self.now }
    {
        let _few = &self.last;
    }

    /// The item of the variable of that name, where it has one alone, and how many variables are looked at for it.
    pub fn one_item(&self, name: &str) -> Option<OneItem<'_>>
        ensures item { IfSome result (λ found. value_in name.now self.now ≡ Some (found.item.now ∷ [])) }
        ensures looked { IfSome result (λ found. found.looked ≡ looked_at name.now self.now) }
        ensures few { IfSome result (λ found. found.looked + 1 < 2 ^ 64) }
    {
        let sought = self.sought(name, u64::MAX - 1)?;
        match sought.value?.as_slice() {
            [item] => Some(OneItem {
                item,
                looked: u64::MAX - 1 - sought.left,
            }),
            _ => None,
        }
    }

    /// The value of a variable, and what is left of so many units once one is taken for each variable that is looked at: the one that was bound last
    /// counts. `None` where the units are too few.
    pub(crate) fn sought(&self, name: &str, units: u64) -> Option<Sought<'_>>
        ensures value { IfSome result (λ s. option_copied s.value ≡ value_in name.now self.now) }
        ensures left { IfSome result (λ s. s.left + looked_at name.now self.now ≡ units) }
        ensures more { IfNone result (units < looked_at name.now self.now) }
    {
        match &self.last {
            Link::End => Some(Sought {
                value: None,
                left: units,
            }),
            Link::More(binding) => {
                let left = units.checked_sub(1)?;
                if is_same_name(name, binding.name.as_str()) {
                    Some(Sought {
                        value: Some(&binding.items),
                        left,
                    })
                } else {
                    binding.others.sought(name, left)
                }
            }
        }
    }
}

/// Whether two names are the same. Most have a few bytes.
pub fn is_same_name(name: &str, other: &str) -> bool
    ensures { result ≡ bytes_eq name.now other.now }
{
    let (mut left, mut right) = (name.as_bytes(), other.as_bytes());
    while let (Some((byte, rest)), Some((same, more))) = (left.split_first(), right.split_first()) {
        if byte != same {
            return false;
        }
        (left, right) = (rest, more);
    }
    left.is_empty() && right.is_empty()
}

/// The item of a variable that has one alone.
#[derive(Clone, Copy)]
pub struct OneItem<'v> {
    /// The item.
    pub item: &'v Item,
    /// How many variables are looked at for it: those that were bound after it, and itself.
    pub looked: u64,
}

/// What a look for a variable comes to.
#[derive(Clone, Copy)]
pub(crate) struct Sought<'v> {
    /// The variable's value; none where no variable has that name.
    pub(crate) value: Option<&'v Sequence>,
    /// The units that are left.
    pub(crate) left: u64,
}

impl Clone for Variables {
    ghost is_clone = { λ a b. b ≡ a };

    fn clone(&self) -> Result<Variables, AllocError> {
        Ok(Variables {
            last: match &self.last {
                Link::End => Link::End,
                Link::More(binding) => Link::More(binding.clone()?),
            },
        })
    }
}

/// The context item, its position and the context size.
#[derive(Clone, Copy)]
struct Focus<'e> {
    item: &'e Item,
    position: usize,
    size: usize,
}

/// What an expression is evaluated in: the focus, where there is one, and the variables.
#[derive(Drop)]
pub struct Environment<'f, 'v> {
    focus: Option<Focus<'f>>,
    variables: &'v Variables,
}

impl<'f, 'v> Model for Environment<'f, 'v> {
    ghost use Rattle.query_meaning.specs.Environment.{Environment as Term, environment_code};

    ghost Value = { Term };

    ghost coded = { environment_code };

    ghost use Rattle.evaluation.specs.Around.{environment_of};

    ghost view = { environment_of };
}

impl<'f, 'v> Environment<'f, 'v> {
    /// These variables without a focus.
    pub fn new(variables: &'v Variables) -> Environment<'f, 'v>
        ensures { result ≡ record { focus = None; variables = variables.now } }
    {
        Environment {
            focus: None,
            variables,
        }
    }

    /// No value of a variable has more than 10,000 items. It does nothing.
    pub fn facts(&self)
        ensures few { All (λ b. length b.items ≤ most_items) self.now.variables }
    {
        self.variables.facts();
    }

    /// The variables.
    pub fn variables(&self) -> &'v Variables
        ensures { result.now ≡ self.now.variables }
    {
        self.variables
    }

    /// The context item, where there is one.
    pub fn item(&self) -> Option<&Item>
        ensures { option_copied result ≡ option_map item_in self.now.focus }
    {
        match &self.focus {
            Some(focus) => Some(focus.item),
            None => None,
        }
    }

    /// The position of the context item, counted from 1, where there is one.
    pub fn position(&self) -> Option<usize>
        ensures { result ≡ option_map position_in self.now.focus }
    {
        match &self.focus {
            Some(focus) => Some(focus.position),
            None => None,
        }
    }

    /// The context size, where there is a context item.
    pub fn size(&self) -> Option<usize>
        ensures { result ≡ option_map size_in self.now.focus }
    {
        match &self.focus {
            Some(focus) => Some(focus.size),
            None => None,
        }
    }

    /// The same focus with these variables.
    pub fn with<'w>(&self, variables: &'w Variables) -> Environment<'f, 'w>
        ensures { result ≡ record self.now { variables = variables.now } }
    {
        Environment {
            focus: self.focus,
            variables,
        }
    }

    /// The same variables with that focus: a context item, its position and the context size.
    pub fn with_focus<'g>(
        &self,
        item: &'g Item,
        position: usize,
        size: usize,
    ) -> Environment<'g, 'v>
        ensures { result ≡ with_focus item.now position size self.now }
    {
        let focus = Focus {
            item,
            position,
            size,
        };
        Environment {
            focus: Some(focus),
            variables: self.variables,
        }
    }

    /// The same, to be kept. It fails where memory is refused.
    pub fn keep(&self) -> Result<KeptEnvironment<'f>, AllocError>
        ensures { IfOk result (λ kept. kept ≡ self.now) }
    {
        Ok(KeptEnvironment {
            focus: self.focus,
            variables: self.variables.clone()?,
        })
    }
}

/// An environment that shares its variables with others. To keep one copies no item.
#[derive(Drop)]
pub struct KeptEnvironment<'f> {
    focus: Option<Focus<'f>>,
    variables: Variables,
}

impl<'f> Model for KeptEnvironment<'f> {
    ghost use Rattle.query_meaning.specs.Environment.{Environment as Term, environment_code};

    ghost Value = { Term };

    ghost coded = { environment_code };

    ghost use Rattle.evaluation.specs.Around.{kept_environment_of};

    ghost view = { kept_environment_of };
}

impl<'f> KeptEnvironment<'f> {
    /// The environment.
    pub fn get<'v>(&'v self) -> Environment<'f, 'v>
        ensures { result ≡ self.now }
    {
        Environment {
            focus: self.focus,
            variables: &self.variables,
        }
    }
}
