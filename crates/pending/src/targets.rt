//! Targets of primitives that may change a node once.

ghost use Rattle.std.specs.Prelude.{◌≡◌, ◌==◌, ◌||◌, not, ℕ, [], map, Some, None, option_map, IfOk, OnOk};
ghost use Rattle.pending.specs.Compatible.{has_two, is_among};
ghost use Rattle.pending.specs.Inside.{target_by};
ghost use Rattle.pending.specs.Primitives.{primitive_term};

use super::primitive::Primitive;
use indexmap::IndexSet;
use std::alloc::{AllocError, Global};
use std::marker::Model;

/// The kinds of primitives of which a node may be the target of one alone.
#[derive(Clone, Copy, PartialEq, Eq, Debug)]
pub(super) enum Once {
    Rename,
    ReplaceNode,
    ReplaceValue,
    ReplaceElementContent,
}

impl Once {
    /// The identity of the primitive's target, if the primitive is of this kind.
    fn target_of(self, primitive: &Primitive) -> Option<u64>
        ensures { result ≡ target_by self (primitive_term primitive.now) }
    {
        match (self, primitive) {
            (Once::Rename, Primitive::Rename(target, _)) => Some(target.number()),
            (Once::ReplaceNode, Primitive::ReplaceNode(target, _)) => Some(target.number()),
            (Once::ReplaceValue, Primitive::ReplaceValue(target, _)) => Some(target.number()),
            (Once::ReplaceElementContent, Primitive::ReplaceElementContent(target, _)) => {
                Some(target.number())
            }
            _ => None,
        }
    }
}

/// Identities of nodes, each once. Contracts see them as a list.
#[derive(Drop)]
struct Targets {
    set: IndexSet<u64>,
}

impl Model for Targets {
    ghost use Rattle.std.specs.Prelude.{ℕ, List};
    ghost use Rattle.std.specs.Coded.{coded_list, coded_ℕ};

    ghost Value = { List ℕ };

    ghost coded = { coded_list coded_ℕ };

    ghost view = { λ b. b.set.keys };
}

impl Targets {
    fn new(alloc: Global) -> Targets
        ensures { result ≡ [] }
    {
        Targets {
            set: IndexSet::new(alloc),
        }
    }

    /// Adds an identity, and answers whether it was not among them. It fails where memory is refused.
    fn add(&mut self, target: u64) -> Result<bool, AllocError>
        ensures added { IfOk result (λ is_new. is_new ≡ not (is_among self.old target)) }
        ensures targets { OnOk result ((i : ℕ) → is_among self.new i ≡ ((i == target) || is_among self.old i)) }
    {
        Ok(self.set.insert(target)?)
    }
}

/// Whether two of the primitives are of this kind and have one target. Each target is looked up once. It fails where memory is refused.
pub(super) fn has_two(
    alloc: Global,
    primitives: &[Primitive],
    once: Once,
) -> Result<bool, AllocError>
    ensures { IfOk result (λ is_so. is_so ≡ has_two (target_by once) (map primitive_term primitives.now)) }
{
    let mut targets = Targets::new(alloc);
    let mut rest = primitives;
    while let Some((primitive, others)) = rest.split_first() {
        if let Some(target) = once.target_of(primitive) {
            let is_new = targets.add(target)?;
            if !is_new {
                return Ok(true);
            }
        }
        rest = others;
    }
    Ok(false)
}
