//! Sets of identities.

ghost use Rattle.std.specs.Prelude.{◌≡◌, ◌∷◌, ◌++◌, ℕ, [], cond, length, IfOk, OnOk};
ghost use Rattle.data_model.specs.Axes.{is_in};

use indexmap::IndexSet;
use std::alloc::{AllocError, Global};
use std::marker::Model;
use trees::NodeId;

/// Identities of nodes, each once, in the order in which they came. Contracts see them as a list.
#[derive(Drop)]
pub struct Identities {
    set: IndexSet<u64>,
}

impl Model for Identities {
    ghost use Rattle.std.specs.Prelude.{ℕ, List};
    ghost use Rattle.std.specs.Coded.{coded_list, coded_ℕ};

    ghost Value = { List ℕ };

    ghost coded = { coded_list coded_ℕ };

    ghost view = { λ b. b.set.keys };
}

impl Identities {
    /// None. It takes no memory.
    pub fn new(alloc: Global) -> Identities
        ensures { result ≡ [] }
    {
        Identities {
            set: IndexSet::new(alloc),
        }
    }

    /// How many there are.
    pub fn len(&self) -> usize
        ensures { result ≡ length self.now }
    {
        self.set.len()
    }

    /// Whether a node is among them.
    pub fn has(&self, node: NodeId) -> bool
        ensures { result ≡ is_in node self.now }
    {
        self.set.contains(&node.number())
    }

    /// Adds a node, if it is not among them. It fails where memory is refused.
    pub fn add(&mut self, node: NodeId) -> Result<(), AllocError>
        ensures { OnOk result (self.new ≡ cond (is_in node self.old) self.old (self.old ++ node ∷ [])) }
    {
        self.set.insert(node.number())?;
        Ok(())
    }
}

/// The identities in a list. It fails where memory is refused.
pub fn set_of(alloc: Global, nodes: &[NodeId]) -> Result<Identities, AllocError>
    ensures { IfOk result (λ set. (i : ℕ) → is_in i set ≡ is_in i nodes.now) }
{
    let mut set = Identities::new(alloc);
    for node in nodes {
        set.add(*node)?;
    }
    Ok(set)
}
