//! Nodes without repeats.

ghost use Rattle.std.specs.Prelude.{◌≡◌, ◌==◌, ◌++◌, ◌∷◌, [], cond, length, IfOk, OnOk};
ghost use Rattle.data_model.specs.Axes.{is_in};

use query_steps::{Identities, set_of};
use std::alloc::{AllocError, Global};
use std::marker::Model;
use std::mem;
use trees::NodeId;

/// Nodes, each once, in the order in which they came. Contracts see them as a list.
///
/// As long as each identity is above all that came before it, as in a tree that was made in document order, no node has to be sought. A set
/// is made where the first other one comes.
#[derive(Drop)]
pub(crate) struct Distinct {
    alloc: Global,
    nodes: Vec<NodeId>,
    /// All identities are below it, where there is no set.
    bound: u64,
    /// The nodes, where they have to be sought.
    set: Option<Identities>,
}

impl Model for Distinct {
    ghost use Rattle.std.specs.Prelude.{ℕ, List};
    ghost use Rattle.std.specs.Coded.{coded_list, coded_ℕ};
    ghost use Rattle.query_paths.specs.Repeats.{IsSought};

    ghost Value = { List ℕ };

    ghost coded = { coded_list coded_ℕ };

    ghost view = { λ d. d.nodes.items };

    ghost invariant = { λ d. IsSought d.nodes.items d.bound d.set };
}

impl Distinct {
    /// None. It takes no memory.
    pub(crate) fn new(alloc: Global) -> Distinct
        ensures { result ≡ [] }
    {
        Distinct {
            alloc,
            nodes: Vec::new(alloc),
            bound: 0,
            set: None,
        }
    }

    /// How many there are.
    pub(crate) fn len(&self) -> usize
        ensures { result ≡ length self.now }
    {
        self.nodes.len()
    }

    /// Whether there are none.
    pub(crate) fn is_empty(&self) -> bool
        ensures { result ≡ (length self.now == 0) }
    {
        self.nodes.is_empty()
    }

    /// The nodes.
    pub(crate) fn into_nodes(self) -> Vec<NodeId>
        ensures { result.items ≡ self }
    {
        let Distinct { nodes, .. } = self;
        nodes
    }

    /// Puts a node at the end, if it is not there already. Where memory is refused, all may be gone.
    pub(crate) fn add(&mut self, node: NodeId) -> Result<(), AllocError>
        ensures { OnOk result (self.new ≡ cond (is_in node self.old) self.old (self.old ++ node ∷ [])) }
    {
        let number = node.number();
        if self.set.is_none() && number >= self.bound && number < u64::MAX {
            self.nodes.push(node)?;
            self.bound = number + 1;
            return Ok(());
        }
        let empty = Distinct::new(self.alloc);
        *self = sought(mem::replace(self, empty), node)?;
        Ok(())
    }
}

/// A node more, if it is not among those that are there, which are sought from now on.
fn sought(given: Distinct, node: NodeId) -> Result<Distinct, AllocError>
    ensures { IfOk result (λ d. d ≡ cond (is_in node given) given (given ++ node ∷ [])) }
{
    let Distinct {
        alloc,
        mut nodes,
        set,
        ..
    } = given;
    let mut set = match set {
        Some(set) => set,
        None => set_of(alloc, &nodes)?,
    };
    if !set.has(node) {
        set.add(node)?;
        nodes.push(node)?;
    }
    Ok(Distinct {
        alloc,
        nodes,
        bound: 0,
        set: Some(set),
    })
}
