//! What a segment of a path finds (XQuery 1.0, section 3.2).

ghost use Rattle.std.specs.Prelude.{◌≡◌, ◌+◌, [], length, nat_le, Ok, OnOk, IfErr};
ghost use Rattle.query_meaning.specs.Paths as meaning;
ghost use Rattle.query_meaning.specs.Running.{Run, most_items};
ghost use Rattle.evaluation.specs.Gives.{Fails, Gives, GivesIn};
ghost use Rattle.query_paths.specs.Gathered.{IsFew, IsFewIn, listed};

use crate::distinct::Distinct;
use crate::kept::Kept;
use evaluation::{Evaluation, MOST_ITEMS, Sequence};
use fault_codes::Code;
use std::alloc::{AllocError, Global};
use std::marker::Model;
use values::{Atom, Item, ValueFault};

/// Nodes, each once, and atomic values, in the order in which they were found.
#[derive(Drop)]
pub(crate) struct Found {
    nodes: Distinct,
    atoms: Vec<Atom>,
}

impl Model for Found {
    ghost use Rattle.query_meaning.specs.Paths.{Found as Term};
    ghost use Rattle.query_paths.specs.Gathered.{found_code};

    ghost Value = { Term };

    ghost coded = { found_code };

    ghost view = { λ f. record { nodes = f.nodes; atoms = f.atoms.items } };
}

impl Found {
    /// Nothing. It takes no memory.
    pub(crate) fn new(alloc: Global) -> Found
        ensures { result ≡ record { nodes = []; atoms = [] } }
    {
        Found {
            nodes: Distinct::new(alloc),
            atoms: Vec::new(alloc),
        }
    }

    /// The items of a sequence more. Faults: `Memory`; `Code` with PXQ0002 where there are more than 10,000 nodes and values.
    pub(crate) fn and_all(self, items: &[Item]) -> Result<Found, ValueFault>
        requires few { IsFew self }
        ensures { (run : Run) → GivesIn IsFewIn (meaning.all_found self items.now) run result run }
    {
        let mut found = self;
        for item in items {
            found.add(item)?;
        }
        Ok(found)
    }

    /// Adds an item. Faults: `Memory`; `Code` with PXQ0002 where there are more than 10,000 nodes and values then.
    fn add(&mut self, item: &Item) -> Result<(), ValueFault>
        ensures added { OnOk result (meaning.found_within (meaning.and_found self.old item.now) ≡ Ok self.new) }
        ensures few { OnOk result (IsFew self.new) }
        ensures code { IfErr result (Fails (meaning.found_within (meaning.and_found self.old item.now))) }
    {
        self.put(item)?;
        if !self.is_few() {
            return Err(ValueFault::Code(Code::PXQ0002));
        }
        Ok(())
    }

    /// Whether there are at most 10,000 nodes and values.
    #[tactic(auto, unfolding(query_meaning::specs::Running::most_items))]
    fn is_few(&self) -> bool
        ensures { result ≡ nat_le (length self.now.nodes + length self.now.atoms) most_items }
    {
        let nodes = self.nodes.len();
        nodes <= MOST_ITEMS && self.atoms.len() <= MOST_ITEMS - nodes
    }

    /// Puts an item at the end, if it is no node that is there already. It fails where memory is refused.
    fn put(&mut self, item: &Item) -> Result<(), AllocError>
        ensures { OnOk result (self.new ≡ meaning.and_found self.old item.now) }
    {
        match item {
            Item::Node(node) => self.nodes.add(*node),
            Item::Atomic(atom) => {
                let atom = atom.clone()?;
                self.atoms.push(atom)?;
                Ok(())
            }
        }
    }

    /// The nodes in document order, or the atomic values as they were found. It takes the work of putting the nodes in order. Codes: `mixed`
    /// where there are both; PXQ0002 where less work is left.
    pub(crate) fn concluded(self, run: &mut Evaluation, mixed: Code) -> Result<Sequence, ValueFault>
        requires few { IsFew self }
        ensures { Gives (meaning.concluded mixed self.nodes self.atoms) run.old result run.new }
    {
        if self.atoms.is_empty() {
            run.order(self.nodes.len())?;
        }
        self.listed(run, mixed)
    }

    /// The same, but for that work.
    fn listed(self, run: &Evaluation, mixed: Code) -> Result<Sequence, ValueFault>
        requires few { IsFew self }
        ensures { Gives (listed mixed self.nodes self.atoms) run.now result run.now }
    {
        let Found { nodes, atoms } = self;
        if atoms.is_empty() {
            run.shelf().facts();
            let found = nodes.into_nodes();
            let ordered = run.shelf().document_order(run.alloc(), found)?;
            return Sequence::of_nodes(run.alloc(), &ordered);
        }
        if !nodes.is_empty() {
            return Err(ValueFault::Code(mixed));
        }
        Kept::of_atoms(run.alloc(), &atoms)?.into_sequence()
    }
}
