//! What an evaluation has come to.

ghost use Rattle.std.specs.Prelude.{◌≡◌, ◌≤◌, ◌<◌, ◌^◌, ◌-◌, ℕ, [], length, option_copied, Ok, Err, IfOk, IfErr, IfSome, IfNone, IsSome, IsTrue, OnOk, OnErr, IsErrOf, ◌+◌, ◌↔◌, map};
ghost use Rattle.data_model.specs.Tree.{trees_of_tree};
ghost use Rattle.data_model.specs.Changes.{pick};
ghost use Rattle.data_model.specs.Limits.{most_height};
ghost use Rattle.data_model.specs.Trees.{count, find, height, no_trees, size};
ghost use Rattle.copied_rows.specs.Copies.{WhereMade, WhereNot};
ghost use Rattle.trees.specs.Grown.{AllStand, picked, texts_work, with_node};
ghost use Rattle.pending.specs.Primitives.{primitive_term};
ghost use Rattle.shelves.specs.Shelf.{ComesAfter};
ghost use Rattle.values.specs.Comparisons.{general_compared, pairs_compared, tried, tried_work};
ghost use Rattle.values.specs.Items.{IsThere};
ghost use Rattle.query_meaning.specs.Copies.{copy_of};
ghost use Rattle.query_meaning.specs.Environment.{looked_at, value_in};
ghost use Rattle.query_meaning.specs.Meaning.{start};
ghost use Rattle.query_meaning.specs.Operators.{ordering};
ghost use Rattle.query_meaning.specs.Sequences.{variable};
ghost use Rattle.query_meaning.specs.Running.{Run, trees_of, adding, atom, atoms, copying, most_nodes, nodes_of, new_nodes, standing, turns, work};
ghost use Rattle.evaluation.specs.Copying.{standing_copy};
ghost use Rattle.evaluation.specs.Gives.{Any, Fails, Gives, GivesIn, IsReady, Judged, Says, Stand, Turns};

use crate::atoms::Atoms;
use crate::environment::{Environment, Variables};
use crate::sequence::Sequence;
use data_model::limits::MOST_NODES;
use fault_codes::Code;
use pending::{ListFault, PendingList, Primitive};
use shelves::Shelf;
use std::alloc::{AllocError, Global};
use std::marker::Model;
use std::mem;
use trees::{CopyLimits, Forest, Kind, NodeId, Tree};
use values::{Atom, Comparison, Item, Text, ValueFault, compare_general, paid_atom};

/// The most turns in an evaluation (our own limit).
const MOST_TURNS: u64 = 1_000_000;

/// The most work in an evaluation (our own limit).
const MOST_WORK: u64 = 100_000_000;

/// The work of a node that is put in document order, where it is not the only one.
const ORDERING: u64 = 32;

/// The most levels of a tree (our own limit).
const MOST_HEIGHT: u64 = 60;

/// How many bytes of a copied text are one unit of work.
const BYTES_A_UNIT: u64 = 16;

/// The trees, lent and made, the turns and the work that are left, and the update primitives so far.
#[derive(Drop)]
pub struct Evaluation<'a> {
    alloc: Global,
    shelf: Shelf<'a>,
    /// The next identity may rise to it.
    most_next: u64,
    turns: u64,
    work: u64,
    primitives: PendingList,
}

impl<'a> Model for Evaluation<'a> {
    ghost use Rattle.query_meaning.specs.Running.{Run, run_code};

    ghost Value = { Run };

    ghost coded = { run_code };

    ghost use Rattle.evaluation.specs.Within.{run_of, IsLimited};

    ghost view = { run_of };

    ghost invariant = { IsLimited };
}

impl<'a> Evaluation<'a> {
    /// Before anything is evaluated: a lent forest, with no tree beside it, 1,000,000 turns and 100,000,000 units of work. It takes no memory.
    #[tactic(auto, unfolding(query_meaning::specs::Running::most_turns, query_meaning::specs::Running::most_work, query_meaning::specs::Running::most_nodes))]
    pub fn new(alloc: Global, lent: &'a Forest) -> Evaluation<'a>
        requires { lent.now.next ≤ 2 ^ 61 }
        ensures { result ≡ start lent.now }
    {
        Evaluation {
            alloc,
            shelf: Shelf::new(alloc, lent),
            most_next: lent.next().number() + MOST_NODES,
            turns: MOST_TURNS,
            work: MOST_WORK,
            primitives: PendingList::new(alloc),
        }
    }

    /// The trees.
    pub fn shelf(&self) -> &Shelf<'a>
        ensures { result.now ≡ self.now.shelf }
    {
        &self.shelf
    }

    /// The allocator.
    pub fn alloc(&self) -> Global {
        self.alloc
    }

    /// Takes a turn. Code: PXQ0002 where none is left, and then nothing changes.
    pub fn turn(&mut self) -> Result<(), ValueFault>
        ensures { Turns result self.old self.new }
    {
        if self.turns == 0 {
            return Err(ValueFault::Code(Code::PXQ0002));
        }
        self.turns -= 1;
        Ok(())
    }

    /// Takes so many turns at once. Code: PXQ0002 where fewer are left, and then nothing changes.
    pub fn take_turns(&mut self, count: usize) -> Result<(), ValueFault>
        ensures taken { GivesIn Any (turns count) self.old result self.new }
        ensures same { self.new ≡ record self.old { turns = self.new.turns } }
        ensures refused { OnErr result (self.new ≡ self.old) }
        ensures judged { IsErrOf result ValueFault.Memory → ⊥ }
    {
        match self.turns.checked_sub(count as u64) {
            Some(left) => {
                self.turns = left;
                Ok(())
            }
            None => Err(ValueFault::Code(Code::PXQ0002)),
        }
    }

    /// Takes so much work. Code: PXQ0002 where less is left, and then nothing changes.
    pub fn spend(&mut self, units: u64) -> Result<(), ValueFault>
        ensures spent { GivesIn Any (work units) self.old result self.new }
        ensures same { self.new ≡ record self.old { work = self.new.work } }
        ensures refused { OnErr result (self.new ≡ self.old) }
        ensures judged { IsErrOf result ValueFault.Memory → ⊥ }
    {
        match self.work.checked_sub(units) {
            Some(left) => {
                self.work = left;
                Ok(())
            }
            None => Err(ValueFault::Code(Code::PXQ0002)),
        }
    }

    /// Takes the work of what was evaluated to these items: a unit, and one for each of them. Code: PXQ0002 where less is left.
    pub fn count(&mut self, items: &Sequence) -> Result<(), ValueFault>
        ensures counted { GivesIn Any (work (1 + length items.now)) self.old result self.new }
        ensures same { self.new ≡ record self.old { work = self.new.work } }
        ensures judged { IsErrOf result ValueFault.Memory → ⊥ }
    {
        self.spend(1 + items.as_slice().len() as u64)
    }

    /// The items of `$name`, lent (XQuery 1.0, section 3.1.2), with the work of looking for it. It takes no memory. Codes: PXQ0002 where less is left;
    /// XPST0008 where no variable has that name.
    pub fn lend<'v>(
        &mut self,
        name: &Text,
        env: &Environment<'_, 'v>,
    ) -> Result<&'v Sequence, ValueFault>
        requires ready { IsReady env.now self.old }
        ensures given { IfOk result (λ s. Gives (variable name.now env.now) self.old (Ok s.now) self.new) }
        ensures fails { IfErr result (λ fault. Fails (variable name.now env.now self.old) fault) }
        ensures judged { IsErrOf result ValueFault.Memory → ⊥ }
    {
        match self.look_for(name.as_str(), env.variables())? {
            Some(items) => Ok(items),
            None => Err(ValueFault::Code(Code::XPST0008)),
        }
    }

    /// The value of a variable, with the work of looking for it: a unit for each variable that is looked at. `None` where none has that name. Code:
    /// PXQ0002 where less is left.
    fn look_for<'v>(
        &mut self,
        name: &str,
        variables: &'v Variables,
    ) -> Result<Option<&'v Sequence>, ValueFault>
        ensures value { IfOk result (λ v. option_copied v ≡ value_in name.now variables.now) }
        ensures looked { IfOk result (λ _. GivesIn Any (work (looked_at name.now variables.now)) self.old (Ok tt) self.new) }
        ensures code { IfErr result (λ fault. Fails (work (looked_at name.now variables.now) self.old) fault) }
        ensures same { self.new ≡ record self.old { work = self.new.work } }
        ensures judged { IsErrOf result ValueFault.Memory → ⊥ }
    {
        match variables.sought(name, self.work) {
            Some(sought) => {
                self.work = sought.left;
                Ok(sought.value)
            }
            None => Err(ValueFault::Code(Code::PXQ0002)),
        }
    }

    /// Takes the work of putting so many nodes in document order: 32 units for each but one. Code: PXQ0002 where less is left.
    #[tactic(auto, unfolding(query_meaning::specs::Running::most_work))]
    pub fn order(&mut self, nodes: usize) -> Result<(), ValueFault>
        ensures ordered { GivesIn Any (ordering nodes) self.old result self.new }
        ensures same { self.new ≡ record self.old { work = self.new.work } }
        ensures judged { IsErrOf result ValueFault.Memory → ⊥ }
    {
        let left = self.work;
        match (nodes.saturating_sub(1) as u64).checked_mul(ORDERING) {
            Some(units) if units <= left => {
                self.work = left - units;
                Ok(())
            }
            _ => Err(ValueFault::Code(Code::PXQ0002)),
        }
    }

    /// Takes the work of a copy of the tree of a node, which is that of all of its texts. Code: PXQ0002 where less is left.
    #[tactic(auto, unfolding(query_meaning::specs::Running::most_work))]
    pub fn pay_copy(&mut self, node: NodeId) -> Result<(), ValueFault>
        requires there { IsSome (find node (trees_of self.old)) }
        ensures paid { GivesIn Any (copying node) self.old result self.new }
        ensures same { self.new ≡ record self.old { work = self.new.work } }
        ensures judged { IsErrOf result ValueFault.Memory → ⊥ }
    {
        // Bytes that do not fill a unit are free.
        let bytes = self.work * BYTES_A_UNIT + (BYTES_A_UNIT - 1);
        match self.shelf.without_texts(node, bytes) {
            Some(left) => {
                self.work = left / BYTES_A_UNIT;
                Ok(())
            }
            None => Err(ValueFault::Code(Code::PXQ0002)),
        }
    }

    /// The typed values of items, whose nodes stand. Each takes the work of the nodes that are walked for it, and of its text.
    ///
    /// Faults: `Memory`; `Code` with PXQ0002 where the string value of a node is longer than 65,536 bytes, or where less work is left.
    pub fn atoms(&mut self, items: &Sequence) -> Result<Atoms, ValueFault>
        requires stand { Stand items.now self.old }
        ensures ok { IfOk result (λ v. atoms items.now self.old ≡ Ok (v.items, self.new)) }
        ensures err { IfErr result (λ fault. Fails (atoms items.now self.old) fault) }
        ensures same { self.new ≡ record self.old { work = self.new.work } }
    {
        match items.as_slice() {
            [item] => Ok(Atoms::one(self.atom(item)?)),
            _ => Ok(Atoms::of(self.atom_list(items)?)),
        }
    }

    /// The same, in a list that more can be appended to.
    pub fn atom_list(&mut self, items: &Sequence) -> Result<Vec<Atom>, ValueFault>
        requires stand { Stand items.now self.old }
        ensures ok { IfOk result (λ v. atoms items.now self.old ≡ Ok (v.items, self.new)) }
        ensures err { IfErr result (λ fault. Fails (atoms items.now self.old) fault) }
        ensures same { self.new ≡ record self.old { work = self.new.work } }
    {
        let mut values = Vec::with_capacity(self.alloc, items.as_slice().len())?;
        for item in items.as_slice() {
            values.push(self.atom(item)?)?;
        }
        Ok(values)
    }

    /// The typed value of one item, with the same work and the same faults.
    pub fn atom(&mut self, item: &Item) -> Result<Atom, ValueFault>
        requires there { IsThere (trees_of self.old) item.now }
        ensures given { GivesIn Any (atom item.now) self.old result self.new }
        ensures same { self.new ≡ record self.old { work = self.new.work } }
        ensures judged { Judged (work (nodes_of (trees_of self.old) item.now) self.old) result }
    {
        let mut work = self.work;
        let atom = paid_atom(self.alloc, &self.shelf, item, &mut work);
        self.work = work;
        atom
    }

    /// Whether a general comparison holds of some pair; each pair that is tried takes a turn, and its work. Faults: `Memory`; `Code` with
    /// that of the first pair that has one, or with PXQ0002 where more turns or more work would be taken than there are.
    pub fn compare(
        &mut self,
        op: Comparison,
        left: &[Atom],
        right: &[Atom],
    ) -> Result<bool, ValueFault>
        ensures ok { OnOk result
            (self.new
            ≡ record self.old {
              turns = self.old.turns - tried (pairs_compared op left.now right.now);
              work = self.old.work - tried_work op left.now right.now;
            }) }
        ensures holds { IfOk result (λ b. general_compared op left.now right.now self.old.turns self.old.work ≡ Ok b) }
        ensures err { IfErr result (λ fault. Fails (general_compared op left.now right.now self.old.turns self.old.work) fault) }
    {
        let (mut turns, mut work) = (self.turns, self.work);
        let holds = compare_general(self.alloc, op, left, right, &mut turns, &mut work)?;
        (self.turns, self.work) = (turns, work);
        Ok(holds)
    }

    /// Adds a primitive. Faults: `Memory`; `Code` with PXQ0002 where there are 10,000.
    pub fn add(&mut self, primitive: Primitive) -> Result<(), ValueFault>
        ensures added { GivesIn Any (adding (primitive_term primitive)) self.old result self.new }
        ensures judged { Judged (adding (primitive_term primitive) self.old) result }
    {
        match self.primitives.push(primitive) {
            Ok(()) => Ok(()),
            Err(ListFault::Memory) => Err(ValueFault::Memory),
            Err(ListFault::TooMany) => Err(ValueFault::Code(Code::PXQ0002)),
        }
    }

    /// The update primitives, in the order in which they were added; nothing else is left of the evaluation.
    pub fn into_primitives(self) -> PendingList
        ensures { map primitive_term result ≡ self.entry.primitives }
    {
        let Evaluation { primitives, .. } = self;
        primitives
    }

    /// Takes the primitives out, in the order in which they were added, and leaves none. It takes no memory.
    pub fn take_primitives(&mut self) -> PendingList
        ensures taken { map primitive_term result ≡ self.old.primitives }
        ensures left { self.new ≡ record self.old { primitives = [] } }
    {
        let none = PendingList::new(self.alloc);
        mem::replace(&mut self.primitives, none)
    }

    /// Puts other primitives in the place of these, which are dropped.
    pub fn put_primitives(&mut self, primitives: PendingList)
        ensures { self.new ≡ record self.old { primitives = map primitive_term primitives } }
    {
        self.primitives = primitives;
    }

    /// Takes the trees out that were made, and leaves none: the next node takes the identity that was next. It takes no memory.
    pub fn take_own(&mut self) -> Forest
        ensures taken { result ≡ self.old.shelf.own }
        ensures left { self.new ≡ record self.old { shelf = record self.old.shelf { own = record { trees = no_trees; documents = []; next = self.old.shelf.own.next } } } }
    {
        self.shelf.take_own(self.alloc)
    }

    /// Puts other trees in the place of those that were made, which are dropped.
    pub fn put_own(&mut self, own: Forest)
        requires { ComesAfter self.old.shelf.lent own }
        ensures { self.new ≡ record self.old { shelf = record self.old.shelf { own = own } } }
    {
        self.shelf.put_own(own);
    }

    /// How many new nodes there may still be of the 100,000 of an evaluation; `None` where there are more already.
    pub fn nodes_left(&self) -> Option<u64>
        ensures left { IfSome result (λ left. self.now.shelf.own.next + left ≡ self.now.shelf.lent.next + most_nodes) }
        ensures range { IfSome result (λ left. left ≤ 2 ^ 62) }
        ensures none { IfNone result (self.now.shelf.lent.next + most_nodes < self.now.shelf.own.next) }
    {
        self.most_next.checked_sub(self.shelf.next().number())
    }

    /// So many new nodes: they take the next identities, of which it gives the first. Code: PXQ0003 where the evaluation would have
    /// made more than 100,000; then nothing changes.
    pub fn new_nodes(&mut self, count: u64) -> Result<NodeId, ValueFault>
        ensures made { GivesIn Any (new_nodes count) self.old result self.new }
        ensures refused { OnErr result (self.new ≡ self.old) }
        ensures room { OnOk result (self.new.shelf.own.next ≤ 2 ^ 62) }
        ensures judged { IsErrOf result ValueFault.Memory → ⊥ }
    {
        let first = self.shelf.next();
        match first.number().checked_add(count) {
            Some(next) if next <= self.most_next => {
                self.shelf.raise_next(NodeId::new(next));
                Ok(first)
            }
            _ => Err(ValueFault::Code(Code::PXQ0003)),
        }
    }

    /// Lets a new tree stand among the others, whose nodes have been numbered from a first one on, its root's, since the last tree
    /// was. Where memory is refused, nothing changes.
    pub fn stand(&mut self, tree: &Tree) -> Result<(), AllocError>
        requires distinct { (i : ℕ) → count i (trees_of_tree tree.now) ≤ 1 }
        requires first { (i : ℕ) → 0 < count i (trees_of_tree tree.now) → tree.now.content.identity ≤ i }
        requires below { (i : ℕ) → 0 < count i (trees_of_tree tree.now) → i < self.old.shelf.own.next }
        requires after { (i : ℕ) → 0 < count i self.old.shelf.own.trees → i < tree.now.content.identity }
        requires lent { self.old.shelf.lent.next ≤ tree.now.content.identity }
        ensures stood { OnOk result (standing (trees_of_tree tree.now) self.old ≡ Ok (tt, self.new)) }
        ensures refused { OnErr result (self.new ≡ self.old) }
    {
        self.shelf.plant(self.alloc, tree)
    }

    /// Makes a node of that kind and name with no parent, no attributes and no text, which takes the next identity and stands after all trees. Its children are
    /// copies of the trees of some nodes, which take the identities after it in document order, and the work of their texts. Each tree is gone through
    /// once.
    ///
    /// `None` where that would take more than is left, or the node would have more than 60 levels; then, and where memory is refused, nothing changes.
    #[tactic(auto, unfolding(query_meaning::specs::Running::most_work))]
    pub fn grow(
        &mut self,
        kind: Kind,
        name: &str,
        nodes: &[NodeId],
    ) -> Result<Option<NodeId>, AllocError>
        requires stand { AllStand nodes.now (trees_of self.old) }
        ensures root { WhereMade result (λ root. root ≡ self.old.shelf.own.next) }
        ensures made { WhereMade result
            (λ _. self.new
            ≡ record self.old {
              shelf = record self.old.shelf { own = with_node kind name.now (picked nodes.now (trees_of self.old)) self.old.shelf.own };
              work = self.new.work;
            }) }
        ensures work { WhereMade result (λ _. self.new.work + texts_work nodes.now (trees_of self.old) ≡ self.old.work) }
        ensures end { WhereMade result (λ _. self.new.shelf.own.next ≤ self.old.shelf.lent.next + most_nodes) }
        ensures high { WhereMade result (λ _. height (picked nodes.now (trees_of self.old)) + 1 ≤ most_height) }
        ensures refused { WhereNot result (self.new ≡ self.old) }
    {
        let limits = CopyLimits {
            end: self.most_next,
            work: self.work,
            levels: MOST_HEIGHT - 1,
        };
        let root = self.shelf.next();
        let left = self.shelf.grow(self.alloc, kind, name, nodes, limits)?;
        let Some(left) = left else {
            return Ok(None);
        };
        self.work = left;
        Ok(Some(root))
    }

    /// Makes a copy of the tree of a node, with no parent, which stands after all trees: its nodes take the next identities, in document
    /// order, of which it gives the first, the root's. It takes the work of the texts. Faults: `Memory`; `Code` with PXQ0002 where less work is
    /// left, or with PXQ0003 where the evaluation would have made more than 100,000 nodes. Nothing but the work changes then.
    pub fn copy(&mut self, node: NodeId) -> Result<NodeId, ValueFault>
        requires there { IsSome (find node (trees_of self.old)) }
        ensures made { GivesIn Any (copy_of node) self.old result self.new }
        ensures refused { OnErr result (self.new ≡ record self.old { work = self.new.work }) }
        ensures judged { Judged (copy_of node self.old) result }
    {
        self.pay_copy(node)?;
        self.standing_copy(node)
    }

    /// The same, but for its work.
    fn standing_copy(&mut self, node: NodeId) -> Result<NodeId, ValueFault>
        requires there { IsSome (find node (trees_of self.old)) }
        ensures made { GivesIn Any (standing_copy node) self.old result self.new }
        ensures refused { OnErr result (self.new ≡ self.old) }
        ensures judged { Judged (standing_copy node self.old) result }
    {
        if !self.has_room(node) {
            return Err(ValueFault::Code(Code::PXQ0003));
        }
        let Ok(root) = self.shelf.copy(self.alloc, node) else {
            return Err(ValueFault::Memory);
        };
        Ok(root)
    }

    /// Whether as many nodes may be made as the tree of a node has.
    fn has_room(&self, node: NodeId) -> bool
        requires there { IsSome (find node (trees_of self.now)) }
        ensures { IsTrue result
            ↔ (self.now.shelf.own.next + size (pick node (trees_of self.now)) ≤ self.now.shelf.lent.next + most_nodes) }
    {
        match self.nodes_left() {
            Some(left) => self.shelf.is_within(node, left),
            None => false,
        }
    }
}
