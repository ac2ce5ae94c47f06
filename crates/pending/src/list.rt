//! Pending update lists.

ghost use Rattle.std.specs.Prelude.{◌≡◌, ◌<◌, ◌≤◌, ◌+◌, ◌++◌, ◌∷◌, ◌↔◌, [], None, Some, length, map, IsErrOf, IfErr, IfOk, OnErr, OnOk};
ghost use Rattle.fault_codes.specs.declared.code.Code.{Code as CodeTerm};
ghost use Rattle.pending.specs.Compatible.{conflict, most_primitives};
ghost use Rattle.pending.specs.Primitives.{primitive_term};

use super::primitive::Primitive;
use super::targets::{Once, has_two};
use fault_codes::Code;
use std::alloc::{AllocError, Global};
use std::marker::Model;

/// The most primitives in a list (our own choice).
pub const MOST_PRIMITIVES: usize = 10_000;

/// Primitives in the order in which they were asked for, at most 10,000 (XQuery Update Facility 1.0, section 3.1).
pub struct PendingList {
    primitives: Vec<Primitive>,
}

// By one call, whose contract is all that a caller's proof sees of it.
impl Drop for PendingList {
    fn drop(self) {
        let PendingList { primitives: _ } = self;
    }
}

impl Model for PendingList {
    ghost use Rattle.std.specs.Prelude.{List, ◌≤◌, length};
    ghost use Rattle.std.specs.Coded.{codes};
    ghost use Rattle.data_model.specs.Tree.{tree_code};
    ghost use Rattle.pending.specs.contracts.primitive.Primitive as e;
    ghost use Rattle.pending.specs.Compatible.{most_primitives};
    ghost use Rattle.pending.specs.declared.primitive.Primitive.{Primitive as PrimitiveTerm};

    ghost Value = { List PrimitiveTerm };

    ghost coded = { Prim.hlevel (codes, tree_code, e.the_row.coded) };

    ghost view = { λ l. l.primitives.items };

    ghost invariant = { λ l. length l.primitives.items ≤ most_primitives };
}

/// Why primitives were not added.
#[derive(Clone, Copy, PartialEq, Eq, Debug)]
pub enum ListFault {
    /// Memory was refused (1).
    Memory,
    /// More than 10,000 primitives would stand in the list: `PXQ0002` (2).
    TooMany,
}

/// Why a list is not known to be compatible.
#[derive(Clone, Copy, PartialEq, Eq, Debug)]
pub enum CheckFault {
    /// Memory was refused (1).
    Memory,
    /// The list is not compatible, with this code (2).
    Code(Code),
}

impl PendingList {
    /// The list of no primitives. It takes no memory.
    pub fn new(alloc: Global) -> PendingList
        ensures { result ≡ [] }
    {
        PendingList {
            primitives: Vec::new(alloc),
        }
    }

    /// How many primitives there are, at most 10,000.
    pub fn len(&self) -> usize
        ensures count { result ≡ length self.now }
        ensures most { result ≤ most_primitives }
    {
        self.primitives.len()
    }

    /// The primitives, in the order in which they were asked for.
    pub fn as_slice(&self) -> &[Primitive]
        ensures { result.now ≡ self.now }
    {
        &self.primitives
    }

    /// The primitives themselves, in that order.
    pub fn into_vec(self) -> Vec<Primitive>
        ensures { result.items ≡ self }
    {
        let PendingList { primitives } = self;
        primitives
    }

    /// Adds a primitive at the end. It fails where it would be the 10,001st (`TooMany`) or memory is refused (`Memory`); the list is then
    /// as it was.
    #[tactic(auto, unfolding(crate::specs::Compatible::most_primitives))]
    pub fn push(&mut self, primitive: Primitive) -> Result<(), ListFault>
        ensures added { OnOk result (self.new ≡ self.old ++ primitive ∷ []) }
        ensures full { IsErrOf result ListFault.TooMany ↔ (most_primitives ≤ length self.old) }
        ensures refused { OnErr result (self.new ≡ self.old) }
    {
        if MOST_PRIMITIVES <= self.primitives.len() {
            return Err(ListFault::TooMany);
        }
        match self.primitives.push(primitive) {
            Ok(()) => Ok(()),
            Err(_) => Err(ListFault::Memory),
        }
    }

    /// Adds the primitives of another list at the end, in their order (`upd:mergeUpdates`, XQuery Update Facility 1.0, section 3.2.1).
    /// It fails where one of them would be the 10,001st (`TooMany`) or memory is refused (`Memory`); the list is then as it was.
    #[tactic(auto, unfolding(crate::specs::Compatible::most_primitives))]
    pub fn merge(&mut self, other: PendingList) -> Result<(), ListFault>
        ensures added { OnOk result (self.new ≡ self.old ++ other) }
        ensures full { IsErrOf result ListFault.TooMany ↔ (most_primitives < length self.old + length other) }
        ensures refused { OnErr result (self.new ≡ self.old) }
    {
        let mut other = other;
        if MOST_PRIMITIVES - self.primitives.len() < other.primitives.len() {
            return Err(ListFault::TooMany);
        }
        match self.primitives.append(&mut other.primitives) {
            Ok(()) => Ok(()),
            Err(_) => Err(ListFault::Memory),
        }
    }

    /// Sees that the list is compatible: a node is the target of at most one rename (`XUDY0015`), one replacement of the node
    /// (`XUDY0016`), one of its value and one of its content (`XUDY0017`), judged in this order (XQuery Update Facility 1.0, section
    /// 3.2.2). It fails with the code of the first rule that is broken (`Code`), or where memory is refused (`Memory`).
    pub fn check(&self, alloc: Global) -> Result<(), CheckFault>
        ensures compatible { OnOk result (conflict (map primitive_term self.now) ≡ None) }
        ensures code { IfErr result (λ e. (c : CodeTerm) → e ≡ CheckFault.Code c → conflict (map primitive_term self.now) ≡ Some c) }
    {
        match conflict_of(alloc, &self.primitives) {
            Ok(None) => Ok(()),
            Ok(Some(code)) => Err(CheckFault::Code(code)),
            Err(_) => Err(CheckFault::Memory),
        }
    }
}

/// The code of the first rule that the primitives break.
fn conflict_of(alloc: Global, primitives: &[Primitive]) -> Result<Option<Code>, AllocError>
    ensures { IfOk result (λ code. code ≡ conflict (map primitive_term primitives.now)) }
{
    if has_two(alloc, primitives, Once::Rename)? {
        return Ok(Some(Code::XUDY0015));
    }
    if has_two(alloc, primitives, Once::ReplaceNode)? {
        return Ok(Some(Code::XUDY0016));
    }
    if has_two(alloc, primitives, Once::ReplaceValue)? {
        return Ok(Some(Code::XUDY0017));
    }
    if has_two(alloc, primitives, Once::ReplaceElementContent)? {
        return Ok(Some(Code::XUDY0017));
    }
    Ok(None)
}
