//! Copies that were made, with their variables.

ghost use Rattle.std.specs.Prelude.{◌≡◌, ◌∷◌, ◌++◌, [], map, IfOk};
ghost use Rattle.query_meaning.specs.Copies.{bound_to, roots_of};
ghost use Rattle.query_copies.specs.Made.{copies_after, copy_in, variables_after};

use crate::roots::CopyRoots;
use evaluation::{Sequence, Variables};
use std::alloc::{AllocError, Global};
use std::marker::Model;
use trees::NodeId;
use values::{Item, Text};

/// A copy, and the variable that it is bound to.
#[derive(Drop)]
pub(crate) struct MadeCopy {
    variable: Text,
    root: NodeId,
}

/// Copies, in the order in which they were made. Contracts see the one that was made last first.
#[derive(Drop)]
pub(crate) struct MadeCopies {
    copies: Vec<MadeCopy>,
}

impl Model for MadeCopies {
    ghost use Rattle.std.specs.Prelude.{List, []};
    ghost use Rattle.std.specs.Coded.{coded_list};
    ghost use Rattle.query_meaning.specs.Copies.{Copy};
    ghost use Rattle.query_copies.specs.Made.{copy_code, copies_after};

    ghost Value = { List Copy };

    ghost coded = { coded_list copy_code };

    ghost view = { λ a. copies_after [] a.copies.items };
}

impl MadeCopies {
    /// No copies. It takes no memory.
    pub(crate) fn new(alloc: Global) -> MadeCopies
        ensures { result ≡ [] }
    {
        MadeCopies {
            copies: Vec::new(alloc),
        }
    }

    /// One copy more. It fails where memory is refused.
    pub(crate) fn and(self, variable: &Text, root: NodeId) -> Result<MadeCopies, AllocError>
        ensures { IfOk result (λ cs. cs ≡ record { variable = variable.now; root = root } ∷ self) }
    {
        let MadeCopies { mut copies } = self;
        copies.push(MadeCopy {
            variable: variable.clone()?,
            root,
        })?;
        Ok(MadeCopies { copies })
    }

    /// The variables of the copies, bound after others: of equal names the last counts. It fails where memory is refused.
    pub(crate) fn bound(&self, alloc: Global, others: &Variables) -> Result<Variables, AllocError>
        ensures { IfOk result (λ v. v ≡ map bound_to self.now ++ others.now) }
    {
        bound_after(alloc, others, &self.copies)
    }

    /// The roots of the copies. It fails where memory is refused.
    pub(crate) fn roots(&self, alloc: Global) -> Result<CopyRoots, AllocError>
        ensures { IfOk result (λ roots. roots ≡ roots_of self.now) }
    {
        CopyRoots::new(alloc, roots_after(alloc, &self.copies)?)
    }
}

/// The variables of copies, bound one after the other after others. It fails where memory is refused.
fn bound_after(
    alloc: Global,
    others: &Variables,
    copies: &[MadeCopy],
) -> Result<Variables, AllocError>
    ensures { IfOk result (λ v. v ≡ variables_after others.now copies.now) }
{
    let mut variables = others.clone()?;
    for copy in copies {
        variables = and_copy(alloc, copy, &variables)?;
    }
    Ok(variables)
}

/// A copy's variable, bound after others. It fails where memory is refused.
fn and_copy(alloc: Global, copy: &MadeCopy, others: &Variables) -> Result<Variables, AllocError>
    ensures { IfOk result (λ v. v ≡ bound_to (copy_in copy.now) ∷ others.now) }
{
    let items = Sequence::one(alloc, Item::Node(copy.root))?;
    Variables::and(alloc, &copy.variable, items, others)
}

/// The roots of copies, the last one first. It fails where memory is refused.
fn roots_after(alloc: Global, copies: &[MadeCopy]) -> Result<Vec<NodeId>, AllocError>
    ensures { IfOk result (λ roots. roots.items ≡ roots_of (copies_after [] copies.now)) }
{
    let mut roots = Vec::with_capacity(alloc, copies.len())?;
    for copy in copies {
        roots.push(copy.root)?;
    }
    roots.reverse();
    Ok(roots)
}
