//! Running a request.

ghost use Rattle.std.specs.Prelude.{◌≡◌, ℕ, ◌<◌, ◌≤◌, ◌+◌, ◌^◌, map, IfOk, OnOk, OnErr};
ghost use Rattle.data_model.specs.Trees.{append, count};
ghost use Rattle.pending.specs.Compatible.{conflict};
ghost use Rattle.pending.specs.Primitives.{primitive_term};
ghost use Rattle.query_meaning.specs.Meaning.{evaluated};
ghost use Rattle.query_meaning.specs.Running.{most_nodes};
ghost use Rattle.sessions.specs.Requests.{run, of_evaluated, of_checked};
ghost use Rattle.update_meaning.specs.Brought.{new_trees};
ghost use Rattle.update_meaning.specs.Results.{IsStored};

use apply::{ApplyFault, apply};
use evaluator::evaluate;
use fault_codes::Code;
use meaning_laws::laws::{identities_are_limited, primitives_bring_new_nodes};
use parser::{Expr, ParseFault, parse};
use pending::{CheckFault, PendingList};
use std::alloc::{AllocError, Global};
use trees::{Forest, NodeId};
use values::ValueFault;

/// How a request ended.
#[derive(Clone, Copy, PartialEq, Eq, Debug)]
pub enum Ending {
    /// It was done.
    Done,
    /// It changed nothing, and this was its first fault.
    Fault(Code),
}

/// Runs the request of a text at a level of the language (1 or 2) on a stored forest (XQuery Update Facility 1.0, section 2.4.1).
///
/// The text is parsed and evaluated; its update primitives, where they may stand in one list, are applied all at once. After a fault the forest is as it
/// was, its next identity too. Where memory is refused, the request counts as not run, and the forest is as it was.
#[tactic(auto, unfolding(crate::specs::Requests::run))]
pub fn run(alloc: Global, forest: &mut Forest, level: u8, text: &str) -> Result<Ending, AllocError>
    requires next { forest.old.next ≤ 2 ^ 61 }
    requires stored { IsStored forest.old.trees }
    ensures ran { IfOk result (λ ending. run forest.old level text.now ≡ record { forest = forest.new; ending = ending }) }
    ensures stored { IsStored forest.new.trees }
    ensures next { forest.new.next ≤ forest.old.next + most_nodes }
    ensures refused { OnErr result (forest.new ≡ forest.old) }
{
    match parse(alloc, level, text) {
        Ok(x) => run_expression(alloc, forest, &x),
        Err(ParseFault::Static(code)) => Ok(Ending::Fault(code)),
        Err(ParseFault::Memory) => Err(AllocError),
    }
}

/// Runs an expression on a stored forest.
fn run_expression(alloc: Global, forest: &mut Forest, x: &Expr) -> Result<Ending, AllocError>
    requires next { forest.old.next ≤ 2 ^ 61 }
    requires stored { IsStored forest.old.trees }
    ensures ran { IfOk result (λ ending. of_evaluated forest.old (evaluated x.now forest.old) ≡ record { forest = forest.new; ending = ending }) }
    ensures stored { IsStored forest.new.trees }
    ensures next { forest.new.next ≤ forest.old.next + most_nodes }
    ensures refused { OnErr result (forest.new ≡ forest.old) }
{
    forest.facts();
    identities_are_limited();
    primitives_bring_new_nodes();
    let (primitives, next) = match evaluate(alloc, x, forest) {
        Ok(outcome) => {
            let next = outcome.next();
            (outcome.into_primitives(), next)
        }
        Err(ValueFault::Code(code)) => return Ok(Ending::Fault(code)),
        Err(ValueFault::Memory) => return Err(AllocError),
    };
    update(alloc, forest, &primitives, next)
}

/// Applies update primitives to a stored forest, where they may stand in one list. `next` is the identity that the next node takes after it.
fn update(
    alloc: Global,
    forest: &mut Forest,
    primitives: &PendingList,
    next: NodeId,
) -> Result<Ending, AllocError>
    requires stored { IsStored forest.old.trees }
    requires later { forest.old.next ≤ next }
    requires bound { next ≤ 2 ^ 62 }
    requires distinct { (i : ℕ) → count i (append forest.old.trees (new_trees (map primitive_term primitives.now))) ≤ 1 }
    requires below { (i : ℕ) → 0 < count i (new_trees (map primitive_term primitives.now)) → i < next }
    ensures ran { IfOk result
        (λ ending. of_checked forest.old (map primitive_term primitives.now) next (conflict (map primitive_term primitives.now))
        ≡ record { forest = forest.new; ending = ending }) }
    ensures stored { IsStored forest.new.trees }
    ensures next { forest.new.next ≤ next }
    ensures refused { OnErr result (forest.new ≡ forest.old) }
{
    match primitives.check(alloc) {
        Ok(()) => {}
        Err(CheckFault::Code(code)) => return Ok(Ending::Fault(code)),
        Err(CheckFault::Memory) => return Err(AllocError),
    }
    match apply(forest, alloc, primitives, next) {
        Ok(()) => Ok(Ending::Done),
        Err(ApplyFault::Code(code)) => Ok(Ending::Fault(code)),
        Err(ApplyFault::Memory) => Err(AllocError),
    }
}
