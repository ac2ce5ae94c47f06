//! What an evaluation gives.

ghost use Rattle.std.specs.Prelude.{◌≡◌, ◌≤◌, ◌^◌, map, IfOk, Ok};
ghost use Rattle.pending.specs.Primitives.{primitive_term};
ghost use Rattle.query_meaning.specs.Meaning.{evaluated};
ghost use Rattle.evaluation.specs.Gives.{Says, Stand};
ghost use Rattle.evaluator.specs.Outcomes.{evaluated_over, outcome_of};

use super::value::value_of;
use evaluation::{Environment, Evaluation, Sequence, Variables};
use pending::PendingList;
use query_grammar::Expr;
use shelves::Shelf;
use std::alloc::Global;
use std::marker::Model;
use trees::{Forest, NodeId};
use values::{Item, ValueFault};

/// What an expression gives over a lent forest: its items, its update primitives, and the trees, those that it made beside the lent ones.
pub struct Outcome<'a> {
    items: Sequence,
    run: Evaluation<'a>,
}

// By one call, whose contract is all that a caller's proof sees of it.
impl Drop for Outcome<'_> {
    fn drop(self) {
        let Outcome { items: _, run: _ } = self;
    }
}

impl<'a> Model for Outcome<'a> {
    ghost use Rattle.evaluator.specs.Outcomes.{Evaluated, evaluated_code, evaluated_of};

    ghost Value = { Evaluated };

    ghost coded = { evaluated_code };

    ghost view = { evaluated_of };
}

impl<'a> Outcome<'a> {
    /// The items, at most 10,000, whose nodes stand in the trees.
    pub fn items(&self) -> &[Item]
        ensures { result.now ≡ self.now.items }
    {
        self.items.as_slice()
    }

    /// The lent forest and the trees that were made beside it, with the identity that the next node takes.
    pub fn shelf(&self) -> &Shelf<'a>
        ensures { result.now ≡ self.now.run.shelf }
    {
        self.run.shelf()
    }

    /// The identity that the next node takes.
    pub fn next(&self) -> NodeId
        ensures { result ≡ self.now.run.shelf.own.next }
    {
        self.run.shelf().next()
    }

    /// The update primitives, in the order in which they were evaluated. The trees that were made are gone, and the forest is lent no
    /// longer.
    pub fn into_primitives(self) -> PendingList
        ensures { map primitive_term result ≡ self.entry.run.primitives }
    {
        let Outcome { items: _, run } = self;
        run.into_primitives()
    }
}

/// Evaluates an expression over a forest, which stays as it is: with no context item and no variables (XQuery 1.0, section 2.1).
///
/// Faults: `Memory`; `Code` with the code of the first fault. Nothing is left of the evaluation then.
#[tactic(auto, unfolding(query_meaning::specs::Meaning::evaluated))]
pub fn evaluate<'a>(alloc: Global, x: &Expr, lent: &'a Forest) -> Result<Outcome<'a>, ValueFault>
    requires next { lent.now.next ≤ 2 ^ 61 }
    ensures says { Says (evaluated_over x.now lent.now) result }
    ensures outcome { IfOk result (λ o. evaluated x.now lent.now ≡ Ok (outcome_of o)) }
    ensures stand { IfOk result (λ o. Stand o.items o.run) }
{
    let mut run = Evaluation::new(alloc, lent);
    let variables = Variables::new();
    let items = value_of(&mut run, x, &Environment::new(&variables))?;
    Ok(Outcome { items, run })
}
