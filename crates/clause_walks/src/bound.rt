//! Variables of clauses, bound to items.

ghost use Rattle.std.specs.Prelude.{◌≡◌, ◌<◌, ◌+◌, ◌∷◌, [], option_copied, pos, IfOk};
ghost use Rattle.std.specs.Option.{ForSome};
ghost use Rattle.values.specs.declared.atom.Atom.TheVariants as atom;
ghost use Rattle.query_meaning.specs.Running.{most_items};
ghost use Rattle.query_meaning.specs.Sequences as meaning;
ghost use Rattle.clause_walks.specs.Walked as walked;

use evaluation::{Evaluation, Sequence, Variables};
use query_grammar::{Clause, Expr};
use std::alloc::AllocError;
use values::{Atom, Item, Text};

/// What the variables of a clause are bound to.
pub(crate) fn source_of(clause: &Clause<Expr>) -> &Expr
    ensures { result.now ≡ walked.source_of clause.now }
{
    match clause {
        Clause::For(binding) => &binding.source,
        Clause::ForAt(binding, _) => &binding.source,
        Clause::Let(binding) => &binding.source,
    }
}

/// The position that follows an index.
#[tactic(auto, unfolding(query_meaning::specs::Running::most_items))]
fn position(run: &Evaluation, index: usize) -> Result<Sequence, AllocError>
    requires { index < most_items }
    ensures { IfOk result (λ s. s ≡ meaning.one (atom.Integer (pos (index + 1)))) }
{
    let position = index as i64 + 1;
    Sequence::one(run.alloc(), Item::Atomic(Atom::Integer(position)))
}

/// A variable more, with one item. What is no longer used of the same variables with another item serves again, where nobody shares it. It fails where memory
/// is refused.
pub fn and_item(
    run: &Evaluation,
    variable: &Text,
    item: &Item,
    others: &Variables,
    former: Option<Variables>,
) -> Result<Variables, AllocError>
    requires former { ForSome former (walked.Rebinds variable.now others.now) }
    ensures { IfOk result (λ v. v ≡ record { variable = variable.now; items = item.now ∷ [] } ∷ others.now) }
{
    let items = Sequence::one(run.alloc(), item.clone()?)?;
    match former {
        Some(former) => former.rebound(run.alloc(), items),
        None => Variables::and(run.alloc(), variable, items, others),
    }
}

/// The same, and one more with the position that follows an index, where a variable is there for it: then nothing serves again. It fails where memory is
/// refused.
pub(crate) fn and_item_at(
    run: &Evaluation,
    variable: &Text,
    at: Option<&Text>,
    index: usize,
    item: &Item,
    others: &Variables,
    former: Option<Variables>,
) -> Result<Variables, AllocError>
    requires most { index < most_items }
    requires former { ForSome former (walked.RebindsAt variable.now (option_copied at) others.now) }
    ensures { IfOk result (λ v. v ≡ walked.and_position (option_copied at.entry) index (record { variable = variable.now; items = item.now ∷ [] } ∷ others.now)) }
{
    match at {
        None => and_item(run, variable, item, others, former),
        Some(at) => {
            let variables = and_item(run, variable, item, others, None)?;
            Variables::and(run.alloc(), at, position(run, index)?, &variables)
        }
    }
}
