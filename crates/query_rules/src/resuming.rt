//! Forms that have the expression that they waited for: up to the next one that they wait for, or to their end.

ghost use Rattle.query_parts.specs.Gives.{Gives};
ghost use Rattle.query_rules.specs.Stages as stage;

use crate::clauses::{past_for, past_for_at, past_in, past_key, past_let, to_keys};
use crate::pending::{Last, Pending, Progress, ended, word};
use crate::updates::{past_copy, place_of};
use held_values::beside;
use query_grammar::Expr;
use query_parts::held::boxed;
use query_tokens::{Kind, ParseFault, Tokens};
use std::alloc::Global;

fn past_source(alloc: Global, tokens: &mut Tokens, source: Expr) -> Result<Progress, ParseFault>
    ensures { Gives (stage.past_source source tokens.old) result tokens.new }
{
    let source = boxed(alloc, source)?;
    let (source, place) = beside(source, place_of(tokens))?;
    Ok(Progress::Waits(Pending::Last(Last::Insert(source, place))))
}

/// Goes on with a form that has this expression. Codes: `Static(XPST0003)` where the next tokens don't go on with the form; `Memory` where
/// memory is refused; what was read is dropped.
#[tactic(auto, unfolding(crate::specs::Stages::resume))]
pub(crate) fn resume(
    alloc: Global,
    tokens: &mut Tokens,
    form: Pending,
    x: Expr,
) -> Result<Progress, ParseFault>
    ensures { Gives (stage.resume form x tokens.old) result tokens.new }
{
    match form {
        Pending::For(found, variable) => past_for(alloc, tokens, found, variable, x),
        Pending::ForAt(found, variable, at) => past_for_at(alloc, tokens, found, variable, at, x),
        Pending::Let(found, variable) => past_let(alloc, tokens, found, variable, x),
        Pending::Where(found) => {
            let (found, x) = beside(found, boxed(alloc, x))?;
            to_keys(alloc, tokens, found, Some(x))
        }
        Pending::Key(found, condition, keys) => past_key(alloc, tokens, found, condition, keys, x),
        Pending::In(quantifier, found, variable) => past_in(
            alloc, tokens, quantifier, found, variable, x,
        ),
        Pending::Copy(found, variable) => past_copy(alloc, tokens, found, variable, x),
        Pending::Insert => past_source(alloc, tokens, x),
        Pending::Last(last) => {
            let (last, x) = beside(last, boxed(alloc, x))?;
            Ok(Progress::Read(ended(last, x)))
        }
        Pending::Then(condition) => {
            let (condition, x) = beside(condition, boxed(alloc, x))?;
            word(tokens, Kind::Else, Pending::Last(Last::Else(condition, x)))
        }
        Pending::ReplaceNode => {
            let last = Last::ReplaceNode(boxed(alloc, x)?);
            word(tokens, Kind::With, Pending::Last(last))
        }
        Pending::ReplaceValue => {
            let last = Last::ReplaceValue(boxed(alloc, x)?);
            word(tokens, Kind::With, Pending::Last(last))
        }
        Pending::Rename => {
            let last = Last::Rename(boxed(alloc, x)?);
            word(tokens, Kind::As, Pending::Last(last))
        }
        Pending::Modify(found) => {
            let (found, x) = beside(found, boxed(alloc, x))?;
            word(tokens, Kind::Return, Pending::Last(Last::Copy(found, x)))
        }
    }
}
