//! FLWOR and quantified expressions (XQuery 1.0, sections 3.8 and 3.11), from one expression that they wait for to the next.
//! Where a function here fails, what was read is dropped.

ghost use Rattle.std.specs.Prelude.{true, false, [], ◌∷◌, ◌++◌};
ghost use Rattle.query_parts.specs.Gives.{Gives};
ghost use Rattle.query_grammar.specs.declared.ast.Clause.TheVariants as clause;
ghost use Rattle.query_rules.specs.Stages as stage;

use crate::pending::{Last, Pending, Progress, word};
use held_values::beside;
use query_grammar::{Binding, Clause, Expr, Quantifier, SortKey};
use query_parts::Looseness;
use query_parts::cursor::{at_level, eat, sees, variable};
use query_parts::lists::push;
use query_tokens::{Kind, ParseFault, Tokens};
use sqlite_items::{Boxed, Items};
use std::alloc::Global;
use values::Text;

/// Takes a key's direction: whether greater keys come first.
#[tactic(auto, unfolding(query_grammar::specs::Reader::direction))]
fn direction(tokens: &mut Tokens) -> Result<bool, ParseFault>
    ensures { Gives (stage.direction tokens.old) result tokens.new }
{
    if sees(tokens, 0, Kind::Ascending) {
        eat(tokens, Kind::Ascending)?;
        Ok(false)
    } else if sees(tokens, 0, Kind::Descending) {
        eat(tokens, Kind::Descending)?;
        Ok(true)
    } else {
        Ok(false)
    }
}

#[tactic(auto, unfolding(query_grammar::specs::Reader::which))]
fn quantifier(tokens: &mut Tokens) -> Result<Quantifier, ParseFault>
    ensures { Gives (stage.which tokens.old) result tokens.new }
{
    if sees(tokens, 0, Kind::Some) {
        eat(tokens, Kind::Some)?;
        Ok(Quantifier::Some)
    } else {
        eat(tokens, Kind::Every)?;
        Ok(Quantifier::Every)
    }
}

fn to_return(
    tokens: &mut Tokens,
    found: Items<Clause<Expr>>,
    condition: Option<Boxed<Expr>>,
    keys: Items<SortKey<Expr>>,
) -> Result<Progress, ParseFault>
    ensures { Gives (stage.to_return found condition keys tokens.old) result tokens.new }
{
    let last = Last::Return(found, condition, keys);
    word(tokens, Kind::Return, Pending::Last(last))
}

/// Goes on after the clauses and `where`. Codes: `Static(XPST0003)` where neither `order by` nor `return` comes next.
pub(crate) fn to_keys(
    alloc: Global,
    tokens: &mut Tokens,
    found: Items<Clause<Expr>>,
    condition: Option<Boxed<Expr>>,
) -> Result<Progress, ParseFault>
    ensures { Gives (stage.to_keys found condition tokens.old) result tokens.new }
{
    if at_level(tokens, Looseness::Order) {
        eat(tokens, Kind::Order)?;
        word(
            tokens,
            Kind::By,
            Pending::Key(found, condition, Items::new(alloc)),
        )
    } else {
        to_return(tokens, found, condition, Items::new(alloc))
    }
}

fn to_condition(
    alloc: Global,
    tokens: &mut Tokens,
    found: Items<Clause<Expr>>,
) -> Result<Progress, ParseFault>
    ensures { Gives (stage.to_condition found tokens.old) result tokens.new }
{
    if at_level(tokens, Looseness::Where) {
        word(tokens, Kind::Where, Pending::Where(found))
    } else {
        to_keys(alloc, tokens, found, None)
    }
}

// Of a `for`, or else of a `let`.
fn to_binding(
    tokens: &mut Tokens,
    iterates: bool,
    found: Items<Clause<Expr>>,
) -> Result<Progress, ParseFault>
    ensures { Gives (stage.to_binding iterates found tokens.old) result tokens.new }
{
    let is_at = sees(tokens, 2, Kind::At);
    let name = variable(tokens)?;
    if !iterates {
        word(tokens, Kind::Assign, Pending::Let(found, name))
    } else if is_at {
        eat(tokens, Kind::At)?;
        let at = variable(tokens)?;
        word(tokens, Kind::In, Pending::ForAt(found, name, at))
    } else {
        word(tokens, Kind::In, Pending::For(found, name))
    }
}

/// Goes on to the first binding of a clause. Codes: `Static(XPST0003)` where no `for` or `let` comes next with its variable.
pub(crate) fn to_clause(
    tokens: &mut Tokens,
    found: Items<Clause<Expr>>,
) -> Result<Progress, ParseFault>
    ensures { Gives (stage.to_clause found tokens.old) result tokens.new }
{
    if sees(tokens, 0, Kind::For) {
        eat(tokens, Kind::For)?;
        to_binding(tokens, true, found)
    } else {
        eat(tokens, Kind::Let)?;
        to_binding(tokens, false, found)
    }
}

fn to_clauses(
    alloc: Global,
    tokens: &mut Tokens,
    found: Items<Clause<Expr>>,
) -> Result<Progress, ParseFault>
    ensures { Gives (stage.to_clauses found tokens.old) result tokens.new }
{
    if at_level(tokens, Looseness::Clause) {
        to_clause(tokens, found)
    } else {
        to_condition(alloc, tokens, found)
    }
}

fn past_binding(
    alloc: Global,
    tokens: &mut Tokens,
    iterates: bool,
    found: Items<Clause<Expr>>,
) -> Result<Progress, ParseFault>
    ensures { Gives (stage.past_binding iterates found tokens.old) result tokens.new }
{
    if at_level(tokens, Looseness::Comma) {
        eat(tokens, Kind::Comma)?;
        to_binding(tokens, iterates, found)
    } else {
        to_clauses(alloc, tokens, found)
    }
}

/// Goes on after the source of `for $variable in`. Codes: `Static(XPST0003)` where none of another binding, another clause, `where`,
/// `order by` and `return` comes next; `Memory` where memory is refused.
pub(crate) fn past_for(
    alloc: Global,
    tokens: &mut Tokens,
    mut found: Items<Clause<Expr>>,
    variable: Text,
    source: Expr,
) -> Result<Progress, ParseFault>
    ensures { Gives (stage.past_binding true (found ++ clause.For (stage.bound variable source) ∷ []) tokens.old) result tokens.new }
{
    let clause = Clause::For(Binding { variable, source });
    push(alloc, &mut found, clause)?;
    past_binding(alloc, tokens, true, found)
}

/// Goes on after the source of `for $variable at $at in`. Codes: those of `past_for`.
pub(crate) fn past_for_at(
    alloc: Global,
    tokens: &mut Tokens,
    mut found: Items<Clause<Expr>>,
    variable: Text,
    at: Text,
    source: Expr,
) -> Result<Progress, ParseFault>
    ensures { Gives (stage.past_binding true (found ++ clause.ForAt (stage.bound variable source) at ∷ []) tokens.old) result tokens.new }
{
    let binding = Binding { variable, source };
    push(alloc, &mut found, Clause::ForAt(binding, at))?;
    past_binding(alloc, tokens, true, found)
}

/// Goes on after the source of `let $variable :=`. Codes: those of `past_for`.
pub(crate) fn past_let(
    alloc: Global,
    tokens: &mut Tokens,
    mut found: Items<Clause<Expr>>,
    variable: Text,
    source: Expr,
) -> Result<Progress, ParseFault>
    ensures { Gives (stage.past_binding false (found ++ clause.Let (stage.bound variable source) ∷ []) tokens.old) result tokens.new }
{
    let clause = Clause::Let(Binding { variable, source });
    push(alloc, &mut found, clause)?;
    past_binding(alloc, tokens, false, found)
}

/// Goes on after a key's expression. Codes: `Static(XPST0003)` where no comma or `return` comes after its direction; want of memory.
pub(crate) fn past_key(
    alloc: Global,
    tokens: &mut Tokens,
    found: Items<Clause<Expr>>,
    condition: Option<Boxed<Expr>>,
    mut keys: Items<SortKey<Expr>>,
    key: Expr,
) -> Result<Progress, ParseFault>
    ensures { Gives (stage.past_direction found condition keys key tokens.old) result tokens.new }
{
    let (key, is_descending) = beside(key, direction(tokens))?;
    push(alloc, &mut keys, SortKey { key, is_descending })?;
    if at_level(tokens, Looseness::Comma) {
        word(tokens, Kind::Comma, Pending::Key(found, condition, keys))
    } else {
        to_return(tokens, found, condition, keys)
    }
}

fn to_in(
    tokens: &mut Tokens,
    quantifier: Quantifier,
    found: Items<Binding<Expr>>,
) -> Result<Progress, ParseFault>
    ensures { Gives (stage.to_in quantifier found tokens.old) result tokens.new }
{
    let name = variable(tokens)?;
    word(tokens, Kind::In, Pending::In(quantifier, found, name))
}

/// Goes on after a quantified expression's binding. Codes: `Static(XPST0003)` where neither another binding nor `satisfies` comes next;
/// `Memory` where memory is refused.
pub(crate) fn past_in(
    alloc: Global,
    tokens: &mut Tokens,
    quantifier: Quantifier,
    mut found: Items<Binding<Expr>>,
    variable: Text,
    source: Expr,
) -> Result<Progress, ParseFault>
    ensures { Gives (stage.past_in quantifier (found ++ stage.bound variable source ∷ []) tokens.old) result tokens.new }
{
    push(alloc, &mut found, Binding { variable, source })?;
    if at_level(tokens, Looseness::Comma) {
        eat(tokens, Kind::Comma)?;
        to_in(tokens, quantifier, found)
    } else {
        let last = Last::Satisfies(quantifier, found);
        word(tokens, Kind::Satisfies, Pending::Last(last))
    }
}

/// Goes to the first binding of a quantified expression. Codes: `Static(XPST0003)` where no `some` or `every` comes next with its variable.
pub(crate) fn to_quantified(alloc: Global, tokens: &mut Tokens) -> Result<Progress, ParseFault>
    ensures { Gives (stage.to_quantified tokens.old) result tokens.new }
{
    let found = quantifier(tokens)?;
    to_in(tokens, found, Items::new(alloc))
}
