//! Updating expressions (XQuery Update Facility 1.0, section 2.4), from one expression that they wait for to the next.

ghost use Rattle.std.specs.Prelude.{[], ◌∷◌, ◌++◌};
ghost use Rattle.query_parts.specs.Gives.{Gives};
ghost use Rattle.query_rules.specs.Parts as part;
ghost use Rattle.query_rules.specs.Stages as stage;

use crate::pending::{Last, Pending, Progress, word};
use query_grammar::{Binding, Expr, Place};
use query_parts::Looseness;
use query_parts::cursor::{REFUSED, at_level, eat, sees, variable};
use query_parts::lists::push;
use query_tokens::{Kind, ParseFault, Token, Tokens};
use sqlite_items::Items;
use std::alloc::Global;
use values::Text;

// `as first into`, or else `as last into`.
fn end_place(tokens: &mut Tokens) -> Result<Place, ParseFault>
    ensures { Gives (part.end_place tokens.old) result tokens.new }
{
    if sees(tokens, 1, Kind::First) {
        eat(tokens, Kind::As)?;
        eat(tokens, Kind::First)?;
        eat(tokens, Kind::Into)?;
        Ok(Place::FirstInto)
    } else {
        eat(tokens, Kind::As)?;
        eat(tokens, Kind::Last)?;
        eat(tokens, Kind::Into)?;
        Ok(Place::LastInto)
    }
}

#[tactic(auto, unfolding(query_grammar::specs::Reader::node_or_nodes))]
fn node_or_nodes(tokens: &mut Tokens) -> Result<Token, ParseFault>
    ensures { Gives (stage.node_or_nodes tokens.old) result tokens.new }
{
    if sees(tokens, 0, Kind::Node) {
        eat(tokens, Kind::Node)
    } else {
        eat(tokens, Kind::Nodes)
    }
}

/// Takes the place of an insertion. Codes: `Static(XPST0003)` where the next tokens are none.
#[tactic(auto, unfolding(query_grammar::specs::Reader::place_of))]
pub(crate) fn place_of(tokens: &mut Tokens) -> Result<Place, ParseFault>
    ensures { Gives (stage.place_of tokens.old) result tokens.new }
{
    if sees(tokens, 0, Kind::Into) {
        eat(tokens, Kind::Into)?;
        Ok(Place::Into)
    } else if sees(tokens, 0, Kind::After) {
        eat(tokens, Kind::After)?;
        Ok(Place::After)
    } else if sees(tokens, 0, Kind::Before) {
        eat(tokens, Kind::Before)?;
        Ok(Place::Before)
    } else {
        end_place(tokens)
    }
}

/// Goes to the source of an insertion. Codes: `Static(XPST0003)` where neither `insert node` nor `insert nodes` comes next.
pub(crate) fn to_insertion(tokens: &mut Tokens) -> Result<Progress, ParseFault>
    ensures { Gives (stage.to_insertion tokens.old) result tokens.new }
{
    eat(tokens, Kind::Insert)?;
    node_or_nodes(tokens)?;
    Ok(Progress::Waits(Pending::Insert))
}

/// Goes to the target of a deletion. Codes: `Static(XPST0003)` where neither `delete node` nor `delete nodes` comes next.
pub(crate) fn to_deletion(tokens: &mut Tokens) -> Result<Progress, ParseFault>
    ensures { Gives (stage.to_deletion tokens.old) result tokens.new }
{
    eat(tokens, Kind::Delete)?;
    node_or_nodes(tokens)?;
    Ok(Progress::Waits(Pending::Last(Last::Delete)))
}

/// Goes to the target of a replacement. Codes: `Static(XPST0003)` where neither `replace node` nor `replace value of node` comes next.
pub(crate) fn to_replacement(tokens: &mut Tokens) -> Result<Progress, ParseFault>
    ensures { Gives (stage.to_replacement tokens.old) result tokens.new }
{
    if sees(tokens, 1, Kind::Node) {
        eat(tokens, Kind::Replace)?;
        word(tokens, Kind::Node, Pending::ReplaceNode)
    } else {
        eat(tokens, Kind::Replace)?;
        eat(tokens, Kind::Value)?;
        eat(tokens, Kind::Of)?;
        word(tokens, Kind::Node, Pending::ReplaceValue)
    }
}

/// Goes to the target of a renaming. Codes: `Static(XPST0003)` where `rename node` doesn't come next.
pub(crate) fn to_renaming(tokens: &mut Tokens) -> Result<Progress, ParseFault>
    ensures { Gives (stage.to_renaming tokens.old) result tokens.new }
{
    eat(tokens, Kind::Rename)?;
    word(tokens, Kind::Node, Pending::Rename)
}

fn to_copy(tokens: &mut Tokens, found: Items<Binding<Expr>>) -> Result<Progress, ParseFault>
    ensures { Gives (stage.to_copy found tokens.old) result tokens.new }
{
    let name = variable(tokens)?;
    word(tokens, Kind::Assign, Pending::Copy(found, name))
}

/// Goes on after a transform expression's binding. Codes: `Static(XPST0003)` where neither another binding nor `modify` comes next;
/// `Memory` where memory is refused; what was read is dropped.
pub(crate) fn past_copy(
    alloc: Global,
    tokens: &mut Tokens,
    mut found: Items<Binding<Expr>>,
    variable: Text,
    source: Expr,
) -> Result<Progress, ParseFault>
    ensures { Gives (stage.past_copy (found ++ stage.bound variable source ∷ []) tokens.old) result tokens.new }
{
    push(alloc, &mut found, Binding { variable, source })?;
    if at_level(tokens, Looseness::Comma) {
        eat(tokens, Kind::Comma)?;
        to_copy(tokens, found)
    } else {
        word(tokens, Kind::Modify, Pending::Modify(found))
    }
}

/// Goes to the first binding of a transform expression, which is refused below level 2. Codes: `Static(XPST0003)` below level 2, and where
/// `copy` doesn't come next with its variable.
pub(crate) fn to_copying(
    alloc: Global,
    level: u8,
    tokens: &mut Tokens,
) -> Result<Progress, ParseFault>
    ensures { Gives (stage.to_copying level tokens.old) result tokens.new }
{
    if level >= 2 {
        eat(tokens, Kind::Copy)?;
        to_copy(tokens, Items::new(alloc))
    } else {
        Err(REFUSED)
    }
}
