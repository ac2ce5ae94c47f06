//! Steps of a path (XQuery 1.0, section 3.2.1).

ghost use Rattle.std.specs.Prelude.{◌≡◌, IfOk};
ghost use Rattle.query_parts.specs.Gives.{Gives, GivesAs};
ghost use Rattle.query_parts.specs.Steps as part;
ghost use Rattle.query_grammar.specs.Grammar as grammar;
ghost use Rattle.query_grammar.specs.Reader as read;

use crate::cursor::{axis, eat, kind_test_word, name, sees};
use crate::lists::one;
use crate::words::kind_test_of;
use query_grammar::{Expr, KindTest, NodeTest};
use query_tokens::{Kind, ParseFault, Tokens};
use sqlite_items::{Boxed, Items};
use std::alloc::{AllocError, Global};
use trees::Axis;

/// An axis and a test.
#[derive(Drop)]
pub struct AxisStep {
    /// The axis.
    pub axis: Axis,
    /// The test.
    pub test: NodeTest,
    /// Whether the test stands alone, without an axis.
    pub is_bare: bool,
}

/// A step of a path, with its predicates.
#[derive(Drop)]
pub enum Step {
    /// An axis step.
    Axis(AxisStep, Items<Expr>),
    /// A primary expression.
    Primary(Expr, Items<Expr>),
}

/// Takes `/` or `//`: whether it is `//`.
///
/// Codes: `Static(XPST0003)` where the next token is neither; how many tokens are left then isn't said.
#[tactic(auto, unfolding(query_grammar::specs::Reader::slash))]
pub fn slash(tokens: &mut Tokens) -> Result<bool, ParseFault>
    ensures { Gives (read.slash tokens.old) result tokens.new }
{
    if sees(tokens, 0, Kind::Slash) {
        eat(tokens, Kind::Slash)?;
        Ok(false)
    } else {
        eat(tokens, Kind::SlashSlash)?;
        Ok(true)
    }
}

#[tactic(auto, unfolding(query_grammar::specs::Reader::sees_kind_test))]
fn sees_kind_test(tokens: &Tokens) -> bool
    ensures { result ≡ read.sees_kind_test tokens.now }
{
    kind_test_of(tokens.peek_at(0)).is_some() && sees(tokens, 1, Kind::OpenParen)
}

#[tactic(auto, unfolding(query_grammar::specs::Reader::kind_test))]
fn kind_test(tokens: &mut Tokens) -> Result<NodeTest, ParseFault>
    ensures { Gives (read.kind_test tokens.old) result tokens.new }
{
    let kind = kind_test_word(tokens)?;
    eat(tokens, Kind::OpenParen)?;
    eat(tokens, Kind::CloseParen)?;
    Ok(NodeTest::Kind(kind))
}

#[tactic(auto, unfolding(query_grammar::specs::Reader::node_test))]
fn node_test(tokens: &mut Tokens) -> Result<NodeTest, ParseFault>
    ensures { Gives (read.node_test tokens.old) result tokens.new }
{
    if sees(tokens, 0, Kind::Star) {
        eat(tokens, Kind::Star)?;
        Ok(NodeTest::AnyName)
    } else if sees_kind_test(tokens) {
        kind_test(tokens)
    } else {
        Ok(NodeTest::Name(name(tokens)?))
    }
}

#[tactic(auto, unfolding(query_grammar::specs::Reader::named_axis))]
fn named_axis(tokens: &mut Tokens) -> Result<AxisStep, ParseFault>
    ensures { GivesAs part.as_axis_step (read.named_axis tokens.old) result tokens.new }
{
    let axis = axis(tokens)?;
    eat(tokens, Kind::ColonColon)?;
    let test = node_test(tokens)?;
    Ok(AxisStep {
        axis,
        test,
        is_bare: false,
    })
}

#[tactic(auto, unfolding(query_grammar::specs::Reader::attribute_step))]
fn attribute_step(tokens: &mut Tokens) -> Result<AxisStep, ParseFault>
    ensures { GivesAs part.as_axis_step (read.attribute_step tokens.old) result tokens.new }
{
    eat(tokens, Kind::AtSign)?;
    let test = node_test(tokens)?;
    Ok(AxisStep {
        axis: Axis::Attribute,
        test,
        is_bare: false,
    })
}

/// Takes an axis and a test in one of their forms: `axis::test`, `@test`, `..` or a bare test (XQuery 1.0, sections 3.2.1 and 3.2.4).
///
/// Codes: `Static(XPST0003)` where the next tokens have none of them; how many tokens are left then isn't said.
#[tactic(auto, unfolding(query_grammar::specs::Reader::axis_step))]
pub fn axis_step(tokens: &mut Tokens) -> Result<AxisStep, ParseFault>
    ensures { GivesAs part.as_axis_step (read.axis_step tokens.old) result tokens.new }
{
    if sees(tokens, 0, Kind::AtSign) {
        attribute_step(tokens)
    } else if sees(tokens, 0, Kind::DotDot) {
        eat(tokens, Kind::DotDot)?;
        Ok(AxisStep {
            axis: Axis::Parent,
            test: NodeTest::Kind(KindTest::AnyNode),
            is_bare: false,
        })
    } else if sees(tokens, 1, Kind::ColonColon) {
        named_axis(tokens)
    } else {
        let test = node_test(tokens)?;
        Ok(AxisStep {
            axis: Axis::Child,
            test,
            is_bare: true,
        })
    }
}

/// A primary expression without predicates is itself. Fails where memory is refused.
fn filter_of(alloc: Global, x: Expr, predicates: Items<Expr>) -> Result<Expr, AllocError>
    ensures { IfOk result (λ found. found ≡ grammar.filter_of x predicates) }
{
    if predicates.is_empty() {
        Ok(x)
    } else {
        Ok(Expr::Filter(Boxed::new(alloc, x)?, predicates))
    }
}

/// The step as an expression: a primary expression without predicates is itself. Fails where memory is refused.
pub fn step_of(alloc: Global, step: Step) -> Result<Expr, AllocError>
    ensures { IfOk result (λ found. found ≡ grammar.step_of (part.as_step step)) }
{
    match step {
        Step::Axis(found, predicates) => Ok(Expr::Step(found.axis, found.test, predicates)),
        Step::Primary(x, predicates) => filter_of(alloc, x, predicates),
    }
}

/// `/descendant-or-self::node()` and the step. Fails where memory is refused.
fn deep(alloc: Global, x: Expr) -> Result<Items<Expr>, AllocError>
    ensures { IfOk result (λ found. found ≡ grammar.deep x) }
{
    let every = NodeTest::Kind(KindTest::AnyNode);
    let mut found = Items::new(alloc);
    found.push(Expr::Step(Axis::DescendantOrSelf, every, Items::new(alloc)))?;
    found.push(x)?;
    Ok(found)
}

fn deep_axis_step(
    alloc: Global,
    step: AxisStep,
    predicates: Items<Expr>,
) -> Result<Items<Expr>, AllocError>
    ensures { IfOk result (λ found. found ≡ grammar.deep_axis_step (part.as_axis_step step) step.is_bare predicates) }
{
    if step.is_bare && predicates.is_empty() {
        one(alloc, Expr::Step(Axis::Descendant, step.test, predicates))
    } else {
        deep(alloc, Expr::Step(step.axis, step.test, predicates))
    }
}

/// The step after `//`: a bare test without predicates is looked for among the descendants. Fails where memory is refused.
fn deep_step(alloc: Global, step: Step) -> Result<Items<Expr>, AllocError>
    ensures { IfOk result (λ found. found ≡ grammar.deep_step (part.as_step step)) }
{
    match step {
        Step::Axis(found, predicates) => deep_axis_step(alloc, found, predicates),
        Step::Primary(x, predicates) => deep(alloc, filter_of(alloc, x, predicates)?),
    }
}

/// What a step after `/`, or after `//` where it is deep, adds to the steps of a path (XQuery 1.0, section 3.2). Fails where memory is
/// refused.
pub fn steps_of(alloc: Global, is_deep: bool, step: Step) -> Result<Items<Expr>, AllocError>
    ensures { IfOk result (λ found. found ≡ grammar.steps_of is_deep (part.as_step step)) }
{
    if is_deep {
        return deep_step(alloc, step);
    }
    one(alloc, step_of(alloc, step)?)
}
