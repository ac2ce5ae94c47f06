//! What single tokens stand for in the grammar.

ghost use Rattle.std.specs.Prelude.{◌≡◌};
ghost use Rattle.query_grammar.specs.Loose as loose;
ghost use Rattle.query_grammar.specs.Words as table;
ghost use Rattle.query_parts.specs.Operators as part;

use crate::looseness::Looseness;
use crate::precedence::Precedence;
use query_grammar::{KindTest, Sign};
use query_tokens::Kind;
use trees::Axis;

/// How loosely a token of this kind stands after an operand.
pub(crate) fn looseness(kind: Kind) -> Looseness
    ensures { part.level_of result ≡ loose.looseness kind }
{
    match kind {
        Kind::OpenBracket => Looseness::Predicate,
        Kind::Slash | Kind::SlashSlash => Looseness::Step,
        Kind::Intersect | Kind::Except => Looseness::Operator(Precedence::Intersection),
        Kind::Union | Kind::Bar => Looseness::Operator(Precedence::Union),
        Kind::Star | Kind::Idiv | Kind::Mod => Looseness::Operator(Precedence::Multiplication),
        Kind::Plus | Kind::Minus => Looseness::Operator(Precedence::Addition),
        Kind::To => Looseness::Operator(Precedence::Range),
        Kind::Equal
        | Kind::NotEqual
        | Kind::Less
        | Kind::LessOrEqual
        | Kind::Greater
        | Kind::GreaterOrEqual
        | Kind::Eq
        | Kind::Ne
        | Kind::Lt
        | Kind::Le
        | Kind::Gt
        | Kind::Ge
        | Kind::Is
        | Kind::Precedes
        | Kind::Follows => Looseness::Operator(Precedence::Comparison),
        Kind::And => Looseness::Operator(Precedence::Conjunction),
        Kind::Or => Looseness::Operator(Precedence::Disjunction),
        Kind::Ascending | Kind::Descending => Looseness::Direction,
        Kind::Comma => Looseness::Comma,
        Kind::For | Kind::Let => Looseness::Clause,
        Kind::Where => Looseness::Where,
        Kind::Order => Looseness::Order,
        Kind::End
        | Kind::CloseParen
        | Kind::CloseBracket
        | Kind::CloseBrace
        | Kind::Return
        | Kind::Satisfies
        | Kind::Then
        | Kind::Else
        | Kind::Into
        | Kind::As
        | Kind::After
        | Kind::Before
        | Kind::With
        | Kind::Modify => Looseness::End,
        _ => Looseness::Never,
    }
}

/// The axis of a word before `::`.
pub(crate) fn axis_of(kind: Kind) -> Option<Axis>
    ensures { result ≡ table.axis_of kind }
{
    match kind {
        Kind::Child => Some(Axis::Child),
        Kind::Descendant => Some(Axis::Descendant),
        Kind::DescendantOrSelf => Some(Axis::DescendantOrSelf),
        Kind::SelfAxis => Some(Axis::SelfAxis),
        Kind::Attribute => Some(Axis::Attribute),
        Kind::Parent => Some(Axis::Parent),
        Kind::Ancestor => Some(Axis::Ancestor),
        Kind::FollowingSibling => Some(Axis::FollowingSibling),
        Kind::PrecedingSibling => Some(Axis::PrecedingSibling),
        _ => None,
    }
}

/// The kind test of a word before `()`.
pub(crate) fn kind_test_of(kind: Kind) -> Option<KindTest>
    ensures { result ≡ table.kind_test_of kind }
{
    match kind {
        Kind::Node => Some(KindTest::AnyNode),
        Kind::DocumentNode => Some(KindTest::Document),
        Kind::Element => Some(KindTest::Element),
        Kind::Text => Some(KindTest::Text),
        Kind::Comment => Some(KindTest::Comment),
        Kind::ProcessingInstruction => Some(KindTest::Instruction),
        _ => None,
    }
}

/// Whether a function may have a name of this kind: neither `if` nor the name of a kind test (XQuery 1.0, appendix A.3).
pub fn is_function(kind: Kind) -> bool
    ensures { result ≡ table.is_function kind }
{
    match kind {
        Kind::If
        | Kind::Node
        | Kind::DocumentNode
        | Kind::Element
        | Kind::Text
        | Kind::Comment
        | Kind::ProcessingInstruction => false,
        _ => kind.is_name(),
    }
}

/// The sign that a token of this kind is.
pub fn sign_of(kind: Kind) -> Option<Sign>
    ensures { result ≡ table.sign_of kind }
{
    match kind {
        Kind::Plus => Some(Sign::Plus),
        Kind::Minus => Some(Sign::Minus),
        _ => None,
    }
}
