//! How tightly operators bind.

ghost use Rattle.std.specs.Prelude.{◌≡◌};
ghost use Rattle.query_parts.specs.Operators as part;
ghost use Rattle.query_grammar.specs.Words as table;

use query_grammar::Binary;
use query_tokens::Kind;
use values::{Comparison, Operator};

/// The precedences of operators (XQuery 1.0, appendix A.4), from the tightest.
#[derive(Clone, Copy)]
pub enum Precedence {
    /// `intersect` and `except`
    Intersection,
    /// `union` and `|`
    Union,
    /// `*`, `idiv` and `mod`
    Multiplication,
    /// `+` and `-`
    Addition,
    /// `to`
    Range,
    /// `=`, `eq`, `is`, `<<` ..
    Comparison,
    /// `and`
    Conjunction,
    /// `or`
    Disjunction,
}

fn comparison_operator(kind: Kind) -> Option<Binary>
    ensures { result ≡ table.comparison_operator kind }
{
    match kind {
        Kind::Equal => Some(Binary::General(Comparison::Equal)),
        Kind::NotEqual => Some(Binary::General(Comparison::NotEqual)),
        Kind::Less => Some(Binary::General(Comparison::Less)),
        Kind::LessOrEqual => Some(Binary::General(Comparison::LessOrEqual)),
        Kind::Greater => Some(Binary::General(Comparison::Greater)),
        Kind::GreaterOrEqual => Some(Binary::General(Comparison::GreaterOrEqual)),
        Kind::Eq => Some(Binary::Value(Comparison::Equal)),
        Kind::Ne => Some(Binary::Value(Comparison::NotEqual)),
        Kind::Lt => Some(Binary::Value(Comparison::Less)),
        Kind::Le => Some(Binary::Value(Comparison::LessOrEqual)),
        Kind::Gt => Some(Binary::Value(Comparison::Greater)),
        Kind::Ge => Some(Binary::Value(Comparison::GreaterOrEqual)),
        Kind::Is => Some(Binary::Is),
        Kind::Precedes => Some(Binary::Precedes),
        Kind::Follows => Some(Binary::Follows),
        _ => None,
    }
}

fn intersect_operator(kind: Kind) -> Option<Binary>
    ensures { result ≡ table.intersect_operator kind }
{
    match kind {
        Kind::Intersect => Some(Binary::Intersect),
        Kind::Except => Some(Binary::Except),
        _ => None,
    }
}

fn union_operator(kind: Kind) -> Option<Binary>
    ensures { result ≡ table.union_operator kind }
{
    match kind {
        Kind::Union | Kind::Bar => Some(Binary::Union),
        _ => None,
    }
}

fn multiply_operator(kind: Kind) -> Option<Binary>
    ensures { result ≡ table.multiply_operator kind }
{
    match kind {
        Kind::Star => Some(Binary::Arithmetic(Operator::Multiply)),
        Kind::Idiv => Some(Binary::Arithmetic(Operator::IntegerDivide)),
        Kind::Mod => Some(Binary::Arithmetic(Operator::Modulo)),
        _ => None,
    }
}

fn add_operator(kind: Kind) -> Option<Binary>
    ensures { result ≡ table.add_operator kind }
{
    match kind {
        Kind::Plus => Some(Binary::Arithmetic(Operator::Add)),
        Kind::Minus => Some(Binary::Arithmetic(Operator::Subtract)),
        _ => None,
    }
}

// The only operator of its precedence.
fn range_operator(kind: Kind) -> Option<Binary>
    ensures { result ≡ table.range_operator kind }
{
    match kind {
        Kind::To => Some(Binary::To),
        _ => None,
    }
}

fn and_operator(kind: Kind) -> Option<Binary>
    ensures { result ≡ table.and_operator kind }
{
    match kind {
        Kind::And => Some(Binary::And),
        _ => None,
    }
}

fn or_operator(kind: Kind) -> Option<Binary>
    ensures { result ≡ table.or_operator kind }
{
    match kind {
        Kind::Or => Some(Binary::Or),
        _ => None,
    }
}

impl Precedence {
    /// The operator of this precedence that a token is.
    pub fn operator(self, kind: Kind) -> Option<Binary>
        ensures { result ≡ part.operator_at self kind }
    {
        match self {
            Precedence::Intersection => intersect_operator(kind),
            Precedence::Union => union_operator(kind),
            Precedence::Multiplication => multiply_operator(kind),
            Precedence::Addition => add_operator(kind),
            Precedence::Range => range_operator(kind),
            Precedence::Comparison => comparison_operator(kind),
            Precedence::Conjunction => and_operator(kind),
            Precedence::Disjunction => or_operator(kind),
        }
    }

    /// The precedence of the next tighter operators, which stand between its operands; there is none below the tightest.
    pub fn tighter(self) -> Option<Precedence>
        ensures { result ≡ part.tighter self }
    {
        match self {
            Precedence::Intersection => None,
            Precedence::Union => Some(Precedence::Intersection),
            Precedence::Multiplication => Some(Precedence::Union),
            Precedence::Addition => Some(Precedence::Multiplication),
            Precedence::Range => Some(Precedence::Addition),
            Precedence::Comparison => Some(Precedence::Range),
            Precedence::Conjunction => Some(Precedence::Comparison),
            Precedence::Disjunction => Some(Precedence::Conjunction),
        }
    }

    /// How loosely its operators stand after an operand: from 3, the tightest, to 10.
    pub(crate) fn looseness(self) -> u8
        ensures { result ≡ part.looseness_at self }
    {
        match self {
            Precedence::Intersection => 3,
            Precedence::Union => 4,
            Precedence::Multiplication => 5,
            Precedence::Addition => 6,
            Precedence::Range => 7,
            Precedence::Comparison => 8,
            Precedence::Conjunction => 9,
            Precedence::Disjunction => 10,
        }
    }

    /// Whether at most one of its operators stands between operands, as with `to` and comparisons (XQuery 1.0, appendix A.1).
    pub fn is_once(self) -> bool
        ensures { result ≡ part.is_once self }
    {
        match self {
            Precedence::Range | Precedence::Comparison => true,
            _ => false,
        }
    }
}
