//! Arithmetic on integers (XQuery 1.0, section 3.4).

ghost use Rattle.std.specs.Prelude.{◌≡◌};
ghost use Rattle.values.specs.Arithmetic.{operand, operands, calculated, divided, arithmetic};
ghost use Rattle.std.specs.Prelude.{int_div, int_rem};

use super::atom::Atom;
use super::readings::cast_integer;
use fault_codes::Code;

/// The arithmetic operators.
#[derive(Clone, Copy, PartialEq, Eq, Debug)]
pub enum Operator {
    /// `+`.
    Add,
    /// `-`.
    Subtract,
    /// `*`.
    Multiply,
    /// `idiv`.
    IntegerDivide,
    /// `mod`.
    Modulo,
}

impl Operator {
    /// The result of the operator at two integers. Codes: FOAR0001 where the divisor is 0; FOAR0002 where the result is out of
    /// range.
    fn apply(self, left: i64, right: i64) -> Result<i64, Code>
        ensures { result ≡ calculated self left right }
    {
        match self {
            Operator::Add => left.checked_add(right).ok_or(Code::FOAR0002),
            Operator::Subtract => left.checked_sub(right).ok_or(Code::FOAR0002),
            Operator::Multiply => left.checked_mul(right).ok_or(Code::FOAR0002),
            Operator::IntegerDivide => quotient(left, right),
            Operator::Modulo => remainder(left, right),
        }
    }
}

/// The quotient, cut toward zero (Functions and Operators, section 6.2.5).
fn quotient(left: i64, right: i64) -> Result<i64, Code>
    ensures { result ≡ divided int_div left right }
{
    if right == 0 {
        return Err(Code::FOAR0001);
    }
    left.checked_div(right).ok_or(Code::FOAR0002)
}

/// What the quotient leaves of the dividend, with the dividend's sign (Functions and Operators, section 6.2.6).
fn remainder(left: i64, right: i64) -> Result<i64, Code>
    ensures { result ≡ divided int_rem left right }
{
    if right == 0 {
        return Err(Code::FOAR0001);
    }
    // `checked_rem` has no answer at the least integer and -1, where nothing is left.
    Ok(left.wrapping_rem(right))
}

/// An atomic value as an operand: an untyped one is read as an integer. Codes: FORG0001 where it doesn't read as one; XPTY0004 at
/// a string and a boolean.
fn operand(atom: &Atom) -> Result<i64, Code>
    ensures { result ≡ operand atom.now }
{
    match atom {
        Atom::Integer(integer) => Ok(*integer),
        Atom::Untyped(text) => cast_integer(text.as_str()),
        Atom::String(_) | Atom::Boolean(_) => Err(Code::XPTY0004),
    }
}

/// Both operands of an operator, a range or a sign, as integers, and `None` where one is empty (XQuery 1.0, section 3.4). Codes:
/// XPTY0004 where there is more than one value on a side, or a string or a boolean; FORG0001 where an untyped value doesn't read
/// as an integer.
pub fn integer_operands(left: &[Atom], right: &[Atom]) -> Result<Option<(i64, i64)>, Code>
    ensures { result ≡ operands left.now right.now }
{
    if left.len() > 1 || right.len() > 1 {
        return Err(Code::XPTY0004);
    }
    match (left, right) {
        ([left, ..], [right, ..]) => Ok(Some((operand(left)?, operand(right)?))),
        _ => Ok(None),
    }
}

/// The result of an operator between two sequences of atomic values, and `None` where one is empty. Codes: those of its operands;
/// FOAR0001 where the divisor is 0; FOAR0002 where the result is out of range.
pub fn arithmetic(op: Operator, left: &[Atom], right: &[Atom]) -> Result<Option<i64>, Code>
    ensures { result ≡ arithmetic op left.now right.now }
{
    match integer_operands(left, right)? {
        Some((left, right)) => Ok(Some(op.apply(left, right)?)),
        None => Ok(None),
    }
}
