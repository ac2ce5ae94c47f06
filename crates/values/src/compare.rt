//! Comparisons of atomic values (XQuery 1.0, section 3.5).

ghost use Rattle.std.specs.Prelude.{◌≡◌, ◌-◌, ◌&&◌, ◌∷◌, [], nat_le, if◌then◌else◌, Ok, Err, IfOk, IfErr, OnOk, map, take};
ghost use Rattle.std.specs.List.{sum};
ghost use Rattle.std.specs.Ordering.{is_eq};
ghost use Rattle.fault_codes.specs.declared.code.Code.{Code};
ghost use Rattle.values.specs.declared.fault.ValueFault.{ValueFault};
ghost use Rattle.fault_codes.specs.declared.code.Code.TheVariants.{PXQ0002};
ghost use Rattle.values.specs.Comparisons.{holds, string_cmp, same_type_cmp, as_string, if_comparable, pair_compared, pairs_compared, decided, tried, value_compared, pair_work, tried_work, general_compared};

use super::atom::Atom;
use super::fault::ValueFault;
use super::operand::{Operand, Types, operands};
use fault_codes::Code;
use std::alloc::Global;
use std::cmp::Ordering;
use std::slice;

/// The comparisons that value comparisons (`eq`, `ne`, ..) and general comparisons (`=`, `!=`, ..) make.
#[derive(Clone, Copy, PartialEq, Eq, Debug)]
pub enum Comparison {
    /// `eq` and `=`.
    Equal,
    /// `ne` and `!=`.
    NotEqual,
    /// `lt` and `<`.
    Less,
    /// `le` and `<=`.
    LessOrEqual,
    /// `gt` and `>`.
    Greater,
    /// `ge` and `>=`.
    GreaterOrEqual,
}

impl Comparison {
    /// Whether the comparison holds of two values in that order.
    fn holds(self, order: Ordering) -> bool
        ensures { result ≡ holds self order }
    {
        match self {
            Comparison::Equal => order.is_eq(),
            Comparison::NotEqual => order.is_ne(),
            Comparison::Less => order.is_lt(),
            Comparison::LessOrEqual => order.is_le(),
            Comparison::Greater => order.is_gt(),
            Comparison::GreaterOrEqual => order.is_ge(),
        }
    }
}

/// The order of two texts by code points (Functions and Operators, section 7.3.1), which is that of their bytes in UTF-8.
fn compare_text(left: &str, right: &str) -> Ordering
    ensures { result ≡ string_cmp left.now right.now }
{
    left.cmp(right)
}

/// Whether two texts have the same code points. Where they have not as many bytes, none of these is looked at.
fn are_same(left: &str, right: &str) -> bool
    ensures { result ≡ is_eq (string_cmp left.now right.now) }
{
    left == right
}

/// Whether a comparison holds of two strings or untyped values, by their texts.
pub fn compare_texts(op: Comparison, left: &str, right: &str) -> bool
    ensures { result ≡ holds op (string_cmp left.now right.now) }
{
    match op {
        Comparison::Equal => are_same(left, right),
        Comparison::NotEqual => !are_same(left, right),
        _ => op.holds(compare_text(left, right)),
    }
}

/// The order of two values of one type, where untyped is a string; `None` where they are of different types.
fn compare_atoms(left: &Atom, right: &Atom) -> Option<Ordering>
    ensures { result ≡ same_type_cmp (as_string left.now) (as_string right.now) }
{
    match (left, right) {
        (Atom::Boolean(left), Atom::Boolean(right)) => Some(left.cmp(right)),
        (Atom::Integer(left), Atom::Integer(right)) => Some(left.cmp(right)),
        (Atom::String(left) | Atom::Untyped(left), Atom::String(right) | Atom::Untyped(right)) => {
            Some(compare_text(left.as_str(), right.as_str()))
        }
        _ => None,
    }
}

/// Whether a comparison holds of two values in that order. Code: XPTY0004 where they have none.
fn holds_of(op: Comparison, order: Option<Ordering>) -> Result<bool, Code>
    ensures { result ≡ if_comparable op order }
{
    match order {
        Some(order) => Ok(op.holds(order)),
        None => Err(Code::XPTY0004),
    }
}

/// A value comparison of two sequences of atomic values; `None` where one is empty (XQuery 1.0, section 3.5.1). Code: XPTY0004
/// where there is more than one value on a side, or the two are of different types; untyped is a string.
pub fn compare_value(op: Comparison, left: &[Atom], right: &[Atom]) -> Result<Option<bool>, Code>
    ensures { result ≡ value_compared op left.now right.now }
{
    if left.len() > 1 || right.len() > 1 {
        return Err(Code::XPTY0004);
    }
    match (left, right) {
        ([left, ..], [right, ..]) => Ok(Some(holds_of(op, compare_atoms(left, right))?)),
        _ => Ok(None),
    }
}

/// One pair of a general comparison: an untyped value is read as the type of the other one, and beside an untyped one as a
/// string. Codes: FORG0001 where it doesn't read as that type; XPTY0004 where the two are of different types.
fn compare_pair(op: Comparison, left: &Operand, right: &Operand) -> Result<bool, Code>
    ensures { result ≡ pair_compared op left.now right.now }
{
    match (left.atom(), right.atom()) {
        (Atom::Untyped(text), Atom::Integer(right)) => {
            Ok(op.holds(left.integer(text)?.cmp(right)))
        }
        (Atom::Integer(left), Atom::Untyped(text)) => {
            Ok(op.holds(left.cmp(&right.integer(text)?)))
        }
        (Atom::Untyped(text), Atom::Boolean(right)) => {
            Ok(op.holds(left.boolean(text)?.cmp(right)))
        }
        (Atom::Boolean(left), Atom::Untyped(text)) => {
            Ok(op.holds(left.cmp(&right.boolean(text)?)))
        }
        (left, right) => holds_of(op, compare_atoms(left, right)),
    }
}

/// The work of a pair of a general comparison: that of the shorter text, where both values have one.
fn pair_work(left: &Operand, right: &Operand) -> u64
    ensures { result ≡ pair_work left.now right.now }
{
    left.work().min(right.work())
}

/// One value of a general comparison's left side with each of the right side, as long as there are turns and work.
fn compare_with_each(
    op: Comparison,
    left: &Operand,
    right: &[Operand],
    turns: &mut u64,
    work: &mut u64,
) -> Result<bool, Code>
    ensures compared { let pairs = map (pair_compared op left.now) right.now in let works = map (pair_work left.now) right.now in result ≡ (if nat_le (tried pairs) turns.old && nat_le (sum (take (tried pairs) works)) work.old then decided pairs else Err PXQ0002) }
    ensures left { let pairs = map (pair_compared op left.now) right.now in let works = map (pair_work left.now) right.now in OnOk result ((turns.new ≡ turns.old - tried pairs) × (work.new ≡ work.old - sum (take (tried pairs) works))) }
{
    for other in right {
        let pair = pair_work(left, other);
        if *turns == 0 || *work < pair {
            return Err(Code::PXQ0002);
        }
        *turns -= 1;
        *work -= pair;
        if compare_pair(op, left, other)? {
            return Ok(true);
        }
    }
    Ok(false)
}

/// Each value of a general comparison's left side, read as these types where it is untyped, with each of the right side, as long as
/// there are turns and work.
fn compare_all(
    op: Comparison,
    left: &[Atom],
    types: Types,
    right: &[Operand],
    turns: &mut u64,
    work: &mut u64,
) -> Result<bool, Code>
    ensures compared { result ≡ general_compared op left.now right.now turns.old work.old }
    ensures left { OnOk result ((turns.new ≡ turns.old - tried (pairs_compared op left.now right.now)) × (work.new ≡ work.old - tried_work op left.now right.now)) }
{
    for value in left {
        if compare_with_each(op, &Operand::new(value, types), right, turns, work)? {
            return Ok(true);
        }
    }
    Ok(false)
}

/// A general comparison of two sequences of atomic values: whether it holds of some pair, the left value first (XQuery 1.0,
/// section 3.5.2). Each pair that is tried takes one of the turns, and its work before it is compared: that of the shorter text,
/// where both values have one. Each untyped value is read once.
///
/// Faults: `Memory`, and then neither a turn nor work is taken; `Code` with that of the first pair that has one, if none before it
/// holds, or with PXQ0002 where the pairs that would be tried take more turns or more work than there are. After a `Code` nothing is
/// said of the turns and the work that are left.
pub fn compare_general(
    alloc: Global,
    op: Comparison,
    left: &[Atom],
    right: &[Atom],
    turns: &mut u64,
    work: &mut u64,
) -> Result<bool, ValueFault>
    ensures compared { IfOk result (λ b. general_compared op left.now right.now turns.old work.old ≡ Ok b) }
    ensures code { IfErr result (λ fault. (code : Code) → fault ≡ ValueFault.Code code → general_compared op left.now right.now turns.old work.old ≡ Err code) }
    ensures left { OnOk result ((turns.new ≡ turns.old - tried (pairs_compared op left.now right.now)) × (work.new ≡ work.old - tried_work op left.now right.now)) }
    ensures refused { result ≡ Err ValueFault.Memory → (turns.new ≡ turns.old) × (work.new ≡ work.old) }
{
    if let [only] = right {
        return match compare_with_one(op, left, only, turns, work) {
            Ok(holds) => Ok(holds),
            Err(code) => Err(ValueFault::Code(code)),
        };
    }
    let operands = operands(alloc, right, Types::of(left))?;
    match compare_all(op, left, Types::of(right), &operands, turns, work) {
        Ok(holds) => Ok(holds),
        Err(code) => Err(ValueFault::Code(code)),
    }
}

/// The same with one value on the right side, which takes no memory.
fn compare_with_one(
    op: Comparison,
    left: &[Atom],
    right: &Atom,
    turns: &mut u64,
    work: &mut u64,
) -> Result<bool, Code>
    ensures compared { result ≡ general_compared op left.now (right.now ∷ []) turns.old work.old }
    ensures left { OnOk result ((turns.new ≡ turns.old - tried (pairs_compared op left.now (right.now ∷ []))) × (work.new ≡ work.old - tried_work op left.now (right.now ∷ []))) }
{
    let operand = Operand::new(right, Types::of(left));
    let types = Types::of(slice::from_ref(right));
    compare_all(op, left, types, slice::from_ref(&operand), turns, work)
}
