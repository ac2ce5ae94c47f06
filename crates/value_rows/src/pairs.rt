//! Two sequences of atomic values with an operator between them.

use super::items::{atoms, shown};
use fault_codes::Code;
use rows::{RowFault, Words};
use std::alloc::{AllocError, Global};
use values::{
    Atom, Comparison, Operator, ValueFault, arithmetic, compare_general, compare_value,
    integer_operands,
};

/// Two sequences with an operator's name between them.
#[derive(Drop)]
struct Pair<'a> {
    left: Vec<Atom>,
    name: &'a str,
    right: Vec<Atom>,
}

/// `LEFT NAME RIGHT`.
fn read_pair<'a>(alloc: Global, words: &mut Words<'a>) -> Result<Pair<'a>, RowFault> {
    let left = atoms(alloc, words)?;
    let name = words.plain()?;
    let right = atoms(alloc, words)?;
    Ok(Pair { left, name, right })
}

/// A number after that word.
fn number_after(words: &mut Words<'_>, word: &str) -> Result<u64, RowFault> {
    if words.plain()? == word {
        words.number()
    } else {
        Err(RowFault::NotARow)
    }
}

/// The result of an operation on two sequences: of a `value` comparison, or of `each` of them; of a `general` comparison with so many turns,
/// or `paid` for by so much work; of `arithmetic`, and of what it reads as its `operands`.
pub(super) fn result_of(
    alloc: Global,
    operation: &str,
    words: &mut Words<'_>,
) -> Result<String, RowFault> {
    let pair = read_pair(alloc, words)?;
    let left = match operation {
        "general" => number_after(words, "turns"),
        "paid" => number_after(words, "work"),
        _ => Ok(0),
    };
    match operation {
        "value" => by_value(alloc, pair.name, &pair.left, &pair.right),
        "general" => in_general(alloc, pair.name, &pair.left, &pair.right, left),
        "paid" => paid(alloc, pair.name, &pair.left, &pair.right, left),
        "each" => each(alloc, pair.name, &pair.left, &pair.right),
        "arithmetic" => calculated(alloc, pair.name, &pair.left, &pair.right),
        "operands" => operands(alloc, pair.name, &pair.left, &pair.right),
        _ => Err(RowFault::NotARow),
    }
}

/// The comparison of that name, in value comparisons or in general ones.
fn comparison(name: &str) -> Result<Comparison, RowFault> {
    match name {
        "eq" | "=" => Ok(Comparison::Equal),
        "ne" | "!=" => Ok(Comparison::NotEqual),
        "lt" | "<" => Ok(Comparison::Less),
        "le" | "<=" => Ok(Comparison::LessOrEqual),
        "gt" | ">" => Ok(Comparison::Greater),
        "ge" | ">=" => Ok(Comparison::GreaterOrEqual),
        _ => Err(RowFault::NotARow),
    }
}

/// `value LEFT eq RIGHT`: a value comparison.
fn by_value(alloc: Global, name: &str, left: &[Atom], right: &[Atom]) -> Result<String, RowFault> {
    Ok(shown(alloc, compare_value(comparison(name)?, left, right))?)
}

/// More turns, or more work, than any row takes.
const PLENTY: u64 = 1_000_000;

/// `general LEFT = RIGHT turns N`: a general comparison with so many turns, and how many of them are left; after a code nothing says that.
fn in_general(
    alloc: Global,
    name: &str,
    left: &[Atom],
    right: &[Atom],
    turns: Result<u64, RowFault>,
) -> Result<String, RowFault> {
    let (mut turns, mut work) = (turns?, PLENTY);
    match compare_general(alloc, comparison(name)?, left, right, &mut turns, &mut work) {
        Ok(truth) => Ok(format!(in alloc; "{truth}, {turns} left")?),
        Err(ValueFault::Code(code)) => Ok(format!(in alloc; "{code}")?),
        Err(ValueFault::Memory) => Err(RowFault::Memory),
    }
}

/// `paid LEFT = RIGHT work N`: a general comparison with so much work, and how much of it is left; after a code nothing says that.
fn paid(
    alloc: Global,
    name: &str,
    left: &[Atom],
    right: &[Atom],
    work: Result<u64, RowFault>,
) -> Result<String, RowFault> {
    let (mut turns, mut work) = (PLENTY, work?);
    match compare_general(alloc, comparison(name)?, left, right, &mut turns, &mut work) {
        Ok(truth) => Ok(format!(in alloc; "{truth}, {work} left")?),
        Err(ValueFault::Code(code)) => Ok(format!(in alloc; "{code}")?),
        Err(ValueFault::Memory) => Err(RowFault::Memory),
    }
}

/// `each LEFT with RIGHT`: the value comparisons that hold, by name, or the codes of those that have one.
fn each(alloc: Global, name: &str, left: &[Atom], right: &[Atom]) -> Result<String, RowFault> {
    if name != "with" {
        return Err(RowFault::NotARow);
    }
    Ok(names_that_hold(alloc, left, right)?)
}

/// The names of the value comparisons that hold, with a space before each but the first.
fn names_that_hold(alloc: Global, left: &[Atom], right: &[Atom]) -> Result<String, AllocError> {
    let mut names = String::new(alloc);
    for (name, op) in [
        ("eq", Comparison::Equal),
        ("ne", Comparison::NotEqual),
        ("lt", Comparison::Less),
        ("le", Comparison::LessOrEqual),
        ("gt", Comparison::Greater),
        ("ge", Comparison::GreaterOrEqual),
    ] {
        push_name(&mut names, name, compare_value(op, left, right))?;
    }
    Ok(names)
}

/// Appends the name of a comparison where it holds, and a code.
fn push_name(
    names: &mut String,
    name: &str,
    judged: Result<Option<bool>, Code>,
) -> Result<(), AllocError> {
    let space = if names.is_empty() { "" } else { " " };
    match judged {
        Ok(Some(true)) => write!(names, "{space}{name}"),
        Ok(Some(false)) => Ok(()),
        Ok(None) => write!(names, "{space}()"),
        Err(code) => write!(names, "{space}{code}"),
    }
}

/// The operator of that name.
fn operator(word: &str) -> Result<Operator, RowFault> {
    match word {
        "+" => Ok(Operator::Add),
        "-" => Ok(Operator::Subtract),
        "*" => Ok(Operator::Multiply),
        "idiv" => Ok(Operator::IntegerDivide),
        "mod" => Ok(Operator::Modulo),
        _ => Err(RowFault::NotARow),
    }
}

/// `arithmetic LEFT + RIGHT`: what an operator comes to.
fn calculated(
    alloc: Global,
    name: &str,
    left: &[Atom],
    right: &[Atom],
) -> Result<String, RowFault> {
    match arithmetic(operator(name)?, left, right) {
        Ok(Some(integer)) => Ok(format!(in alloc; "{integer}")?),
        Ok(None) => Ok(String::from_str(alloc, "()")?),
        Err(code) => Ok(code.to_string(alloc)?),
    }
}

/// `operands LEFT with RIGHT`: the integers that two operands are.
fn operands(alloc: Global, name: &str, left: &[Atom], right: &[Atom]) -> Result<String, RowFault> {
    if name != "with" {
        return Err(RowFault::NotARow);
    }
    match integer_operands(left, right) {
        Ok(Some((left, right))) => Ok(format!(in alloc; "{left} {right}")?),
        Ok(None) => Ok(String::from_str(alloc, "()")?),
        Err(code) => Ok(code.to_string(alloc)?),
    }
}
