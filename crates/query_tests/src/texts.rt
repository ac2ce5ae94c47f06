//! What texts are parsed as: expressions with their categories, or their first static fault.

use fault_codes::Code;
use parser::{Category, Expr, NodeTest, ParseFault, category, parse};
use sqlite_items::Boxed;
use std::alloc::{AllocError, Global};
use trees::Axis;

/// The fault of a text at a level of the language, if it has one.
pub(crate) fn fault_of(alloc: Global, level: u8, text: &str) -> Option<ParseFault> {
    parse(alloc, level, text).err()
}

/// The expression of a text, in a box: what drops it itself is dear to prove.
fn parsed(alloc: Global, level: u8, text: &str) -> Result<Boxed<Expr>, ParseFault> {
    Ok(Boxed::new(alloc, parse(alloc, level, text)?)?)
}

/// Whether a text has this code at a level of the language. It fails where memory is refused.
pub(crate) fn has_code(
    alloc: Global,
    level: u8,
    text: &str,
    code: Code,
) -> Result<bool, AllocError> {
    match fault_of(alloc, level, text) {
        Some(ParseFault::Memory) => Err(AllocError),
        fault => Ok(fault == Some(ParseFault::Static(code))),
    }
}

/// So many brackets around a text, or before it.
fn in_brackets(alloc: Global, count: u32, text: &str, closed: bool) -> Result<String, AllocError> {
    let mut whole = String::new(alloc);
    for _ in 0..count {
        whole.push('(')?;
    }
    whole.push_str(text)?;
    if closed {
        for _ in 0..count {
            whole.push(')')?;
        }
    }
    Ok(whole)
}

/// Whether a text after so many brackets, which stay open, has this code.
fn has_code_in_brackets(
    alloc: Global,
    count: u32,
    text: &str,
    code: Code,
) -> Result<bool, AllocError> {
    let whole = in_brackets(alloc, count, text, false)?;
    has_code(alloc, 1, &whole, code)
}

#[test]
fn each_fault_has_its_code(rt: HostRuntime) -> Result<(), AllocError> {
    for (text, code) in [
        ("", Code::XPST0003),
        ("1 +", Code::XPST0003),
        ("1a", Code::XPST0003),
        ("9223372036854775808", Code::XPST0003),
        ("1 + delete node .", Code::XPST0003),
        ("copy $x := . modify () return $x", Code::XPST0003),
        ("\"&#0;\"", Code::XQST0090),
        ("foo(1) + $x", Code::XPST0017),
        ("true(1)", Code::XPST0017),
        ("for $x at $x in 1 return 1", Code::XQST0089),
        ("$x + 1", Code::XPST0008),
        ("1 + (delete node .)", Code::XUST0001),
        ("1, delete node .", Code::XUST0001),
        ("count(delete node .)", Code::XUST0001),
        ("delete node (delete node .)", Code::XUST0001),
        ("if (delete node .) then 1 else 1", Code::XUST0001),
    ] {
        assert!(rt; has_code(rt.alloc(), 1, text, code)?, "{text}");
    }
    Ok(())
}

#[test]
fn the_first_pass_with_a_fault_gives_the_code(rt: HostRuntime) -> Result<(), AllocError> {
    for (text, code) in [("'&#0;'", Code::XQST0090), ("1 +", Code::PXQ0001)] {
        assert!(rt;
            has_code_in_brackets(rt.alloc(), 201, text, code)?,
            "{text}"
        );
    }
    for (text, code) in [
        ("foo(1) +", Code::XPST0003),
        ("foo(for $x at $x in 1 return 1)", Code::XPST0017),
        ("for $x at $x in $y return 1", Code::XQST0089),
        ("1 + (delete node $x)", Code::XPST0008),
    ] {
        assert!(rt; has_code(rt.alloc(), 1, text, code)?, "{text}");
    }
    Ok(())
}

fn is_one(x: &Expr) -> bool {
    match x {
        Expr::Integer(literal) => literal.value() == 1,
        _ => false,
    }
}

#[test]
fn two_hundred_brackets_may_be_open(rt: HostRuntime) -> Result<(), ParseFault> {
    let alloc = rt.alloc();
    let allowed = in_brackets(alloc, 200, "1", true)?;
    assert!(rt; is_one(parsed(alloc, 1, &allowed)?.get()));
    let refused = in_brackets(alloc, 201, "1", true)?;
    assert!(rt; has_code(alloc, 1, &refused, Code::PXQ0001)?);
    Ok(())
}

/// Whether an expression is the step to the children of a name.
fn is_child_step(x: &Expr, name: &str) -> bool {
    match x {
        Expr::Step(Axis::Child, NodeTest::Name(found), predicates) => {
            found.as_str() == name && predicates.is_empty()
        }
        _ => false,
    }
}

#[test]
fn a_word_alone_is_a_step(rt: HostRuntime) -> Result<(), ParseFault> {
    let x = parsed(rt.alloc(), 1, "delete")?;
    assert!(rt; is_child_step(x.get(), "delete"));
    Ok(())
}

#[test]
fn words_are_names_too(rt: HostRuntime) {
    for text in [
        "for/if/delete",
        "element element {}",
        "if(if) then then else else",
        "every $some in every, $in in in satisfies satisfies",
        "for $for at $at in in let $let := let where where order by by descending return return",
        "some/every/satisfies/order/ascending/empty",
        "insert/replace/rename/copy/modify",
        "insert node node as first into into",
        "insert nodes nodes after after",
        "delete node delete",
        "replace node node with with",
        "replace value of node value with of",
        "rename node rename as as",
        "or or and and and",
        "mod mod div",
        "union union union",
        "to to to",
        "eq eq eq",
        "attribute attribute {attribute}",
        "processing-instruction {processing-instruction} {text}",
        "document {document}, text {text}, comment {comment}",
        "child::child/parent::parent/@self",
        "if",
    ] {
        assert_eq!(rt; fault_of(rt.alloc(), 1, text), None, "{text}");
    }
}

#[test]
fn variables_are_bound_where_clauses_say(rt: HostRuntime) -> Result<(), AllocError> {
    for text in [
        "for $x at $i in (1, 2) where $i order by $x return ($x, $i)",
        "for $x in 1, $y in $x let $z := $y return $z",
        "some $x in 1, $y in $x satisfies $y",
        "for $x in 1 return ((for $x in 2 return $x), $x)",
        "for $x in 1 return (for $x in $x return $x)",
        "copy $x := 1, $y := 2 modify delete node $x return $y",
    ] {
        assert_eq!(rt; fault_of(rt.alloc(), 2, text), None, "{text}");
    }
    for text in [
        "for $x in $x return 1",
        "for $x in $y, $y in 1 return 1",
        "for $x at $i in $i return 1",
        "let $x := $x return 1",
        "every $x in $x satisfies 1",
        "(for $x in 1 return 1), $x",
        "(some $x in 1 satisfies 1) + $x",
        "copy $x := 1, $y := $x modify () return 1",
        "(copy $x := 1 modify () return 1), $x",
    ] {
        assert!(rt; has_code(rt.alloc(), 2, text, Code::XPST0008)?, "{text}");
    }
    Ok(())
}

fn category_of(alloc: Global, text: &str) -> Result<Category, ParseFault> {
    Ok(category(parsed(alloc, 2, text)?.get()))
}

#[test]
fn expressions_have_categories(rt: HostRuntime) -> Result<(), ParseFault> {
    for (text, expected) in [
        ("()", Category::Vacuous),
        ("1", Category::Simple),
        (
            "copy $x := . modify delete node $x return $x",
            Category::Simple,
        ),
        ("(), delete node .", Category::Updating),
        ("if (1) then delete node . else ()", Category::Updating),
        (
            "for $x in a return rename node $x as 'b'",
            Category::Updating,
        ),
    ] {
        assert_eq!(rt; category_of(rt.alloc(), text)?, expected, "{text}");
    }
    Ok(())
}
