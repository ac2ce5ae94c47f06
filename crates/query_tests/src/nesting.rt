//! Long chains of forms that stand within one another without brackets, up to 64 KB, and brackets within one another.

use crate::texts::{fault_of, has_code};
use fault_codes::Code;
use parser::ParseFault;
use std::alloc::{AllocError, Global};
use std::thread;

const LENGTH: usize = 65536;

/// What stands before and after each expression of a chain.
type Link = (&'static str, &'static str);

const CHAINS: [Link; 26] = [
    ("for$a in ", " return ."),
    ("for$a at$b in ", " return ."),
    ("let$a:=", " return ."),
    ("for$a in . where ", " return ."),
    ("for$a in . order by ", " return ."),
    ("let$a:=. return ", ""),
    ("some$a in ", " satisfies ."),
    ("every$a in . satisfies ", ""),
    ("if(.)then ", " else ."),
    ("if(.)then . else ", ""),
    ("copy$a:=", " modify . return ."),
    ("copy$a:=. modify ", " return ."),
    ("copy$a:=. modify . return ", ""),
    ("insert node ", " into ."),
    ("insert node . into ", ""),
    ("delete node ", ""),
    ("replace node ", " with ."),
    ("replace node . with ", ""),
    ("replace value of node ", " with ."),
    ("rename node ", " as ."),
    ("rename node . as ", ""),
    ("- ", ""),
    (". + ", ""),
    (". or ", ""),
    ("./", ""),
    ("., ", ""),
];

/// What stands before and after each expression in brackets.
const BRACKETS: [Link; 7] = [
    ("(", ")"),
    ("true(", ")"),
    ("a[", "]"),
    ("if(", ")then . else ."),
    ("text {", "}"),
    ("element a {", "}"),
    ("element {", "}{}"),
];

/// The deepest nesting that a query is asked for.
const BRACKETS_DEEP: usize = 200;

fn repeated(alloc: Global, times: usize, before: &str, after: &str) -> Result<String, AllocError> {
    let mut text = String::new(alloc);
    for _link in 0..times {
        text.push_str(before)?;
    }
    text.push_str(".")?;
    for _link in 0..times {
        text.push_str(after)?;
    }
    Ok(text)
}

/// Whether the text is an expression; it may have faults that are sought in expressions alone. It fails where memory is refused.
fn is_read(alloc: Global, text: &str) -> Result<bool, AllocError> {
    match fault_of(alloc, 2, text) {
        None => Ok(true),
        Some(ParseFault::Memory) => Err(AllocError),
        Some(fault) => Ok(
            fault == ParseFault::Static(Code::XPST0017)
                || fault == ParseFault::Static(Code::XUST0001)
                || fault == ParseFault::Static(Code::XUST0002),
        ),
    }
}

fn whole_is_read(alloc: Global, link: Link) -> Result<bool, AllocError> {
    let times = LENGTH / (link.0.len() + link.1.len() + 1);
    let text = repeated(alloc, times, link.0, link.1)?;
    is_read(alloc, &text)
}

// The last token of the text is left out: what follows the innermost expression, or else that expression.
fn part_is_refused(alloc: Global, link: Link) -> Result<bool, AllocError> {
    let times = LENGTH / (link.0.len() + 1);
    let mut text = String::new(alloc);
    for _link in 0..times {
        text.push_str(link.0)?;
    }
    has_code(alloc, 2, &text, Code::XPST0003)
}

fn all_as_wanted(alloc: Global) -> Result<bool, AllocError> {
    for link in CHAINS {
        if !whole_is_read(alloc, link)? || !part_is_refused(alloc, link)? {
            return Ok(false);
        }
    }
    Ok(true)
}

fn all_brackets_are_read(alloc: Global, times: usize) -> Result<bool, AllocError> {
    for link in BRACKETS {
        let text = repeated(alloc, times, link.0, link.1)?;
        if !is_read(alloc, &text)? {
            return Ok(false);
        }
    }
    Ok(true)
}

#[test]
fn brackets_nest(rt: HostRuntime) -> Result<(), AllocError> {
    let alloc = rt.alloc();
    assert!(rt; all_brackets_are_read(alloc, BRACKETS_DEEP)?);
    let child = thread::spawn(&rt, move || all_brackets_are_read(alloc, BRACKETS_DEEP))?;
    assert!(rt; child.join(&rt)?);
    Ok(())
}

#[test]
fn long_chains_take_no_stack(rt: HostRuntime) -> Result<(), AllocError> {
    assert!(rt; all_as_wanted(rt.alloc())?);
    Ok(())
}

#[test]
fn nor_on_a_thread(rt: HostRuntime) -> Result<(), AllocError> {
    let alloc = rt.alloc();
    let child = thread::spawn(&rt, move || all_as_wanted(alloc))?;
    assert!(rt; child.join(&rt)?);
    Ok(())
}
