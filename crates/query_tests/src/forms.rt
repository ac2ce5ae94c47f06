//! Which texts are queries, by the code.

use fault_codes::Code;
use query_rules::read_query;
use query_tokens::{ParseFault, read_tokens};
use std::alloc::Global;

/// The fault of a text at a level of the language, if it has one.
fn fault_of(alloc: Global, level: u8, text: &str) -> Option<ParseFault> {
    match read_tokens(alloc, text) {
        Ok(tokens) => read_query(alloc, level, tokens).err(),
        Err(fault) => Some(fault),
    }
}

#[test]
fn accepts_names_updates_and_bindings(rt: HostRuntime) {
    for text in [
        "for/if/delete",
        "element element {}",
        "if(if) then then else else",
        "delete",
        "insert node a as first into b",
        "insert nodes (a, b) as last into c",
        "insert node a before b/c",
        "insert node a after b",
        "insert node a into b",
        "delete node a",
        "delete nodes a/b",
        "replace node a with b",
        "replace value of node a with 'b'",
        "rename node a as 'b'",
        "for $x at $i in a, $y in b where c order by d descending return e",
        "for $x in a let $y := b, $z := c for $v in d order by e ascending, f return ($x, $y)",
        "some $x in a satisfies b",
        "every $some in every, $in in in satisfies satisfies",
    ] {
        assert_eq!(rt; fault_of(rt.alloc(), 1, text), None, "{text}");
    }
}

#[test]
fn accepts_paths_operators_and_constructors(rt: HostRuntime) {
    for text in [
        "a-b",
        "a - b",
        "1 to 2",
        "()",
        "(1, 'a', $x)",
        "a//b[1]",
        "a/b[c][d]//e/@f/..",
        "descendant-or-self::node()/self::text()",
        "@*/*",
        "$x[1]/(a | b)",
        ".",
        "- + 1 * 2 idiv 3 mod 4 + 5 - 6",
        "a union b intersect c except d",
        "a < 1 and b ge 2 or c is d",
        "a << b",
        "element {a} {b}",
        "attribute a {}",
        "processing-instruction p {'q'}",
        "document {text {'a'}, comment {b}}",
        "count(a, b)",
        "text()",
        "a, b",
    ] {
        assert_eq!(rt; fault_of(rt.alloc(), 1, text), None, "{text}");
    }
}

#[test]
fn refuses_others(rt: HostRuntime) {
    for text in [
        "",
        "//",
        "/",
        "//a",
        "a < b < c",
        "1 to 2 to 3",
        "1 +",
        "if(a) then b",
        "if(a)",
        "node(a)",
        "delete node",
        "insert node a in b",
        "for $x in a",
        "for $x return a",
        "some $x in a return b",
        "text {}",
        "element {}",
        "a[]",
        "a[1",
        "(a",
        "a b",
        "a,",
        "a::b",
        "copy $x := a modify delete node $x return $x",
    ] {
        assert_eq!(rt;
            fault_of(rt.alloc(), 1, text),
            Some(ParseFault::Static(Code::XPST0003)),
            "{text}"
        );
    }
}

#[test]
fn copies_from_level_2_on(rt: HostRuntime) {
    let text = "copy $x := a, $y := b modify delete node $x return $x";
    assert_eq!(rt; fault_of(rt.alloc(), 2, text), None);
    assert_eq!(rt; fault_of(rt.alloc(), 1, "copy/$x"), None);
}
