//! What texts are read as: their tokens, or their first fault.

use fault_codes::Code;
use query_tokens::{Kind, ParseFault, Tokens, read_tokens};
use std::alloc::{AllocError, Global};
use std::test::Fail;

/// A token's kind, its text, and its number.
type Row = (Kind, &'static str, i64);

const TEXT: &str = "for $x in (1 to 20) (: a (: b :) :) return $x << \"a\"\"&lt;&#x41;\u{e9}\"";

const TOKENS: [Row; 14] = [
    (Kind::For, "for", 0),
    (Kind::Dollar, "", 0),
    (Kind::Name, "x", 0),
    (Kind::In, "in", 0),
    (Kind::OpenParen, "", 0),
    (Kind::Number, "", 1),
    (Kind::To, "to", 0),
    (Kind::Number, "", 20),
    (Kind::CloseParen, "", 0),
    (Kind::Return, "return", 0),
    (Kind::Dollar, "", 0),
    (Kind::Name, "x", 0),
    (Kind::Precedes, "", 0),
    (Kind::String, "a\"<A\u{e9}", 0),
];

/// The fault of a text, if it has one.
fn fault_of(alloc: Global, text: &str) -> Option<ParseFault> {
    read_tokens(alloc, text).err()
}

/// Whether the next token is the row's, which it takes.
fn takes(tokens: &mut Tokens, row: Row) -> bool {
    let (kind, text, number) = row;
    let seen = tokens.peek_at(0);
    match tokens.take() {
        None => false,
        Some(token) => {
            seen == kind
                && token.kind == kind
                && token.text.as_str() == text
                && token.number.value() == number
        }
    }
}

#[test]
fn reads_tokens(rt: HostRuntime) -> Result<(), Fail> {
    let mut tokens = read_tokens(rt.alloc(), TEXT)?;
    assert_eq!(rt; tokens.left(), 14);
    assert_eq!(rt; tokens.peek_at(4), Kind::OpenParen);
    assert_eq!(rt; tokens.peek_at(14), Kind::End);
    for row in TOKENS {
        assert!(rt; takes(&mut tokens, row), "{}", row.1);
    }
    assert!(rt; tokens.take().is_none());
    Ok(())
}

#[test]
fn refuses_texts_with_faults(rt: HostRuntime) {
    for (text, code) in [
        ("(: (: :)", Code::XPST0003),
        ("1a", Code::XPST0003),
        ("9223372036854775808", Code::XPST0003),
        ("xmlns", Code::XPST0003),
        ("a:b", Code::XPST0003),
        ("a \u{c}", Code::XPST0003),
        ("\"\u{1}\"", Code::XPST0003),
        ("\"a", Code::XPST0003),
        ("'&bad;'", Code::XPST0003),
        ("'&#99999999999;", Code::XQST0090),
        ("'&#xD800;' 1a", Code::XQST0090),
    ] {
        assert_eq!(rt;
            fault_of(rt.alloc(), text),
            Some(ParseFault::Static(code)),
            "{text}"
        );
    }
}

/// A string with two bytes of one character and 65,534 letters, up to its end.
fn long_string(alloc: Global, end: &str) -> Result<String, AllocError> {
    let mut text = String::from_str(alloc, "'\u{e9}")?;
    for _ in 0..65534 {
        text.push('a')?;
    }
    text.push_str(end)?;
    Ok(text)
}

#[test]
fn bounds_strings(rt: HostRuntime) -> Result<(), AllocError> {
    let alloc = rt.alloc();
    let allowed = long_string(alloc, "'")?;
    assert_eq!(rt; fault_of(alloc, &allowed), None);
    let longer = long_string(alloc, "a&#0;")?;
    assert_eq!(rt;
        fault_of(alloc, &longer),
        Some(ParseFault::Static(Code::PXQ0002))
    );
    Ok(())
}
