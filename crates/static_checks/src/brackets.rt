//! Brackets that are open at once.

ghost use Rattle.std.specs.Prelude.{◌≡◌, ◌≤◌};
ghost use Rattle.static_checks.specs.Brackets.{closes, nests_too_deep, open_after, opens};

use query_tokens::{Kind, Tokens};

/// How many brackets may be open at once.
const MOST_OPEN: u32 = 200;

fn opens(kind: Kind) -> bool
    ensures { result ≡ opens kind }
{
    match kind {
        Kind::OpenParen => true,
        Kind::OpenBracket => true,
        Kind::OpenBrace => true,
        _ => false,
    }
}

fn closes(kind: Kind) -> bool
    ensures { result ≡ closes kind }
{
    match kind {
        Kind::CloseParen => true,
        Kind::CloseBracket => true,
        Kind::CloseBrace => true,
        _ => false,
    }
}

/// How many are open after a token of that kind.
fn open_after(open_before: u32, kind: Kind) -> u32
    requires { open_before ≤ 200 }
    ensures { result ≡ open_after open_before kind }
{
    if opens(kind) {
        open_before + 1
    } else if closes(kind) {
        open_before.saturating_sub(1)
    } else {
        open_before
    }
}

/// Whether the tokens open more than 200 brackets `( [ {` at once: a closing one of any kind closes the last open one, if there is
/// one (our own limit: PXQ0001). It takes no memory.
pub fn nests_too_deep(tokens: &Tokens) -> bool
    ensures { result ≡ nests_too_deep 0 tokens.now }
{
    let mut open = 0;
    for index in 0..tokens.left() {
        open = open_after(open, tokens.peek_at(index));
        if open > MOST_OPEN {
            return true;
        }
    }
    false
}
