//! The tokens of a text.

ghost use Rattle.std.specs.Prelude.{◌≡◌, ◌∷◌, ◌++◌, [], IfOk};
ghost use Rattle.std.specs.Str.{chars};
ghost use Rattle.query_tokens.specs.Reading.{repeat};
ghost use Rattle.query_tokens.specs.Lexing as lexing;
ghost use Rattle.query_tokens.specs.Outcome.{IsNext, IsRead};

use crate::characters::{is_digit, is_name_start};
use crate::fault::ParseFault;
use crate::marks::mark;
use crate::names::{name, number};
use crate::separators::separators;
use crate::strings::string;
use crate::token::Token;
use crate::tokens::Tokens;
use std::alloc::{AllocError, Global};

// The token that the text begins with. It fails as `name`, `number`, `string` and `mark` do.
fn token(alloc: Global, text: &[char]) -> Result<(Token, &[char]), ParseFault>
    ensures { IsNext (lexing.token text.now) (λ p. p.0) (λ p. p.1.now) result }
{
    match text {
        [first, ..] if is_name_start(*first) => name(alloc, text),
        [first, ..] if is_digit(*first) => number(alloc, text),
        [quote @ ('"' | '\''), ..] => string(alloc, *quote, text),
        _ => mark(alloc, text),
    }
}

// A token, and what separates it from the next. It fails as `token` and `separators` do, and where memory is refused.
fn next_token<'a>(
    alloc: Global,
    found: &mut Tokens,
    text: &'a [char],
) -> Result<&'a [char], ParseFault>
    ensures { IsNext (lexing.next_token found.old text.now) (λ _. found.new) (λ rest. rest.now) result }
{
    let (token, after) = token(alloc, text)?;
    let rest = separators(after)?;
    found.push(token)?;
    Ok(rest)
}

fn is_left(text: &[char]) -> bool
    ensures { result ≡ lexing.is_left text.now }
{
    match text {
        [] => false,
        _ => true,
    }
}

// Each token takes a character at least, so as many turns as there are characters are enough. It fails as `next_token` does.
fn all_tokens(alloc: Global, text: &[char]) -> Result<Tokens, ParseFault>
    ensures { IsRead (repeat (λ _ text. lexing.is_left text) lexing.next_token [] text.now) (λ found. found) result }
{
    let mut found = Tokens::with_room(alloc, text.len())?;
    let mut rest = text;
    for _turn in 0..text.len() {
        if !is_left(rest) {
            return Ok(found);
        }
        rest = next_token(alloc, &mut found, rest)?;
    }
    Ok(found)
}

#[tactic(auto, unfolding(crate::specs::Lexing::tokens))]
fn tokens_of(alloc: Global, text: &[char]) -> Result<Tokens, ParseFault>
    ensures { IsRead (lexing.tokens text.now) (λ found. found) result }
{
    let first = separators(text)?;
    all_tokens(alloc, first)
}

// Fails where memory is refused.
fn characters(alloc: Global, text: &str) -> Result<Vec<char>, AllocError>
    ensures { IfOk result (λ found. found.items ≡ chars text.now) }
{
    text.chars().collect(alloc)
}

/// The tokens of a text, in order.
///
/// Codes: `Static(..)` with the code of the text's first fault from the left (XPST0003, XQST0090 or PXQ0002), and `Memory` where memory
/// is refused, which says nothing of the text.
pub fn read_tokens(alloc: Global, text: &str) -> Result<Tokens, ParseFault>
    ensures { IsRead (lexing.tokens (chars text.now)) (λ t. t) result }
{
    let characters = characters(alloc, text)?;
    tokens_of(alloc, &characters)
}
