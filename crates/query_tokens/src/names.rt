//! Names and numbers.

ghost use Rattle.std.specs.Prelude.{◌≡◌, ◌≤◌, ◌<◌, MatchOption, IfOk, All, true, string_bytes};
ghost use Rattle.document_names.specs.Characters as class;
ghost use Rattle.query_tokens.specs.Limits.{max_integer};
ghost use Rattle.query_tokens.specs.Lexing as lexing;
ghost use Rattle.query_tokens.specs.Outcome.{IsNext};

use crate::characters::{is_digit, is_name_character, is_name_start};
use crate::fault::ParseFault;
use crate::kind::Kind;
use crate::literal::{IntegerLiteral, MAX_INTEGER};
use crate::token::Token;
use crate::words::kind_of;
use fault_codes::Code;
use std::alloc::{AllocError, Global};
use values::Text;

// The name characters that the text begins with, and the rest.
fn name_characters(text: &[char]) -> (&[char], &[char])
    ensures { lexing.IsRun class.is_name_character text.now result.0.now result.1.now }
{
    let end = text
        .iter()
        .position(|character| !is_name_character(*character))
        .unwrap_or(text.len());
    text.split_at(end)
}

// The digits that the text begins with, and the rest.
pub(crate) fn digits(text: &[char]) -> (&[char], &[char])
    ensures { lexing.IsRun class.is_digit text.now result.0.now result.1.now }
{
    let end = text
        .iter()
        .position(|character| !is_digit(*character))
        .unwrap_or(text.len());
    text.split_at(end)
}

// A name is ASCII, so its bytes are its characters. Fails where memory is refused.
#[tactic(auto, using(crate::proofs::Spelling::name_is_ascii))]
fn spelled(alloc: Global, name: &[char]) -> Result<String, AllocError>
    requires { All (λ c. class.is_name_character c ≡ true) name.now }
    ensures { IfOk result (λ s. string_bytes s ≡ name.now) }
{
    name.iter().copied().collect(alloc)
}

/// The name or the word at the start of a text. Code: XPST0003 at the word `xmlns`; it fails where memory is refused, too.
pub(crate) fn name(alloc: Global, text: &[char]) -> Result<(Token, &[char]), ParseFault>
    ensures { IsNext (lexing.name text.now) (λ p. p.0) (λ p. p.1.now) result }
{
    let (found, rest) = name_characters(text);
    let spelling = spelled(alloc, found)?;
    if spelling.as_str() == "xmlns" {
        return Err(ParseFault::Static(Code::XPST0003));
    }
    let kind = kind_of(spelling.as_str());
    let token = Token {
        kind,
        text: Text::new(spelling),
        number: IntegerLiteral::zero(),
    };
    Ok((token, rest))
}

// The number that the digits spell, unless it is above the limit.
fn decimal(digits: &[char]) -> Option<IntegerLiteral>
    requires { All (λ d. (48 ≤ d) × (d < 58)) digits.now }
    ensures { MatchOption result (max_integer < lexing.decimal_of digits.now) (λ n. (n ≤ max_integer) × (n ≡ lexing.decimal_of digits.now)) }
{
    let mut value: u64 = 0;
    for character in digits {
        let digit = u64::from(u32::from(*character) - 48);
        if value > (MAX_INTEGER - digit) / 10 {
            return None;
        }
        value = 10 * value + digit;
    }
    IntegerLiteral::new(value)
}

fn begins_name(text: &[char]) -> bool
    ensures { result ≡ lexing.goes_on class.is_name_start text.now }
{
    match text {
        [first, ..] => is_name_start(*first),
        [] => false,
    }
}

/// The number at the start of a text. Code: XPST0003 where a name follows it at once or it is above the limit.
pub(crate) fn number(alloc: Global, text: &[char]) -> Result<(Token, &[char]), ParseFault>
    ensures { IsNext (lexing.number text.now) (λ p. p.0) (λ p. p.1.now) result }
{
    let (found, rest) = digits(text);
    if begins_name(rest) {
        return Err(ParseFault::Static(Code::XPST0003));
    }
    match decimal(found) {
        None => Err(ParseFault::Static(Code::XPST0003)),
        Some(number) => {
            let token = Token {
                kind: Kind::Number,
                text: Text::new(String::new(alloc)),
                number,
            };
            Ok((token, rest))
        }
    }
}
