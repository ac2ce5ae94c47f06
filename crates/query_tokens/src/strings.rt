//! Strings.

ghost use Rattle.std.specs.Prelude.{◌≡◌, string_bytes};
ghost use Rattle.query_tokens.specs.Lexing as lexing;
ghost use Rattle.query_tokens.specs.Outcome.{IsNext};

use crate::characters::{is_xml_character, past_one, past_two};
use crate::fault::ParseFault;
use crate::kind::Kind;
use crate::literal::IntegerLiteral;
use crate::references::reference;
use crate::token::Token;
use data_model::limits::MOST_BYTES;
use fault_codes::Code;
use std::alloc::Global;
use values::Text;

// A quote that is doubled, a reference, or a character that stands for itself. One that isn't a character of XML 1.0 is XPST0003, as is
// none; a reference has faults of its own (`reference`).
fn content_character(quote: char, text: &[char]) -> Result<(char, &[char]), ParseFault>
    ensures { IsNext (lexing.content_character quote text.now) (λ p. p.0) (λ p. p.1.now) result }
{
    match text {
        [first, ..] if *first == quote => Ok((quote, past_two(text))),
        ['&', ..] => reference(text),
        [first, rest @ ..] if is_xml_character(*first) => Ok((*first, rest)),
        _ => Err(ParseFault::Static(Code::XPST0003)),
    }
}

// One character more of a string, which isn't to be longer than the limit (PXQ0002). It fails as `content_character` does, too, and
// where memory is refused.
fn more_content<'a>(
    content: &mut String,
    quote: char,
    text: &'a [char],
) -> Result<&'a [char], ParseFault>
    ensures { IsNext (lexing.more_content quote (string_bytes content.old) text.now) (λ _. string_bytes content.new) (λ rest. rest.now) result }
{
    let (character, rest) = content_character(quote, text)?;
    if content.len() > MOST_BYTES - character.len_utf8() {
        return Err(ParseFault::Static(Code::PXQ0002));
    }
    content.push(character)?;
    Ok(rest)
}

// Whether the string goes on: a quote that isn't doubled ends it.
fn is_in_string(quote: char, text: &[char]) -> bool
    ensures { result ≡ lexing.is_in_string quote text.now }
{
    match text {
        [] => false,
        [first, second, ..] => *first != quote || *second == quote,
        [first] => *first != quote,
    }
}

// What stands between the quotes, and the text from the last quote on. It fails as `more_content` does.
fn contents(alloc: Global, quote: char, text: &[char]) -> Result<(String, &[char]), ParseFault>
    ensures { IsNext (lexing.contents quote text.now) (λ p. string_bytes p.0) (λ p. p.1.now) result }
{
    let mut content = String::new(alloc);
    let mut rest = text;
    for _turn in 0..text.len() {
        if !is_in_string(quote, rest) {
            return Ok((content, rest));
        }
        rest = more_content(&mut content, quote, rest)?;
    }
    Ok((content, rest))
}

/// The string at the start of a text, between two of these quotes. Codes: XPST0003 where it isn't closed or has a character which isn't one
/// of XML 1.0; those of `reference`; PXQ0002 where it is too long; it fails where memory is refused, too.
pub(crate) fn string(
    alloc: Global,
    quote: char,
    text: &[char],
) -> Result<(Token, &[char]), ParseFault>
    ensures { IsNext (lexing.string quote text.now) (λ p. p.0) (λ p. p.1.now) result }
{
    let (content, after) = contents(alloc, quote, past_one(text))?;
    match after {
        [first, rest @ ..] if *first == quote => {
            let token = Token {
                kind: Kind::String,
                text: Text::shared(alloc, content)?,
                number: IntegerLiteral::zero(),
            };
            Ok((token, rest))
        }
        _ => Err(ParseFault::Static(Code::XPST0003)),
    }
}
