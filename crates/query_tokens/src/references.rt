//! References to characters, in strings.

ghost use Rattle.std.specs.Prelude.{◌≡◌, ◌<◌, ◌^◌, MatchOption, min, drop, length, true, false};
ghost use Rattle.document_names.specs.Characters as class;
ghost use Rattle.query_tokens.specs.Reading.{begins, first_of};
ghost use Rattle.query_tokens.specs.Lexing as lexing;
ghost use Rattle.query_tokens.specs.Outcome.{IsNext};

use crate::characters::{is_digit, is_hex_digit, is_xml_character};
use crate::fault::ParseFault;
use crate::names::digits;
use fault_codes::Code;

// The hexadecimal digits that the text begins with, and the rest.
fn hex_digits(text: &[char]) -> (&[char], &[char])
    ensures { lexing.IsRun lexing.is_hex_digit text.now result.0.now result.1.now }
{
    let end = text
        .iter()
        .position(|character| !is_hex_digit(*character))
        .unwrap_or(text.len());
    text.split_at(end)
}

// What a digit stands for.
fn digit_value(digit: char) -> u32
    ensures value { result ≡ lexing.digit_value digit }
    ensures small { result < 2 ^ 21 }
{
    let code = u32::from(digit);
    if is_digit(digit) {
        code - 48
    } else if code >= 97 {
        code - 87
    } else {
        code.saturating_sub(55)
    }
}

// The number that the digits spell, or 2^32 - 1, which is no character, for a larger one.
fn value_of(base: u32, digits: &[char]) -> u32
    requires { 0 < base }
    ensures { result ≡ min (lexing.value_of base digits.now) 4294967295 }
{
    let mut value: u32 = 0;
    for digit in digits {
        value = value
            .saturating_mul(base)
            .saturating_add(digit_value(*digit));
    }
    value
}

// After the digits of a reference: `;`, and a character of XML 1.0. Without a digit or `;` it is XPST0003, and a number of no such
// character is XQST0090.
fn closed_reference<'a>(
    base: u32,
    digits: &[char],
    text: &'a [char],
) -> Result<(char, &'a [char]), ParseFault>
    requires { 0 < base }
    ensures { IsNext (lexing.closed base digits.now text.now) (λ p. p.0) (λ p. p.1.now) result }
{
    match text {
        [';', rest @ ..] => {
            if digits.is_empty() {
                return Err(ParseFault::Static(Code::XPST0003));
            }
            match char::from_u32(value_of(base, digits)) {
                Some(character) if is_xml_character(character) => Ok((character, rest)),
                _ => Err(ParseFault::Static(Code::XQST0090)),
            }
        }
        _ => Err(ParseFault::Static(Code::XPST0003)),
    }
}

// After `&#`. It fails as `closed_reference` does.
fn decimal_reference(text: &[char]) -> Result<(char, &[char]), ParseFault>
    ensures { IsNext (lexing.code_point 10 class.is_digit text.now) (λ p. p.0) (λ p. p.1.now) result }
{
    let (found, rest) = digits(text);
    closed_reference(10, found, rest)
}

// After `&#x`. It fails as `closed_reference` does.
fn hexadecimal_reference(text: &[char]) -> Result<(char, &[char]), ParseFault>
    ensures { IsNext (lexing.code_point 16 lexing.is_hex_digit text.now) (λ p. p.0) (λ p. p.1.now) result }
{
    let (found, rest) = hex_digits(text);
    closed_reference(16, found, rest)
}

// What follows the mark, if the text begins with it.
fn after<'a>(text: &'a [char], mark: &[char]) -> Option<&'a [char]>
    ensures { MatchOption result (begins mark.now text.now ≡ false) (λ rest. (begins mark.now text.now ≡ true) × (rest.now ≡ drop (length mark.now) text.now)) }
{
    text.strip_prefix(mark)
}

// The character that one of the five names stands for. Any other `&` is XPST0003.
fn entity(text: &[char]) -> Result<(char, &[char]), ParseFault>
    ensures { IsNext (lexing.named (first_of lexing.entities text.now) text.now) (λ p. p.0) (λ p. p.1.now) result }
{
    if let Some(rest) = after(text, &['&', 'l', 't', ';']) {
        Ok(('<', rest))
    } else if let Some(rest) = after(text, &['&', 'g', 't', ';']) {
        Ok(('>', rest))
    } else if let Some(rest) = after(text, &['&', 'a', 'm', 'p', ';']) {
        Ok(('&', rest))
    } else if let Some(rest) = after(text, &['&', 'q', 'u', 'o', 't', ';']) {
        Ok(('"', rest))
    } else if let Some(rest) = after(text, &['&', 'a', 'p', 'o', 's', ';']) {
        Ok(('\'', rest))
    } else {
        Err(ParseFault::Static(Code::XPST0003))
    }
}

/// The character that the reference at the start of a text stands for: one of the five by name, or one by its number. Codes: XQST0090 where
/// the number is that of no character of XML 1.0; XPST0003 at any other `&`.
pub(crate) fn reference(text: &[char]) -> Result<(char, &[char]), ParseFault>
    ensures { IsNext (lexing.reference text.now) (λ p. p.0) (λ p. p.1.now) result }
{
    if let Some(rest) = after(text, &['&', '#', 'x']) {
        hexadecimal_reference(rest)
    } else if let Some(rest) = after(text, &['&', '#']) {
        decimal_reference(rest)
    } else {
        entity(text)
    }
}
