//! The classes of characters, and steps over them.

ghost use Rattle.std.specs.Prelude.{◌≡◌, drop};
ghost use Rattle.document_names.specs.Characters as class;
ghost use Rattle.query_tokens.specs.Lexing as lexing;

// Space, tab, line feed or carriage return.
pub(crate) fn is_space(character: char) -> bool
    ensures { result ≡ lexing.is_space character }
{
    character == ' ' || character == '\t' || character == '\n' || character == '\r'
}

pub(crate) fn is_digit(character: char) -> bool
    ensures { result ≡ class.is_digit character }
{
    character.is_ascii_digit()
}

pub(crate) fn is_hex_digit(character: char) -> bool
    ensures { result ≡ lexing.is_hex_digit character }
{
    is_digit(character) || matches!(character, 'A'..='F' | 'a'..='f')
}

// An ASCII letter or `_`.
pub(crate) fn is_name_start(character: char) -> bool
    ensures { result ≡ class.is_name_start character }
{
    character.is_ascii_alphabetic() || character == '_'
}

pub(crate) fn is_name_character(character: char) -> bool
    ensures { result ≡ class.is_name_character character }
{
    is_name_start(character) || is_digit(character) || character == '.' || character == '-'
}

// A character of XML 1.0 (production Char).
pub(crate) fn is_xml_character(character: char) -> bool
    ensures { result ≡ class.is_xml_character character }
{
    matches!(
        character,
        '\t' | '\n'
            | '\r'
            | '\u{20}'..='\u{D7FF}'
            | '\u{E000}'..='\u{FFFD}'
            | '\u{10000}'..='\u{10FFFF}'
    )
}

// The text after its first character.
pub(crate) fn past_one(text: &[char]) -> &[char]
    ensures { result.now ≡ drop 1 text.now }
{
    match text {
        [_, rest @ ..] => rest,
        [] => text,
    }
}

// The text after its first two characters.
pub(crate) fn past_two(text: &[char]) -> &[char]
    ensures { result.now ≡ drop 2 text.now }
{
    past_one(past_one(text))
}
