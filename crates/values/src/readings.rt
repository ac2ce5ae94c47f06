//! How texts are read as integers and booleans (XML Schema Part 2, sections 3.2.2 and 3.3.13).

ghost use Rattle.std.specs.Prelude.{◌≡◌};
ghost use Rattle.fault_codes.specs.declared.code.Code.TheVariants.{FORG0001};
ghost use Rattle.values.specs.Readings.{trimmed, integer_of, boolean_of};
ghost use Rattle.values.specs.Atoms.{or_fault};

use fault_codes::Code;

/// The characters of whitespace: space, tab, line feed and carriage return (XML 1.0, production S).
const SPACES: [char; 4] = [' ', '\t', '\n', '\r'];

/// The integer that a text reads as: whitespace at both ends, an optional sign, and digits. `None` for another text, and for an
/// integer out of range (XML Schema Part 2, section 3.3.13).
pub fn read_integer(text: &str) -> Option<i64>
    ensures { result ≡ integer_of text.now }
{
    trim(text).parse::<i64>().ok()
}

/// The boolean that a text reads as: `true`, `1`, `false` or `0`, with whitespace at both ends. `None` for another text (XML
/// Schema Part 2, section 3.2.2).
pub fn read_boolean(text: &str) -> Option<bool>
    ensures { result ≡ boolean_of text.now }
{
    match trim(text) {
        "true" | "1" => Some(true),
        "false" | "0" => Some(false),
        _ => None,
    }
}

/// A text as an integer. Code: FORG0001 where it doesn't read as one.
pub fn cast_integer(text: &str) -> Result<i64, Code>
    ensures { result ≡ or_fault FORG0001 (integer_of text.now) }
{
    read_integer(text).ok_or(Code::FORG0001)
}

/// A text as a boolean. Code: FORG0001 where it doesn't read as one.
pub fn cast_boolean(text: &str) -> Result<bool, Code>
    ensures { result ≡ or_fault FORG0001 (boolean_of text.now) }
{
    read_boolean(text).ok_or(Code::FORG0001)
}

/// The text without the whitespace at both ends (XML Schema Part 2, section 4.3.6).
fn trim(text: &str) -> &str
    ensures { result.now ≡ trimmed text.now }
{
    text.trim_start_matches(SPACES).trim_end_matches(SPACES)
}
