//! What is asked of texts, and what is cut off them.

ghost use Rattle.std.specs.Prelude.{◌≡◌};
ghost use Rattle.data_model.specs.Tidy.{ends_in_hyphen, holds_text};
ghost use Rattle.values.specs.Readings.{after_spaces};
ghost use Rattle.query_strings.specs.Tests.{holds_by};

/// White space in XML (section 2.3).
const SPACES: [char; 4] = [' ', '\t', '\n', '\r'];

/// What is asked of two texts (Functions and Operators, section 7.5).
#[derive(Clone, Copy, PartialEq, Eq, Debug)]
pub enum TextTest {
    /// The first holds the second somewhere.
    Contains,
    /// The first begins with the second.
    StartsWith,
    /// The first ends with the second.
    EndsWith,
}

impl TextTest {
    /// Whether it is so of a text and a part.
    pub fn holds(self, text: &str, part: &str) -> bool
        ensures { result ≡ holds_by self text.now part.now }
    {
        match self {
            TextTest::Contains => holds(text, part),
            TextTest::StartsWith => text.starts_with(part),
            TextTest::EndsWith => text.ends_with(part),
        }
    }
}

/// Whether a text holds another.
pub fn holds(text: &str, part: &str) -> bool
    ensures { result ≡ holds_text part.now text.now }
{
    text.contains(part)
}

/// Whether the last character of a text is a hyphen.
pub fn ends_in_hyphen(text: &str) -> bool
    ensures { result ≡ ends_in_hyphen text.now }
{
    match text.as_bytes().split_last() {
        Some((last, _)) => *last == b'-',
        None => false,
    }
}

/// The text without the white space that it begins with.
pub fn after_spaces(text: &str) -> &str
    ensures { result.now ≡ after_spaces text.now }
{
    text.trim_start_matches(SPACES)
}
