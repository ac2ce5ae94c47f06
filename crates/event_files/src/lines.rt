// The lines of a file's bytes, one after the other.

ghost use Rattle.std.specs.Prelude.{◌≡◌, ◌∷◌, ◌<◌, [], length, IfSome, MatchOption};
ghost use Rattle.std.specs.List.{after_first, before_first, position};
ghost use Rattle.std.specs.Option.{option_copied};
ghost use Rattle.event_files.specs.EventFiles.{is_line_feed, lines_of};
ghost use Rattle.event_files.specs.Forms.{utf8_of};

/// A line, and what stands after it.
#[derive(Clone, Copy, Debug, PartialEq, Eq)]
pub(crate) struct Line<'a> {
    /// Its bytes, without the line feed.
    pub(crate) bytes: &'a [u8],
    /// The bytes after its line feed.
    pub(crate) rest: &'a [u8],
}

/// The first line, if there is one.
pub(crate) fn first_line(bytes: &[u8]) -> Option<Line<'_>>
    ensures found { MatchOption result (lines_of bytes.now ≡ []) (λ line. lines_of bytes.now ≡ line.bytes.now ∷ lines_of line.rest.now) }
    ensures shorter { IfSome result (λ line. length line.rest.now < length bytes.now) }
{
    if bytes.is_empty() {
        return None;
    }
    let (line, rest) = cut_line(bytes);
    Some(Line { bytes: line, rest })
}

/// What stands before the first line feed, and what stands after it: all bytes and none where there is no line feed.
fn cut_line(bytes: &[u8]) -> (&[u8], &[u8])
    ensures before { result.0.now ≡ before_first is_line_feed bytes.now }
    ensures after { result.1.now ≡ after_first is_line_feed bytes.now }
{
    match line_end(bytes) {
        Some(end) => (&bytes[..end], &bytes[end + 1..]),
        None => (bytes, &bytes[bytes.len()..]),
    }
}

/// Where the first line feed stands.
fn line_end(bytes: &[u8]) -> Option<usize>
    ensures { result ≡ position is_line_feed bytes.now }
{
    bytes.iter().position(|byte| *byte == b'\n')
}

/// The bytes as a text, if they are one.
pub(crate) fn utf8_of(bytes: &[u8]) -> Option<&str>
    ensures { option_copied result ≡ utf8_of bytes.now }
{
    str::from_utf8(bytes).ok()
}
