//! Keys abbreviated to a number each, by which a sort puts most tuples in order before it compares whole keys.

ghost use Rattle.std.specs.Prelude.{◌≡◌};
ghost use Rattle.std.specs.Int.{from_be_bytes, w64};
ghost use Rattle.std.specs.Option.{option_copied};
ghost use Rattle.std.specs.Str.{chars};
ghost use Rattle.sorted_tuples.specs.Abbreviations.{abbreviation, bytes_of, bytes_past, directed, eight_bytes, number_abbreviation, shared, text_abbreviation};

use values::Atom;

/// How many bytes a number of 64 bits has.
const WIDTH: usize = 8;

/// The abbreviation of a key where greater keys come first, or where lesser ones do, by the bytes of a text past so many.
pub(crate) fn directed(is_descending: bool, past: usize, key: Option<&Atom>) -> u64
    ensures { result ≡ directed is_descending past (option_copied key.entry) }
{
    let abbreviation = abbreviation(past, key);
    if is_descending {
        u64::MAX - abbreviation
    } else {
        abbreviation
    }
}

/// The abbreviation of a key: of keys of one type, whose texts have the same bytes up to there, the lesser has no greater one. The empty key has the
/// least.
fn abbreviation(past: usize, key: Option<&Atom>) -> u64
    ensures { result ≡ abbreviation past (option_copied key.entry) }
{
    match key {
        None => 0,
        Some(Atom::Boolean(truth)) => *truth as u64,
        Some(Atom::Integer(number)) => number_abbreviation(*number),
        Some(Atom::String(text)) | Some(Atom::Untyped(text)) => {
            text_abbreviation(past, text.as_str())
        }
    }
}

/// How far a number lies above the least.
fn number_abbreviation(number: i64) -> u64
    ensures { result ≡ number_abbreviation number }
{
    number.abs_diff(i64::MIN)
}

/// The first eight bytes of a text past so many, as a number.
fn text_abbreviation(past: usize, text: &str) -> u64
    ensures { result ≡ text_abbreviation past (chars text.now) }
{
    first_bytes(bytes_past(past, text.as_bytes()))
}

/// The bytes past so many.
fn bytes_past(past: usize, bytes: &[u8]) -> &[u8]
    ensures { result.now ≡ bytes_past past bytes.now }
{
    let from = bytes.len().min(past);
    &bytes[from..]
}

/// The first eight bytes as a number, the first of them of the most worth; where there are fewer, as if zeros came after the last.
fn first_bytes(bytes: &[u8]) -> u64
    ensures { result ≡ from_be_bytes w64 (eight_bytes bytes.now) }
{
    let length = bytes.len().min(WIDTH);
    let mut first = [0; WIDTH];
    first[..length].copy_from_slice(&bytes[..length]);
    u64::from_be_bytes(first)
}

/// The bytes of a text, and none of another key.
pub(crate) fn bytes_of(key: Option<&Atom>) -> &[u8]
    ensures { result.now ≡ bytes_of (option_copied key.entry) }
{
    match key {
        Some(Atom::String(text)) | Some(Atom::Untyped(text)) => text.as_str().as_bytes(),
        _ => &[],
    }
}

/// With how many same bytes two texts begin.
pub(crate) fn same_bytes(left: &[u8], right: &[u8]) -> usize
    ensures { result ≡ shared left.now right.now }
{
    let both = left.len().min(right.len());
    for at in 0..both {
        if left[at] != right[at] {
            return at;
        }
    }
    both
}
