//! What a part of a line says.

ghost use Rattle.std.specs.Prelude.{◌≡◌, ◌==◌, ◌≤◌, ◌<◌, ◌^◌, suc, false, true, length, map, string_bytes, IfOk, IsErrOf, OnOk};
ghost use Rattle.std.specs.List.{after_first, before_first, list_all, slice_split};
ghost use Rattle.std.specs.Option.{option_copied};
ghost use Rattle.document_names.specs.Characters.{is_digit};
ghost use Rattle.document_names.specs.Names.{are_document_names};
ghost use Rattle.ballots.specs.Terms.{is_level};
ghost use Rattle.ballots.specs.Values.{positions};
ghost use Rattle.line_parts.specs.Parts.{has_text_length, is_space, number_below, request_of, request_with, text_after};

use ballots::limits::{MOST_BYTES, POSITIONS};
use ballots::{Request, RequestFault};
use document_names::{Names, NamesFault};
use std::alloc::{AllocError, Global};

/// What stands before the first `mark`, an ASCII character, and what stands after it: the whole
/// text and nothing where there is none.
pub fn cut_at(mark: char, text: &str) -> (&str, &str)
    requires { mark < 128 }
    ensures before { result.0.now ≡ before_first (λ b. b == mark) text.now }
    ensures after { result.1.now ≡ after_first (λ b. b == mark) text.now }
{
    match text.split_once(mark) {
        Some(parts) => parts,
        None => (text, ""),
    }
}

/// What follows `beginning`, of a text that begins so.
pub fn text_after<'a>(beginning: &str, text: &'a str) -> Option<&'a str>
    ensures { option_copied result ≡ text_after beginning.now text.now }
{
    text.strip_prefix(beginning)
}

/// Reads `CLIENT NUMBER TEXT`, a request at a language level that there is: CLIENT is up to 2^32 - 1 and NUMBER up to 2^64 - 1, in decimal and
/// without a sign, single spaces stand between the parts, and TEXT, the rest of the line, has 1 to 4,096 bytes. Any other line gives `None`.
/// It fails where memory is refused.
#[tactic(auto, unfolding(crate::specs::Parts::request_of))]
pub fn read_request(alloc: Global, level: u8, parts: &str) -> Result<Option<Request>, AllocError>
    requires { is_level level ≡ true }
    ensures { IfOk result (λ request. request ≡ request_of level parts.now) }
{
    let (client, rest) = cut_at(' ', parts);
    let (number, text) = cut_at(' ', rest);
    let Some(client) = read_client(client) else {
        return Ok(None);
    };
    let Some(number) = read_number(number) else {
        return Ok(None);
    };
    request_with(alloc, level, client, number, text)
}

// A request of that level, client and number, if its text has a right length.
fn request_with(
    alloc: Global,
    level: u8,
    client: u32,
    number: u64,
    text: &str,
) -> Result<Option<Request>, AllocError>
    requires { is_level level ≡ true }
    ensures { IfOk result (λ request. request ≡ request_with level client number text.now) }
{
    if !has_text_length(text) {
        return Ok(None);
    }
    match Request::new(alloc, client, number, level, text) {
        Ok(request) => Ok(Some(request)),
        Err(RequestFault::Memory) => Err(AllocError),
        Err(RequestFault::Level | RequestFault::TextTooLong) => unreachable!(),
    }
}

/// Whether a text has 1 to 4,096 bytes.
pub fn has_text_length(text: &str) -> bool
    ensures { result ≡ has_text_length text.now }
{
    !text.is_empty() && text.len() <= MOST_BYTES
}

/// A client's number, up to 2^32 - 1, in decimal and without a sign; leading zeros are taken.
pub fn read_client(digits: &str) -> Option<u32>
    ensures { result ≡ number_below (2 ^ 32) digits.now }
{
    if are_digits(digits.as_bytes()) {
        digits.parse::<u32>().ok()
    } else {
        None
    }
}

/// A number of positions, up to 1,000,000, in decimal and without a sign; leading zeros are taken.
#[tactic(auto, unfolding(ballots::specs::Values::positions))]
pub fn read_floor(digits: &str) -> Option<u32>
    ensures { result ≡ number_below (suc positions) digits.now }
{
    match read_client(digits) {
        Some(floor) if floor <= POSITIONS => Some(floor),
        _ => None,
    }
}

/// A request's number, up to 2^64 - 1, in decimal and without a sign; leading zeros are taken.
pub fn read_number(digits: &str) -> Option<u64>
    ensures { result ≡ number_below (2 ^ 64) digits.now }
{
    if are_digits(digits.as_bytes()) {
        digits.parse::<u64>().ok()
    } else {
        None
    }
}

// Whether each byte is a digit: `parse` would also take a sign.
fn are_digits(bytes: &[u8]) -> bool
    ensures { result ≡ list_all is_digit bytes.now }
{
    bytes.iter().all(|byte| byte.is_ascii_digit())
}

/// The names of a list with single spaces between them, unless they are wrong (`Wrong`) or memory is refused (`Memory`).
pub fn read_names(alloc: Global, list: &str) -> Result<Names, NamesFault>
    ensures read { IfOk result (λ names. names ≡ slice_split is_space list.now) }
    ensures good { OnOk result (are_document_names (slice_split is_space list.now) ≡ true) }
    ensures wrong { IsErrOf result NamesFault.Wrong → are_document_names (slice_split is_space list.now) ≡ false }
{
    match words_of(alloc, list) {
        Ok(words) => Names::new(alloc, &words),
        Err(_) => Err(NamesFault::Memory),
    }
}

// The words of a list with single spaces between them.
fn words_of(alloc: Global, list: &str) -> Result<Vec<String>, AllocError>
    ensures { IfOk result (λ words. map string_bytes words.items ≡ slice_split is_space list.now) }
{
    let mut words = Vec::new(alloc);
    for word in list.split(' ') {
        words.push(String::from_str(alloc, word)?)?;
    }
    Ok(words)
}
