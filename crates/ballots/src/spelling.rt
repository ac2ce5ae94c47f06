//! Values as bytes.

ghost use Rattle.std.specs.Prelude.{◌≡◌, ◌≤◌, ◌++◌, [], ◌∷◌, drop, length, ◌<◌, ◌^◌, ◌≢◌, OnOk, OnErr, IfOk, IfErr};
ghost use Rattle.byteorder.specs.Endian.{big_bytes};
ghost use Rattle.ballots.specs.Terms.{most_text};
ghost use Rattle.ballots.specs.Spelling.{Gives, Fails, IsAfter, IsRequest, IsValue, bytes_read, number_read, text_read, request_read, request_spelling, value_read, value_spelling};

use super::limits::{MOST_BYTES, is_level};
use super::request::{Request, RequestFault, RequestId};
use super::value::Value;
use byteorder::{BigEndian, ByteOrder};
use std::alloc::{AllocError, Global};

/// Why bytes spell no value.
#[derive(Clone, Copy, PartialEq, Eq, Debug)]
pub enum SpellingFault {
    /// The bytes end inside a field (1).
    Short,
    /// A number is out of range (4).
    Number,
    /// A text is not UTF-8 (5).
    NotUtf8,
    /// Memory was refused (7).
    Memory,
}

/// The bytes of a request but its text, with the byte before them that says that it is one.
const HEAD: usize = 16;

/// Appends the spelling of a value. Where memory is refused nothing is appended.
pub fn put_value(value: &Value, out: &mut Vec<u8>) -> Result<(), AllocError>
    ensures put { OnOk result (out.new.items ≡ out.old.items ++ value_spelling value.now) }
    ensures spelt { IsValue value.now }
    ensures refused { OnErr result (out.new.items ≡ out.old.items) }
{
    match value {
        Value::NoOp => out.extend_from_slice(&[0]),
        Value::Request(request) => put_request(request, out),
    }
}

/// Appends the spelling of a value that is a request.
fn put_request(request: &Request, out: &mut Vec<u8>) -> Result<(), AllocError>
    ensures put { OnOk result (out.new.items ≡ out.old.items ++ 1 ∷ request_spelling request.now) }
    ensures spelt { IsRequest request.now }
    ensures refused { OnErr result (out.new.items ≡ out.old.items) }
{
    bounds(request);
    // With room for both, the second can't be refused after the first.
    out.reserve(HEAD + request.text().len())?;
    out.extend_from_slice(&head(request))?;
    out.extend_from_slice(request.text().as_bytes())
}

/// What the types of a request's fields say of it.
fn bounds(request: &Request)
    ensures { IsRequest request.now }
{
    let RequestId { client, number } = request.id();
    fits(client, number);
    let _level = request.level();
    let _text = request.text();
}

/// What the types of two numbers say of them.
fn fits(client: u32, number: u64)
    ensures client { client < 2 ^ 32 }
    ensures number { number < 2 ^ 64 }
{
    let _both = (client, number);
}

/// The bytes before a request's text.
fn head(request: &Request) -> [u8; HEAD]
    ensures { result
        ≡ 1 ∷ big_bytes 4 request.now.client ++ big_bytes 8 request.now.number ++ request.now.level ∷ big_bytes 2 (length request.now.text) }
{
    let mut head = [1; HEAD];
    BigEndian::write_u32(&mut head[1..], request.id().client);
    BigEndian::write_u64(&mut head[5..], request.id().number);
    head[13] = request.level();
    BigEndian::write_u16(&mut head[14..], request.text().len() as u16);
    head
}

/// Reads the value at the front of the bytes, and says how many of them are its spelling.
///
/// The fault is the first from the left; want of memory may come in its place.
pub fn take_value(alloc: Global, bytes: &[u8]) -> Result<(Value, usize), SpellingFault>
    ensures within { IfOk result (λ p. p.1 ≤ length bytes.now) }
    ensures value { IfOk result (λ p. value_read bytes.now ≡ Gives p.0 (drop p.1 bytes.now)) }
    ensures fault { IfErr result (λ f. f ≢ SpellingFault.Memory → value_read bytes.now ≡ Fails f) }
{
    let (value, rest) = split_value(alloc, bytes)?;
    Ok((value, bytes.len() - rest.len()))
}

/// The value at the front of the bytes, and the bytes after it.
fn split_value(alloc: Global, bytes: &[u8]) -> Result<(Value, &[u8]), SpellingFault>
    ensures value { IfOk result (λ p. value_read bytes.now ≡ Gives p.0 p.1.now) }
    ensures fault { IfErr result (λ f. f ≢ SpellingFault.Memory → value_read bytes.now ≡ Fails f) }
    ensures suffix { IfOk result (λ p. IsAfter bytes.now p.1.now) }
{
    let (tag, rest) = split_u8(bytes)?;
    match tag {
        0 => Ok((Value::NoOp, rest)),
        1 => {
            let (request, rest) = split_request(alloc, rest)?;
            Ok((Value::Request(request), rest))
        }
        _ => Err(SpellingFault::Number),
    }
}

/// The request at the front of the bytes, and the bytes after it.
fn split_request(alloc: Global, bytes: &[u8]) -> Result<(Request, &[u8]), SpellingFault>
    ensures value { IfOk result (λ p. request_read bytes.now ≡ Gives p.0 p.1.now) }
    ensures fault { IfErr result (λ f. f ≢ SpellingFault.Memory → request_read bytes.now ≡ Fails f) }
    ensures suffix { IfOk result (λ p. IsAfter bytes.now p.1.now) }
{
    let (client, rest) = split_u32(bytes)?;
    let (number, rest) = split_u64(rest)?;
    let (level, rest) = split_u8(rest)?;
    if !is_level(level) {
        return Err(SpellingFault::Number);
    }
    let (text, rest) = split_text(rest)?;
    match Request::new(alloc, client, number, level, text) {
        Ok(request) => Ok((request, rest)),
        Err(RequestFault::Memory) => Err(SpellingFault::Memory),
        Err(RequestFault::Level | RequestFault::TextTooLong) => Err(SpellingFault::Number),
    }
}

/// The text at the front of the bytes, after its length, and the bytes after it.
fn split_text(bytes: &[u8]) -> Result<(&str, &[u8]), SpellingFault>
    ensures value { IfOk result (λ p. text_read bytes.now ≡ Gives p.0.now p.1.now) }
    ensures most { IfOk result (λ p. length p.0.now ≤ most_text) }
    ensures fault { IfErr result (λ f. text_read bytes.now ≡ Fails f) }
    ensures suffix { IfOk result (λ p. IsAfter bytes.now p.1.now) }
{
    let (length, rest) = split_u16(bytes)?;
    let length = usize::from(length);
    if length > MOST_BYTES {
        return Err(SpellingFault::Number);
    }
    let (text, rest) = split(rest, length)?;
    match str::from_utf8(text) {
        Ok(text) => Ok((text, rest)),
        Err(_) => Err(SpellingFault::NotUtf8),
    }
}

/// The first byte, and the bytes after it.
fn split_u8(bytes: &[u8]) -> Result<(u8, &[u8]), SpellingFault>
    ensures value { IfOk result (λ p. number_read 1 bytes.now ≡ Gives p.0 p.1.now) }
    ensures fault { IfErr result (λ f. number_read 1 bytes.now ≡ Fails f) }
    ensures suffix { IfOk result (λ p. IsAfter bytes.now p.1.now) }
{
    let (field, rest) = split(bytes, 1)?;
    Ok((field[0], rest))
}

/// The number in the first two bytes, and the bytes after them.
fn split_u16(bytes: &[u8]) -> Result<(u16, &[u8]), SpellingFault>
    ensures value { IfOk result (λ p. number_read 2 bytes.now ≡ Gives p.0 p.1.now) }
    ensures fault { IfErr result (λ f. number_read 2 bytes.now ≡ Fails f) }
    ensures suffix { IfOk result (λ p. IsAfter bytes.now p.1.now) }
{
    let (_, rest) = split(bytes, 2)?;
    Ok((BigEndian::read_u16(bytes), rest))
}

/// The number in the first four bytes, and the bytes after them.
fn split_u32(bytes: &[u8]) -> Result<(u32, &[u8]), SpellingFault>
    ensures value { IfOk result (λ p. number_read 4 bytes.now ≡ Gives p.0 p.1.now) }
    ensures fault { IfErr result (λ f. number_read 4 bytes.now ≡ Fails f) }
    ensures suffix { IfOk result (λ p. IsAfter bytes.now p.1.now) }
{
    let (_, rest) = split(bytes, 4)?;
    Ok((BigEndian::read_u32(bytes), rest))
}

/// The number in the first eight bytes, and the bytes after them.
fn split_u64(bytes: &[u8]) -> Result<(u64, &[u8]), SpellingFault>
    ensures value { IfOk result (λ p. number_read 8 bytes.now ≡ Gives p.0 p.1.now) }
    ensures fault { IfErr result (λ f. number_read 8 bytes.now ≡ Fails f) }
    ensures suffix { IfOk result (λ p. IsAfter bytes.now p.1.now) }
{
    let (_, rest) = split(bytes, 8)?;
    Ok((BigEndian::read_u64(bytes), rest))
}

/// So many bytes, and the bytes after them.
fn split(bytes: &[u8], count: usize) -> Result<(&[u8], &[u8]), SpellingFault>
    ensures value { IfOk result (λ p. bytes_read count bytes.now ≡ Gives p.0.now p.1.now) }
    ensures within { IfOk result (λ p. count ≤ length bytes.now) }
    ensures fault { IfErr result (λ f. f ≡ SpellingFault.Short) }
    ensures short { IfErr result (λ f. length bytes.now < count) }
    ensures suffix { IfOk result (λ p. p.1.now ≡ drop count bytes.now) }
{
    match bytes.split_at_checked(count) {
        Some(parts) => Ok(parts),
        None => Err(SpellingFault::Short),
    }
}
