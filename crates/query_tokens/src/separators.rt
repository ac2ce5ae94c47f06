//! What separates tokens: whitespace and comments.

ghost use Rattle.std.specs.Prelude.{◌≡◌, ◌<◌, ◌≤◌, ◌+◌, ◌^◌, IfOk};
ghost use Rattle.query_tokens.specs.Reading.{repeat};
ghost use Rattle.query_tokens.specs.Lexing as lexing;
ghost use Rattle.query_tokens.specs.Outcome.{IsNext};

use crate::characters::{is_space, is_xml_character, past_one};
use crate::fault::ParseFault;
use fault_codes::Code;

// The next part of a comment: a deeper one begins, one ends, or a character. One that isn't a character of XML 1.0 is XPST0003.
fn comment_part(depth: usize, text: &[char]) -> Result<(usize, &[char]), ParseFault>
    requires { depth < 2 ^ 63 }
    ensures read { IsNext (lexing.comment_part depth text.now) (λ p. p.0) (λ p. p.1.now) result }
    ensures deeper { IfOk result (λ p. p.0 ≤ depth + 1) }
{
    match text {
        ['(', ':', rest @ ..] => Ok((depth + 1, rest)),
        [':', ')', rest @ ..] => Ok((depth.saturating_sub(1), rest)),
        [character, rest @ ..] if is_xml_character(*character) => Ok((depth, rest)),
        _ => Err(ParseFault::Static(Code::XPST0003)),
    }
}

fn is_inside(depth: usize, text: &[char]) -> bool
    ensures { result ≡ lexing.is_inside depth text.now }
{
    match text {
        [] => false,
        _ => depth > 0,
    }
}

// The inside of a comment, after its first `(:`: how many comments are still open at the end of it, and the rest. It fails as
// `comment_part` does.
fn comment_parts(text: &[char]) -> Result<(usize, &[char]), ParseFault>
    ensures { IsNext (repeat lexing.is_inside lexing.comment_part 1 text.now) (λ p. p.0) (λ p. p.1.now) result }
{
    let mut depth = 1;
    let mut rest = text;
    for _turn in 0..text.len() {
        if !is_inside(depth, rest) {
            return Ok((depth, rest));
        }
        let (deep, after) = comment_part(depth, rest)?;
        depth = deep;
        rest = after;
    }
    Ok((depth, rest))
}

// What follows the comment at the start of a text. One that isn't closed is XPST0003; it fails as `comment_parts` does, too.
fn comment(text: &[char]) -> Result<&[char], ParseFault>
    ensures { IsNext (lexing.comment text.now) (λ _. tt) (λ rest. rest.now) result }
{
    match text {
        ['(', ':', rest @ ..] => {
            let (depth, after) = comment_parts(rest)?;
            if depth == 0 {
                Ok(after)
            } else {
                Err(ParseFault::Static(Code::XPST0003))
            }
        }
        // That can't come: it is asked for where a comment begins.
        _ => Err(ParseFault::Static(Code::XPST0003)),
    }
}

fn separator(text: &[char]) -> Result<&[char], ParseFault>
    ensures { IsNext (lexing.separator text.now) (λ _. tt) (λ rest. rest.now) result }
{
    match text {
        ['(', ':', ..] => comment(text),
        _ => Ok(past_one(text)),
    }
}

fn is_separated(text: &[char]) -> bool
    ensures { result ≡ lexing.is_separated text.now }
{
    match text {
        ['(', ':', ..] => true,
        [first, ..] => is_space(*first),
        [] => false,
    }
}

/// What follows the whitespace and the comments at the start of a text. Code: XPST0003 where a comment isn't closed or has a character
/// which isn't one of XML 1.0.
pub(crate) fn separators(text: &[char]) -> Result<&[char], ParseFault>
    ensures { IsNext (lexing.separators text.now) (λ _. tt) (λ rest. rest.now) result }
{
    let mut rest = text;
    for _turn in 0..text.len() {
        if !is_separated(rest) {
            return Ok(rest);
        }
        rest = separator(rest)?;
    }
    Ok(rest)
}
