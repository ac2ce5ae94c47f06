//! Marks.

ghost use Rattle.std.specs.Prelude.{◌≡◌, ◌∷◌, []};
ghost use Rattle.query_tokens.specs.Reading.{first_of};
ghost use Rattle.query_tokens.specs.Words.{marks, pairs, singles, first_kind};
ghost use Rattle.query_tokens.specs.Lexing as lexing;
ghost use Rattle.query_tokens.specs.Outcome.{IsNext};

use crate::characters::{past_one, past_two};
use crate::fault::ParseFault;
use crate::kind::Kind;
use crate::literal::IntegerLiteral;
use crate::token::Token;
use fault_codes::Code;
use std::alloc::Global;
use values::Text;

#[tactic(auto, unfolding(crate::specs::Words::pairs))]
fn pair_kind(first: char, second: char) -> Option<Kind>
    ensures { result ≡ first_kind pairs (first ∷ second ∷ []) }
{
    match (first, second) {
        (':', '=') => Some(Kind::Assign),
        (':', ':') => Some(Kind::ColonColon),
        ('.', '.') => Some(Kind::DotDot),
        ('/', '/') => Some(Kind::SlashSlash),
        ('!', '=') => Some(Kind::NotEqual),
        ('<', '=') => Some(Kind::LessOrEqual),
        ('>', '=') => Some(Kind::GreaterOrEqual),
        ('<', '<') => Some(Kind::Precedes),
        ('>', '>') => Some(Kind::Follows),
        _ => None,
    }
}

#[tactic(auto, unfolding(crate::specs::Words::singles))]
fn single_kind(character: char) -> Option<Kind>
    ensures { result ≡ first_kind singles (character ∷ []) }
{
    match character {
        '(' => Some(Kind::OpenParen),
        ')' => Some(Kind::CloseParen),
        '[' => Some(Kind::OpenBracket),
        ']' => Some(Kind::CloseBracket),
        '{' => Some(Kind::OpenBrace),
        '}' => Some(Kind::CloseBrace),
        ',' => Some(Kind::Comma),
        '$' => Some(Kind::Dollar),
        '@' => Some(Kind::AtSign),
        '.' => Some(Kind::Dot),
        '/' => Some(Kind::Slash),
        '*' => Some(Kind::Star),
        '+' => Some(Kind::Plus),
        '-' => Some(Kind::Minus),
        '|' => Some(Kind::Bar),
        '=' => Some(Kind::Equal),
        '<' => Some(Kind::Less),
        '>' => Some(Kind::Greater),
        _ => None,
    }
}

#[tactic(auto, using(crate::proofs::Tables::too_short), unfolding(crate::specs::Words::pairs))]
fn pair_at(text: &[char]) -> Option<Kind>
    ensures { result ≡ first_kind pairs text.now }
{
    match text {
        [first, second, ..] => pair_kind(*first, *second),
        _ => None,
    }
}

#[tactic(auto, unfolding(crate::specs::Words::singles))]
fn single_at(text: &[char]) -> Option<Kind>
    ensures { result ≡ first_kind singles text.now }
{
    match text {
        [first, ..] => single_kind(*first),
        [] => None,
    }
}

fn mark_token(alloc: Global, kind: Kind) -> Token
    ensures { result ≡ lexing.mark_token kind }
{
    Token {
        kind,
        text: Text::new(String::new(alloc)),
        number: IntegerLiteral::zero(),
    }
}

/// The longest mark at the start of a text. Code: XPST0003 where there is none.
pub(crate) fn mark(alloc: Global, text: &[char]) -> Result<(Token, &[char]), ParseFault>
    ensures { IsNext (lexing.marked (first_of marks text.now) text.now) (λ p. p.0) (λ p. p.1.now) result }
{
    if let Some(kind) = pair_at(text) {
        Ok((mark_token(alloc, kind), past_two(text)))
    } else if let Some(kind) = single_at(text) {
        Ok((mark_token(alloc, kind), past_one(text)))
    } else {
        Err(ParseFault::Static(Code::XPST0003))
    }
}
