//! What the rules ask of the tokens that are left, and take off them.
//!
//! What takes tokens fails with the code `Static(XPST0003)` where the next tokens are others, or none is left (XQuery 1.0, section
//! 2.1). How many tokens are left after a failure isn't said. Nothing here asks for memory.

ghost use Rattle.std.specs.Prelude.{◌≡◌};
ghost use Rattle.query_parts.specs.Gives.{Gives};
ghost use Rattle.query_parts.specs.Operators as part;
ghost use Rattle.query_grammar.specs.Reader as read;
ghost use Rattle.query_grammar.specs.Reading as reading;
ghost use Rattle.query_grammar.specs.Words as table;

use crate::looseness::Looseness;
use crate::precedence::Precedence;
use crate::words::{axis_of, is_function, kind_test_of, looseness, sign_of};
use fault_codes::Code;
use query_grammar::{KindTest, Sign};
use query_tokens::{Kind, ParseFault, Token, Tokens};
use trees::Axis;
use values::Text;

/// The fault of tokens that the grammar hasn't.
pub const REFUSED: ParseFault = ParseFault::Static(Code::XPST0003);

fn same_kind(found: Kind, kind: Kind) -> bool
    ensures { result ≡ reading.same_kind found kind }
{
    found == kind
}

/// Whether the token after the next `n` is of this kind. Past the last token all are of kind `End`.
#[tactic(auto, unfolding(query_grammar::specs::Reading::sees))]
pub fn sees(tokens: &Tokens, n: usize, kind: Kind) -> bool
    ensures { result ≡ reading.sees n kind tokens.now }
{
    same_kind(tokens.peek_at(n), kind)
}

/// Whether the next token stands so loosely after an operand.
#[tactic(auto, unfolding(query_grammar::specs::Reading::at_level))]
pub fn at_level(tokens: &Tokens, level: Looseness) -> bool
    ensures { result ≡ reading.at_level (part.level_of level) tokens.now }
{
    looseness(tokens.peek_at(0)).level() == level.level()
}

/// Whether the next token is an operator that binds as tightly as those of this precedence, or more tightly.
pub fn goes_on(tokens: &Tokens, precedence: Precedence) -> bool
    ensures { result ≡ part.goes_on precedence tokens.now }
{
    let level = looseness(tokens.peek_at(0)).level();
    3 <= level && level <= precedence.looseness()
}

/// Takes the next token, which must be of this kind.
///
/// Codes: `Static(XPST0003)` where it is of another, or there is none. So it doesn't fail where `sees(tokens, 0, kind)` has just held.
#[tactic(auto, unfolding(query_grammar::specs::Reading::take_if))]
pub fn eat(tokens: &mut Tokens, kind: Kind) -> Result<Token, ParseFault>
    ensures { Gives (reading.eat kind tokens.old) result tokens.new }
{
    match tokens.take() {
        None => Err(REFUSED),
        Some(token) => {
            if same_kind(token.kind, kind) {
                Ok(token)
            } else {
                Err(REFUSED)
            }
        }
    }
}

/// Takes a name, which may be a word of the grammar too (XQuery 1.0, appendix A.3).
///
/// Codes: `Static(XPST0003)` where the next token is none.
#[tactic(auto, unfolding(query_grammar::specs::Reading::take_if, query_grammar::specs::Reader::name))]
pub fn name(tokens: &mut Tokens) -> Result<Text, ParseFault>
    ensures { Gives (read.name tokens.old) result tokens.new }
{
    match tokens.take() {
        None => Err(REFUSED),
        Some(token) => {
            if token.kind.is_name() {
                Ok(token.text)
            } else {
                Err(REFUSED)
            }
        }
    }
}

/// Takes a variable's name with its mark: `$name`.
///
/// Codes: `Static(XPST0003)` where the next two tokens are others.
#[tactic(auto, unfolding(query_grammar::specs::Reader::variable))]
pub fn variable(tokens: &mut Tokens) -> Result<Text, ParseFault>
    ensures { Gives (read.variable tokens.old) result tokens.new }
{
    eat(tokens, Kind::Dollar)?;
    name(tokens)
}

/// Takes a name that a function may have (`words::is_function`).
///
/// Codes: `Static(XPST0003)` where the next token is none.
#[tactic(auto, unfolding(query_grammar::specs::Reading::take_if))]
pub fn function_name(tokens: &mut Tokens) -> Result<Token, ParseFault>
    ensures { Gives (reading.take_if table.is_function tokens.old) result tokens.new }
{
    match tokens.take() {
        None => Err(REFUSED),
        Some(token) => {
            if is_function(token.kind) {
                Ok(token)
            } else {
                Err(REFUSED)
            }
        }
    }
}

/// Takes the word of an axis.
///
/// Codes: `Static(XPST0003)` where the next token is none.
#[tactic(auto, unfolding(query_grammar::specs::Reading::take_as))]
pub(crate) fn axis(tokens: &mut Tokens) -> Result<Axis, ParseFault>
    ensures { Gives (reading.take_as table.axis_of tokens.old) result tokens.new }
{
    match tokens.take() {
        None => Err(REFUSED),
        Some(token) => axis_of(token.kind).ok_or(REFUSED),
    }
}

/// Takes the word of a kind test.
///
/// Codes: `Static(XPST0003)` where the next token is none.
#[tactic(auto, unfolding(query_grammar::specs::Reading::take_as))]
pub(crate) fn kind_test_word(tokens: &mut Tokens) -> Result<KindTest, ParseFault>
    ensures { Gives (reading.take_as table.kind_test_of tokens.old) result tokens.new }
{
    match tokens.take() {
        None => Err(REFUSED),
        Some(token) => kind_test_of(token.kind).ok_or(REFUSED),
    }
}

/// Takes a sign.
///
/// Codes: `Static(XPST0003)` where the next token is none.
#[tactic(auto, unfolding(query_grammar::specs::Reading::take_as))]
pub fn sign(tokens: &mut Tokens) -> Result<Sign, ParseFault>
    ensures { Gives (reading.take_as table.sign_of tokens.old) result tokens.new }
{
    match tokens.take() {
        None => Err(REFUSED),
        Some(token) => sign_of(token.kind).ok_or(REFUSED),
    }
}
