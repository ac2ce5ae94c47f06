//! Primary expressions (XQuery 1.0, section 3.1).

ghost use Rattle.std.specs.Prelude.{◌≡◌};
ghost use Rattle.query_parts.specs.Gives.{Gives};
ghost use Rattle.query_rules.specs.Reads.{HasReader};
ghost use Rattle.query_grammar.specs.Reader as read;
ghost use Rattle.query_grammar.specs.Reading as reading;
ghost use Rattle.query_tokens.specs.declared.kind.Kind.TheVariants as k;

use crate::rules::Rules;
use query_grammar::{Expr, Function};
use query_parts::cursor::{eat, function_name, sees, variable};
use query_parts::held::followed;
use query_parts::words::is_function;
use query_tokens::{Kind, ParseFault, Tokens};
use sqlite_items::Items;
use std::alloc::Global;

fn marks_primary(kind: Kind) -> bool
    ensures { result ≡ read.marks_primary kind }
{
    match kind {
        Kind::Number | Kind::String | Kind::Dollar | Kind::OpenParen | Kind::Dot => true,
        _ => false,
    }
}

fn is_constructor(kind: Kind) -> bool
    ensures { result ≡ read.is_constructor kind }
{
    match kind {
        Kind::Document
        | Kind::Text
        | Kind::Comment
        | Kind::Element
        | Kind::Attribute
        | Kind::ProcessingInstruction => true,
        _ => false,
    }
}

fn is_named_constructor(kind: Kind) -> bool
    ensures { result ≡ read.is_named_constructor kind }
{
    match kind {
        Kind::Element | Kind::Attribute | Kind::ProcessingInstruction => true,
        _ => false,
    }
}

fn is_brace(kind: Kind) -> bool
    ensures { result ≡ reading.same_kind kind k.OpenBrace }
{
    kind == Kind::OpenBrace
}

// Whether names before tokens of these kinds begin a primary expression.
fn names_primary(first: Kind, second: Kind, third: Kind) -> bool
    ensures { result ≡ read.names_primary first second third }
{
    match second {
        Kind::OpenParen => is_function(first),
        Kind::OpenBrace => is_constructor(first),
        _ => is_named_constructor(first) && second.is_name() && is_brace(third),
    }
}

/// Whether the next three tokens begin a primary expression.
#[tactic(auto, unfolding(query_grammar::specs::Reader::sees_primary))]
pub(crate) fn sees_primary(tokens: &Tokens) -> bool
    ensures { result ≡ read.sees_primary tokens.now }
{
    let first = tokens.peek_at(0);
    marks_primary(first) || names_primary(first, tokens.peek_at(1), tokens.peek_at(2))
}

impl<F: Fn(Global, u8, &mut Tokens, usize) -> Result<Expr, ParseFault>> Rules<F> {
    /// Takes an expression, or nothing before the closing token. Codes: `Static(XPST0003)` where neither an expression nor that token comes
    /// next; `Memory` where memory is refused.
    #[tactic(auto, unfolding(query_grammar::specs::Reader::content))]
    pub(crate) fn content(&self, tokens: &mut Tokens, closing: Kind) -> Result<Expr, ParseFault>
        requires { HasReader F.pre F.post self.now }
        ensures { Gives (read.content (read.single self.now.level self.now.depth) closing tokens.old) result tokens.new }
    {
        if sees(tokens, 0, closing) {
            Ok(Expr::Sequence(Items::new(self.alloc)))
        } else {
            self.exprs(tokens)
        }
    }

    #[tactic(auto, unfolding(query_grammar::specs::Reader::parens))]
    fn parens(&self, tokens: &mut Tokens) -> Result<Expr, ParseFault>
        requires { HasReader F.pre F.post self.now }
        ensures { Gives (read.parens (read.single self.now.level self.now.depth) tokens.old) result tokens.new }
    {
        eat(tokens, Kind::OpenParen)?;
        let x = self.content(tokens, Kind::CloseParen)?;
        followed(x, tokens, Kind::CloseParen)
    }

    #[tactic(auto, unfolding(query_grammar::specs::Reader::arguments))]
    fn arguments(&self, tokens: &mut Tokens) -> Result<Items<Expr>, ParseFault>
        requires { HasReader F.pre F.post self.now }
        ensures { Gives (read.arguments (read.single self.now.level self.now.depth) tokens.old) result tokens.new }
    {
        if sees(tokens, 0, Kind::CloseParen) {
            Ok(Items::new(self.alloc))
        } else {
            self.singles(tokens)
        }
    }

    #[tactic(auto, unfolding(query_grammar::specs::Reader::call))]
    fn call(&self, tokens: &mut Tokens) -> Result<Expr, ParseFault>
        requires { HasReader F.pre F.post self.now }
        ensures { Gives (read.call (read.single self.now.level self.now.depth) tokens.old) result tokens.new }
    {
        let name = function_name(tokens)?;
        eat(tokens, Kind::OpenParen)?;
        let arguments = self.arguments(tokens)?;
        eat(tokens, Kind::CloseParen)?;
        let function = Function::called(name.text.as_str(), arguments.len());
        Ok(Expr::Call(function, arguments))
    }

    fn call_or_constructor(&self, tokens: &mut Tokens) -> Result<Expr, ParseFault>
        requires { HasReader F.pre F.post self.now }
        ensures { Gives (reading.choose (reading.sees 1 k.OpenParen) (read.call (read.single self.now.level self.now.depth)) (read.make (read.single self.now.level self.now.depth)) tokens.old) result tokens.new }
    {
        if sees(tokens, 1, Kind::OpenParen) {
            self.call(tokens)
        } else {
            self.constructor(tokens)
        }
    }

    /// Takes a primary expression. Codes: `Static(XPST0003)` where none comes next; `Memory` where memory is refused.
    #[tactic(auto, unfolding(query_grammar::specs::Reader::primary))]
    pub(crate) fn primary(&self, tokens: &mut Tokens) -> Result<Expr, ParseFault>
        requires { HasReader F.pre F.post self.now }
        ensures { Gives (read.primary (read.single self.now.level self.now.depth) tokens.old) result tokens.new }
    {
        match tokens.peek_at(0) {
            Kind::Number => Ok(Expr::Integer(eat(tokens, Kind::Number)?.number)),
            Kind::String => Ok(Expr::String(eat(tokens, Kind::String)?.text)),
            Kind::Dollar => Ok(Expr::Variable(variable(tokens)?)),
            Kind::OpenParen => self.parens(tokens),
            Kind::Dot => {
                eat(tokens, Kind::Dot)?;
                Ok(Expr::Context)
            }
            _ => self.call_or_constructor(tokens),
        }
    }
}
