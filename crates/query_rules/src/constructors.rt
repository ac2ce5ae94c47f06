//! Computed constructors (XQuery 1.0, section 3.7.3).

ghost use Rattle.query_parts.specs.Gives.{Gives};
ghost use Rattle.query_rules.specs.Reads.{HasReader};
ghost use Rattle.query_rules.specs.Parts as part;
ghost use Rattle.query_grammar.specs.Reader as read;
ghost use Rattle.query_grammar.specs.declared.ast.Expr.TheVariants as e;
ghost use Rattle.query_tokens.specs.declared.kind.Kind.TheVariants as k;

use crate::rules::Rules;
use held_values::beside;
use query_grammar::{Expr, Name};
use query_parts::cursor::{REFUSED, eat, name, sees};
use query_parts::held::followed;
use query_tokens::{Kind, ParseFault, Tokens};
use sqlite_items::Boxed;
use std::alloc::Global;

impl<F: Fn(Global, u8, &mut Tokens, usize) -> Result<Expr, ParseFault>> Rules<F> {
    #[tactic(auto, unfolding(query_grammar::specs::Reader::braces))]
    fn braces(&self, tokens: &mut Tokens) -> Result<Boxed<Expr>, ParseFault>
        requires { HasReader F.pre F.post self.now }
        ensures { Gives (read.braces (read.single self.now.level self.now.depth) tokens.old) result tokens.new }
    {
        eat(tokens, Kind::OpenBrace)?;
        let x = Boxed::new(self.alloc, self.exprs(tokens)?)?;
        followed(x, tokens, Kind::CloseBrace)
    }

    #[tactic(auto, unfolding(query_grammar::specs::Reader::body))]
    fn body(&self, tokens: &mut Tokens) -> Result<Boxed<Expr>, ParseFault>
        requires { HasReader F.pre F.post self.now }
        ensures { Gives (read.body (read.single self.now.level self.now.depth) tokens.old) result tokens.new }
    {
        eat(tokens, Kind::OpenBrace)?;
        let x = Boxed::new(self.alloc, self.content(tokens, Kind::CloseBrace)?)?;
        followed(x, tokens, Kind::CloseBrace)
    }

    #[tactic(auto, unfolding(query_grammar::specs::Reader::name_or_braces))]
    fn name_or_braces(&self, tokens: &mut Tokens) -> Result<Name<Boxed<Expr>>, ParseFault>
        requires { HasReader F.pre F.post self.now }
        ensures { Gives (read.name_or_braces (read.single self.now.level self.now.depth) tokens.old) result tokens.new }
    {
        if sees(tokens, 0, Kind::OpenBrace) {
            Ok(Name::Computed(self.braces(tokens)?))
        } else {
            Ok(Name::Written(name(tokens)?))
        }
    }

    #[tactic(auto, unfolding(query_grammar::specs::Reader::named))]
    fn element(&self, tokens: &mut Tokens) -> Result<Expr, ParseFault>
        requires { HasReader F.pre F.post self.now }
        ensures { Gives (read.named (read.single self.now.level self.now.depth) k.Element e.Element tokens.old) result tokens.new }
    {
        eat(tokens, Kind::Element)?;
        let name = self.name_or_braces(tokens)?;
        let (name, content) = beside(name, self.body(tokens))?;
        Ok(Expr::Element(name, content))
    }

    #[tactic(auto, unfolding(query_grammar::specs::Reader::named))]
    fn attribute(&self, tokens: &mut Tokens) -> Result<Expr, ParseFault>
        requires { HasReader F.pre F.post self.now }
        ensures { Gives (read.named (read.single self.now.level self.now.depth) k.Attribute e.Attribute tokens.old) result tokens.new }
    {
        eat(tokens, Kind::Attribute)?;
        let name = self.name_or_braces(tokens)?;
        let (name, content) = beside(name, self.body(tokens))?;
        Ok(Expr::Attribute(name, content))
    }

    #[tactic(auto, unfolding(query_grammar::specs::Reader::named))]
    fn instruction(&self, tokens: &mut Tokens) -> Result<Expr, ParseFault>
        requires { HasReader F.pre F.post self.now }
        ensures { Gives (read.named (read.single self.now.level self.now.depth) k.ProcessingInstruction e.Instruction tokens.old) result tokens.new }
    {
        eat(tokens, Kind::ProcessingInstruction)?;
        let name = self.name_or_braces(tokens)?;
        let (name, content) = beside(name, self.body(tokens))?;
        Ok(Expr::Instruction(name, content))
    }

    // A constructor's word and its content.
    fn plain(&self, tokens: &mut Tokens, kind: Kind) -> Result<Boxed<Expr>, ParseFault>
        requires { HasReader F.pre F.post self.now }
        ensures { Gives (part.plain (read.single self.now.level self.now.depth) kind tokens.old) result tokens.new }
    {
        eat(tokens, kind)?;
        self.braces(tokens)
    }

    /// Takes a constructor. Codes: `Static(XPST0003)` where none comes next; `Memory` where memory is refused.
    #[tactic(auto, unfolding(query_grammar::specs::Reader::make))]
    pub(crate) fn constructor(&self, tokens: &mut Tokens) -> Result<Expr, ParseFault>
        requires { HasReader F.pre F.post self.now }
        ensures { Gives (read.make (read.single self.now.level self.now.depth) tokens.old) result tokens.new }
    {
        match tokens.peek_at(0) {
            Kind::Document => Ok(Expr::Document(self.plain(tokens, Kind::Document)?)),
            Kind::Text => Ok(Expr::Text(self.plain(tokens, Kind::Text)?)),
            Kind::Comment => Ok(Expr::Comment(self.plain(tokens, Kind::Comment)?)),
            Kind::Element => self.element(tokens),
            Kind::Attribute => self.attribute(tokens),
            Kind::ProcessingInstruction => self.instruction(tokens),
            _ => Err(REFUSED),
        }
    }
}
