//! The forms of an expression that no comma parts: which of them begins, and up to the first expression that it waits for.

ghost use Rattle.query_parts.specs.Gives.{Gives};
ghost use Rattle.query_rules.specs.Reads.{HasReader};
ghost use Rattle.query_rules.specs.Stages as stage;
ghost use Rattle.query_grammar.specs.Reader as read;

use crate::clauses::{to_clause, to_quantified};
use crate::pending::{Pending, Progress, word};
use crate::rules::Rules;
use crate::updates::{to_copying, to_deletion, to_insertion, to_renaming, to_replacement};
use query_grammar::Expr;
use query_parts::cursor::eat;
use query_parts::held::followed;
use query_tokens::{Kind, ParseFault, Tokens};
use sqlite_items::{Boxed, Items};
use std::alloc::Global;

impl<F: Fn(Global, u8, &mut Tokens, usize) -> Result<Expr, ParseFault>> Rules<F> {
    fn to_conditional(&self, tokens: &mut Tokens) -> Result<Progress, ParseFault>
        requires { HasReader F.pre F.post self.now }
        ensures { Gives (stage.to_conditional (read.single self.now.level self.now.depth) tokens.old) result tokens.new }
    {
        eat(tokens, Kind::If)?;
        eat(tokens, Kind::OpenParen)?;
        let condition = followed(self.exprs(tokens)?, tokens, Kind::CloseParen)?;
        let condition = Boxed::new(self.alloc, condition)?;
        word(tokens, Kind::Then, Pending::Then(condition))
    }

    // Operators, which wait for nothing.
    fn operators(&self, tokens: &mut Tokens) -> Result<Progress, ParseFault>
        requires { HasReader F.pre F.post self.now }
        ensures { Gives (stage.operators (read.single self.now.level self.now.depth) tokens.old) result tokens.new }
    {
        Ok(Progress::Read(self.disjunction(tokens)?))
    }

    // Before `$`.
    fn before_variable(&self, tokens: &mut Tokens, first: Kind) -> Result<Progress, ParseFault>
        requires { HasReader F.pre F.post self.now }
        ensures { Gives (stage.begin_form (read.single self.now.level self.now.depth) self.now.level (read.form_before_variable first) tokens.old) result tokens.new }
    {
        match first {
            Kind::For | Kind::Let => to_clause(tokens, Items::new(self.alloc)),
            Kind::Some | Kind::Every => to_quantified(self.alloc, tokens),
            Kind::Copy => to_copying(self.alloc, self.level, tokens),
            _ => self.operators(tokens),
        }
    }

    // Before `(`.
    fn before_paren(&self, tokens: &mut Tokens, first: Kind) -> Result<Progress, ParseFault>
        requires { HasReader F.pre F.post self.now }
        ensures { Gives (stage.begin_form (read.single self.now.level self.now.depth) self.now.level (read.form_before_paren first) tokens.old) result tokens.new }
    {
        match first {
            Kind::If => self.to_conditional(tokens),
            _ => self.operators(tokens),
        }
    }

    // Before `node`.
    fn before_node(&self, tokens: &mut Tokens, first: Kind) -> Result<Progress, ParseFault>
        requires { HasReader F.pre F.post self.now }
        ensures { Gives (stage.begin_form (read.single self.now.level self.now.depth) self.now.level (read.form_before_node first) tokens.old) result tokens.new }
    {
        match first {
            Kind::Insert => to_insertion(tokens),
            Kind::Delete => to_deletion(tokens),
            Kind::Replace => to_replacement(tokens),
            Kind::Rename => to_renaming(tokens),
            _ => self.operators(tokens),
        }
    }

    // Before `nodes`.
    fn before_nodes(&self, tokens: &mut Tokens, first: Kind) -> Result<Progress, ParseFault>
        requires { HasReader F.pre F.post self.now }
        ensures { Gives (stage.begin_form (read.single self.now.level self.now.depth) self.now.level (read.form_before_nodes first) tokens.old) result tokens.new }
    {
        match first {
            Kind::Insert => to_insertion(tokens),
            Kind::Delete => to_deletion(tokens),
            _ => self.operators(tokens),
        }
    }

    // Before `value`.
    fn before_value(&self, tokens: &mut Tokens, first: Kind) -> Result<Progress, ParseFault>
        requires { HasReader F.pre F.post self.now }
        ensures { Gives (stage.begin_form (read.single self.now.level self.now.depth) self.now.level (read.form_before_value first) tokens.old) result tokens.new }
    {
        match first {
            Kind::Replace => to_replacement(tokens),
            _ => self.operators(tokens),
        }
    }

    /// Begins an expression that no comma parts, one deeper than those of `single`: reads it, or the front of a form that waits for such an
    /// expression itself. Two tokens say which form it has. Codes: `Static(XPST0003)` where neither comes next; `Memory` where memory is
    /// refused.
    #[tactic(auto, unfolding(crate::specs::Stages::begin))]
    pub(crate) fn begin(&self, tokens: &mut Tokens) -> Result<Progress, ParseFault>
        requires { HasReader F.pre F.post self.now }
        ensures { Gives (stage.begin (read.single self.now.level self.now.depth) self.now.level tokens.old) result tokens.new }
    {
        let first = tokens.peek_at(0);
        match tokens.peek_at(1) {
            Kind::Dollar => self.before_variable(tokens, first),
            Kind::OpenParen => self.before_paren(tokens, first),
            Kind::Node => self.before_node(tokens, first),
            Kind::Nodes => self.before_nodes(tokens, first),
            Kind::Value => self.before_value(tokens, first),
            _ => self.operators(tokens),
        }
    }
}
