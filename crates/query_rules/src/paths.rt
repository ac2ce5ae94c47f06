//! Paths (XQuery 1.0, section 3.2).

ghost use Rattle.query_parts.specs.Gives.{Gives, GivesAs};
ghost use Rattle.query_parts.specs.Steps.{as_step};
ghost use Rattle.query_rules.specs.Reads.{HasReader};
ghost use Rattle.query_rules.specs.Parts as part;
ghost use Rattle.query_grammar.specs.Reader as read;

use crate::primaries::sees_primary;
use crate::rules::Rules;
use held_values::beside;
use query_grammar::Expr;
use query_parts::Looseness;
use query_parts::cursor::{at_level, eat};
use query_parts::held::followed;
use query_parts::lists::{append, push};
use query_parts::steps::{Step, axis_step, slash, step_of, steps_of};
use query_parts::whole::path_of;
use query_tokens::{Kind, ParseFault, Tokens};
use sqlite_items::Items;
use std::alloc::Global;

impl<F: Fn(Global, u8, &mut Tokens, usize) -> Result<Expr, ParseFault>> Rules<F> {
    #[tactic(auto, unfolding(query_grammar::specs::Reader::predicate))]
    fn predicate(&self, tokens: &mut Tokens) -> Result<Expr, ParseFault>
        requires { HasReader F.pre F.post self.now }
        ensures { Gives (read.predicate (read.single self.now.level self.now.depth) tokens.old) result tokens.new }
    {
        eat(tokens, Kind::OpenBracket)?;
        let x = self.exprs(tokens)?;
        followed(x, tokens, Kind::CloseBracket)
    }

    #[tactic(auto, unfolding(query_grammar::specs::Reading::rounds, query_grammar::specs::Reader::predicates))]
    fn predicates(&self, tokens: &mut Tokens) -> Result<Items<Expr>, ParseFault>
        requires { HasReader F.pre F.post self.now }
        ensures { Gives (read.predicates (read.single self.now.level self.now.depth) tokens.old) result tokens.new }
    {
        let mut found = Items::new(self.alloc);
        for _turn in 0..tokens.left() {
            if !at_level(tokens, Looseness::Predicate) {
                return Ok(found);
            }
            let x = self.predicate(tokens)?;
            push(self.alloc, &mut found, x)?;
        }
        Ok(found)
    }

    #[tactic(auto, unfolding(query_grammar::specs::Reader::step))]
    fn step(&self, tokens: &mut Tokens) -> Result<Step, ParseFault>
        requires { HasReader F.pre F.post self.now }
        ensures { GivesAs as_step (read.step (read.single self.now.level self.now.depth) tokens.old) result tokens.new }
    {
        if sees_primary(tokens) {
            let x = self.primary(tokens)?;
            let (x, predicates) = beside(x, self.predicates(tokens))?;
            Ok(Step::Primary(x, predicates))
        } else {
            let found = axis_step(tokens)?;
            let (found, predicates) = beside(found, self.predicates(tokens))?;
            Ok(Step::Axis(found, predicates))
        }
    }

    #[tactic(auto, unfolding(query_grammar::specs::Reader::segment))]
    fn segment(&self, tokens: &mut Tokens) -> Result<Items<Expr>, ParseFault>
        requires { HasReader F.pre F.post self.now }
        ensures { Gives (read.segment (read.single self.now.level self.now.depth) tokens.old) result tokens.new }
    {
        let is_deep = slash(tokens)?;
        let step = self.step(tokens)?;
        Ok(steps_of(self.alloc, is_deep, step)?)
    }

    // The steps after the first.
    #[tactic(auto, unfolding(crate::proofs::Turns::flat_rounds))]
    fn segments(&self, tokens: &mut Tokens) -> Result<Items<Expr>, ParseFault>
        requires { HasReader F.pre F.post self.now }
        ensures { Gives (part.segments (read.single self.now.level self.now.depth) tokens.old) result tokens.new }
    {
        let mut found = Items::new(self.alloc);
        for _turn in 0..tokens.left() {
            if !at_level(tokens, Looseness::Step) {
                return Ok(found);
            }
            let steps = self.segment(tokens)?;
            append(&mut found, steps)?;
        }
        Ok(found)
    }

    /// Takes a path. Codes: `Static(XPST0003)` where none comes next; `Memory` where memory is refused.
    #[tactic(auto, unfolding(query_grammar::specs::Reader::path), using(crate::proofs::Turns::path_is))]
    pub(crate) fn path(&self, tokens: &mut Tokens) -> Result<Expr, ParseFault>
        requires { HasReader F.pre F.post self.now }
        ensures { Gives (read.path (read.single self.now.level self.now.depth) tokens.old) result tokens.new }
    {
        let first = self.step(tokens)?;
        let first = step_of(self.alloc, first)?;
        let (first, others) = beside(first, self.segments(tokens))?;
        Ok(path_of(self.alloc, first, others)?)
    }
}
