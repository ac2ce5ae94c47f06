//! The rules, over a reader of the expressions that no comma parts, so that each is proved by itself.

ghost use Rattle.std.specs.Prelude.{◌≡◌, ◌∷◌, IfOk};
ghost use Rattle.query_parts.specs.Gives.{Gives};
ghost use Rattle.query_rules.specs.Reads.{HasReader};
ghost use Rattle.query_rules.specs.Parts as part;
ghost use Rattle.query_grammar.specs.Reader as read;

use held_values::beside;
use query_grammar::Expr;
use query_parts::Looseness;
use query_parts::cursor::{at_level, eat};
use query_parts::lists::{one, push};
use query_parts::whole::of_list;
use query_tokens::{Kind, ParseFault, Tokens};
use sqlite_items::Items;
use std::alloc::{AllocError, Global};

/// The rules at a level, over a function that reads the expressions that no comma parts.
#[derive(Clone, Copy)]
pub(crate) struct Rules<F> {
    pub(crate) alloc: Global,
    /// The level of the language.
    pub(crate) level: u8,
    /// How deep expressions may still nest.
    pub(crate) depth: usize,
    pub(crate) single: F,
}

/// The first item before the others. Fails where memory is refused.
pub(crate) fn with_first<T: Drop>(
    alloc: Global,
    first: T,
    others: Items<T>,
) -> Result<Items<T>, AllocError>
    ensures { IfOk result (λ all. all ≡ first ∷ others) }
{
    let mut all = one(alloc, first)?;
    all.append(others)?;
    Ok(all)
}

impl<F: Fn(Global, u8, &mut Tokens, usize) -> Result<Expr, ParseFault>> Rules<F> {
    /// Takes an expression that no comma parts. Codes: `Static(XPST0003)` where none comes next that nests no deeper than it may; `Memory`
    /// where memory is refused.
    pub(crate) fn single(&self, tokens: &mut Tokens) -> Result<Expr, ParseFault>
        requires { HasReader F.pre F.post self.now }
        ensures { Gives (read.single self.now.level self.now.depth tokens.old) result tokens.new }
    {
        (self.single)(self.alloc, self.level, tokens, self.depth)
    }

    fn next_single(&self, tokens: &mut Tokens) -> Result<Expr, ParseFault>
        requires { HasReader F.pre F.post self.now }
        ensures { Gives (part.after_comma (read.single self.now.level self.now.depth) tokens.old) result tokens.new }
    {
        eat(tokens, Kind::Comma)?;
        self.single(tokens)
    }

    #[tactic(auto, unfolding(query_grammar::specs::Reading::rounds))]
    fn more_singles(&self, tokens: &mut Tokens) -> Result<Items<Expr>, ParseFault>
        requires { HasReader F.pre F.post self.now }
        ensures { Gives (part.more (read.single self.now.level self.now.depth) tokens.old) result tokens.new }
    {
        let mut found = Items::new(self.alloc);
        for _turn in 0..tokens.left() {
            if !at_level(tokens, Looseness::Comma) {
                return Ok(found);
            }
            let x = self.next_single(tokens)?;
            push(self.alloc, &mut found, x)?;
        }
        Ok(found)
    }

    /// Takes expressions with commas between them, one at least. Codes: `Static(XPST0003)` where none comes next; `Memory` where memory is
    /// refused.
    #[tactic(auto, unfolding(query_grammar::specs::Reader::list1))]
    pub(crate) fn singles(&self, tokens: &mut Tokens) -> Result<Items<Expr>, ParseFault>
        requires { HasReader F.pre F.post self.now }
        ensures { Gives (read.list1 (read.single self.now.level self.now.depth) tokens.old) result tokens.new }
    {
        let first = self.single(tokens)?;
        let (first, others) = beside(first, self.more_singles(tokens))?;
        Ok(with_first(self.alloc, first, others)?)
    }

    /// Takes an expression that commas may part. Codes: `Static(XPST0003)` where none comes next; `Memory` where memory is refused.
    #[tactic(auto, unfolding(query_grammar::specs::Reader::exprs))]
    pub(crate) fn exprs(&self, tokens: &mut Tokens) -> Result<Expr, ParseFault>
        requires { HasReader F.pre F.post self.now }
        ensures { Gives (read.exprs (read.single self.now.level self.now.depth) tokens.old) result tokens.new }
    {
        Ok(of_list(self.singles(tokens)?))
    }
}
