//! The expression that all tokens are spelt as.

ghost use Rattle.std.specs.Prelude.{ℕ, ◌<◌, length, IfOk};
ghost use Rattle.query_parts.specs.Gives.{Gives};
ghost use Rattle.query_rules.specs.Reads.{GivesWhole, HasReader, IsParsed};
ghost use Rattle.query_rules.specs.Stages.{Nearer, Settles};
ghost use Rattle.query_grammar.specs.Grammar.{IsQuery};
ghost use Rattle.query_grammar.specs.Reader as read;

use crate::pending::{Pending, Progress};
use crate::resuming::resume;
use crate::rules::Rules;
use query_grammar::Expr;
use query_grammar::laws::reading_is_sound;
use query_parts::cursor::REFUSED;
use query_parts::held::last;
use query_tokens::{ParseFault, Tokens};
use sqlite_items::Items;
use std::alloc::Global;

impl<F: Fn(Global, u8, &mut Tokens, usize) -> Result<Expr, ParseFault>> Rules<F> {
    // No token may be left.
    fn query(&self, mut tokens: Tokens) -> Result<Expr, ParseFault>
        requires { HasReader F.pre F.post self.now }
        ensures { GivesWhole (read.whole (read.exprs (read.single self.now.level self.now.depth) tokens)) result }
    {
        let x = self.exprs(&mut tokens)?;
        last(x, &tokens)
    }
}

/// Goes on with what was come to within forms that wait within one another, the innermost last: up to the next place where one of
/// them waits, which is then the last, or to the end of the outermost.
fn settle(
    alloc: Global,
    tokens: &mut Tokens,
    forms: &mut Items<Pending>,
    progress: Progress,
) -> Result<Option<Expr>, ParseFault>
    ensures means { (level depth : ℕ) → length forms.old < depth → Settles level depth forms.old progress tokens.old result forms.new tokens.new }
    ensures nearer { Nearer progress result (length tokens.new) (length tokens.old) }
{
    let mut progress = progress;
    loop {
        match progress {
            Progress::Waits(form) => {
                forms.push(form)?;
                return Ok(None);
            }
            Progress::Read(x) => match forms.pop() {
                None => return Ok(Some(x)),
                Some(form) => progress = resume(alloc, tokens, form, x)?,
            },
        }
    }
}

/// Takes an expression that no comma parts, nested at most so deep. What nests in no brackets waits in a list, so that it takes no
/// more of the stack, however deep it nests.
fn single(alloc: Global, level: u8, tokens: &mut Tokens, depth: usize) -> Result<Expr, ParseFault>
    ensures { Gives (read.single level depth tokens.old) result tokens.new }
{
    let mut forms = Items::new(alloc);
    while forms.len() < depth {
        let rules = Rules {
            alloc,
            level,
            depth: depth - forms.len() - 1,
            single,
        };
        let progress = rules.begin(tokens)?;
        if let Some(x) = settle(alloc, tokens, &mut forms, progress)? {
            return Ok(x);
        }
    }
    Err(REFUSED)
}

/// The expression that the tokens are spelt as at a level of the language; there is at most one (XQuery 1.0, appendix A.1, and XQuery
/// Update Facility 1.0, appendix A.1). Below level 2 there is no `copy`. Codes: `Static(XPST0003)` where they are spelt as none, and
/// `Memory` where memory is refused. No other fault is answered.
pub fn read_query(alloc: Global, level: u8, tokens: Tokens) -> Result<Expr, ParseFault>
    ensures reads { IsParsed level tokens result }
    ensures spelt { IfOk result (λ x. IsQuery level tokens x) }
{
    reading_is_sound();
    // No memory holds more tokens than can be counted.
    let Some(depth) = tokens.left().checked_add(1) else {
        return Err(ParseFault::Memory);
    };
    Rules {
        alloc,
        level,
        depth,
        single,
    }
    .query(tokens)
}
