//! The tokens that are left.

ghost use Rattle.std.specs.Prelude.{◌≡◌, ◌∷◌, ◌++◌, [], length, MatchOption, IfOk, OnOk, OnErr};
ghost use Rattle.query_tokens.specs.Cursor.{kind_at};

use crate::kind::Kind;
use crate::literal::IntegerLiteral;
use crate::token::Token;
use std::alloc::{AllocError, Global};
use std::collections::VecDeque;
use std::marker::Model;
use values::Text;

/// A token's kind, and whether the token says more than that.
#[derive(Clone, Copy)]
struct Mark {
    kind: Kind,
    says_more: bool,
}

/// What a token says beside its kind.
#[derive(Drop)]
struct Content {
    text: Text,
    number: IntegerLiteral,
}

/// The tokens of a text that are left, in order. Contracts see their list.
///
/// Half of a text's tokens say no more than their kind, and the kinds are gone through more than once. So what tokens say beside
/// their kinds stands in a queue of its own.
pub struct Tokens {
    alloc: Global,
    marks: VecDeque<Mark>,
    contents: VecDeque<Content>,
}

// By one call, whose contract is all that a caller's proof sees of it.
impl Drop for Tokens {
    fn drop(self) {
        let Tokens {
            alloc: _,
            marks: _,
            contents: _,
        } = self;
    }
}

impl Model for Tokens {
    ghost use Rattle.std.specs.Prelude.{List, ◌≡◌, length};
    ghost use Rattle.query_tokens.specs.declared.token.Token.{Token as Item};
    ghost use Rattle.query_tokens.specs.Queues.{counted, tokens_of};

    ghost Value = { List Item };

    ghost view = { λ t. tokens_of t.marks.items t.contents.items };

    ghost invariant = { λ t. counted t.marks.items ≡ length t.contents.items };
}

impl Tokens {
    /// No tokens, with room for those of a text of so many characters: each has one at least, and half of them no content as a rule. It fails
    /// where memory is refused.
    pub(crate) fn with_room(alloc: Global, characters: usize) -> Result<Tokens, AllocError>
        ensures { IfOk result (λ t. t ≡ []) }
    {
        Ok(Tokens {
            alloc,
            marks: VecDeque::with_capacity(alloc, characters)?,
            contents: VecDeque::with_capacity(alloc, characters / 2)?,
        })
    }

    /// Puts a token at the end. Fails where memory is refused, and then nothing changes.
    pub(crate) fn push(&mut self, token: Token) -> Result<(), AllocError>
        ensures ok { OnOk result (self.new ≡ self.old ++ token ∷ []) }
        ensures err { OnErr result (self.new ≡ self.old) }
    {
        let Token { kind, text, number } = token;
        if text.as_str().is_empty() && number.is_zero() {
            let mark = Mark {
                kind,
                says_more: false,
            };
            self.marks.push_back(mark)?;
        } else {
            let mark = Mark {
                kind,
                says_more: true,
            };
            self.contents.reserve(1)?;
            self.marks.push_back(mark)?;
            self.contents.push_back_reserved(Content { text, number });
        }
        Ok(())
    }

    /// How many tokens are left.
    pub fn left(&self) -> usize
        ensures { result ≡ length self.now }
    {
        self.marks.len()
    }

    /// The kind of the token after the next `n`, or `End` where there is none.
    pub fn peek_at(&self, n: usize) -> Kind
        ensures { result ≡ kind_at n self.now }
    {
        match self.marks.get(n) {
            None => Kind::End,
            Some(mark) => mark.kind,
        }
    }

    /// The next token, which is then no longer left. Without one nothing changes.
    pub fn take(&mut self) -> Option<Token>
        ensures { MatchOption result ((self.old ≡ []) × (self.new ≡ [])) (λ t. self.old ≡ t ∷ self.new) }
    {
        let Mark { kind, says_more } = self.marks.pop_front()?;
        // By the invariant there is content for each mark that says more.
        let content = if says_more {
            self.contents.pop_front()
        } else {
            None
        };
        Some(match content {
            None => Token {
                kind,
                text: Text::new(String::new(self.alloc)),
                number: IntegerLiteral::zero(),
            },
            Some(Content { text, number }) => Token { kind, text, number },
        })
    }
}
