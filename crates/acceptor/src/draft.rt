//! What an acceptor is about to write and to answer.

ghost use Rattle.std.specs.Prelude.{◌≡◌};

use records::Write;
use std::marker::Model;

/// What an acceptor is about to write and to answer. `Acceptor::commit` makes it, and until then nothing has changed.
///
/// The answer is worth nothing before that: it would tell what may not outlive a stop.
#[derive(Drop)]
pub struct Draft<A> {
    pub(super) answer: A,
    /// Nothing, where nothing is to be written.
    pub(super) write: Option<Write>,
}

impl<A> Model for Draft<A> {
    ghost use Rattle.acceptor.specs.Drafts.{Draft as DraftTerm};

    ghost Value = { DraftTerm A };

    ghost use Rattle.acceptor.specs.Drafts.{write_of};

    ghost view = { λ d. record { answer = d.answer; write = write_of d.write } };
}

impl<A> Draft<A> {
    /// The answer that `commit` will give.
    pub fn answer(&self) -> &A
        ensures { result.now ≡ self.now.answer }
    {
        &self.answer
    }

    /// The answer that `commit` will give, and what is about to be written.
    pub fn split(self) -> (A, Draft<()>)
        ensures answer { result.0 ≡ self.answer }
        ensures write { result.1.write ≡ self.write }
    {
        let Draft { answer, write } = self;
        (answer, Draft { answer: (), write })
    }
}
