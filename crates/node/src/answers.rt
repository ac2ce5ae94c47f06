//! Answers that are kept for a while.

ghost use Rattle.std.specs.Prelude.{◌≡◌, ◌⊎◌, ℕ, List, [], true, IfOk, IfSome, string_bytes};
ghost use Rattle.applications.specs.Limits.{IsWithin};
ghost use Rattle.ballots.specs.Replies.{answered};
ghost use Rattle.ballots.specs.declared.value.Value.{Value as ValueTerm};
ghost use Rattle.node.specs.Answering.{AreAnswers, IsAnswer};
ghost use Rattle.node.specs.declared.answers.KeptAnswer.{KeptAnswer as KeptAnswerTerm};
ghost use Rattle.paxos.specs.Lists.{Has};

use applications::Application;
use ballots::Answer;
use std::alloc::{AllocError, Global};

/// At most so many answers are kept.
const MOST_ANSWERS: usize = 8;

/// An answer to a question of that level and text.
#[derive(Drop)]
pub(super) struct KeptAnswer {
    pub(super) level: u8,
    pub(super) text: String,
    pub(super) answer: Answer,
}

/// The latest answers, the oldest first: those that an application gives as it is now.
///
/// A client that gets no answer asks again, while its question may still be evaluated. What is kept answers it then at once.
#[derive(Drop)]
pub(super) struct Answers {
    pub(super) kept: Vec<KeptAnswer>,
}

/// A copy of an answer. It fails where memory is refused.
fn copied(alloc: Global, answer: &Answer) -> Result<Answer, AllocError>
    ensures { IfOk result (λ a. answered a ≡ answered answer.now) }
{
    match answer {
        Answer::Text(text) => Ok(Answer::Text(String::from_str(alloc, text.as_str())?)),
        Answer::Fault(code) => Ok(Answer::Fault(*code)),
    }
}

impl KeptAnswer {
    /// An answer to be kept, beside the one that is given. It fails where memory is refused.
    fn of<A: Application + Drop>(
        alloc: Global,
        application: &A,
        level: u8,
        text: &str,
        answer: &Answer,
    ) -> Result<KeptAnswer, AllocError>
        requires { IsAnswer A.has_applied A.meaning application.now level text.now answer.now }
        ensures { IfOk result (λ k. IsAnswer A.has_applied A.meaning application.now k.level (string_bytes k.text) k.answer) }
    {
        Ok(KeptAnswer {
            level,
            text: String::from_str(alloc, text)?,
            answer: copied(alloc, answer)?,
        })
    }

    /// Whether it answers a question of that level and text.
    fn is_of(&self, level: u8, text: &str) -> bool
        ensures { result ≡ true → (self.now.level ≡ level) × (string_bytes self.now.text ≡ text.now) }
    {
        self.level == level && self.text.as_str() == text
    }
}

impl Answers {
    /// None is kept.
    pub(super) fn new(alloc: Global) -> Answers
        ensures { result.kept.items ≡ [] }
    {
        Answers {
            kept: Vec::new(alloc),
        }
    }

    /// The answer to a question of that text at a level of the language: one that is kept, or else the application's, which is kept.
    ///
    /// It fails where memory is refused.
    pub(super) fn answer<A: Application + Drop>(
        &mut self,
        alloc: Global,
        application: &A,
        level: u8,
        text: &str,
    ) -> Result<Answer, AllocError>
        requires kept { AreAnswers A.has_applied A.meaning application.now self.old.kept.items }
        ensures most { IfOk result (λ a. IsWithin (answered a)) }
        ensures means { IfOk result (λ a. (names : List (List ℕ)) (values : List ValueTerm) → A.has_applied names values application.now → answered a ≡ (A.meaning names).answer values level text.now) }
        ensures kept { AreAnswers A.has_applied A.meaning application.now self.new.kept.items }
    {
        if let Some(kept) = self.find(level, text) {
            return copied(alloc, &kept.answer);
        }
        let answer = application.answer(alloc, level, text)?;
        if let Ok(kept) = KeptAnswer::of(alloc, application, level, text, &answer) {
            self.keep(kept);
        }
        Ok(answer)
    }

    /// The answer that is kept to a question of that level and text, if one is.
    fn find(&self, level: u8, text: &str) -> Option<&KeptAnswer>
        ensures kept { IfSome result (λ k. Has self.now.kept.items k.now) }
        ensures of { IfSome result (λ k. (k.now.level ≡ level) × (string_bytes k.now.text ≡ text.now)) }
    {
        for kept in &self.kept {
            if kept.is_of(level, text) {
                return Some(kept);
            }
        }
        None
    }

    /// Keeps an answer, in the place of the oldest where as many are kept as may be. It is not kept where memory is refused.
    fn keep(&mut self, kept: KeptAnswer)
        ensures { (k : KeptAnswerTerm) → Has self.new.kept.items k → Has self.old.kept.items k ⊎ (k ≡ kept) }
    {
        self.make_room();
        let _ = self.kept.push(kept);
    }

    /// Drops the oldest answer where as many are kept as may be.
    fn make_room(&mut self)
        ensures { (k : KeptAnswerTerm) → Has self.new.kept.items k → Has self.old.kept.items k }
    {
        if self.kept.len() >= MOST_ANSWERS {
            let _ = self.kept.remove(0);
        }
    }

    /// None is kept any more.
    pub(super) fn forget(&mut self)
        ensures { self.new.kept.items ≡ [] }
    {
        self.kept.clear();
    }
}
