//! A state that counts the values that are applied, and to which nothing else matters.

use applications::Application;
use ballots::{Answer, Reply, Value};
use document_names::Names;
use std::alloc::{AllocError, Global};

/// How many values are applied. No request has a reply, and each question has the empty answer.
#[derive(Drop)]
pub(super) struct Count {
    applied: u32,
}

impl Application for Count {
    ghost use Rattle.std.specs.Prelude.{◌≡◌, None, [], length};
    ghost use Rattle.ballots.specs.Replies.{text};

    ghost meaning = { λ names. record { reply = λ values client number. None; answer = λ values level question. text [] } };

    ghost has_applied = { λ names values count. count.applied ≡ length values };

    ghost count = { λ count. count.applied };

    ghost ranges = { λ names values client number. tt };

    ghost counts = { λ names values count counted. counted };

    fn new(_alloc: Global, _names: &Names) -> Result<Count, AllocError> {
        Ok(Count { applied: 0 })
    }

    fn applied(&self) -> u32 {
        self.applied
    }

    fn reply_of(&self, _client: u32, _number: u64) -> Option<Reply> {
        None
    }

    fn answer(&self, alloc: Global, _level: u8, _text: &str) -> Result<Answer, AllocError> {
        Ok(Answer::Text(String::new(alloc)))
    }

    #[tactic(auto, unfolding(ballots::specs::Values::positions))]
    fn apply(&mut self, _alloc: Global, _value: &Value) -> Result<(), AllocError> {
        self.applied += 1;
        Ok(())
    }
}
