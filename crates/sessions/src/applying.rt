//! A state as members replicate it.

use super::state::{NoMemory, State};
use applications::Application;
use ballots::{Answer, Reply, Value};
use document_names::Names;
use std::alloc::{AllocError, Global};

impl Application for State {
    ghost use Rattle.sessions.specs.Applying.{application_of};
    ghost use Rattle.sessions.specs.Positions.{kept_reply-between};
    ghost use Rattle.sessions.specs.Session.{Means};

    ghost meaning = { application_of };

    ghost has_applied = { Means };

    ghost count = { λ s. s.applied };

    ghost ranges = { λ names values client number. kept_reply-between names values (record { client = client; number = number }) };

    ghost counts = { λ _ _ _ means. means.applied };

    fn new(alloc: Global, names: &Names) -> Result<State, AllocError> {
        match State::new(alloc, names) {
            Ok(state) => Ok(state),
            Err(NoMemory) => Err(AllocError),
        }
    }

    fn applied(&self) -> u32 {
        self.applied()
    }

    fn reply_of(&self, client: u32, number: u64) -> Option<Reply> {
        self.reply_of(client, number)
    }

    fn answer(&self, alloc: Global, level: u8, text: &str) -> Result<Answer, AllocError> {
        match self.answer(alloc, level, text) {
            Ok(answer) => Ok(answer),
            Err(NoMemory) => Err(AllocError),
        }
    }

    fn apply(&mut self, alloc: Global, value: &Value) -> Result<(), AllocError> {
        match self.run(alloc, value) {
            Ok(_reply) => Ok(()),
            Err(NoMemory) => Err(AllocError),
        }
    }
}
