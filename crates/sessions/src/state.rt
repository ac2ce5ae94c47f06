//! The state of one member: its store, the replies that it keeps, and how many values it has applied.

ghost use Rattle.std.specs.Prelude.{◌≡◌, ℕ, ◌<◌, IfOk, OnOk, OnErr, Some, None, List, [], ◌∷◌, ◌++◌};
ghost use Rattle.ballots.specs.Values.{positions};
ghost use Rattle.ballots.specs.declared.value.Value.{Value as ValueTerm};
ghost use Rattle.sessions.specs.Terms.{id_of};
ghost use Rattle.sessions.specs.Session.{Means, IsReplyTo, reply_in, after_repeat, after_new, reply_to_new};
ghost use Rattle.ballots.specs.Replies.{answered};
ghost use Rattle.questions.specs.Answers.{answer};
ghost use Rattle.sessions.specs.Meaning.{kept_reply, store_of, reply_for};
ghost use Rattle.ballots.specs.declared.reply.Reply.{Reply as ReplyTerm};

use super::running;
use super::running::Ending;
use ballots::{Answer, Reply, Request, RequestId, Value};
use document_names::Names;
use indexmap::IndexMap;
use std::alloc::Global;
use std::marker::Model;
use trees::Forest;

/// Memory was refused.
#[derive(Clone, Copy, PartialEq, Eq, Debug)]
pub struct NoMemory;

/// A store with the replies to the requests that it has run.
///
/// It is what the list of all values that were applied means.
pub struct State {
    forest: Forest,
    replies: IndexMap<RequestId, Reply>,
    applied: u32,
}

// By one call, whose contract is all that a caller's proof sees of it.
impl Drop for State {
    fn drop(self) {
        let State {
            forest: _,
            replies: _,
            applied: _,
        } = self;
    }
}

impl Model for State {
    ghost use Rattle.sessions.specs.Session.{SessionTerm, session_code};

    ghost Value = { SessionTerm };

    ghost coded = { session_code };

    ghost use Rattle.sessions.specs.Inside.{term_of, IsSound};

    ghost view = { term_of };

    ghost invariant = { IsSound };
}

impl State {
    /// The state before any value: an empty document for each name.
    ///
    /// It fails where memory is refused.
    pub fn new(alloc: Global, names: &Names) -> Result<State, NoMemory>
        ensures { IfOk result (Means names.now []) }
    {
        match Forest::new(alloc, names) {
            Ok(forest) => Ok(State {
                forest,
                replies: IndexMap::new(alloc),
                applied: 0,
            }),
            Err(_) => Err(NoMemory),
        }
    }

    /// Applies the next value, at the position after those that were applied.
    ///
    /// A request runs once: a later occurrence of its client and number gets the reply to the first one.
    /// A no-op changes nothing, and is done. After a refusal nothing counts as applied.
    #[tactic(auto, unfolding(ballots::specs::Values::positions))]
    pub fn run(&mut self, alloc: Global, value: &Value) -> Result<Reply, NoMemory>
        requires room { self.old.applied < positions }
        ensures means { OnOk result ((names : List (List ℕ)) (values : List ValueTerm) → Means names values self.old → Means names (values ++ value.now ∷ []) self.new) }
        ensures replies { IfOk result (λ reply. (names : List (List ℕ)) (values : List ValueTerm) → Means names values self.old → IsReplyTo names values value.now reply) }
        ensures refused { OnErr result (self.new ≡ self.old) }
    {
        match value {
            Value::NoOp => {
                self.applied += 1;
                Ok(Reply::Done(self.applied))
            }
            Value::Request(request) => self.run_request(alloc, request),
        }
    }

    /// Applies a request.
    #[tactic(auto, unfolding(ballots::specs::Values::positions))]
    fn run_request(&mut self, alloc: Global, request: &Request) -> Result<Reply, NoMemory>
        requires room { self.old.applied < positions }
        ensures repeat { IfOk result (λ reply. (kept : ReplyTerm) → reply_in self.old (id_of request.now) ≡ Some kept → (reply ≡ kept) × (self.new ≡ after_repeat self.old)) }
        ensures first { IfOk result (λ reply. reply_in self.old (id_of request.now) ≡ None → (reply ≡ reply_to_new self.old request.now) × (self.new ≡ after_new self.old request.now)) }
        ensures refused { OnErr result (self.new ≡ self.old) }
    {
        let id = request.id();
        match self.replies.get(&id).copied() {
            Some(reply) => {
                self.applied += 1;
                Ok(reply)
            }
            None => self.run_new(alloc, request),
        }
    }

    /// Applies a request that occurs for the first time.
    #[tactic(auto, unfolding(ballots::specs::Values::positions))]
    fn run_new(&mut self, alloc: Global, request: &Request) -> Result<Reply, NoMemory>
        requires room { self.old.applied < positions }
        requires absent { reply_in self.old (id_of request.now) ≡ None }
        ensures reply { IfOk result (λ reply. reply ≡ reply_to_new self.old request.now) }
        ensures after { OnOk result (self.new ≡ after_new self.old request.now) }
        ensures refused { OnErr result (self.new ≡ self.old) }
    {
        // All that may be refused comes before the first change.
        if self.replies.reserve(1).is_err() {
            return Err(NoMemory);
        }
        let level = request.level();
        let Ok(ending) = running::run(alloc, &mut self.forest, level, request.text()) else {
            return Err(NoMemory);
        };
        self.applied += 1;
        let reply = reply_at(ending, self.applied);
        let _none = self.replies.insert(request.id(), reply).unwrap();
        Ok(reply)
    }

    /// The reply that is kept for the request of that client and number.
    pub fn reply_of(&self, client: u32, number: u64) -> Option<Reply>
        ensures kept { result ≡ reply_in self.now (record { client = client; number = number }) }
        ensures means { (names : List (List ℕ)) (values : List ValueTerm) → Means names values self.now → result ≡ kept_reply names values (record { client = client; number = number }) }
    {
        self.replies.get(&RequestId { client, number }).copied()
    }

    /// How many values were applied.
    pub fn applied(&self) -> u32
        ensures { result ≡ self.now.applied }
    {
        self.applied
    }

    /// The store.
    pub fn forest(&self) -> &Forest
        ensures { result.now ≡ self.now.forest }
    {
        &self.forest
    }

    /// What a question of that text gives at a level of the language (1 or 2).
    ///
    /// It fails where memory is refused.
    pub fn answer(&self, alloc: Global, level: u8, text: &str) -> Result<Answer, NoMemory>
        ensures answered { IfOk result (λ a. answered a ≡ answer self.now.forest level text.now) }
        ensures means { IfOk result (λ a. (names : List (List ℕ)) (values : List ValueTerm) → Means names values self.now → answered a ≡ answer (store_of names values) level text.now) }
    {
        match questions::answer(alloc, &self.forest, level, text) {
            Ok(answer) => Ok(answer),
            Err(_) => Err(NoMemory),
        }
    }
}

/// The reply to a request that ended so at that position.
fn reply_at(ending: Ending, position: u32) -> Reply
    ensures { result ≡ reply_for ending position }
{
    match ending {
        Ending::Done => Reply::Done(position),
        Ending::Fault(code) => Reply::Fault(code, position),
    }
}
