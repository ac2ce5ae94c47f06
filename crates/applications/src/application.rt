//! A state to which values are applied.

ghost use Rattle.std.specs.Prelude.{◌≡◌, ◌<◌, ◌≤◌, ℕ, List, [], ◌∷◌, ◌++◌, length, IfOk, IfSome, OnErr, OnOk};
ghost use Rattle.applications.specs.Limits.{IsWithin, applied_at};
ghost use Rattle.ballots.specs.Replies.{answered};
ghost use Rattle.ballots.specs.Values.{positions};
ghost use Rattle.ballots.specs.declared.value.Value.{Value as ValueTerm};
ghost use Rattle.paxos.specs.Application.{Application as Meaning};

use ballots::{Answer, Reply, Value};
use document_names::Names;
use std::alloc::{AllocError, Global};

/// A state to which values are applied in the order of their positions, from the state before any.
///
/// Its law: after it has applied a list of values, its replies and its answers are what the list means. What it can't do for want of memory
/// it has not begun.
pub trait Application {
    /// What lists of values mean to clients, over documents of these names.
    ghost meaning: { (names : List (List ℕ)) → Meaning };

    /// It has applied just these values, over documents of these names.
    ghost has_applied: { (names : List (List ℕ)) → (values : List ValueTerm) → Self → Type 0 };

    /// How many values it has applied.
    ghost count: { Self → ℕ };

    /// The state before any value.
    fn new(alloc: Global, names: &Names) -> Result<Self, AllocError>
        ensures { IfOk result (has_applied names.now []) };

    /// How many values it has applied.
    fn applied(&self) -> u32
        ensures count { result ≡ count self.now }
        ensures means { (names : List (List ℕ)) (values : List ValueTerm) → has_applied names values self.now → result ≡ length values };

    /// The reply that is kept for the request of that client and number, if one with them was applied.
    fn reply_of(&self, client: u32, number: u64) -> Option<Reply>
        ensures { (names : List (List ℕ)) (values : List ValueTerm) → has_applied names values self.now → result ≡ (meaning names).reply values client number };

    /// The answer to a question of that text at a level of the language.
    ///
    /// It fails where memory is refused.
    fn answer(&self, alloc: Global, level: u8, text: &str) -> Result<Answer, AllocError>
        ensures most { IfOk result (λ a. IsWithin (answered a)) }
        ensures means { IfOk result (λ a. (names : List (List ℕ)) (values : List ValueTerm) → has_applied names values self.now → answered a ≡ (meaning names).answer values level text.now) };

    /// Applies the next value.
    ///
    /// It fails where memory is refused, and then nothing has changed.
    fn apply(&mut self, alloc: Global, value: &Value) -> Result<(), AllocError>
        requires room { count self.old < positions }
        ensures applied { OnOk result ((names : List (List ℕ)) (values : List ValueTerm) → has_applied names values self.old → has_applied names (values ++ value.now ∷ []) self.new) }
        ensures refused { OnErr result (self.new ≡ self.old) };

    /// A kept reply is of a request that was applied: its position is that of one of the values.
    ghost ranges: { (names : List (List ℕ)) (values : List ValueTerm) (client number : ℕ) → IfSome ((meaning names).reply values client number) (λ reply. (1 ≤ applied_at reply) × (applied_at reply ≤ length values)) };

    /// How many it has applied is how many there are.
    ghost counts: { (names : List (List ℕ)) (values : List ValueTerm) (state : Self) → has_applied names values state → count state ≡ length values };
}
