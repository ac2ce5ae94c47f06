//! Laws of what level 1 of the language does to stores, each the contract of a function that does nothing.

ghost use Rattle.std.specs.Prelude.{◌≡◌, ℕ, List};
ghost use Rattle.std.specs.List.{All};
ghost use Rattle.trees.specs.Forest.{ForestTerm};
ghost use Rattle.ballots.specs.declared.request.RequestId.{RequestId};
ghost use Rattle.ballots.specs.declared.value.Value.{Value};
ghost use Rattle.sessions.specs.Requests.{run};
ghost use Rattle.questions.specs.Answers.{answer};
ghost use Rattle.sessions.specs.Meaning.{kept_reply, store_of};
ghost use Rattle.level_laws.specs.Levels.{Copying};
ghost use Rattle.level_runs.specs.Runs.{answer_with, replies_with, run_with, store_with, IsOfLevelOne};

/// A request of level 1 does to a store what it does whatever a copy means, and so what it did where a copy was no expression.
pub fn requests_of_level_one()
    ensures { (k : Copying) (forest : ForestTerm) (text : List ℕ) → run forest 1 text ≡ run_with k forest 1 text }
{}

/// A question of level 1 gives what it gives whatever a copy means.
pub fn questions_of_level_one()
    ensures { (k : Copying) (forest : ForestTerm) (question : List ℕ) → answer forest 1 question ≡ answer_with k forest 1 question }
{}

/// A list of values whose requests have level 1 means the store that it means whatever a copy means.
pub fn stores_of_level_one()
    ensures { (k : Copying) (names : List (List ℕ)) (values : List Value) → All IsOfLevelOne values → store_of names values ≡ store_with k names values }
{}

/// Such a list leaves for each client and number the kept reply, or none, that it leaves whatever a copy means.
pub fn replies_of_level_one()
    ensures { (k : Copying) (names : List (List ℕ)) (values : List Value) (id : RequestId) → All IsOfLevelOne values → kept_reply names values id ≡ replies_with k names values id }
{}
