//! Laws of the meaning of a list of values, each the contract of a function that does nothing.

ghost use Rattle.std.specs.Prelude.{◌≡◌, ℕ, ◌+◌, List, [], ◌∷◌, ◌++◌, length, Some, None, true, false};
ghost use Rattle.std.specs.List.{list_any};
ghost use Rattle.trees.specs.Forest.{opening_forest};
ghost use Rattle.ballots.specs.declared.value.Value.{Value};
ghost use Rattle.ballots.specs.declared.value.Value.TheVariants.{NoOp, Request};
ghost use Rattle.ballots.specs.declared.request.RequestId.{RequestId};
ghost use Rattle.ballots.specs.Terms.{Request as RequestTerm};
ghost use Rattle.sessions.specs.Terms.{id_of, is_of};
ghost use Rattle.sessions.specs.Meaning.{request_ran, store_of, kept_reply, reply_for, value_ran};

/// The kept reply of a client and number is how the first occurrence of that request ended, run on the
/// store that the values before it mean, with its position in the whole list; without an occurrence
/// there is none.
pub fn replies()
    ensures first { (names : List (List ℕ)) (before : List Value) (value : Value) (after : List Value) (id : RequestId)
        → list_any (is_of id) before ≡ false → is_of id value ≡ true
        → kept_reply names (before ++ value ∷ after) id
        ≡ Some (reply_for (value_ran (store_of names before) value).ending (length before + 1)) }
    ensures none { (names : List (List ℕ)) (values : List Value) (id : RequestId)
        → list_any (is_of id) values ≡ false → kept_reply names values id ≡ None }
{}

/// The store that a list means: the opening store for the empty list; no-ops and later occurrences of a
/// request change nothing, and a first occurrence is run.
pub fn stores()
    ensures opening { (names : List (List ℕ)) → store_of names [] ≡ opening_forest names }
    ensures no_op { (names : List (List ℕ)) (values : List Value) → store_of names (values ++ NoOp ∷ []) ≡ store_of names values }
    ensures again { (names : List (List ℕ)) (values : List Value) (request : RequestTerm)
        → list_any (is_of (id_of request)) values ≡ true → store_of names (values ++ Request request ∷ []) ≡ store_of names values }
    ensures first { (names : List (List ℕ)) (values : List Value) (request : RequestTerm)
        → list_any (is_of (id_of request)) values ≡ false
        → store_of names (values ++ Request request ∷ []) ≡ (request_ran (store_of names values) request).forest }
{}
