//! Laws of the definitions, each the contract of a function that does nothing.

ghost use Rattle.std.specs.Prelude.{◌≡◌, ◌≤◌, ℕ, List, Option, length, reverse};
ghost use Rattle.node_table.specs.Plans.{over, replaced, all_places};
ghost use Rattle.node_table.specs.declared.table.Row.{Row};
ghost use Rattle.node_table.specs.declared.exchange.Change.{Change};

/// What an exchange leaves in a plan takes the rows back to what they were, and an exchange of that leaves the first plan. Neither
/// needs more places than there are changes.
pub fn there_and_back()
    ensures rows { (ps : List Change) (f : ℕ → Option Row) → over (reverse (replaced ps f)) (over ps f) ≡ f }
    ensures plan { (ps : List Change) (f : ℕ → Option Row) → reverse (replaced (reverse (replaced ps f)) (over ps f)) ≡ ps }
    ensures few { (ps : List Change) → all_places ps ≤ length ps }
    ensures few_back { (ps : List Change) (f : ℕ → Option Row) → all_places (reverse (replaced ps f)) ≤ length ps }
{}
