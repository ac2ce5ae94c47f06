//! Laws of what expressions mean, each the contract of a function that does nothing.

ghost use Rattle.std.specs.Prelude.{◌≡◌, ◌≤◌, ◌+◌, ◌<◌, ◌++◌, ◌↔◌, ◌⊎◌, ℕ, List, [], ◌∷◌, Ok, false, length};
ghost use Rattle.std.specs.List.{All, range_with_len};
ghost use Rattle.trees.specs.Forest.{ForestTerm, IsForest};
ghost use Rattle.data_model.specs.Order.{identities};
ghost use Rattle.data_model.specs.Trees.{Trees, append, count, roots, size};
ghost use Rattle.shelves.specs.Shelf.{IsShelf};
ghost use Rattle.pending.specs.Primitives.{PrimitiveTerm};
ghost use Rattle.values.specs.declared.atom.Item.{Item};
ghost use Rattle.query_grammar.specs.declared.ast.Expr.{Expr};
ghost use Rattle.static_checks.specs.Categories.{judged, may_not_stand};
ghost use Rattle.query_meaning.specs.Environment.{Environment};
ghost use Rattle.query_meaning.specs.Meaning.{mean, evaluated, Outcome};
ghost use Rattle.query_meaning.specs.Content.{content};
ghost use Rattle.query_meaning.specs.Paths.{path};
ghost use Rattle.query_meaning.specs.Running.{Run, trees_of, most_nodes, most_items};
ghost use Rattle.query_meaning.specs.Sequences.{Meaning, sequence};
ghost use Rattle.update_meaning.specs.Brought.{new_trees};
ghost use Rattle.meaning_laws.specs.Given.{AllStand, IsKnown};
ghost use Rattle.meaning_laws.specs.Order.{IsInOrder, IsAtomic};

/// An expression leaves the forest that was lent, the trees that stood beside it, and the update primitives that there were: it only adds. Of the trees this is so
/// where their roots come before the next identity, as in an evaluation they do: what an expression changes is copies that it made itself, which come later.
pub fn nothing_is_lost()
    ensures forest { (x : Expr) (env : Environment) (run after : Run) (items : List Item) → mean x env run ≡ Ok (items, after) → after.shelf.lent ≡ run.shelf.lent }
    ensures trees { (x : Expr) (env : Environment) (run after : Run) (items : List Item) → All (λ i. i < run.shelf.own.next) (roots run.shelf.own.trees)
        → mean x env run ≡ Ok (items, after) → (more : Trees) × (after.shelf.own.trees ≡ append run.shelf.own.trees more) }
    ensures primitives { (x : Expr) (env : Environment) (run after : Run) (items : List Item) → mean x env run ≡ Ok (items, after)
        → (more : List PrimitiveTerm) × (after.primitives ≡ run.primitives ++ more) }
{}

/// A simple or vacuous expression, in which no updating one stands where it may not, gives no update primitives (XQuery Update Facility 1.0,
/// section 2.1).
pub fn only_updating_expressions_update()
    ensures { (x : Expr) (env : Environment) (run after : Run) (items : List Item)
        → may_not_stand (judged x) ≡ false → mean x env run ≡ Ok (items, after) → after.primitives ≡ run.primitives }
{}

/// New nodes take the identities from the next one on, and at most as many as there may be.
pub fn identities_are_limited()
    ensures { (x : Expr) (lent : ForestTerm) (o : Outcome) → evaluated x lent ≡ Ok o → (lent.next ≤ o.next) × (o.next ≤ lent.next + most_nodes) }
{}

/// New nodes have identities of their own: from the lent forest's next one on, and below the one that is next after them.
pub fn identities_are_new()
    ensures { (x : Expr) (lent : ForestTerm) (o : Outcome) → IsForest lent → evaluated x lent ≡ Ok o
        → (i : ℕ) → (count i (append lent.trees o.trees) ≤ 1) × (0 < count i o.trees → (lent.next ≤ i) × (i < o.next)) }
{}

/// What update primitives bring has identities of its own too: no other new node, no stored one and no other primitive has them.
pub fn primitives_bring_new_nodes()
    ensures { (x : Expr) (lent : ForestTerm) (o : Outcome) → IsForest lent → evaluated x lent ≡ Ok o
        → (i : ℕ) → (count i (append lent.trees (append o.trees (new_trees o.primitives))) ≤ 1)
        × (0 < count i (append o.trees (new_trees o.primitives)) → (lent.next ≤ i) × (i < o.next)) }
{}

/// So it is wherever an expression is evaluated that gives its primitives into a list of their own: they bring nodes of which none stands, and all that was made
/// since the forest was lent comes after that forest's nodes.
pub fn own_lists_bring_new_nodes()
    ensures { (x : Expr) (env : Environment) (run after : Run) (items : List Item) → IsShelf run.shelf → run.primitives ≡ [] → IsKnown (trees_of run) env
        → mean x env run ≡ Ok (items, after)
        → (i : ℕ) → (count i (append (trees_of after) (new_trees after.primitives)) ≤ 1)
        × (0 < count i (append after.shelf.own.trees (new_trees after.primitives)) → (run.shelf.lent.next ≤ i) × (i < after.shelf.own.next)) }
{}

/// Copied content takes the identities from the next one on, in document order and without a gap.
pub fn copies_are_numbered()
    ensures { (items : List Item) (run after : Run) (copies : Trees) → content items run ≡ Ok (copies, after)
        → (identities copies ≡ range_with_len run.shelf.own.next (size copies)) × (after.shelf.own.next ≡ run.shelf.own.next + size copies) }
{}

/// What is given has at most 10,000 items, and each node among them stands in the lent forest or among the new trees.
pub fn nodes_stand()
    ensures few { (x : Expr) (lent : ForestTerm) (o : Outcome) → IsForest lent → evaluated x lent ≡ Ok o → length o.items ≤ most_items }
    ensures stand { (x : Expr) (lent : ForestTerm) (o : Outcome) → IsForest lent → evaluated x lent ≡ Ok o → AllStand (append lent.trees o.trees) o.items }
{}

/// The comma is associative, and `()` is its unit: parts in parentheses come to just what they come to without them.
pub fn parentheses_do_not_matter()
    ensures associative { (ls ms ns : List Meaning) (env : Environment) (run after : Run) (items : List Item)
        → (sequence (ls ++ (sequence ms ∷ ns)) env run ≡ Ok (items, after)) ↔ (sequence (ls ++ (ms ++ ns)) env run ≡ Ok (items, after)) }
    ensures unit { (ls ns : List Meaning) (env : Environment) (run after : Run) (items : List Item)
        → (sequence (ls ++ (sequence [] ∷ ns)) env run ≡ Ok (items, after)) ↔ (sequence (ls ++ ns) env run ≡ Ok (items, after)) }
{}

/// A path gives nodes in document order, each once, or atomic values.
pub fn paths_are_in_order()
    ensures { (m n : Meaning) (ms : List Meaning) (env : Environment) (run after : Run) (items : List Item)
        → path m (n ∷ ms) env run ≡ Ok (items, after) → IsInOrder (trees_of after) items ⊎ IsAtomic items }
{}
