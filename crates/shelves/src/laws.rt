//! Laws of the definitions, each the contract of a function that does nothing.

ghost use Rattle.std.specs.Prelude.{◌≡◌, ℕ, ◌≤◌, ◌↔◌, ◌⊎◌, IsSome, List, [], ◌∷◌, true, false};
ghost use Rattle.data_model.specs.Trees.{Trees, append, count, find, children_of, attributes_of};
ghost use Rattle.data_model.specs.Changes.{with_content, taken_out, all_moved_below, CanAllMoveBelow};
ghost use Rattle.data_model.specs.declared.node.Part.{Part};
ghost use Rattle.data_model.specs.declared.axis.Axis.TheVariants.{Child, Attribute, SelfAxis};
ghost use Rattle.data_model.specs.Axes.{on_axis, is_child, is_attribute, is_parent, is_ancestor};
ghost use Rattle.shelves.specs.Shelf.{ShelfTerm, shelf_trees, IsShelf};

/// Laws of the axes, in trees whose identities are distinct.
///
/// The axes of children and attributes list what a node says (XQuery 1.0, section 3.2.1.1); what has a parent is its child or its
/// attribute, and not both; the other axes are made of these.
pub fn axes()
    ensures children { (ts : Trees) (a : ℕ) → ((i : ℕ) → count i ts ≤ 1) → on_axis Child ts a ≡ children_of a ts }
    ensures attributes { (ts : Trees) (a : ℕ) → ((i : ℕ) → count i ts ≤ 1) → on_axis Attribute ts a ≡ attributes_of a ts }
    ensures parent_of_child { (ts : Trees) (a b : ℕ) → ((i : ℕ) → count i ts ≤ 1)
        → (is_parent ts b a ≡ true) ↔ ((is_child ts a b ≡ true) ⊎ (is_attribute ts a b ≡ true)) }
    ensures not_both { (ts : Trees) (a b : ℕ) → ((i : ℕ) → count i ts ≤ 1)
        → is_child ts a b ≡ true → is_attribute ts a b ≡ false }
    ensures ancestor { (ts : Trees) (a b : ℕ) → ((i : ℕ) → count i ts ≤ 1)
        → (is_ancestor ts a b ≡ true) ↔ ((is_parent ts a b ≡ true) ⊎ ((p : ℕ) × (is_parent ts a p ≡ true) × (is_ancestor ts p b ≡ true))) }
    ensures own { (ts : Trees) (a : ℕ) → ((i : ℕ) → count i ts ≤ 1) → IsSome (find a ts) → on_axis SelfAxis ts a ≡ a ∷ [] }
{}

/// No call of a shelf loses a node of either forest.
///
/// A node stands as it was, with the same nodes round it, where own trees come after the others, as `make`, `copy` and `plant` let them.
/// It still stands where own trees are moved, are taken out, or have a node of another name or text.
pub fn nodes_stay()
    ensures more { (s : ShelfTerm) (us : Trees) (n i : ℕ) → IsSome (find i (shelf_trees s))
        → find i (shelf_trees (record s { own = record s.own { trees = append s.own.trees us; next = n } })) ≡ find i (shelf_trees s) }
    ensures moved { (s : ShelfTerm) (part : Part) (p m : ℕ) (ks : List ℕ) (i : ℕ) → IsShelf s → CanAllMoveBelow part p m ks s.own.trees → IsSome (find i (shelf_trees s))
        → IsSome (find i (shelf_trees (record s { own = record s.own { trees = all_moved_below part p m ks s.own.trees } }))) }
    ensures taken { (s : ShelfTerm) (k i : ℕ) → IsSome (find i (shelf_trees s))
        → IsSome (find i (shelf_trees (record s { own = record s.own { trees = taken_out k s.own.trees } }))) }
    ensures named { (s : ShelfTerm) (k i : ℕ) (name : List ℕ) → IsSome (find i (shelf_trees s))
        → IsSome (find i (shelf_trees (record s { own = record s.own { trees = with_content k (λ c. record c { name = name }) s.own.trees } }))) }
    ensures texted { (s : ShelfTerm) (k i : ℕ) (text : List ℕ) → IsSome (find i (shelf_trees s))
        → IsSome (find i (shelf_trees (record s { own = record s.own { trees = with_content k (λ c. record c { text = text }) s.own.trees } }))) }
{}
