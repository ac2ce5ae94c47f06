//! Laws of what the printed text of a tree means, each the contract of a function that does nothing.

ghost use Rattle.std.specs.Prelude.{◌≡◌, ◌≤◌, ◌<◌, ◌+◌, ◌*◌, ℕ, true, false, [], Some, Ok, Err};
ghost use Rattle.std.specs.Str.{chars};
ghost use Rattle.data_model.specs.Changes.{renumbered};
ghost use Rattle.data_model.specs.Trees.{Trees, Place, bytes_in, find, size};
ghost use Rattle.trees.specs.Forest.{ForestTerm, IsForest, opening_forest};
ghost use Rattle.fault_codes.specs.declared.code.Code.TheVariants.{PXQ0002, PXQ0003};
ghost use Rattle.values.specs.Examples.{trees};
ghost use Rattle.values.specs.Printing.{item_text};
ghost use Rattle.values.specs.declared.atom.Item.TheVariants as item;
ghost use Rattle.query_grammar.specs.declared.ast.Expr.{Expr};
ghost use Rattle.static_checks.specs.Static.{parsed};
ghost use Rattle.query_meaning.specs.Meaning.{evaluated, Outcome};
ghost use Rattle.query_meaning.specs.Running.{most_nodes, most_work};
ghost use Rattle.printed_trees.specs.Constructors.{IsPrintableTree, item_expression};
ghost use Rattle.printed_meaning.specs.Examples.{chain, made_again, made_by, sixteen_bytes};
ghost use Rattle.printed_meaning.specs.Made.{anonymous, depths, have_room, tree_at, work_of, IsMade};

/// The constructor expression of a tree that can be printed, with room at each node, makes that tree over any forest, where the depths of its
/// nodes add up to no more than an evaluation may make, and whose work is no more than an evaluation may do.
pub fn printed_trees_mean_themselves()
    ensures { (ts : Trees) (i : ℕ) (x : Place) (lent : ForestTerm)
        → find i ts ≡ Some x → IsPrintableTree x.content x.attributes x.children → have_room (tree_at x) ≡ true → IsForest lent
        → depths 1 (tree_at x) ≤ most_nodes → work_of (tree_at x) ≤ most_work
        → (o : Outcome) × (evaluated (item_expression ts (item.Node i)) lent ≡ Ok o) × IsMade (tree_at x) lent o }
{}

/// Where the depths add up to more, it comes to `PXQ0003`, if the work is no more.
pub fn deeper_trees_are_refused()
    ensures { (ts : Trees) (i : ℕ) (x : Place) (lent : ForestTerm)
        → find i ts ≡ Some x → IsPrintableTree x.content x.attributes x.children → have_room (tree_at x) ≡ true → IsForest lent
        → most_nodes < depths 1 (tree_at x) → work_of (tree_at x) ≤ most_work
        → evaluated (item_expression ts (item.Node i)) lent ≡ Err PXQ0003 }
{}

/// Where the work is more, it comes to `PXQ0002`, if the depths add up to no more.
pub fn dearer_trees_are_refused()
    ensures { (ts : Trees) (i : ℕ) (x : Place) (lent : ForestTerm)
        → find i ts ≡ Some x → IsPrintableTree x.content x.attributes x.children → have_room (tree_at x) ≡ true → IsForest lent
        → depths 1 (tree_at x) ≤ most_nodes → most_work < work_of (tree_at x)
        → evaluated (item_expression ts (item.Node i)) lent ≡ Err PXQ0002 }
{}

/// So the tree's printed text, parsed at any level, makes that tree, where there are identities and work for it.
pub fn printed_texts_make_their_trees()
    ensures { (level : ℕ) (ts : Trees) (i : ℕ) (x : Place) (lent : ForestTerm)
        → find i ts ≡ Some x → IsPrintableTree x.content x.attributes x.children → have_room (tree_at x) ≡ true → IsForest lent
        → depths 1 (tree_at x) ≤ most_nodes → work_of (tree_at x) ≤ most_work
        → (y : Expr) × (o : Outcome) × (parsed level (chars (item_text ts (item.Node i))) ≡ Ok y) × (evaluated y lent ≡ Ok o) × IsMade (tree_at x) lent o }
{}

/// With room at each node, making a tree takes at most 5 units of work for each node and, as it has at most 60 levels, 60 for each 16 bytes of
/// its texts. So where the depths of its nodes add up to no more than an evaluation may make, an evaluation may do its work too if its texts have at
/// most 25,000,000 bytes.
pub fn work_is_bounded()
    ensures bound { (t : Trees) → have_room t ≡ true → 16 * work_of t ≤ 80 * size t + 60 * bytes_in t }
    ensures enough { (t : Trees) → have_room t ≡ true → depths 1 t ≤ most_nodes → bytes_in t ≤ 25000000 → work_of t ≤ most_work }
{}

/// Depths, identities, work and room of small trees; and an element with an attribute and a text, made over a forest of no documents, by just
/// its work.
pub fn examples()
    ensures sum { depths 1 trees ≡ 10 }
    ensures identities { anonymous (renumbered 7 trees) ≡ anonymous trees }
    // 4 + 4 units for an attribute and a text, 5 for the element that has both, 2 for the document, and 3 for one that is empty
    ensures work { work_of trees ≡ 18 }
    // 5 units for the text, 3 for each element, which copies it
    ensures copied { work_of sixteen_bytes ≡ 11 }
    // 3 units for the innermost, and 2 for each around it
    ensures work_of_chain { work_of (chain 60) ≡ 121 }
    ensures room { have_room trees ≡ true }
    ensures high { have_room (chain 60) ≡ true }
    ensures too_high { have_room (chain 61) ≡ false }
    ensures made { evaluated (item_expression trees (item.Node 2)) (opening_forest []) ≡ Ok made_again }
    ensures by_its_work { made_by 13 (item_expression trees (item.Node 2)) ≡ Ok made_again }
    ensures by_less { made_by 12 (item_expression trees (item.Node 2)) ≡ Err PXQ0002 }
{}
