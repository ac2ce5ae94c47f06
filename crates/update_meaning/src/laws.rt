//! Laws of the definition, each the contract of a function that does nothing.

ghost use Rattle.std.specs.Prelude.{◌≡◌, ◌++◌, ◌∷◌, ℕ, List, [], codes, Ok, Err, true, not};
ghost use Rattle.data_model.specs.Trees.{Trees, no_trees};
ghost use Rattle.data_model.specs.Tidy.{IsTidy};
ghost use Rattle.pending.specs.Primitives.{PrimitiveTerm, insert_before, insert_after, insert_into, insert_into_as_first, insert_attributes, delete, replace_node, replace_value, replace_element_content, rename};
ghost use Rattle.fault_codes.specs.declared.code.Code.TheVariants.{XUDY0021};
ghost use Rattle.update_meaning.specs.Effects.{staged, StandNowhere};
ghost use Rattle.update_meaning.specs.Results.{tidied, updated, are_apart, are_filled, are_documents, is_within_limits};
ghost use Rattle.update_meaning.specs.Changed.{rooted_at, chosen, in_places, changed, with_changed, updated_store, updated_copies};
ghost use Rattle.update_meaning.specs.Examples.{attribute, text, elem, filled, document, both, a_k_x, a_k, r_of};

/// What some lists of primitives make of a small document.
pub fn examples()
    // the last of two first insertions comes first
    ensures first_twice { updated (insert_into_as_first 2 (elem 4 (codes "b")) ∷ insert_into_as_first 2 (elem 6 (codes "c")) ∷ []) (document (elem 2 (codes "a")))
        ≡ Ok (document (filled 2 (codes "a") no_trees (both (elem 6 (codes "c")) (elem 4 (codes "b"))))) }
    // new content wins over an insertion
    ensures content_wins { updated (replace_element_content 6 (text 9 (codes "n")) ∷ insert_into 6 (elem 11 (codes "d")) ∷ []) (document a_k_x)
        ≡ Ok (document (filled 6 (codes "a") (attribute 7 (codes "k") (codes "1")) (text 9 (codes "n")))) }
    // what is inserted after a deleted node stays
    ensures beside_deleted { updated (delete 6 ∷ insert_after 6 (elem 10 (codes "f")) ∷ []) (document a_k_x) ≡ Ok (document (elem 10 (codes "f"))) }
    // two attributes of one name
    ensures one_name { updated (rename 7 (codes "q") ∷ []) (document (r_of (codes "p") (codes "q"))) ≡ Err XUDY0021 }
    // names that are exchanged
    ensures names_swapped { updated (rename 7 (codes "q") ∷ rename 8 (codes "p") ∷ []) (document (r_of (codes "p") (codes "q")))
        ≡ Ok (document (r_of (codes "q") (codes "p"))) }
    // texts that stand next to each other then are one, with the first one's identity
    ensures texts_merge { updated (delete 9 ∷ []) (document (filled 7 (codes "r") no_trees (both (text 8 (codes "a")) (both (elem 9 (codes "m")) (text 10 (codes "b"))))))
        ≡ Ok (document (filled 7 (codes "r") no_trees (text 8 (codes "ab")))) }
    // an empty text goes
    ensures empty_text { updated (replace_element_content 6 (text 9 []) ∷ []) (document a_k_x) ≡ Ok (document a_k) }
    // what is inserted before a replaced node stays
    ensures replaced_and_before { updated (replace_node 6 no_trees ∷ insert_before 6 (elem 9 (codes "b")) ∷ []) (document a_k) ≡ Ok (document (elem 9 (codes "b"))) }
    // a replaced node isn't there to be deleted
    ensures replaced_and_deleted { updated (replace_node 6 (elem 9 (codes "z")) ∷ delete 6 ∷ []) (document a_k) ≡ Ok (document (elem 9 (codes "z"))) }
    // a document has no parent
    ensures no_parent { updated (delete 1 ∷ replace_node 1 no_trees ∷ []) (document a_k_x) ≡ Ok (document a_k_x) }
    // an attribute takes the place of a deleted one
    ensures new_for_old { updated (insert_attributes 6 (attribute 9 (codes "k") (codes "2")) ∷ delete 7 ∷ []) (document a_k)
        ≡ Ok (document (filled 6 (codes "a") (attribute 9 (codes "k") (codes "2")) no_trees)) }
    // the last of two insertions after a node comes first
    ensures after_twice { updated (insert_after 6 (elem 9 (codes "x")) ∷ insert_after 6 (elem 10 (codes "y")) ∷ []) (document a_k)
        ≡ Ok (document (both a_k (both (elem 10 (codes "y")) (elem 9 (codes "x"))))) }
{}

/// What some lists of primitives make of the trees of an evaluation, some of which are the copies that they change.
pub fn copies_examples()
    // other trees stay, also where a target is theirs
    ensures others_stay { updated_copies (6 ∷ []) (rename 6 (codes "b") ∷ rename 9 (codes "c") ∷ []) (both a_k (elem 9 (codes "z")))
        ≡ Ok (both (filled 6 (codes "b") (attribute 7 (codes "k") (codes "1")) no_trees) (elem 9 (codes "z"))) }
    // a text with no parent may be empty
    ensures empty_text { updated_copies (3 ∷ []) (replace_value 3 [] ∷ []) (text 3 (codes "x")) ≡ Ok (text 3 []) }
    // texts with no parent are no neighbours
    ensures two_texts { updated_copies (3 ∷ 4 ∷ []) [] (both (text 3 (codes "x")) (text 4 (codes "y"))) ≡ Ok (both (text 3 (codes "x")) (text 4 (codes "y"))) }
    // below a root they are
    ensures texts_merge { updated_copies (3 ∷ []) (delete 5 ∷ []) (filled 3 (codes "r") no_trees (both (text 4 (codes "a")) (both (elem 5 (codes "m")) (text 6 (codes "b")))))
        ≡ Ok (filled 3 (codes "r") no_trees (text 4 (codes "ab"))) }
    // a root has no parent
    ensures no_parent { updated_copies (6 ∷ []) (delete 6 ∷ replace_node 6 (elem 9 (codes "z")) ∷ []) a_k ≡ Ok a_k }
    // two attributes of one name, in a copy and in another tree
    ensures one_name { updated_copies (6 ∷ []) (rename 7 (codes "q") ∷ []) (r_of (codes "p") (codes "q")) ≡ Err XUDY0021 }
    ensures not_judged { updated_copies (3 ∷ []) [] (both (elem 3 (codes "z")) (r_of (codes "q") (codes "q"))) ≡ Ok (both (elem 3 (codes "z")) (r_of (codes "q") (codes "q"))) }
{}

/// A store's update is that of the trees of documents: the one definition, with these as the trees that are changed.
pub fn stores()
    ensures { (ps : List PrimitiveTerm) (ts : Trees) → updated_store ps ts ≡ updated ps ts }
{}

/// Copies that are changed where they stand are as if they were changed alone, and put back in their places; the other trees stay.
pub fn copies()
    ensures alone { (is : List ℕ) (ps : List PrimitiveTerm) (ts : Trees) → chosen (rooted_at is) (with_changed (rooted_at is) ps ts) ≡ changed ps (chosen (rooted_at is) ts) }
    ensures placed { (is : List ℕ) (ps : List PrimitiveTerm) (ts : Trees) → in_places (rooted_at is) ts (changed ps (chosen (rooted_at is) ts)) ≡ with_changed (rooted_at is) ps ts }
    ensures others { (is : List ℕ) (ps : List PrimitiveTerm) (ts : Trees)
        → chosen (λ c. not (rooted_at is c)) (with_changed (rooted_at is) ps ts) ≡ chosen (λ c. not (rooted_at is c)) ts }
{}

/// The order of deletes does not matter: neighbours anywhere may change places.
pub fn deletes()
    ensures order { (ps : List PrimitiveTerm) (i j : ℕ) (qs : List PrimitiveTerm) (ts : Trees) → staged (ps ++ delete i ∷ delete j ∷ qs) ts ≡ staged (ps ++ delete j ∷ delete i ∷ qs) ts }
    ensures once { (ps : List PrimitiveTerm) (i : ℕ) (qs : List PrimitiveTerm) (ts : Trees) → staged (ps ++ delete i ∷ delete i ∷ qs) ts ≡ staged (ps ++ delete i ∷ qs) ts }
{}

/// Primitives whose targets stand in none of the trees change nothing.
pub fn absent()
    ensures { (ps : List PrimitiveTerm) (ts : Trees) → StandNowhere ps ts → staged ps ts ≡ ts }
{}

/// The empty list changes no store that is tidy and within the limits.
pub fn nothing()
    ensures { (ts : Trees) → IsTidy ts → is_within_limits ts ≡ true → updated [] ts ≡ Ok ts }
{}

/// Of what is tidied no two texts stand next to each other, none is empty, and all are trees of documents; tidying it again changes nothing.
pub fn tidying()
    ensures apart { (ts : Trees) → are_apart (tidied ts) ≡ true }
    ensures filled { (ts : Trees) → are_filled (tidied ts) ≡ true }
    ensures documents { (ts : Trees) → are_documents (tidied ts) ≡ true }
    ensures again { (ts : Trees) → tidied (tidied ts) ≡ tidied ts }
{}
