//! Laws of the definitions, each the contract of a function that does nothing.

ghost use Rattle.std.specs.Prelude.{◌≡◌, ◌++◌, ◌∷◌, ℕ, List, [], None, Some, codes};
ghost use Rattle.data_model.specs.Trees.{Trees};
ghost use Rattle.fault_codes.specs.declared.code.Code.TheVariants.{XUDY0015, XUDY0016, XUDY0017};
ghost use Rattle.pending.specs.Primitives.{PrimitiveTerm, insert_before, insert_after, insert_into, insert_into_as_first, insert_into_as_last, insert_attributes, delete, replace_node, replace_value, replace_element_content, rename};
ghost use Rattle.pending.specs.Compatible.{conflict};

/// Worked examples of the rules of compatible lists (XQuery Update Facility 1.0, section 3.2.2).
pub fn examples()
    ensures none { conflict [] ≡ None }
    ensures deletes { conflict (delete 3 ∷ delete 3 ∷ []) ≡ None }
    ensures names { (s t : List ℕ) → conflict (rename 3 s ∷ delete 3 ∷ rename 3 t ∷ []) ≡ Some XUDY0015 }
    ensures names_apart { (s t : List ℕ) → conflict (rename 3 s ∷ rename 4 t ∷ replace_value 3 s ∷ replace_value 4 t ∷ []) ≡ None }
    ensures nodes { (ts us : Trees) → conflict (replace_node 3 ts ∷ insert_before 3 us ∷ replace_node 3 us ∷ []) ≡ Some XUDY0016 }
    ensures values { (s t : List ℕ) → conflict (replace_value 3 s ∷ rename 3 t ∷ replace_value 3 t ∷ []) ≡ Some XUDY0017 }
    ensures contents { (ts us : Trees) → conflict (replace_element_content 3 ts ∷ replace_node 3 us ∷ replace_element_content 3 us ∷ []) ≡ Some XUDY0017 }
    ensures name_first { (ts us : Trees) (s t : List ℕ) → conflict (replace_element_content 3 ts ∷ replace_node 3 ts ∷ replace_element_content 3 us ∷ replace_node 3 us ∷ rename 3 s ∷ rename 3 t ∷ []) ≡ Some XUDY0015 }
    ensures node_before_content { (ts us : Trees) → conflict (replace_element_content 3 ts ∷ replace_element_content 3 us ∷ replace_node 3 ts ∷ replace_node 3 us ∷ []) ≡ Some XUDY0016 }
    ensures insertions { (ts us : Trees) → conflict (insert_before 3 ts ∷ insert_before 3 us ∷ insert_after 3 ts ∷ insert_after 3 us ∷ insert_into 3 ts ∷ insert_into 3 us ∷ insert_into_as_first 3 ts ∷ insert_into_as_first 3 us ∷ insert_into_as_last 3 ts ∷ insert_into_as_last 3 us ∷ insert_attributes 3 ts ∷ insert_attributes 3 us ∷ []) ≡ None }
{}

/// The order of a list does not matter to its code: neighbours anywhere may change places, and so any order comes from any other.
pub fn order()
    ensures { (ps : List PrimitiveTerm) (p q : PrimitiveTerm) (qs : List PrimitiveTerm) → conflict (ps ++ p ∷ q ∷ qs) ≡ conflict (ps ++ q ∷ p ∷ qs) }
{}

/// A compatible list stays so without one of its primitives, and so without any of them.
pub fn fewer()
    ensures { (ps : List PrimitiveTerm) (p : PrimitiveTerm) (qs : List PrimitiveTerm) → conflict (ps ++ p ∷ qs) ≡ None → conflict (ps ++ qs) ≡ None }
{}
