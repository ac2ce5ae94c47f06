//! Worked examples of the rules, the contract of a function that does nothing.

ghost use Rattle.std.specs.Prelude.{◌≡◌, ◌++◌, [], ◌∷◌, pos, neg_ℤ, codes, Ok, Err, Some, None, true, false};
ghost use Rattle.fault_codes.specs.declared.code.Code.TheVariants.{XPTY0004, FOAR0001, FOAR0002, FORG0001, FORG0006, PXQ0002};
ghost use Rattle.values.specs.declared.atom.Atom.TheVariants.{String, Untyped, Integer};
ghost use Rattle.values.specs.declared.atom.Item.TheVariants as item;
ghost use Rattle.values.specs.declared.operators.Operator.TheVariants.{Add, IntegerDivide, Modulo};
ghost use Rattle.values.specs.declared.compare.Comparison.TheVariants.{Equal, Less};
ghost use Rattle.values.specs.Arithmetic.{arithmetic};
ghost use Rattle.values.specs.Comparisons.{value_compared, general_compared};
ghost use Rattle.values.specs.Atoms.{atomized, truth};
ghost use Rattle.values.specs.Printing.{item_text};
ghost use Rattle.values.specs.Examples.{untyped, string, integer, minimum, trees};

/// What the rules say of some operands, of some items, and of the items of a small tree.
pub fn examples()
    ensures untyped_plus { arithmetic Add (untyped (codes " 7 ")) (integer (pos 1)) ≡ Ok (Some (pos 8)) }
    ensures decimal_plus { arithmetic Add (untyped (codes "7.0")) (integer (pos 1)) ≡ Err FORG0001 }
    ensures counts_first { arithmetic Add [] (Integer (pos 1) ∷ Integer (pos 1) ∷ []) ≡ Err XPTY0004 }
    ensures empty_plus { arithmetic Add [] (string (codes "x")) ≡ Ok None }
    ensures cut { arithmetic IntegerDivide (integer (neg_ℤ (pos 7))) (integer (pos 2)) ≡ Ok (Some (neg_ℤ (pos 3))) }
    ensures overflow { arithmetic IntegerDivide (integer minimum) (integer (neg_ℤ (pos 1))) ≡ Err FOAR0002 }
    ensures zero { arithmetic Modulo (integer (pos 7)) (integer (pos 0)) ≡ Err FOAR0001 }
    ensures dividend { arithmetic Modulo (integer (neg_ℤ (pos 7))) (integer (pos 2)) ≡ Ok (Some (neg_ℤ (pos 1))) }
    ensures fault_first { general_compared Equal (String (codes "x") ∷ Integer (pos 1) ∷ []) (integer (pos 1)) 2 0 ≡ Err XPTY0004 }
    ensures pair_first { general_compared Equal (Integer (pos 1) ∷ String (codes "x") ∷ []) (integer (pos 1)) 2 0 ≡ Ok true }
    ensures as_integers { general_compared Less (untyped (codes "9")) (integer (pos 10)) 1 0 ≡ Ok true }
    ensures as_strings { general_compared Less (untyped (codes "9")) (untyped (codes "10")) 1 0 ≡ Ok false }
    ensures shorter_text { general_compared Equal (string (codes "sixteen letters.")) (untyped (codes "sixteen letters. sixteen letters.")) 1 1 ≡ Ok false }
    ensures no_work_left { general_compared Equal (string (codes "sixteen letters.")) (untyped (codes "sixteen letters. sixteen letters.")) 1 0 ≡ Err PXQ0002 }
    ensures by_value { value_compared Equal (untyped (codes "1")) (integer (pos 1)) ≡ Err XPTY0004 }
    ensures code_points { value_compared Less (string (0xEF ∷ 0xBF ∷ 0xBD ∷ [])) (string (0xF0 ∷ 0x9F ∷ 0x98 ∷ 0x80 ∷ [])) ≡ Ok (Some true) }
    ensures two_truths { truth (item.Atomic (Integer (pos 1)) ∷ item.Node 1 ∷ []) ≡ Err FORG0006 }
    ensures values { atomized trees (item.Node 2 ∷ item.Atomic (Integer (pos 1)) ∷ []) ≡ Ok (Untyped (codes "t") ∷ Integer (pos 1) ∷ []) }
    ensures printed { item_text trees (item.Node 2) ≡ codes "element e {attribute n {\"\"\"&amp;&#9;&#10;&#13;\"}, text {\"t\"}}" }
    ensures empty_printed { item_text trees (item.Node 5) ≡ codes "document {()}" }
{}
