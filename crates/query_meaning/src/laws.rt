//! Worked examples of the definition, each the contract of a function that does nothing. An expression's text stands above what it gives.

ghost use Rattle.std.specs.Prelude.{◌≡◌, [], ◌∷◌, pos, codes, Some, None, Ok, Err, true, false};
ghost use Rattle.data_model.specs.Trees.{no_trees, tree, Content};
ghost use Rattle.data_model.specs.declared.axis.Axis.TheVariants as axis;
ghost use Rattle.data_model.specs.declared.node.Kind.TheVariants as kind;
ghost use Rattle.pending.specs.Primitives.{insert_before, insert_after, insert_into, insert_into_as_first, insert_into_as_last, insert_attributes, replace_node, replace_element_content};
ghost use Rattle.pending.specs.Primitives.{delete as delete_node, replace_value as replace_text, rename as rename_to};
ghost use Rattle.fault_codes.specs.declared.code.Code.TheVariants.{XPST0008, XPST0017, XPDY0002, XPTY0004, XPTY0018, XPTY0019, XPTY0020, FOAR0001, FOAR0002, FODC0002, FORG0001, FORG0006, XQTY0024, XQDY0025, XQDY0026, XQDY0041, XQDY0064, XQDY0072, XQDY0074, XUTY0004, XUTY0005, XUTY0006, XUTY0007, XUTY0008, XUTY0010, XUTY0011, XUTY0012, XUTY0022, XUDY0009, XUDY0027, XUDY0029, XUDY0030, XUTY0013, XUDY0014, XUDY0015, XUDY0021, PXQ0002, PXQ0003};
ghost use Rattle.values.specs.declared.compare.Comparison.TheVariants.{Equal, Less};
ghost use Rattle.values.specs.declared.operators.Operator.TheVariants.{Add, IntegerDivide, Modulo};
ghost use Rattle.query_grammar.specs.declared.ast.Expr.TheOpen.{Expr-F};
ghost use Rattle.query_grammar.specs.declared.ast.Binary.TheVariants.{Or, And, General, Value, Is, Precedes, Follows, To, Arithmetic, Union, Intersect, Except};
ghost use Rattle.query_grammar.specs.declared.ast.Clause.TheVariants.{For, ForAt};
ghost use Rattle.query_grammar.specs.declared.ast.KindTest.TheVariants as test;
ghost use Rattle.query_grammar.specs.declared.ast.Place.TheVariants.{Into, FirstInto, LastInto, After, Before};
ghost use Rattle.query_grammar.specs.declared.ast.Quantifier.TheVariants.{Some as AtLeastOne, Every};
ghost use Rattle.query_grammar.specs.declared.ast.Sign.TheVariants.{Minus, Plus};
ghost use Rattle.query_meaning.specs.Copies.{copy};
ghost use Rattle.query_meaning.specs.Meaning.{meaning_of};
ghost use Rattle.query_meaning.specs.Examples.{int, str, var, list, call, binary, elem, elem_named, attr, txt, comment, instr, instr_named, doc_node, named, any, child, filtered_by, path, every_node, let_in, db, db_a, below_a, attribute_k, inserting, deleting, replacing, replacing_value, renaming, said, said_after, said_by, said_of_filled, said_of_filled_by, sixteen, with_turns, with_nodes, asked, asked_of_filled, alone, one, with_r, below_r, set, copy_c, c, below, children_of, submitted};

/// Operators.
#[tactic(auto, unfolding(crate::proofs::Compute::everything))]
pub fn operators()
    // 1 + 1
    ensures sum { said (binary (Arithmetic Add) (int 1) (int 1)) ≡ Ok (codes "2" ∷ []) }
    // -7 idiv 2
    ensures cut { said (binary (Arithmetic IntegerDivide) (meaning_of (Expr-F.Signed (Minus ∷ []) (int 7))) (int 2)) ≡ Ok (codes "-3" ∷ []) }
    // - - 7
    ensures signs { said (meaning_of (Expr-F.Signed (Minus ∷ Minus ∷ []) (int 7))) ≡ Ok (codes "7" ∷ []) }
    // + ()
    ensures sign_of_nothing { said (meaning_of (Expr-F.Signed (Plus ∷ []) (list []))) ≡ Ok [] }
    // 7 idiv 0
    ensures zero { said (binary (Arithmetic IntegerDivide) (int 7) (int 0)) ≡ Err FOAR0001 }
    // 9223372036854775807 + 1
    ensures overflow { said (binary (Arithmetic Add) (int 9223372036854775807) (int 1)) ≡ Err FOAR0002 }
    // 1 + "x"
    ensures no_number { said (binary (Arithmetic Add) (int 1) (str (codes "x"))) ≡ Err XPTY0004 }
    // 1 + text {"x"}
    ensures no_integer { said (binary (Arithmetic Add) (int 1) (txt (str (codes "x")))) ≡ Err FORG0001 }
    // 2 to 4
    ensures range { said (binary To (int 2) (int 4)) ≡ Ok (codes "2" ∷ codes "3" ∷ codes "4" ∷ []) }
    // 4 to 2
    ensures empty_range { said (binary To (int 4) (int 2)) ≡ Ok [] }
    // count(1 to 10001)
    ensures too_many { said (call (codes "count") ((binary To (int 1) (int 10001)) ∷ [])) ≡ Err PXQ0002 }
    // ("x", 1) = 1
    ensures pairs { said (binary (General Equal) (list ((str (codes "x")) ∷ (int 1) ∷ [])) (int 1)) ≡ Err XPTY0004 }
    // (1, "x") = 1
    ensures first_pair { said (binary (General Equal) (list ((int 1) ∷ (str (codes "x")) ∷ [])) (int 1)) ≡ Ok (codes "true()" ∷ []) }
    // "a" lt "b"
    ensures by_value { said (binary (Value Less) (str (codes "a")) (str (codes "b"))) ≡ Ok (codes "true()" ∷ []) }
    // () eq 1
    ensures nothing_by_value { said (binary (Value Equal) (list []) (int 1)) ≡ Ok [] }
    // 1 or (1 idiv 0)
    ensures decided_or { said (binary Or (int 1) (binary (Arithmetic IntegerDivide) (int 1) (int 0))) ≡ Ok (codes "true()" ∷ []) }
    // 0 and (1 idiv 0)
    ensures decided_and { said (binary And (int 0) (binary (Arithmetic IntegerDivide) (int 1) (int 0))) ≡ Ok (codes "false()" ∷ []) }
    // 0 or "x"
    ensures undecided_or { said (binary Or (int 0) (str (codes "x"))) ≡ Ok (codes "true()" ∷ []) }
    // 1 and (1, 2)
    ensures no_truth { said (binary And (int 1) (list ((int 1) ∷ (int 2) ∷ []))) ≡ Err FORG0006 }
    // doc("db") is doc("db")
    ensures same { said (binary Is db db) ≡ Ok (codes "true()" ∷ []) }
    // doc("db") << text {"x"}
    ensures before { said (binary Precedes db (txt (str (codes "x")))) ≡ Ok (codes "true()" ∷ []) }
    // doc("db") >> text {"x"}
    ensures after { said (binary Follows db (txt (str (codes "x")))) ≡ Ok (codes "false()" ∷ []) }
    // 1 is ()
    ensures no_node { said (binary Is (int 1) (list [])) ≡ Err XPTY0004 }
    // doc("db") union 1
    ensures no_set { said (binary Union db (int 1)) ≡ Err XPTY0004 }
{}

/// Steps, paths, filters and sets, with `$r` bound to `element r {element a {"1"}, element b {"2"}, element a {"3"}}`.
#[tactic(auto, unfolding(crate::proofs::Compute::everything))]
pub fn paths()
    // $r/a[2]
    ensures second { below_r (named axis.Child (codes "a") (int 2 ∷ []) ∷ []) ≡ Ok (codes "element a {text {\"3\"}}" ∷ []) }
    // $r/a/preceding-sibling::*[1]
    ensures backward { below_r (child (codes "a") ∷ any axis.PrecedingSibling (int 1 ∷ []) ∷ []) ≡ Ok (codes "element b {text {\"2\"}}" ∷ []) }
    // $r/a[2]/(preceding-sibling::*)[1]
    ensures forward { below_r (named axis.Child (codes "a") (int 2 ∷ []) ∷ filtered_by (any axis.PrecedingSibling []) (int 1) ∷ []) ≡ Ok (codes "element a {text {\"1\"}}" ∷ []) }
    // ($r/b, $r/a)/string()
    ensures in_document_order { said (with_r (path (list ((path (var (codes "r")) (child (codes "b") ∷ [])) ∷ (path (var (codes "r")) (child (codes "a") ∷ [])) ∷ [])) ((call (codes "string") ([])) ∷ []))) ≡ Ok (codes "\"2\"" ∷ codes "\"1\"" ∷ codes "\"3\"" ∷ []) }
    // ($r/b | $r/a)/string()
    ensures united { said (with_r (path (binary Union (path (var (codes "r")) (child (codes "b") ∷ [])) (path (var (codes "r")) (child (codes "a") ∷ []))) ((call (codes "string") ([])) ∷ []))) ≡ Ok (codes "\"1\"" ∷ codes "\"2\"" ∷ codes "\"3\"" ∷ []) }
    // $r/* intersect $r/a
    ensures intersect { said (with_r (binary Intersect (path (var (codes "r")) (any axis.Child [] ∷ [])) (path (var (codes "r")) (child (codes "a") ∷ [])))) ≡ Ok (codes "element a {text {\"1\"}}" ∷ codes "element a {text {\"3\"}}" ∷ []) }
    // $r/* except $r/a
    ensures except { said (with_r (binary Except (path (var (codes "r")) (any axis.Child [] ∷ [])) (path (var (codes "r")) (child (codes "a") ∷ [])))) ≡ Ok (codes "element b {text {\"2\"}}" ∷ []) }
    // $r//a[1]
    ensures slashes { below_r (every_node ∷ named axis.Child (codes "a") (int 1 ∷ []) ∷ []) ≡ Ok (codes "element a {text {\"1\"}}" ∷ []) }
    // $r/descendant::a
    ensures descendants { below_r (named axis.Descendant (codes "a") [] ∷ []) ≡ Ok (codes "element a {text {\"1\"}}" ∷ codes "element a {text {\"3\"}}" ∷ []) }
    // $r/b/following-sibling::*
    ensures following { below_r (child (codes "b") ∷ any axis.FollowingSibling [] ∷ []) ≡ Ok (codes "element a {text {\"3\"}}" ∷ []) }
    // count($r/b/ancestor::*)
    ensures ancestors { said (with_r (call (codes "count") ((path (var (codes "r")) (child (codes "b") ∷ any axis.Ancestor [] ∷ [])) ∷ []))) ≡ Ok (codes "1" ∷ []) }
    // $r/b/self::a
    ensures itself { below_r (child (codes "b") ∷ named axis.SelfAxis (codes "a") [] ∷ []) ≡ Ok [] }
    // $r/*[last()]
    ensures last { below_r (any axis.Child (call (codes "last") [] ∷ []) ∷ []) ≡ Ok (codes "element a {text {\"3\"}}" ∷ []) }
    // $r/(a, 1)
    ensures mixed { below_r (list (child (codes "a") ∷ int 1 ∷ []) ∷ []) ≡ Err XPTY0018 }
    // $r/(a, 1)/b
    ensures mixed_before_the_last { below_r (list (child (codes "a") ∷ int 1 ∷ []) ∷ child (codes "b") ∷ []) ≡ Err XPTY0019 }
    // (1, $r)/a
    ensures atomic { said (with_r (path (list ((int 1) ∷ (var (codes "r")) ∷ [])) (child (codes "a") ∷ []))) ≡ Err XPTY0019 }
    // 1[a]
    ensures step_from_an_integer { said (filtered_by (int 1) (child (codes "a"))) ≡ Err XPTY0020 }
    // a
    ensures no_context { said (child (codes "a")) ≡ Err XPDY0002 }
    // (5, 6)[2]
    ensures filtered { said (filtered_by (list ((int 5) ∷ (int 6) ∷ [])) (int 2)) ≡ Ok (codes "6" ∷ []) }
    // doc("db")/a/@k
    ensures attribute { said_of_filled attribute_k ≡ Ok (codes "attribute k {\"1\"}" ∷ []) }
    // doc("db")/a/@k/following-sibling::*
    ensures no_siblings { said_of_filled (path attribute_k (any axis.FollowingSibling [] ∷ [])) ≡ Ok [] }
    // doc("db")/a/comment()
    ensures comment { said_of_filled (below_a axis.Child test.Comment) ≡ Ok (codes "comment {\"c\"}" ∷ []) }
{}

/// Variables, conditions, quantifiers and FLWOR.
#[tactic(auto, unfolding(crate::proofs::Compute::everything))]
pub fn sequences()
    // for $x at $i in ("c", "a", "b") order by $x descending return $i
    ensures descending { said (meaning_of (Expr-F.Flwor (ForAt record { variable = codes "x"; source = (list ((str (codes "c")) ∷ (str (codes "a")) ∷ (str (codes "b")) ∷ [])) } (codes "i") ∷ []) None (record { key = var (codes "x"); is_descending = true } ∷ []) (var (codes "i")))) ≡ Ok (codes "1" ∷ codes "3" ∷ codes "2" ∷ []) }
    // for $x at $i in ("c", "a", "b") order by $x return $i
    ensures ascending { said (meaning_of (Expr-F.Flwor (ForAt record { variable = codes "x"; source = (list ((str (codes "c")) ∷ (str (codes "a")) ∷ (str (codes "b")) ∷ [])) } (codes "i") ∷ []) None (record { key = var (codes "x"); is_descending = false } ∷ []) (var (codes "i")))) ≡ Ok (codes "2" ∷ codes "3" ∷ codes "1" ∷ []) }
    // for $x at $i in (1, "a") order by $x return $i
    ensures mixed_keys { said (meaning_of (Expr-F.Flwor (ForAt record { variable = codes "x"; source = (list ((int 1) ∷ (str (codes "a")) ∷ [])) } (codes "i") ∷ []) None (record { key = var (codes "x"); is_descending = false } ∷ []) (var (codes "i")))) ≡ Err XPTY0004 }
    // for $x at $i in ("b", "a") order by (if ($x = "a") then () else 1) descending return $i
    ensures empty_key_last { said (meaning_of (Expr-F.Flwor (ForAt record { variable = codes "x"; source = (list ((str (codes "b")) ∷ (str (codes "a")) ∷ [])) } (codes "i") ∷ []) None (record { key = meaning_of (Expr-F.If (binary (General Equal) (var (codes "x")) (str (codes "a"))) (list []) (int 1)); is_descending = true } ∷ []) (var (codes "i")))) ≡ Ok (codes "1" ∷ codes "2" ∷ []) }
    // for $x in (1, 2, 3) where $x = 2 return ($x, $x)
    ensures condition { said (meaning_of (Expr-F.Flwor (For record { variable = codes "x"; source = (list ((int 1) ∷ (int 2) ∷ (int 3) ∷ [])) } ∷ []) (Some (binary (General Equal) (var (codes "x")) (int 2))) [] (list ((var (codes "x")) ∷ (var (codes "x")) ∷ [])))) ≡ Ok (codes "2" ∷ codes "2" ∷ []) }
    // some $x in (1, 2, "x") satisfies $x = 2
    ensures some { said (meaning_of (Expr-F.Quantified AtLeastOne (record { variable = codes "x"; source = (list ((int 1) ∷ (int 2) ∷ (str (codes "x")) ∷ [])) } ∷ []) (binary (General Equal) (var (codes "x")) (int 2)))) ≡ Ok (codes "true()" ∷ []) }
    // every $x in (1, 2, "x") satisfies $x = 1
    ensures every { said (meaning_of (Expr-F.Quantified Every (record { variable = codes "x"; source = (list ((int 1) ∷ (int 2) ∷ (str (codes "x")) ∷ [])) } ∷ []) (binary (General Equal) (var (codes "x")) (int 1)))) ≡ Ok (codes "false()" ∷ []) }
    // every $x in () satisfies 0
    ensures every_of_none { said (meaning_of (Expr-F.Quantified Every (record { variable = codes "x"; source = (list []) } ∷ []) (int 0))) ≡ Ok (codes "true()" ∷ []) }
    // if ("") then 1 else 2
    ensures otherwise { said (meaning_of (Expr-F.If (str (codes "")) (int 1) (int 2))) ≡ Ok (codes "2" ∷ []) }
    // $y
    ensures unbound { said (var (codes "y")) ≡ Err XPST0008 }
    // let $x := 1 return let $x := 2 return $x
    ensures hidden { said (let_in (codes "x") (int 1) (let_in (codes "x") (int 2) (var (codes "x")))) ≡ Ok (codes "2" ∷ []) }
{}

/// Each function.
#[tactic(auto, unfolding(crate::proofs::Compute::everything))]
pub fn functions()
    // doc("no")
    ensures no_document { said (call (codes "doc") ((str (codes "no")) ∷ [])) ≡ Err FODC0002 }
    // doc(())
    ensures no_name { said (call (codes "doc") ((list []) ∷ [])) ≡ Ok [] }
    // doc("db")
    ensures document { said db ≡ Ok (codes "document {()}" ∷ []) }
    // root($r/a) is $r
    ensures root { said (with_r (binary Is (call (codes "root") ((path (var (codes "r")) (child (codes "b") ∷ [])) ∷ [])) (var (codes "r")))) ≡ Ok (codes "true()" ∷ []) }
    // name($r)
    ensures name { said (with_r (call (codes "name") ((var (codes "r")) ∷ []))) ≡ Ok (codes "\"r\"" ∷ []) }
    // name(text {"x"})
    ensures no_name_of_text { said (call (codes "name") ((txt (str (codes "x"))) ∷ [])) ≡ Ok (codes "\"\"" ∷ []) }
    // name(1)
    ensures no_node { said (call (codes "name") ((int 1) ∷ [])) ≡ Err XPTY0004 }
    // string($r)
    ensures string { said (with_r (call (codes "string") ((var (codes "r")) ∷ []))) ≡ Ok (codes "\"123\"" ∷ []) }
    // string(7)
    ensures string_of_integer { said (call (codes "string") ((int 7) ∷ [])) ≡ Ok (codes "\"7\"" ∷ []) }
    // string((1, 2))
    ensures two_strings { said (call (codes "string") ((list ((int 1) ∷ (int 2) ∷ [])) ∷ [])) ≡ Err XPTY0004 }
    // string()
    ensures no_context { said (call (codes "string") ([])) ≡ Err XPDY0002 }
    // data(($r/b, 1))
    ensures data { said (with_r (call (codes "data") ((list ((path (var (codes "r")) (child (codes "b") ∷ [])) ∷ (int 1) ∷ [])) ∷ []))) ≡ Ok (codes "\"2\"" ∷ codes "1" ∷ []) }
    // count((1, 2))
    ensures count { said (call (codes "count") ((list ((int 1) ∷ (int 2) ∷ [])) ∷ [])) ≡ Ok (codes "2" ∷ []) }
    // empty(())
    ensures empty { said (call (codes "empty") ((list []) ∷ [])) ≡ Ok (codes "true()" ∷ []) }
    // exists(())
    ensures exists { said (call (codes "exists") ((list []) ∷ [])) ≡ Ok (codes "false()" ∷ []) }
    // reverse((1, 2))
    ensures reverse { said (call (codes "reverse") ((list ((int 1) ∷ (int 2) ∷ [])) ∷ [])) ≡ Ok (codes "2" ∷ codes "1" ∷ []) }
    // not(0)
    ensures not { said (call (codes "not") ((int 0) ∷ [])) ≡ Ok (codes "true()" ∷ []) }
    // boolean(0)
    ensures boolean { said (call (codes "boolean") ((int 0) ∷ [])) ≡ Ok (codes "false()" ∷ []) }
    // true()
    ensures true_value { said (call (codes "true") ([])) ≡ Ok (codes "true()" ∷ []) }
    // false()
    ensures false_value { said (call (codes "false") ([])) ≡ Ok (codes "false()" ∷ []) }
    // ("a", "b")/position()
    ensures position_of_atoms { said (path (list ((str (codes "a")) ∷ (str (codes "b")) ∷ [])) ((call (codes "position") ([])) ∷ [])) ≡ Err XPTY0019 }
    // $r/*/position()
    ensures position { said (with_r (path (var (codes "r")) (any axis.Child [] ∷ (call (codes "position") ([])) ∷ []))) ≡ Ok (codes "1" ∷ codes "2" ∷ codes "3" ∷ []) }
    // $r/*/last()
    ensures last { said (with_r (path (var (codes "r")) (any axis.Child [] ∷ (call (codes "last") ([])) ∷ []))) ≡ Ok (codes "3" ∷ codes "3" ∷ codes "3" ∷ []) }
    // concat("a", (), 7)
    ensures concat { said (call (codes "concat") ((str (codes "a")) ∷ (list []) ∷ (int 7) ∷ [])) ≡ Ok (codes "\"a7\"" ∷ []) }
    // contains("abc", "bc")
    ensures contains { said (call (codes "contains") ((str (codes "abc")) ∷ (str (codes "bc")) ∷ [])) ≡ Ok (codes "true()" ∷ []) }
    // contains("abc", ())
    ensures contains_nothing { said (call (codes "contains") ((str (codes "abc")) ∷ (list []) ∷ [])) ≡ Ok (codes "true()" ∷ []) }
    // starts-with("abc", "bc")
    ensures starts { said (call (codes "starts-with") ((str (codes "abc")) ∷ (str (codes "bc")) ∷ [])) ≡ Ok (codes "false()" ∷ []) }
    // ends-with("abc", "bc")
    ensures ends { said (call (codes "ends-with") ((str (codes "abc")) ∷ (str (codes "bc")) ∷ [])) ≡ Ok (codes "true()" ∷ []) }
    // contains(1, "b")
    ensures no_string { said (call (codes "contains") ((int 1) ∷ (str (codes "b")) ∷ [])) ≡ Err XPTY0004 }
    // string-length("abc")
    ensures length { said (call (codes "string-length") ((str (codes "abc")) ∷ [])) ≡ Ok (codes "3" ∷ []) }
    // string-join(("a", "b", "c"), "-")
    ensures join { said (call (codes "string-join") ((list ((str (codes "a")) ∷ (str (codes "b")) ∷ (str (codes "c")) ∷ [])) ∷ (str (codes "-")) ∷ [])) ≡ Ok (codes "\"a-b-c\"" ∷ []) }
    // string-join("a", ())
    ensures no_separator { said (call (codes "string-join") ((str (codes "a")) ∷ (list []) ∷ [])) ≡ Err XPTY0004 }
    // sum($r/a)
    ensures sum { said (with_r (call (codes "sum") ((path (var (codes "r")) (child (codes "a") ∷ [])) ∷ []))) ≡ Ok (codes "4" ∷ []) }
    // sum(())
    ensures empty_sum { said (call (codes "sum") ((list []) ∷ [])) ≡ Ok (codes "0" ∷ []) }
    // sum("1")
    ensures no_sum { said (call (codes "sum") ((str (codes "1")) ∷ [])) ≡ Err FORG0006 }
    // distinct-values((1, "1", 1))
    ensures distinct { said (call (codes "distinct-values") ((list ((int 1) ∷ (str (codes "1")) ∷ (int 1) ∷ [])) ∷ [])) ≡ Ok (codes "1" ∷ codes "\"1\"" ∷ []) }
    // foo(1)
    ensures unknown { said (call (codes "foo") ((int 1) ∷ [])) ≡ Err XPST0017 }
    // count()
    ensures arguments { said (call (codes "count") ([])) ≡ Err XPST0017 }
{}

/// Constructors.
#[tactic(auto, unfolding(crate::proofs::Compute::everything))]
pub fn constructors()
    // element e {1, 2, "x", text {""}, 3}
    ensures merged { said (elem (codes "e") (list ((int 1) ∷ (int 2) ∷ (str (codes "x")) ∷ (txt (str (codes ""))) ∷ (int 3) ∷ []))) ≡ Ok (codes "element e {text {\"1 2 x3\"}}" ∷ []) }
    // element e {text {""}}
    ensures dropped { said (elem (codes "e") (txt (str (codes "")))) ≡ Ok (codes "element e {}" ∷ []) }
    // text {""}
    ensures empty_text { said (txt (str (codes ""))) ≡ Ok (codes "text {\"\"}" ∷ []) }
    // text {()}
    ensures no_text { said (txt (list [])) ≡ Ok [] }
    // element e {attribute k {"1"}, "x"}
    ensures attribute { said (elem (codes "e") (list ((attr (codes "k") (str (codes "1"))) ∷ (str (codes "x")) ∷ []))) ≡ Ok (codes "element e {attribute k {\"1\"}, text {\"x\"}}" ∷ []) }
    // element e {"x", attribute k {"1"}}
    ensures attribute_late { said (elem (codes "e") (list ((str (codes "x")) ∷ (attr (codes "k") (str (codes "1"))) ∷ []))) ≡ Err XQTY0024 }
    // element e {attribute k {"1"}, attribute k {"2"}}
    ensures attribute_twice { said (elem (codes "e") (list ((attr (codes "k") (str (codes "1"))) ∷ (attr (codes "k") (str (codes "2"))) ∷ []))) ≡ Err XQDY0025 }
    // document {attribute k {"1"}}
    ensures attribute_of_document { said (doc_node (attr (codes "k") (str (codes "1")))) ≡ Err XPTY0004 }
    // document {document {element e {}}}
    ensures document { said (doc_node (doc_node (elem (codes "e") (list [])))) ≡ Ok (codes "document {element e {}}" ∷ []) }
    // element {"e f"} {}
    ensures wrong_name { said (elem_named (str (codes "e f")) (list [])) ≡ Err XQDY0074 }
    // element {"xmlns"} {}
    ensures reserved_name { said (elem_named (str (codes "xmlns")) (list [])) ≡ Err XQDY0074 }
    // element {1} {}
    ensures no_name { said (elem_named (int 1) (list [])) ≡ Err XPTY0004 }
    // comment {"a", "b"}
    ensures comment { said (comment (list ((str (codes "a")) ∷ (str (codes "b")) ∷ []))) ≡ Ok (codes "comment {\"a b\"}" ∷ []) }
    // comment {"a--b"}
    ensures hyphens { said (comment (str (codes "a--b"))) ≡ Err XQDY0072 }
    // comment {"a-"}
    ensures last_hyphen { said (comment (str (codes "a-"))) ≡ Err XQDY0072 }
    // processing-instruction p {"  x "}
    ensures instruction { said (instr (codes "p") (str (codes "  x "))) ≡ Ok (codes "processing-instruction p {\"x \"}" ∷ []) }
    // processing-instruction p {"?>"}
    ensures instruction_end { said (instr (codes "p") (str (codes "?>"))) ≡ Err XQDY0026 }
    // processing-instruction {"1"} {}
    ensures wrong_target { said (instr_named (str (codes "1")) (list [])) ≡ Err XQDY0041 }
    // processing-instruction XmL {}
    ensures reserved_target { said (instr (codes "XmL") (list [])) ≡ Err XQDY0064 }
{}

/// Updating expressions: what they would change, in a document whose element `a` is node 2, its attribute `k` 3, its text 4, its comment 5 and its instruction 6.
#[tactic(auto, unfolding(crate::proofs::Compute::everything))]
pub fn updates()
    // insert node element x {} before doc("db")/a
    ensures before { asked_of_filled (inserting Before (elem (codes "x") (list [])) db_a) ≡ Ok ((insert_before 2 (alone kind.Element 8 (codes "x") []) ∷ []), 9) }
    // insert node element x {} after doc("db")/a
    ensures after { asked_of_filled (inserting After (elem (codes "x") (list [])) db_a) ≡ Ok ((insert_after 2 (alone kind.Element 8 (codes "x") []) ∷ []), 9) }
    // insert node element x {} into doc("db")/a
    ensures into { asked_of_filled (inserting Into (elem (codes "x") (list [])) db_a) ≡ Ok ((insert_into 2 (alone kind.Element 8 (codes "x") []) ∷ []), 9) }
    // insert node element x {} as first into doc("db")/a
    ensures first { asked_of_filled (inserting FirstInto (elem (codes "x") (list [])) db_a) ≡ Ok ((insert_into_as_first 2 (alone kind.Element 8 (codes "x") []) ∷ []), 9) }
    // insert node element x {} as last into doc("db")/a
    ensures last { asked_of_filled (inserting LastInto (elem (codes "x") (list [])) db_a) ≡ Ok ((insert_into_as_last 2 (alone kind.Element 8 (codes "x") []) ∷ []), 9) }
    // insert nodes (attribute j {"1"}, "t") into doc("db")/a
    ensures attributes { asked_of_filled (inserting Into (list ((attr (codes "j") (str (codes "1"))) ∷ (str (codes "t")) ∷ [])) db_a) ≡ Ok ((insert_attributes 2 (alone kind.Attribute 8 (codes "j") (codes "1")) ∷ insert_into 2 (alone kind.Text 9 [] (codes "t")) ∷ []), 10) }
    // insert node () into doc("db")/a
    ensures nothing { asked_of_filled (inserting Into (list []) db_a) ≡ Ok (([]), 7) }
    // delete nodes (doc("db")/a/@k, doc("db")/a)
    ensures deleting { asked_of_filled (deleting (list (attribute_k ∷ db_a ∷ []))) ≡ Ok ((delete_node 3 ∷ delete_node 2 ∷ []), 7) }
    // replace node doc("db")/a with ()
    ensures replaced_by_nothing { asked_of_filled (replacing db_a (list [])) ≡ Ok ((replace_node 2 no_trees ∷ []), 7) }
    // replace value of node doc("db")/a with "n"
    ensures content { asked_of_filled (replacing_value db_a (str (codes "n"))) ≡ Ok ((replace_element_content 2 (alone kind.Text 7 [] (codes "n")) ∷ []), 8) }
    // replace value of node doc("db")/a/@k with ("2", 3)
    ensures value { asked_of_filled (replacing_value attribute_k (list ((str (codes "2")) ∷ (int 3) ∷ []))) ≡ Ok ((replace_text 3 (codes "2 3") ∷ []), 8) }
    // replace value of node doc("db")/a/@k with ()
    ensures no_value { asked_of_filled (replacing_value attribute_k (list [])) ≡ Ok ((replace_text 3 [] ∷ []), 7) }
    // replace value of node doc("db")/a/processing-instruction() with " y"
    ensures instruction { asked_of_filled (replacing_value (below_a axis.Child test.Instruction) (str (codes " y"))) ≡ Ok ((replace_text 6 (codes "y") ∷ []), 8) }
    // rename node doc("db")/a as "b"
    ensures renaming { asked_of_filled (renaming db_a (str (codes "b"))) ≡ Ok ((rename_to 2 (codes "b") ∷ []), 7) }
    // insert node element a {attribute k {"1"}, "x"} into doc("db")
    ensures identities { asked (inserting Into (elem (codes "a") (list ((attr (codes "k") (str (codes "1"))) ∷ (str (codes "x")) ∷ []))) db) ≡ Ok (insert_into 1 (tree (record { identity = 6; kind = kind.Element; name = codes "a"; text = [] }) (alone kind.Attribute 7 (codes "k") (codes "1")) (alone kind.Text 8 [] (codes "x")) no_trees) ∷ [], 9) }
{}

/// The codes of updating expressions.
#[tactic(auto, unfolding(crate::proofs::Compute::everything))]
pub fn update_faults()
    // insert nodes ("x", attribute j {"1"}) into doc("db")/a
    ensures late { asked_of_filled (inserting Into (list ((str (codes "x")) ∷ (attr (codes "j") (str (codes "1"))) ∷ [])) db_a) ≡ Err XUTY0004 }
    // insert node element x {} into doc("db")/none
    ensures no_target { asked_of_filled (inserting Into (elem (codes "x") (list [])) (path db (child (codes "none") ∷ []))) ≡ Err XUDY0027 }
    // insert node element x {} into doc("db")/a/text()
    ensures into_text { asked_of_filled (inserting Into (elem (codes "x") (list [])) (below_a axis.Child test.Text)) ≡ Err XUTY0005 }
    // insert node attribute j {"1"} into doc("db")
    ensures into_document { asked_of_filled (inserting Into (attr (codes "j") (str (codes "1"))) db) ≡ Err XUTY0022 }
    // insert node element x {} before doc("db")/a/@k
    ensures beside_attribute { asked_of_filled (inserting Before (elem (codes "x") (list [])) attribute_k) ≡ Err XUTY0006 }
    // insert node element x {} before element y {}
    ensures beside_root { asked_of_filled (inserting Before (elem (codes "x") (list [])) (elem (codes "y") (list []))) ≡ Err XUDY0029 }
    // insert node attribute j {"1"} before doc("db")/a
    ensures beside_in_document { asked_of_filled (inserting Before (attr (codes "j") (str (codes "1"))) db_a) ≡ Err XUDY0030 }
    // delete node 1
    ensures delete_atomic { asked_of_filled (deleting (int 1)) ≡ Err XUTY0007 }
    // replace node doc("db")/none with "x"
    ensures replace_nothing { asked_of_filled (replacing (path db (child (codes "none") ∷ [])) (str (codes "x"))) ≡ Err XUDY0027 }
    // replace node doc("db") with "x"
    ensures replace_document { asked_of_filled (replacing db (str (codes "x"))) ≡ Err XUTY0008 }
    // replace node element y {} with "x"
    ensures replace_root { asked_of_filled (replacing (elem (codes "y") (list [])) (str (codes "x"))) ≡ Err XUDY0009 }
    // replace node doc("db")/a/@k with "x"
    ensures attribute_by_text { asked_of_filled (replacing attribute_k (str (codes "x"))) ≡ Err XUTY0011 }
    // replace node doc("db")/a with attribute j {"1"}
    ensures element_by_attribute { asked_of_filled (replacing db_a (attr (codes "j") (str (codes "1")))) ≡ Err XUTY0010 }
    // replace value of node doc("db")/a/comment() with "--"
    ensures comment { asked_of_filled (replacing_value (below_a axis.Child test.Comment) (str (codes "--"))) ≡ Err XQDY0072 }
    // replace value of node doc("db")/a/processing-instruction() with "?>"
    ensures instruction { asked_of_filled (replacing_value (below_a axis.Child test.Instruction) (str (codes "?>"))) ≡ Err XQDY0026 }
    // rename node doc("db")/none as "z"
    ensures rename_nothing { asked_of_filled (renaming (path db (child (codes "none") ∷ [])) (str (codes "z"))) ≡ Err XUDY0027 }
    // rename node doc("db") as "z"
    ensures rename_document { asked_of_filled (renaming db (str (codes "z"))) ≡ Err XUTY0012 }
    // rename node doc("db")/a as "1"
    ensures wrong_name { asked_of_filled (renaming db_a (str (codes "1"))) ≡ Err XQDY0074 }
    // rename node doc("db")/a/processing-instruction() as "xml"
    ensures reserved_target { asked_of_filled (renaming (below_a axis.Child test.Instruction) (str (codes "xml"))) ≡ Err XQDY0064 }
{}

/// Our own limits, each where one more would be taken.
#[tactic(auto, unfolding(crate::proofs::Compute::everything))]
pub fn limits()
    // for $x in (1, 2, 3) return $x, in three turns and in two
    ensures turns { said_after (with_turns 3) (meaning_of (Expr-F.Flwor (For record { variable = codes "x"; source = (list (int 1 ∷ int 2 ∷ int 3 ∷ [])) } ∷ []) None [] (var (codes "x")))) ≡ Ok (codes "1" ∷ codes "2" ∷ codes "3" ∷ []) }
    ensures no_turn { said_after (with_turns 2) (meaning_of (Expr-F.Flwor (For record { variable = codes "x"; source = (list (int 1 ∷ int 2 ∷ int 3 ∷ [])) } ∷ []) None [] (var (codes "x")))) ≡ Err PXQ0002 }
    // (1, 2, 3) = 2, which tries two pairs
    ensures pairs { said_after (with_turns 2) (binary (General Equal) (list (int 1 ∷ int 2 ∷ int 3 ∷ [])) (int 2)) ≡ one (codes "true()") }
    ensures no_pair { said_after (with_turns 1) (binary (General Equal) (list (int 1 ∷ int 2 ∷ int 3 ∷ [])) (int 2)) ≡ Err PXQ0002 }
    // (1, 2, 3)[2]: each item takes a turn
    ensures predicate { said_after (with_turns 2) (filtered_by (list (int 1 ∷ int 2 ∷ int 3 ∷ [])) (int 2)) ≡ Err PXQ0002 }
    // some $x in (1, 2, 3) satisfies $x eq 1: the first item decides
    ensures decided { said_after (with_turns 1) (meaning_of (Expr-F.Quantified AtLeastOne (record { variable = codes "x"; source = (list (int 1 ∷ int 2 ∷ int 3 ∷ [])) } ∷ []) (binary (Value Equal) (var (codes "x")) (int 1)))) ≡ one (codes "true()") }
    // element e {element f {}}: the copy is a third node
    ensures nodes { said_after (with_nodes 3) (elem (codes "e") (elem (codes "f") (list []))) ≡ one (codes "element e {element f {}}") }
    ensures no_node { said_after (with_nodes 2) (elem (codes "e") (elem (codes "f") (list []))) ≡ Err PXQ0003 }
{}

/// Work, and one unit too little.
#[tactic(auto, unfolding(crate::proofs::Compute::everything))]
pub fn work()
    // 1 + 1
    ensures sum { said_by 8 (binary (Arithmetic Add) (int 1) (int 1)) ≡ one (codes "2") }
    ensures no_sum { said_by 7 (binary (Arithmetic Add) (int 1) (int 1)) ≡ Err PXQ0002 }
    // 1, 2, 3
    ensures items { said_by 10 (list (int 1 ∷ int 2 ∷ int 3 ∷ [])) ≡ Ok (codes "1" ∷ codes "2" ∷ codes "3" ∷ []) }
    ensures no_items { said_by 9 (list (int 1 ∷ int 2 ∷ int 3 ∷ [])) ≡ Err PXQ0002 }
    // let $a := 1 return let $b := 2 return $a
    ensures variable { said_by 12 (let_in (codes "a") (int 1) (let_in (codes "b") (int 2) (var (codes "a")))) ≡ one (codes "1") }
    ensures no_variable { said_by 11 (let_in (codes "a") (int 1) (let_in (codes "b") (int 2) (var (codes "a")))) ≡ Err PXQ0002 }
    // count(doc("db")/a), of the filled store
    ensures child { said_of_filled_by 13 (call (codes "count") (db_a ∷ [])) ≡ one (codes "1") }
    ensures no_child { said_of_filled_by 12 (call (codes "count") (db_a ∷ [])) ≡ Err PXQ0002 }
    // count(doc("db")/descendant::*): it looks at all six nodes
    ensures descendant { said_of_filled_by 18 (call (codes "count") (path db (any axis.Descendant [] ∷ []) ∷ [])) ≡ one (codes "1") }
    ensures no_descendant { said_of_filled_by 17 (call (codes "count") (path db (any axis.Descendant [] ∷ []) ∷ [])) ≡ Err PXQ0002 }
    // count(doc("db")/a/node()): three nodes are put in order
    ensures ordered { said_of_filled_by 92 (call (codes "count") (below_a axis.Child test.AnyNode ∷ [])) ≡ one (codes "3") }
    ensures no_ordered { said_of_filled_by 91 (call (codes "count") (below_a axis.Child test.AnyNode ∷ [])) ≡ Err PXQ0002 }
    // count(doc("db") | text {"x"})
    ensures set { said_by 48 (call (codes "count") ((binary Union db (txt (str (codes "x")))) ∷ [])) ≡ one (codes "2") }
    ensures no_set { said_by 47 (call (codes "count") ((binary Union db (txt (str (codes "x")))) ∷ [])) ≡ Err PXQ0002 }
    // doc("db") is doc("db")
    ensures same { said_of_filled_by 44 (binary Is db db) ≡ one (codes "true()") }
    ensures no_same { said_of_filled_by 43 (binary Is db db) ≡ Err PXQ0002 }
    // doc("db") << ()
    ensures no_node { said_of_filled_by 10 (binary Precedes db (list [])) ≡ Ok [] }
    // string(doc("db"))
    ensures typed { said_of_filled_by 12 (call (codes "string") (db ∷ [])) ≡ one (codes "\"x\"") }
    ensures no_typed { said_of_filled_by 11 (call (codes "string") (db ∷ [])) ≡ Err PXQ0002 }
    // concat("sixteen bytes in", "")
    ensures made { said_by 8 (call (codes "concat") (str sixteen ∷ str [] ∷ [])) ≡ one (codes "\"sixteen bytes in\"") }
    ensures no_made { said_by 7 (call (codes "concat") (str sixteen ∷ str [] ∷ [])) ≡ Err PXQ0002 }
    // element e {"sixteen bytes in"}
    ensures text { said_by 5 (elem (codes "e") (str sixteen)) ≡ one (codes "element e {text {\"sixteen bytes in\"}}") }
    ensures no_text { said_by 4 (elem (codes "e") (str sixteen)) ≡ Err PXQ0002 }
    // element e {text {"sixteen bytes in"}}
    ensures copied { said_by 8 (elem (codes "e") (txt (str sixteen))) ≡ one (codes "element e {text {\"sixteen bytes in\"}}") }
    ensures no_copied { said_by 7 (elem (codes "e") (txt (str sixteen))) ≡ Err PXQ0002 }
    // "sixteen bytes in" = "sixteen bytes in"
    ensures pair { said_by 11 (binary (General Equal) (str sixteen) (str sixteen)) ≡ one (codes "true()") }
    ensures no_pair { said_by 10 (binary (General Equal) (str sixteen) (str sixteen)) ≡ Err PXQ0002 }
    // "sixteen bytes in" = ""
    ensures shorter { said_by 9 (binary (General Equal) (str sixteen) (str [])) ≡ one (codes "false()") }
    ensures no_shorter { said_by 8 (binary (General Equal) (str sixteen) (str [])) ≡ Err PXQ0002 }
{}

/// Copies that are changed, and what is then answered.
#[tactic(auto, unfolding(crate::proofs::Compute::everything))]
pub fn copies()
    // copy $c := element a {element b {}} modify rename node $c/b as "x" return $c
    ensures renamed { said (copy_c (elem (codes "a") (elem (codes "b") (list []))) (renaming (below (codes "b") c) (str (codes "x"))) c) ≡ one (codes "element a {element x {}}") }
    // copy $c := element r {"a", element m {}, "b"} modify delete node $c/m return count($c/text())
    ensures merged { said (copy_c (elem (codes "r") (list (str (codes "a") ∷ elem (codes "m") (list []) ∷ str (codes "b") ∷ []))) (deleting (below (codes "m") c)) (call (codes "count") (children_of test.Text c ∷ []))) ≡ one (codes "1") }
    // copy $c := 1 modify () return $c
    ensures no_node { said (copy_c (int 1) (list []) c) ≡ Err XUTY0013 }
    // copy $c := doc("db") modify insert node element a {} into doc("db") return $c
    ensures no_copy { said (copy_c db (inserting Into (elem (codes "a") (list [])) db) c) ≡ Err XUDY0014 }
    // copy $c := doc("db") modify insert node element a {} into $c return $c
    ensures document { said (copy_c db (inserting Into (elem (codes "a") (list [])) c) c) ≡ one (codes "document {element a {}}") }
    // copy $c := text {"x"} modify replace value of node $c with () return $c: a text with no parent may be empty
    ensures empty_text { said (copy_c (txt (str (codes "x"))) (replacing_value c (list [])) c) ≡ one (codes "text {\"\"}") }
    // copy $c := text {"x"}, $d := text {"y"} modify () return ($c, $d): trees are no neighbours
    ensures two_texts { said (copy (set (codes "c") (txt (str (codes "x"))) ∷ set (codes "d") (txt (str (codes "y"))) ∷ []) (list []) (list (c ∷ var (codes "d") ∷ []))) ≡ Ok (codes "text {\"x\"}" ∷ codes "text {\"y\"}" ∷ []) }
    // copy $c := element a {}, $c := element b {} modify () return $c
    ensures last_counts { said (copy (set (codes "c") (elem (codes "a") (list [])) ∷ set (codes "c") (elem (codes "b") (list [])) ∷ []) (list []) c) ≡ one (codes "element b {}") }
    // let $c := element a {} return copy $d := element b {}, $c := $c modify () return $c: sources see what is outside
    ensures outside { said (let_in (codes "c") (elem (codes "a") (list [])) (copy (set (codes "d") (elem (codes "b") (list [])) ∷ set (codes "c") c ∷ []) (list []) c)) ≡ one (codes "element a {}") }
    // let $a := element a {} return copy $c := $a modify rename node $c as "x" return ($a, $c): the source stays
    ensures source_stays { said (let_in (codes "a") (elem (codes "a") (list [])) (copy_c (var (codes "a")) (renaming c (str (codes "x"))) (list (var (codes "a") ∷ c ∷ [])))) ≡ Ok (codes "element a {}" ∷ codes "element x {}" ∷ []) }
    // copy $c := element a {} modify (rename node $c as "x", rename node $c as "y") return $c
    ensures incompatible { said (copy_c (elem (codes "a") (list [])) (list (renaming c (str (codes "x")) ∷ renaming c (str (codes "y")) ∷ [])) c) ≡ Err XUDY0015 }
    // copy $c := element a {attribute p {"1"}, attribute q {"2"}} modify rename node $c/@p as "q" return $c
    ensures one_name { said (copy_c (elem (codes "a") (list (attr (codes "p") (str (codes "1")) ∷ attr (codes "q") (str (codes "2")) ∷ []))) (renaming (path c (named axis.Attribute (codes "p") [] ∷ [])) (str (codes "q"))) c) ≡ Err XUDY0021 }
    // copy $c := element a {} modify insert node element b {} after $c return $c
    ensures beside_root { said (copy_c (elem (codes "a") (list [])) (inserting After (elem (codes "b") (list [])) c) c) ≡ Err XUDY0029 }
    // copy $c := element a {} modify delete node $c return $c: a node with no parent stays
    ensures root_stays { said (copy_c (elem (codes "a") (list [])) (deleting c) c) ≡ one (codes "element a {}") }
    // copy $c := element a {} modify insert node (copy $d := $c modify rename node $d as "x" return $d) into $c return $c
    ensures nested { said (copy_c (elem (codes "a") (list [])) (inserting Into (copy (set (codes "d") c ∷ []) (renaming (var (codes "d")) (str (codes "x"))) (var (codes "d"))) c) c) ≡ one (codes "element a {element x {}}") }
    // copy $c := element a {} modify insert node (copy $d := element b {} modify rename node $c as "x" return $d) into $c return $c
    ensures not_the_inner_copy { said (copy_c (elem (codes "a") (list [])) (inserting Into (copy (set (codes "d") (elem (codes "b") (list [])) ∷ []) (renaming c (str (codes "x"))) (var (codes "d"))) c) c) ≡ Err XUDY0014 }
    // copy $c := doc("db")/a modify () return count($c/node()), of the filled store: attribute, text, comment and instruction come along
    ensures whole { said_of_filled (copy_c db_a (list []) c) ≡ one (codes "element a {attribute k {\"1\"}, text {\"x\"}, comment {\"c\"}, processing-instruction p {\"\"}}") }
    // copy $c := element e {element f {}} modify () return $c: a second pair of nodes is made, and a copy of what is content
    ensures nodes { said_after (with_nodes 5) (copy_c (elem (codes "e") (elem (codes "f") (list []))) (list []) c) ≡ one (codes "element e {element f {}}") }
    ensures too_many_nodes { said_after (with_nodes 4) (copy_c (elem (codes "e") (elem (codes "f") (list []))) (list []) c) ≡ Err PXQ0003 }
{}

/// What a request leaves of the document `db` with an element `a` (3), next 4, where it inserts a changed copy.
#[tactic(auto, unfolding(crate::proofs::Compute::everything))]
pub fn stored_copies()
    // insert node (copy $c := doc("db")/a modify rename node $c as "b" return $c) into doc("db")
    ensures identities { submitted (inserting Into (copy_c db_a (renaming c (str (codes "b"))) c) db)
        ≡ Ok (record {
          trees = tree (record { identity = 1; kind = kind.Document; name = []; text = [] }) no_trees (tree (record { identity = 3; kind = kind.Element; name = codes "a"; text = [] }) no_trees no_trees (alone kind.Element 5 (codes "b") [])) no_trees;
          documents = (codes "db", 1) ∷ [];
          next = 6;
        }) }
{}
