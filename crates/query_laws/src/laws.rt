//! Laws of texts and their expressions, each the contract of a function that does nothing.

ghost use Rattle.std.specs.Prelude.{◌≡◌, ◌↔◌, ℕ, List, [], ◌∷◌, codes, length, Option, Some, None, Err, true, false};
ghost use Rattle.data_model.specs.declared.axis.Axis.TheVariants as axis;
ghost use Rattle.fault_codes.specs.declared.code.Code.{Code};
ghost use Rattle.values.specs.declared.compare.Comparison.TheVariants as comparison;
ghost use Rattle.values.specs.declared.operators.Operator.TheVariants as arithmetic;
ghost use Rattle.query_grammar.specs.declared.ast.Binary.TheVariants as operator;
ghost use Rattle.query_grammar.specs.declared.ast.Clause.TheVariants as clause;
ghost use Rattle.query_grammar.specs.declared.ast.Expr.{Expr, out-Expr};
ghost use Rattle.query_grammar.specs.declared.ast.Expr.TheVariants as e;
ghost use Rattle.query_grammar.specs.declared.ast.KindTest.TheVariants as kind;
ghost use Rattle.query_grammar.specs.declared.ast.Name.TheVariants.{Written, Computed};
ghost use Rattle.query_grammar.specs.declared.ast.NodeTest.TheVariants as test;
ghost use Rattle.query_grammar.specs.declared.ast.Place.TheVariants as place;
ghost use Rattle.query_grammar.specs.declared.ast.Quantifier.TheVariants as quantifier;
ghost use Rattle.query_grammar.specs.declared.ast.Sign.TheVariants.{Plus, Minus};
ghost use Rattle.query_grammar.specs.declared.functions.Function.{Function};
ghost use Rattle.query_grammar.specs.declared.functions.Function.TheVariants as function;
ghost use Rattle.query_grammar.specs.Functions.{takes};
ghost use Rattle.static_checks.specs.Static.{IsExpression, parsed};
ghost use Rattle.std.specs.List.{All};
ghost use Rattle.query_tokens.specs.Lexing.{tokens};
ghost use Rattle.query_tokens.specs.Reading.{Gives};
ghost use Rattle.query_tokens.specs.declared.token.Token.{Token};
ghost use Rattle.query_laws.specs.Written.{HasName, HasXmlString};
ghost use Rattle.query_laws.specs.Examples.{a, b, c, none, on, of_kind, then, between, called};
ghost use Rattle.query_laws.specs.Faults.{FirstFault, IsSpelt};
ghost use Rattle.query_laws.specs.Spelling.{IsSpeltAs};
ghost use Rattle.query_laws.specs.Saying.{SaysWell};
ghost use Rattle.query_laws.specs.Standing.{StandsIn, IsPlaced};

/// A text is refused with a code exactly where that is the code of the first pass in which a fault stands. The grammar's fault is that
/// the tokens are spelt as no expression.
pub fn first_fault()
    ensures { (level : ℕ) (text : List ℕ) (code : Code) → (parsed level text ≡ Err code) ↔ FirstFault level text code }
{}

/// Each call in the expression of a text is of a function that there is, with a number of arguments that it takes.
pub fn calls_are_known()
    ensures { (level : ℕ) (text : List ℕ) (x : Expr) (f? : Option Function) (arguments : List Expr)
        → IsExpression level text x → StandsIn (e.Call f? arguments) x → (f : Function) × (f? ≡ Some f) × (takes (length arguments) f ≡ true) }
{}

/// In the expression of a text updating expressions stand only where they may, and each category is that of the inner parts.
pub fn updates_are_placed()
    ensures { (level : ℕ) (text : List ℕ) (x inner : Expr) → IsExpression level text x → StandsIn inner x → IsPlaced inner }
{}

/// Each string among the tokens of a text is the UTF-8 of characters of XML 1.0, of at most 65,536 bytes.
pub fn strings_are_xml()
    ensures { (text : List ℕ) (ts : List Token) (rest : List ℕ) → tokens text ≡ Gives ts rest → All HasXmlString ts }
{}

/// Each token of a text that is no string says a name (an NCName of ASCII characters, other than `xmlns`), or nothing beside its kind and number.
pub fn names_are_names()
    ensures { (text : List ℕ) (ts : List Token) (rest : List ℕ) → tokens text ≡ Gives ts rest → All HasName ts }
{}

/// In the expression of a text each name is a name (an NCName of ASCII characters, other than `xmlns`), each string is the UTF-8 of characters of XML 1.0, of
/// at most 65,536 bytes, each number is at most 2^63 - 1, and each function takes as many arguments as it is called with.
pub fn words_are_said()
    ensures { (level : ℕ) (text : List ℕ) (x inner : Expr) → IsExpression level text x → StandsIn inner x → SaysWell (out-Expr inner) }
{}

/// Tokens that are spelt in the standard's productions (XQuery 1.0, appendix A.2), one after the other, with whitespace and comments before, between
/// and after them, are read as those tokens. Any two stand apart: something separates them, or the first is a name or a number and no name goes on
/// there.
pub fn spelt_tokens_are_read()
    ensures { (text : List ℕ) (ts : List Token) → IsSpeltAs text ts → tokens text ≡ Gives ts [] }
{}

/// What some texts are spelt as: each axis, test, operator, sign, primary expression, constructor, clause, place and update stands in one.
pub fn examples()
    ensures axes { IsSpelt 1 (codes "child::a/descendant::a/descendant-or-self::a/self::a/attribute::a/parent::a/ancestor::a/following-sibling::a/preceding-sibling::a") (e.Path (on axis.Child) (on axis.Descendant ∷ on axis.DescendantOrSelf ∷ on axis.SelfAxis ∷ on axis.Attribute ∷ on axis.Parent ∷ on axis.Ancestor ∷ on axis.FollowingSibling ∷ on axis.PrecedingSibling ∷ [])) }
    ensures kind_tests { IsSpelt 1 (codes "node(), document-node(), element(), text(), comment(), processing-instruction(), *") (e.Sequence (of_kind kind.AnyNode ∷ of_kind kind.Document ∷ of_kind kind.Element ∷ of_kind kind.Text ∷ of_kind kind.Comment ∷ of_kind kind.Instruction ∷ e.Step axis.Child test.AnyName [] ∷ [])) }
    ensures short_axes { IsSpelt 1 (codes "@a/..") (e.Path (on axis.Attribute) (e.Step axis.Parent (test.Kind kind.AnyNode) [] ∷ [])) }
    ensures short_paths { IsSpelt 1 (codes "a//b//@a[1]") (e.Path a (e.Step axis.Descendant (test.Name (codes "b")) [] ∷ e.Step axis.DescendantOrSelf (test.Kind kind.AnyNode) [] ∷ e.Step axis.Attribute (test.Name (codes "a")) (e.Integer 1 ∷ []) ∷ [])) }
    ensures signs { IsSpelt 1 (codes "-+1") (e.Signed (Minus ∷ Plus ∷ []) (e.Integer 1)) }
    ensures set_operators { IsSpelt 1 (codes "a intersect b except c, a union b | c") (e.Sequence (e.Chain a (then operator.Intersect b ∷ then operator.Except c ∷ []) ∷ e.Chain a (then operator.Union b ∷ then operator.Union c ∷ []) ∷ [])) }
    ensures arithmetic_operators { IsSpelt 1 (codes "a * b idiv c mod 4, a + b - c") (e.Sequence (e.Chain a (then (operator.Arithmetic arithmetic.Multiply) b ∷ then (operator.Arithmetic arithmetic.IntegerDivide) c ∷ then (operator.Arithmetic arithmetic.Modulo) (e.Integer 4) ∷ []) ∷ e.Chain a (then (operator.Arithmetic arithmetic.Add) b ∷ then (operator.Arithmetic arithmetic.Subtract) c ∷ []) ∷ [])) }
    ensures general_comparisons { IsSpelt 1 (codes "a = b, a != b, a < b, a <= b, a > b, a >= b") (e.Sequence (between (operator.General comparison.Equal) ∷ between (operator.General comparison.NotEqual) ∷ between (operator.General comparison.Less) ∷ between (operator.General comparison.LessOrEqual) ∷ between (operator.General comparison.Greater) ∷ between (operator.General comparison.GreaterOrEqual) ∷ [])) }
    ensures value_comparisons { IsSpelt 1 (codes "a eq b, a ne b, a lt b, a le b, a gt b, a ge b") (e.Sequence (between (operator.Value comparison.Equal) ∷ between (operator.Value comparison.NotEqual) ∷ between (operator.Value comparison.Less) ∷ between (operator.Value comparison.LessOrEqual) ∷ between (operator.Value comparison.Greater) ∷ between (operator.Value comparison.GreaterOrEqual) ∷ [])) }
    ensures other_operators { IsSpelt 1 (codes "a is b, a << b, a >> b, a to b, a and b, a or b") (e.Sequence (between operator.Is ∷ between operator.Precedes ∷ between operator.Follows ∷ between operator.To ∷ between operator.And ∷ between operator.Or ∷ [])) }
    ensures levels { IsSpelt 1 (codes "a or a and a < a to a + a * a union a intersect b") (e.Chain a (then operator.Or (e.Chain a (then operator.And (e.Chain a (then (operator.General comparison.Less) (e.Chain a (then operator.To (e.Chain a (then (operator.Arithmetic arithmetic.Add) (e.Chain a (then (operator.Arithmetic arithmetic.Multiply) (e.Chain a (then operator.Union (between operator.Intersect) ∷ [])) ∷ [])) ∷ [])) ∷ [])) ∷ [])) ∷ [])) ∷ [])) }
    ensures primaries { IsSpelt 1 (codes "7, 'b', $a, ., (), true(), contains(a, c), b(a, c), a[b][c], (a)[b]") (e.Sequence (e.Integer 7 ∷ e.String (codes "b") ∷ e.Variable (codes "a") ∷ e.Context ∷ none ∷ e.Call (Some function.True) [] ∷ e.Call (Some function.Contains) (a ∷ c ∷ []) ∷ e.Call None (a ∷ c ∷ []) ∷ e.Step axis.Child (test.Name (codes "a")) (b ∷ c ∷ []) ∷ e.Filter a (b ∷ []) ∷ [])) }
    ensures constructors { IsSpelt 1 (codes "document {a}, text {a}, comment {a}, element a {b}, element {a} {}, attribute a {b}, attribute {a} {}, processing-instruction a {b}, processing-instruction {a} {}") (e.Sequence (e.Document a ∷ e.Text a ∷ e.Comment a ∷ e.Element (Written (codes "a")) b ∷ e.Element (Computed a) none ∷ e.Attribute (Written (codes "a")) b ∷ e.Attribute (Computed a) none ∷ e.Instruction (Written (codes "a")) b ∷ e.Instruction (Computed a) none ∷ [])) }
    ensures conditional { IsSpelt 1 (codes "if (a) then b else c") (e.If a b c) }
    ensures quantified { IsSpelt 1 (codes "some $a in b, $b in c satisfies a, every $a in b satisfies c") (e.Sequence (e.Quantified quantifier.Some (record { variable = codes "a"; source = b } ∷ record { variable = codes "b"; source = c } ∷ []) a ∷ e.Quantified quantifier.Every (record { variable = codes "a"; source = b } ∷ []) c ∷ [])) }
    ensures clauses { IsSpelt 1 (codes "for $a in b, $c at $d in a let $b := c where a order by a, b ascending, c descending return b") (e.Flwor (clause.For (record { variable = codes "a"; source = b }) ∷ clause.ForAt (record { variable = codes "c"; source = a }) (codes "d") ∷ clause.Let (record { variable = codes "b"; source = c }) ∷ []) (Some a) (record { key = a; is_descending = false } ∷ record { key = b; is_descending = false } ∷ record { key = c; is_descending = true } ∷ []) b) }
    ensures result_alone { IsSpelt 1 (codes "let $a := b return c") (e.Flwor (clause.Let (record { variable = codes "a"; source = b }) ∷ []) None [] c) }
    ensures insertions { IsSpelt 1 (codes "insert node a into b, insert nodes a as first into b, insert node a as last into b, insert node a after b, insert node a before b") (e.Sequence (e.Insert a place.Into b ∷ e.Insert a place.FirstInto b ∷ e.Insert a place.LastInto b ∷ e.Insert a place.After b ∷ e.Insert a place.Before b ∷ [])) }
    ensures other_updates { IsSpelt 1 (codes "delete node a, delete nodes a, replace node a with b, replace value of node a with b, rename node a as b") (e.Sequence (e.Delete a ∷ e.Delete a ∷ e.ReplaceNode a b ∷ e.ReplaceValue a b ∷ e.Rename a b ∷ [])) }
    ensures copied { IsSpelt 2 (codes "copy $a := b, $b := c modify a return b") (e.Copy (record { variable = codes "a"; source = b } ∷ record { variable = codes "b"; source = c } ∷ []) a b) }
{}

/// Which function is called by each name with none to three arguments. By another name none is.
pub fn functions()
    ensures true_ { called (codes "true") ≡ Some function.True ∷ None ∷ None ∷ None ∷ [] }
    ensures false_ { called (codes "false") ≡ Some function.False ∷ None ∷ None ∷ None ∷ [] }
    ensures position_ { called (codes "position") ≡ Some function.Position ∷ None ∷ None ∷ None ∷ [] }
    ensures last_ { called (codes "last") ≡ Some function.Last ∷ None ∷ None ∷ None ∷ [] }
    ensures root_ { called (codes "root") ≡ Some function.Root ∷ Some function.Root ∷ None ∷ None ∷ [] }
    ensures name_ { called (codes "name") ≡ Some function.Name ∷ Some function.Name ∷ None ∷ None ∷ [] }
    ensures string_ { called (codes "string") ≡ Some function.String ∷ Some function.String ∷ None ∷ None ∷ [] }
    ensures doc_ { called (codes "doc") ≡ None ∷ Some function.Doc ∷ None ∷ None ∷ [] }
    ensures data_ { called (codes "data") ≡ None ∷ Some function.Data ∷ None ∷ None ∷ [] }
    ensures count_ { called (codes "count") ≡ None ∷ Some function.Count ∷ None ∷ None ∷ [] }
    ensures empty_ { called (codes "empty") ≡ None ∷ Some function.Empty ∷ None ∷ None ∷ [] }
    ensures exists_ { called (codes "exists") ≡ None ∷ Some function.Exists ∷ None ∷ None ∷ [] }
    ensures reverse_ { called (codes "reverse") ≡ None ∷ Some function.Reverse ∷ None ∷ None ∷ [] }
    ensures not_ { called (codes "not") ≡ None ∷ Some function.Not ∷ None ∷ None ∷ [] }
    ensures boolean_ { called (codes "boolean") ≡ None ∷ Some function.Boolean ∷ None ∷ None ∷ [] }
    ensures string_length_ { called (codes "string-length") ≡ None ∷ Some function.StringLength ∷ None ∷ None ∷ [] }
    ensures sum_ { called (codes "sum") ≡ None ∷ Some function.Sum ∷ None ∷ None ∷ [] }
    ensures distinct_values_ { called (codes "distinct-values") ≡ None ∷ Some function.DistinctValues ∷ None ∷ None ∷ [] }
    ensures contains_ { called (codes "contains") ≡ None ∷ None ∷ Some function.Contains ∷ None ∷ [] }
    ensures starts_with_ { called (codes "starts-with") ≡ None ∷ None ∷ Some function.StartsWith ∷ None ∷ [] }
    ensures ends_with_ { called (codes "ends-with") ≡ None ∷ None ∷ Some function.EndsWith ∷ None ∷ [] }
    ensures string_join_ { called (codes "string-join") ≡ None ∷ None ∷ Some function.StringJoin ∷ None ∷ [] }
    ensures concat_ { called (codes "concat") ≡ None ∷ None ∷ Some function.Concat ∷ Some function.Concat ∷ [] }
    ensures node_ { called (codes "node") ≡ None ∷ None ∷ None ∷ None ∷ [] }
    ensures id_ { called (codes "id") ≡ None ∷ None ∷ None ∷ None ∷ [] }
{}
