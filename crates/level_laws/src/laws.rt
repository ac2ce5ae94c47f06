//! Laws of the levels of the language, each the contract of a function that does nothing.

ghost use Rattle.std.specs.Prelude.{◌≡◌, ℕ, List, Some, false};
ghost use Rattle.fault_codes.specs.declared.code.Code.{Code};
ghost use Rattle.fault_codes.specs.declared.code.Code.TheVariants.{XUST0001};
ghost use Rattle.trees.specs.Forest.{ForestTerm};
ghost use Rattle.query_tokens.specs.declared.token.Token.{Token};
ghost use Rattle.query_grammar.specs.declared.ast.Expr.{Expr};
ghost use Rattle.query_grammar.specs.Grammar.{IsQuery};
ghost use Rattle.static_checks.specs.Categories.{judged};
ghost use Rattle.static_checks.specs.Static.{IsExpression};
ghost use Rattle.query_meaning.specs.Copies.{copy};
ghost use Rattle.query_meaning.specs.Meaning.{evaluated, mean};
ghost use Rattle.level_laws.specs.Copied.{has_copy};
ghost use Rattle.level_laws.specs.Levels.{Copying, evaluated_with, mean_with, no_copying};

/// No copy is made and changed in what tokens are spelt as at level 1, and so none in the expression of a text of level 1.
pub fn level_one_has_no_copies()
    ensures tokens { (ts : List Token) (x : Expr) → IsQuery 1 ts x → has_copy x ≡ false }
    ensures text { (text : List ℕ) (x : Expr) → IsExpression 1 text x → has_copy x ≡ false }
{}

/// An expression in which no copy is made means the same whatever a copy means. Where a copy means what it does, each expression means what it does.
pub fn meanings_without_copies()
    ensures whatever { (k : Copying) (x : Expr) → has_copy x ≡ false → mean_with k x ≡ mean x }
    ensures as_it_is { (x : Expr) → mean_with copy x ≡ mean x }
{}

/// Where no copy is made, the only fault of categories is that an updating expression stands where none may (`XUST0001`): so it is at level 1.
pub fn faults_without_copies()
    ensures alone { (x : Expr) (code : Code) → has_copy x ≡ false → (judged x).fault ≡ Some code → code ≡ XUST0001 }
    ensures at_level_one { (ts : List Token) (x : Expr) (code : Code) → IsQuery 1 ts x → (judged x).fault ≡ Some code → code ≡ XUST0001 }
{}

/// So level 1 keeps its value: over each forest a text of level 1 comes to the same whatever a copy means, and to what it came to where a copy was no
/// expression.
pub fn level_one_keeps_its_value()
    ensures whatever { (k : Copying) (text : List ℕ) (x : Expr) (lent : ForestTerm) → IsExpression 1 text x → evaluated x lent ≡ evaluated_with k x lent }
    ensures as_before { (text : List ℕ) (x : Expr) (lent : ForestTerm) → IsExpression 1 text x → evaluated x lent ≡ evaluated_with no_copying x lent }
{}
