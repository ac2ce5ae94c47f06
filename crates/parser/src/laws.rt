//! Laws of texts and their expressions.

ghost use Rattle.std.specs.Prelude.{◌≡◌, ◌↔◌, ℕ, List, Ok, Err};
ghost use Rattle.fault_codes.specs.declared.code.Code.{Code};
ghost use Rattle.query_grammar.specs.declared.ast.Expr.{Expr};
ghost use Rattle.static_checks.specs.Static.{IsExpression, parsed};

/// A text has at most one expression at a level.
pub fn one_expression()
    ensures { (level : ℕ) (text : List ℕ) (x y : Expr) → IsExpression level text x → IsExpression level text y → x ≡ y }
{}

/// A text has an expression exactly where the passes find no fault, and it is the one that they give.
pub fn parsing_is_exact()
    ensures { (level : ℕ) (text : List ℕ) (x : Expr) → IsExpression level text x ↔ (parsed level text ≡ Ok x) }
{}

/// No text has both an expression and a static fault at a level.
pub fn no_expression_and_fault()
    ensures { (level : ℕ) (text : List ℕ) (x : Expr) (code : Code) → IsExpression level text x → ¬ (parsed level text ≡ Err code) }
{}
