//! Laws of the grammar.

ghost use Rattle.std.specs.Prelude.{◌≡◌, ◌↔◌, ℕ, List, Some, true};
ghost use Rattle.query_tokens.specs.declared.token.Token.{Token};
ghost use Rattle.query_grammar.specs.Grammar.{IsQuery};
ghost use Rattle.query_grammar.specs.Reader.{query};
ghost use Rattle.query_grammar.specs.declared.ast.Expr.{Expr};
ghost use Rattle.query_grammar.specs.declared.functions.Function.{Function};
ghost use Rattle.query_grammar.specs.Functions.{signature, takes, function_of};

/// What is read is spelt so.
pub fn reading_is_sound()
    ensures { (level : ℕ) (ts : List Token) (x : Expr) → query level ts ≡ Some x → IsQuery level ts x }
{}

/// What is spelt so is read.
pub fn reading_is_complete()
    ensures { (level : ℕ) (ts : List Token) (x : Expr) → IsQuery level ts x → query level ts ≡ Some x }
{}

/// Tokens are spelt as at most one expression at a level.
pub fn one_expression()
    ensures { (level : ℕ) (ts : List Token) (x y : Expr) → IsQuery level ts x → IsQuery level ts y → x ≡ y }
{}

/// A function is called by its own name, with as many arguments as it takes, and by nothing else.
pub fn functions_are_called()
    ensures { (name : List ℕ) (n : ℕ) (f : Function) → (function_of name n ≡ Some f) ↔ ((name ≡ (signature f).name) × (takes n f ≡ true)) }
{}
