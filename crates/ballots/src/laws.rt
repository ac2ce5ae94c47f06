//! Laws, each the contract of a function that does nothing.

ghost use Rattle.std.specs.Prelude.{◌≡◌, ℕ, List, ◌++◌};
ghost use Rattle.ballots.specs.declared.value.Value.{Value};
ghost use Rattle.ballots.specs.Spelling.{Gives, AreBytes, IsValue, value_read, value_spelling};

/// A value's spelling reads as that value, whatever follows it; bytes that read as a value begin with its spelling; and no spelling
/// begins another one.
pub fn spellings()
    ensures round_trip { (value : Value) (rest : List ℕ) → IsValue value
        → value_read (value_spelling value ++ rest) ≡ Gives value rest }
    ensures exact { (bytes : List ℕ) (value : Value) (rest : List ℕ) → AreBytes bytes → value_read bytes ≡ Gives value rest
        → (bytes ≡ value_spelling value ++ rest) × IsValue value }
    ensures no_beginning { (a b : Value) (after_a after_b : List ℕ) → IsValue a → IsValue b
        → value_spelling a ++ after_a ≡ value_spelling b ++ after_b → a ≡ b }
{}
