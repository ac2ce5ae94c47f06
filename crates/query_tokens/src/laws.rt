//! Worked examples of the tokens of a text, the contract of a function that does nothing.

ghost use Rattle.std.specs.Prelude.{◌≡◌, ◌∷◌, [], codes};
ghost use Rattle.fault_codes.specs.declared.code.Code.TheVariants.{XPST0003, XQST0090};
ghost use Rattle.query_tokens.specs.declared.kind.Kind.TheVariants as kind;
ghost use Rattle.query_tokens.specs.Reading.{Fails};
ghost use Rattle.query_tokens.specs.Lexing.{tokens, mark_token};
ghost use Rattle.query_tokens.specs.Examples.{word, name, number, string, all};

/// What some texts are read as.
#[tactic(auto, unfolding(crate::specs::Lexing::tokens, crate::specs::Reading::rounds, crate::specs::Words::kind_of, crate::specs::Words::marks, crate::specs::Words::pairs, crate::specs::Words::singles))]
pub fn examples()
    ensures nothing { tokens [] ≡ all [] }
    ensures longest_mark { tokens (codes "a<<b") ≡ all (name (codes "a") ∷ mark_token kind.Precedes ∷ name (codes "b") ∷ []) }
    ensures two_marks { tokens (codes "a< <b") ≡ all (name (codes "a") ∷ mark_token kind.Less ∷ mark_token kind.Less ∷ name (codes "b") ∷ []) }
    ensures dots { tokens (codes "...") ≡ all (mark_token kind.DotDot ∷ mark_token kind.Dot ∷ []) }
    ensures no_mark { tokens (codes "a:b") ≡ Fails XPST0003 }
    ensures nested_comment { tokens (codes "(: a (: b :) :)") ≡ all [] }
    ensures comment_between { tokens (codes "a(:b:)c") ≡ all (name (codes "a") ∷ name (codes "c") ∷ []) }
    ensures unclosed_comment { tokens (codes "(: (: :)") ≡ Fails XPST0003 }
    ensures overlapping_comment { tokens (codes "(:)") ≡ Fails XPST0003 }
    ensures a_word { tokens (codes "delete") ≡ all (word kind.Delete (codes "delete") ∷ []) }
    ensures axis { tokens (codes "descendant-or-self::a") ≡ all (word kind.DescendantOrSelf (codes "descendant-or-self") ∷ mark_token kind.ColonColon ∷ name (codes "a") ∷ []) }
    ensures no_name { tokens (codes "xmlns") ≡ Fails XPST0003 }
    ensures longer_name { tokens (codes "xmlnsa") ≡ all (name (codes "xmlnsa") ∷ []) }
    ensures range { tokens (codes "1 to 2") ≡ all (number 1 ∷ word kind.To (codes "to") ∷ number 2 ∷ []) }
    ensures name_after_number { tokens (codes "1a") ≡ Fails XPST0003 }
    ensures greatest { tokens (codes "9223372036854775807") ≡ all (number 9223372036854775807 ∷ []) }
    ensures too_great { tokens (codes "9223372036854775808") ≡ Fails XPST0003 }
    ensures doubled_quote { tokens (codes "\"a\"\"b\"") ≡ all (string (codes "a\"b") ∷ []) }
    ensures doubled_apostrophe { tokens (codes "'a''\"'") ≡ all (string (codes "a'\"") ∷ []) }
    ensures unclosed_string { tokens (codes "\"a'") ≡ Fails XPST0003 }
    ensures in_utf_8 { tokens (34 ∷ 233 ∷ 34 ∷ []) ≡ all (string (195 ∷ 169 ∷ []) ∷ []) }
    ensures control { tokens (34 ∷ 1 ∷ 34 ∷ []) ≡ Fails XPST0003 }
    ensures entity { tokens (codes "\"&lt;\"") ≡ all (string (codes "<") ∷ []) }
    ensures references { tokens (codes "\"&#65;&#x4a;\"") ≡ all (string (codes "AJ") ∷ []) }
    ensures no_entity { tokens (codes "'&bad;'") ≡ Fails XPST0003 }
    ensures no_digits { tokens (codes "'&#;'") ≡ Fails XPST0003 }
    ensures no_character { tokens (codes "\"&#0;\"") ≡ Fails XQST0090 }
    ensures large_character { tokens (codes "'&#99999999999;'") ≡ Fails XQST0090 }
    ensures first_fault { tokens (codes "\"&#0;") ≡ Fails XQST0090 }
    ensures first_of_two { tokens (codes "'&#0;' 1a") ≡ Fails XQST0090 }
    ensures other_of_two { tokens (codes "1a '&#0;'") ≡ Fails XPST0003 }
{}
